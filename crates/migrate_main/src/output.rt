//! Standard output as a sink: what is put is written whole and flushed, or the call has failed.
ghost use Rattle.std.specs.Prelude.{◌≡◌, OnOk, OnErr};
ghost use Rattle.std.specs.Io.KnownBytes.{Appends};
ghost use Rattle.edge_traits.specs.Sink.{AppendsPrefix};

use edge_traits::{Failed, Sink};
use std::io::Write;

/// A sink over a writer, such as standard output. Each error of the writer is a fault.
#[derive(Drop)]
pub(crate) struct StandardOutput<W> {
    writer: W,
    faults: u64,
}

impl<W> StandardOutput<W> {
    /// A sink that gives all to the writer, which has not failed yet.
    pub(crate) fn new(writer: W) -> StandardOutput<W>
        ensures writer { result.writer ≡ writer }
        ensures faults { result.faults ≡ 0 }
    {
        StandardOutput { writer, faults: 0 }
    }
}

/// Gives all of `bytes` to the writer, in as many calls as that takes, and flushes it. A call that
/// takes none of them fails too.
fn write_whole<W: Write>(writer: &mut W, bytes: &[u8]) -> Result<(), Failed>
    ensures whole { OnOk result
        (Appends (W.contents writer.old) (W.contents writer.new) bytes.now) }
    ensures part { OnErr result
        (AppendsPrefix (W.contents writer.old) (W.contents writer.new) bytes.now) }
{
    let mut done = 0;
    while done < bytes.len() {
        match writer.write(&bytes[done..]) {
            Ok(0) | Err(_) => return Err(Failed),
            Ok(count) => done += count,
        }
    }
    writer.flush().map_err(|_| Failed)
}

impl<W: Write> Sink for StandardOutput<W> {
    ghost state = { λ output. record { held = W.contents output.writer; faults = output.faults } };

    /// Gives all of `bytes` to the writer, and flushes it.
    fn put(&mut self, bytes: &[u8]) -> Result<(), Failed> {
        let result = write_whole(&mut self.writer, bytes);
        if result.is_err() {
            self.faults = self.faults.saturating_add(1);
        }
        result
    }

    fn faults(&self) -> u64 {
        self.faults
    }
}
