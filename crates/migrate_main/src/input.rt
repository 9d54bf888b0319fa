//! Standard input as a source, which counts each error of the reader as a fault.
ghost use Rattle.std.specs.Prelude.{◌≡◌};

use edge_traits::{Failed, Source};
use std::io::Read;

/// A source over a reader, such as standard input. Each error of the reader is a fault.
#[derive(Drop)]
pub(crate) struct StandardInput<R> {
    reader: R,
    faults: u64,
}

impl<R> StandardInput<R> {
    /// A source of what the reader gives, which has not failed yet.
    pub(crate) fn new(reader: R) -> StandardInput<R>
        ensures reader { result.reader ≡ reader }
        ensures faults { result.faults ≡ 0 }
    {
        StandardInput { reader, faults: 0 }
    }
}

impl<R: Read> Source for StandardInput<R> {
    ghost state = { λ input. record { left = R.remaining input.reader; faults = input.faults } };

    /// Reads into the buffer itself, by one call of the reader.
    fn read(&mut self, buf: &mut [u8]) -> Result<usize, Failed> {
        match self.reader.read(buf) {
            Ok(count) => Ok(count),
            Err(_) => {
                self.faults = self.faults.saturating_add(1);
                Err(Failed)
            }
        }
    }

    fn faults(&self) -> u64 {
        self.faults
    }
}
