//! A source in memory, which gives its bytes in pieces and fails where it was told to.
ghost use Rattle.std.specs.Prelude.{◌≡◌, ◌<◌, ◌≤◌, ◌↔◌, ◌++◌, Some, length, take, drop, IfOk, OnErr, IsErr};
ghost use Rattle.std.specs.Io.{ReadsAtMost};
ghost use Rattle.std.specs.Io.KnownBytes.{ReadConsumes};
ghost use Rattle.basics.specs.Calls.{FailsNext};
ghost use Rattle.basics.specs.Faults.{HasCause};
ghost use Rattle.edge_traits.specs.MemSource.{unread, next_count, after_read, after_failed_read};

use crate::{Failed, NoMemory, Source};
use basics::Calls;
use std::alloc::Global;
use std::marker::Model;

/// A source in memory, which gives its bytes in pieces and fails where it was told to.
#[derive(Debug, Drop)]
pub struct MemSource {
    bytes: Vec<u8>,
    given: usize,
    piece: usize,
    calls: Calls,
}

impl Model for MemSource {
    ghost use Rattle.std.specs.Prelude.{◌≤◌, length, drop};
    ghost use Rattle.edge_traits.specs.MemSource.{MemSourceState};

    ghost Value = { MemSourceState };

    ghost view = { λ s. record {
      left = drop s.given s.bytes.items;
      piece = s.piece;
      calls = s.calls;
    } };

    ghost invariant = { λ s. (s.given ≤ length s.bytes.items) × (1 ≤ s.piece) };
}

impl MemSource {
    /// A source of a copy of `bytes`, which gives at most `piece` of them in a call. The calls of
    /// `read` whose numbers, from 1, stand in `fail` fail. It answers only want of memory.
    pub fn new(
        alloc: Global,
        bytes: &[u8],
        piece: usize,
        fail: &[u64],
    ) -> Result<MemSource, NoMemory>
        requires { 1 ≤ piece }
        ensures { IfOk result (λ source. source ≡ unread bytes.now piece fail.now) }
    {
        Ok(MemSource {
            bytes: bytes.to_vec(alloc)?,
            given: 0,
            piece,
            calls: Calls::new(fail.to_vec(alloc)?),
        })
    }
}

impl Source for MemSource {
    ghost use Rattle.edge_traits.specs.MemSource.{source_state};

    ghost state = { source_state };

    /// Gives as many bytes as a piece, the buffer and what is left allow, and leaves the rest of
    /// the buffer as it was. Fails exactly where it was told to, and then changes only its counts.
    fn read(&mut self, buf: &mut [u8]) -> Result<usize, Failed>
        requires { 0 < length buf.old }

        ensures bound { ReadsAtMost result buf.new }
        ensures bytes { ReadConsumes (Some self.old.left) (Some self.new.left) result buf.new }
        ensures cause { HasCause self.old.calls.faults self.new.calls.faults result }

        ensures fails { IsErr result ↔ FailsNext self.old.calls }
        ensures count { IfOk result (λ count. count ≡ next_count self.old (length buf.old)) }
        ensures given { IfOk result (λ count. self.new ≡ after_read count self.old) }
        ensures front { IfOk result
            (λ count. buf.new ≡ take count self.old.left ++ drop count buf.old) }
        ensures kept { OnErr result (self.new ≡ after_failed_read self.old) }
        ensures unfilled { OnErr result (buf.new ≡ buf.old) }
    {
        self.calls.next()?;
        let left = &self.bytes[self.given..];
        let count = self.piece.min(buf.len()).min(left.len());
        buf[..count].copy_from_slice(&left[..count]);
        self.given += count;
        Ok(count)
    }

    fn faults(&self) -> u64 {
        self.calls.faults()
    }
}
