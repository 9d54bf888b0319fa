//! A line while it is read: its bytes so far, or only that it is too long.
ghost use Rattle.std.specs.Prelude.{◌≡◌, ◌<◌, ◌≤◌, ◌++◌, ◌==◌, List, ℕ, [], length, OnOk, OnErr};
ghost use Rattle.migrate_server.specs.declared.line.TheConstants.{LINE_LIMIT};

use crate::line::LINE_LIMIT;
use basics::NoMemory;
use std::alloc::Global;

/// A line as far as it was read. Of one that is too long only that is kept.
#[derive(Debug, Drop)]
pub(crate) struct LineBuffer {
    bytes: Vec<u8>,
    is_long: bool,
    ghost within: { length bytes.items ≤ LINE_LIMIT },
}

impl LineBuffer {
    ghost use Rattle.migrate_server.specs.LineBuffer.{Holds};

    pub(crate) fn new(alloc: Global) -> LineBuffer
        ensures { Holds result [] }
    {
        LineBuffer {
            bytes: Vec::new(alloc),
            is_long: false,
        }
    }

    /// Whether the line has more bytes than a line may have.
    pub(crate) fn is_long(&self) -> bool
        ensures { result ≡ self.now.is_long }
    {
        self.is_long
    }

    /// The bytes of a line that isn't too long.
    pub(crate) fn as_slice(&self) -> &[u8]
        ensures bytes { result.now ≡ self.now.bytes.items }
        ensures within { length result.now ≤ LINE_LIMIT }
    {
        self.bytes.as_slice()
    }

    pub(crate) fn is_empty(&self) -> bool
        ensures { (line : List ℕ) → Holds self.now line → result ≡ (length line == 0) }
    {
        self.bytes.is_empty() && !self.is_long
    }

    pub(crate) fn clear(&mut self)
        ensures { Holds self.new [] }
    {
        self.bytes.clear();
        self.is_long = false;
    }

    /// Adds a part of the line. It answers only want of memory, and that for no empty part.
    pub(crate) fn push(&mut self, part: &[u8]) -> Result<(), NoMemory>
        ensures added { OnOk result ((line : List ℕ) → Holds self.old line
            → Holds self.new (line ++ part.now)) }
        ensures some { OnErr result (0 < length part.now) }
    {
        if self.is_long || part.len() > LINE_LIMIT - self.bytes.len().min(LINE_LIMIT) {
            self.is_long = true;
        } else if !part.is_empty() {
            self.bytes.extend_from_slice(part)?;
        }
        Ok(())
    }
}
