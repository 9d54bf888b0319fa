//! Lines of an input that comes in pieces. More is read only where what was read has no LF left, so
//! that no line waits for bytes behind it.
ghost use Rattle.std.specs.Prelude.{◌≡◌, ◌+◌, ◌-◌, ◌^◌, ◌<◌, ◌≤◌, ◌++◌, ◌∷◌, ◌==◌, ℕ, List, [], length, take, drop, true, false, IfOk, IfErr, OnOk, OnErr, IsErrOf, IfSome, MatchOption, MatchBool};
ghost use Rattle.std.specs.Io.KnownBytes.{Consumes, IsAtEnd, Keeps};
ghost use Rattle.basics.specs.Faults.{HasCause};
ghost use Rattle.migrate_server.specs.Reader.{HasNoLf};

use crate::line::LF;
use crate::line_buffer::LineBuffer;
use basics::NoMemory;
use edge_traits::{Failed, Source};
use std::alloc::Global;
use std::marker::Model;

/// The most bytes of an input: 256 MiB.
pub(crate) const INPUT_LIMIT: u64 = 1 << 28;

/// Bytes that are asked for at once.
const CHUNK_BYTES: usize = 1 << 16;

/// Why no line comes.
#[derive(Clone, Copy, Debug, PartialEq, Eq)]
pub(crate) enum NoLine {
    /// The source failed.
    Fault,
    /// The input goes on past its limit.
    Limit,
    /// Memory ran out.
    NoMemory,
}

impl From<NoMemory> for NoLine {
    ghost use Rattle.migrate_server.specs.declared.reader.NoLine.TheVariants.{NoMemory};

    ghost from_gives = { λ _ why. why ≡ NoMemory };

    fn from(_refused: NoMemory) -> NoLine {
        NoLine::NoMemory
    }
}

/// A reader of lines: the bytes that were read and are not taken yet.
#[derive(Debug, Drop)]
pub(crate) struct LineReader {
    chunk: Vec<u8>,
    start: usize,
    end: usize,
    total: u64,
    ended: bool,
}

impl Model for LineReader {
    ghost use Rattle.std.specs.Prelude.{◌≡◌, ◌+◌, ◌≤◌, length, take, drop};
    ghost use Rattle.migrate_server.specs.Reader.{ReaderState};
    ghost use Rattle.migrate_server.specs.declared.reader.TheConstants.{INPUT_LIMIT, CHUNK_BYTES};

    ghost Value = { ReaderState };

    ghost view = { λ a. record {
      pending = drop a.start (take a.end a.chunk.items);
      total = a.total;
      ended = a.ended;
    } };

    ghost invariant = { λ a. (a.start ≤ a.end) × (a.end ≤ length a.chunk.items)
        × (length a.chunk.items ≡ CHUNK_BYTES) × (a.total ≤ INPUT_LIMIT + 1) };
}

impl LineReader {
    ghost use Rattle.migrate_server.specs.LineBuffer.{Holds};
    ghost use Rattle.migrate_server.specs.Reader.{
      IsIdle,
      TakesLine,
      TakesEnd,
      ReadsMore,
      HasNoLine,
    };

    /// A reader that has read nothing. It answers only want of memory.
    pub(crate) fn new(alloc: Global) -> Result<LineReader, NoMemory>
        ensures { IfOk result (λ reader.
            reader ≡ record { pending = []; total = 0; ended = false }) }
    {
        let chunk = vec![in alloc; 0; CHUNK_BYTES]?;
        Ok(LineReader {
            chunk,
            start: 0,
            end: 0,
            total: 0,
            ended: false,
        })
    }

    /// Takes the next line, without its LF. False where there is none.
    pub(crate) fn next<S: Source>(
        &mut self,
        line: &mut LineBuffer,
        source: &mut S,
    ) -> Result<bool, NoLine>
        requires within { self.old.total ≤ INPUT_LIMIT }
        requires idle { IsIdle (S.state source.old).left self.old }
        ensures taken { IfOk result (λ more. MatchBool more
            (TakesLine (S.state source.old) (S.state source.new) self.old self.new line.new)
            (TakesEnd (S.state source.old) (S.state source.new) self.old self.new)) }
        ensures none { IfErr result (λ why.
            HasNoLine why (S.state source.old) (S.state source.new) self.old self.new) }
    {
        line.clear();
        loop {
            if let Some(at) = self.line_end() {
                self.take_to(line, at)?;
                self.skip(1);
                return Ok(true);
            }
            let rest = self.count();
            self.take_to(line, rest)?;
            if self.ended() {
                return Ok(!line.is_empty());
            }
            self.read_more(source)?;
        }
    }

    /// Whether the source has ended.
    fn ended(&self) -> bool
        ensures { result ≡ self.now.ended }
    {
        self.ended
    }

    /// How many bytes are there to be taken.
    fn count(&self) -> usize
        ensures { result ≡ length self.now.pending }
    {
        self.end - self.start
    }

    /// Where the first LF stands.
    fn line_end(&self) -> Option<usize>
        ensures cases { MatchOption result (HasNoLf self.now.pending) (λ at.
            HasNoLf (take at self.now.pending)
            × (drop at self.now.pending ≡ LF ∷ drop (at + 1) self.now.pending)) }
        ensures within { IfSome result (λ at. at < length self.now.pending) }
    {
        first_lf(&self.chunk[self.start..self.end])
    }

    /// Moves so many bytes to a line.
    fn take_to(&mut self, line: &mut LineBuffer, count: usize) -> Result<(), NoMemory>
        requires { count ≤ length self.old.pending }
        ensures taken { OnOk result ((text : List ℕ) → Holds line.old text
            → Holds line.new (text ++ take count self.old.pending)) }
        ensures left { OnOk result
            (self.new ≡ record self.old { pending = drop count self.old.pending }) }
        ensures err { OnErr result (self.new ≡ self.old) }
        ensures some { OnErr result (0 < count) }
    {
        line.push(&self.chunk[self.start..self.start + count])?;
        self.start += count;
        Ok(())
    }

    /// Passes over so many bytes.
    fn skip(&mut self, count: usize)
        requires { count ≤ length self.old.pending }
        ensures { self.new ≡ record self.old { pending = drop count self.old.pending } }
    {
        self.start += count;
    }

    /// Reads more bytes, where none is there to be taken.
    fn read_more<S: Source>(&mut self, source: &mut S) -> Result<(), NoLine>
        requires empty { self.old.pending ≡ [] }
        requires running { self.old.ended ≡ false }
        requires within { self.old.total ≤ INPUT_LIMIT }
        ensures more { OnOk result
            (ReadsMore (S.state source.old) (S.state source.new) self.old self.new) }
        ensures none { IfErr result (λ why.
            HasNoLine why (S.state source.old) (S.state source.new) self.old self.new) }
    {
        let room = CHUNK_BYTES.min((INPUT_LIMIT - self.total) as usize).max(1);
        let Ok(count) = read_front(&mut self.chunk, room, source) else {
            return Err(NoLine::Fault);
        };
        self.start = 0;
        self.end = count;
        self.total += count as u64;
        self.ended = count == 0;
        if self.total > INPUT_LIMIT {
            return Err(NoLine::Limit);
        }
        Ok(())
    }
}

/// Reads at most so many bytes to the front of a chunk, and says how many.
fn read_front<S: Source>(chunk: &mut [u8], room: usize, source: &mut S) -> Result<usize, Failed>
    requires some { 0 < room }
    requires within { room ≤ length chunk.old }
    ensures count { IfOk result (λ count. count ≤ room) }
    ensures given { IfOk result (λ count.
        Consumes (S.state source.old).left (S.state source.new).left (take count chunk.new)) }
    ensures at_end { IfOk result (λ count. count ≡ 0 → IsAtEnd (S.state source.new).left) }
    ensures kept { OnErr result (Keeps (S.state source.old).left (S.state source.new).left) }
    ensures cause { HasCause (S.state source.old).faults (S.state source.new).faults result }
{
    source.read(&mut chunk[..room])
}

/// Where the first LF stands.
fn first_lf(bytes: &[u8]) -> Option<usize>
    ensures cases { MatchOption result (HasNoLf bytes.now) (λ at.
        HasNoLf (take at bytes.now) × (drop at bytes.now ≡ LF ∷ drop (at + 1) bytes.now)) }
    ensures within { IfSome result (λ at. at < length bytes.now) }
{
    for (at, byte) in bytes.iter().enumerate() {
        if *byte == LF {
            return Some(at);
        }
    }
    None
}
