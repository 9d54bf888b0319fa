//! How far a stage has come with its disk. None of its calls takes memory.
ghost use Rattle.std.specs.Prelude.{◌≡◌, ◌+◌, ◌<◌, ◌≤◌, ◌^◌, true, false};
ghost use Rattle.sector_model.specs.Run.{end_of};
ghost use Rattle.sector_model.specs.Page.{LiesWithin};
ghost use Rattle.warm_core.specs.Piece.{piece_from};

use sector_model::{Page, Run, next_run};

/// The most sectors of one piece.
pub const MAX_PIECE_SECTORS: u64 = 128;

/// How far a stage has come, in sectors.
#[derive(Clone, Copy, Debug, PartialEq, Eq)]
pub struct StageState {
    /// How many sectors the disk has.
    pub capacity: u64,
    /// Whether it writes every sector of the volume.
    pub full: bool,
    /// The sector up to which it is done.
    pub at: u64,
    /// The sector up to which pages were taken.
    pub covered: u64,
    /// How many sectors it has copied and zeroed.
    pub written: u64,
    /// Whether the volume was flushed at its end.
    pub flushed: bool,
}

/// What a stage does next.
#[derive(Clone, Copy, Debug, PartialEq, Eq)]
pub enum Piece {
    /// Asks for the page from this sector on.
    Ask(u64),
    /// Copies these sectors from the snapshot.
    Copy(Run),
    /// Zeroes these sectors.
    Zero(Run),
    /// Flushes the volume.
    Flush,
    /// The stage is at its end.
    Done,
}

impl StageState {
    ghost use Rattle.warm_core.specs.StageState.{begun, IsInOrder, with_page, made_full, with_piece, at_its_end, IsPiece};
    ghost use Rattle.warm_core.specs.Piece.{piece_of, Reaches};

    /// A stage that begins.
    pub fn begin(capacity: u64, full: bool) -> StageState
        ensures { result ≡ begun capacity full }
    {
        StageState {
            capacity,
            full,
            at: 0,
            covered: 0,
            written: 0,
            flushed: false,
        }
    }

    /// What the stage does next, by the page that it took last. Before its first page, and after a
    /// page was refused, any page serves.
    pub fn piece(&self, page: &Page) -> Piece
        requires page { 0 < self.now.covered → Reaches self.now page.now }
        ensures { result ≡ piece_of self.now page.now }
    {
        if self.flushed {
            return Piece::Done;
        }
        let area = if self.at < self.covered {
            next_run(page.areas(), self.at)
        } else {
            None
        };
        let gap_end = area.map_or(self.covered, |area| area.first);
        if self.full && self.at < gap_end {
            return Piece::Zero(piece_from(self.at, gap_end - self.at));
        }
        match area {
            Some(area) => Piece::Copy(piece_from(area.first, area.count)),
            None if self.covered < self.capacity => Piece::Ask(self.covered),
            None => Piece::Flush,
        }
    }

    /// Takes the page from `covered` on.
    pub fn area_page(&mut self, page: &Page)
        requires order { IsInOrder self.old }
        requires lies { LiesWithin self.old.capacity page.now }
        requires next { page.now.start ≡ self.old.covered }
        requires ready { self.old.full ≡ true → self.old.at ≡ self.old.covered }
        ensures taken { self.new ≡ with_page (page.now.start + page.now.length) self.old }
        ensures order { IsInOrder self.new }
    {
        self.at = self.covered;
        self.covered = page.start() + page.length();
    }

    /// Makes the stage a full one, which begins anew, since its page was refused.
    pub fn refused(&mut self)
        requires order { IsInOrder self.old }
        requires partial { self.old.full ≡ false }
        requires more { self.old.covered < self.old.capacity }
        ensures made_full { self.new ≡ made_full self.old }
        ensures order { IsInOrder self.new }
    {
        self.full = true;
        self.at = 0;
        self.covered = 0;
    }

    /// Counts a run that was copied.
    pub fn copied(&mut self, run: Run)
        requires small { self.old.capacity < 2 ^ 63 }
        requires order { IsInOrder self.old }
        requires piece { IsPiece run self.old }
        requires next { self.old.full ≡ true → run.first ≡ self.old.at }
        ensures counted { self.new ≡ with_piece run self.old }
        ensures order { IsInOrder self.new }
    {
        self.at = run.first + run.count;
        self.written += run.count;
    }

    /// Counts a run that was zeroed.
    pub fn zeroed(&mut self, run: Run)
        requires small { self.old.capacity < 2 ^ 63 }
        requires order { IsInOrder self.old }
        requires piece { IsPiece run self.old }
        requires full { self.old.full ≡ true }
        requires next { run.first ≡ self.old.at }
        ensures counted { self.new ≡ with_piece run self.old }
        ensures order { IsInOrder self.new }
    {
        self.copied(run);
    }

    /// Ends the stage, since its volume was flushed.
    pub fn flushed(&mut self)
        requires order { IsInOrder self.old }
        requires all { self.old.covered ≡ self.old.capacity }
        requires ready { self.old.full ≡ true → self.old.at ≡ self.old.covered }
        requires unflushed { self.old.flushed ≡ false }
        ensures at_its_end { self.new ≡ at_its_end self.old }
        ensures order { IsInOrder self.new }
    {
        self.at = self.capacity;
        self.flushed = true;
    }

    /// Whether the stage is at its end.
    pub fn done(&self) -> bool
        ensures { result ≡ self.now.flushed }
    {
        self.flushed
    }
}

/// The first sectors of a run, as many as one piece has.
fn piece_from(first: u64, count: u64) -> Run
    ensures { result ≡ piece_from first count }
{
    Run {
        first,
        count: count.min(MAX_PIECE_SECTORS),
    }
}
