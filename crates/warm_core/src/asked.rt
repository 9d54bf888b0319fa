//! What a stage has to write, as the entries tell whose writes it asks for. Nothing here takes
//! memory: a range is compared with each entry once.
ghost use Rattle.std.specs.Prelude.{◌≡◌, ◌+◌, ◌≤◌, ◌<◌, ◌↔◌, IsTrue, MatchBool};
ghost use Rattle.sector_model.specs.Run.{end_of};
ghost use Rattle.log_model.specs.Touched.{entry_touches, is_touched, touched_by};
ghost use Rattle.warm_core.specs.Asked.{Meets, Misses, AreMet, AreMissed, AllAsked, NoneAsked, NothingLeft};
ghost use Rattle.warm_core.specs.StageState.{IsInOrder, IsReady, IsPiece, MayAsk, MayCopy, MayZero, MayFlush};

use crate::{MAX_PIECE_SECTORS, StageState};
use log_model::{Act, Entry, entry_touches, is_touched};
use sector_model::{BLOCK_SECTORS, Run};

/// Whether an entry touches the block of a sector from `from` on, before `end`.
fn meets(entry: &Entry, disk: u32, from: u64, end: u64) -> bool
    ensures { MatchBool result (Meets disk from end entry.now) (Misses disk from end entry.now) }
{
    match &entry.act {
        Act::Write { first, .. } => {
            let block_first = *first / BLOCK_SECTORS * BLOCK_SECTORS;
            let sector = from.max(block_first);
            sector < end && entry_touches(entry, disk, sector)
        }
        _ => false,
    }
}

/// Whether none of the entries touches the block of a sector from `from` on, before `end`.
fn is_clear(entries: &[Entry], disk: u32, from: u64, end: u64) -> bool
    ensures { MatchBool result
        (AreMissed disk from end entries.now) (AreMet disk from end entries.now) }
{
    for entry in entries {
        if meets(entry, disk, from, end) {
            return false;
        }
    }
    true
}

/// Whether nothing is left to write below `covered`.
fn is_ready(asked: &[Entry], disk: u32, stage: &StageState) -> bool
    requires { IsInOrder stage.now }
    ensures { IsTrue result
        ↔ IsReady (touched_by stage.now.capacity disk asked.now) stage.now }
{
    is_next(asked, disk, stage, stage.covered)
}

/// Whether a page may be asked for.
pub(crate) fn may_ask(asked: &[Entry], disk: u32, stage: &StageState) -> bool
    requires { IsInOrder stage.now }
    ensures { IsTrue result ↔ MayAsk (touched_by stage.now.capacity disk asked.now) stage.now }
{
    stage.covered < stage.capacity && is_ready(asked, disk, stage)
}

/// Whether the volume may be flushed.
pub(crate) fn may_flush(asked: &[Entry], disk: u32, stage: &StageState) -> bool
    requires { IsInOrder stage.now }
    ensures { IsTrue result ↔ MayFlush (touched_by stage.now.capacity disk asked.now) stage.now }
{
    !stage.flushed && stage.covered == stage.capacity && is_ready(asked, disk, stage)
}

/// Whether the run is a piece of what pages were taken for.
fn is_piece(run: Run, stage: &StageState) -> bool
    ensures { IsTrue result ↔ IsPiece run stage.now }
{
    1 <= run.count
        && run.count <= MAX_PIECE_SECTORS
        && run.count <= stage.covered
        && run.first <= stage.covered - run.count
        && stage.at <= run.first
}

/// Whether the run may be copied.
pub(crate) fn may_copy(asked: &[Entry], disk: u32, stage: &StageState, run: Run) -> bool
    requires { IsInOrder stage.now }
    ensures { IsTrue result
        ↔ MayCopy (touched_by stage.now.capacity disk asked.now) run stage.now }
{
    is_piece(run, stage)
        && is_in_area(asked, disk, stage.capacity, run)
        && is_next(asked, disk, stage, run.first)
}

/// Whether the entries touch all blocks of the run. It has no more sectors than a block, so each of
/// its sectors is of the block of its first one or of that of its last one.
fn is_in_area(asked: &[Entry], disk: u32, capacity: u64, run: Run) -> bool
    requires some { 1 ≤ run.count }
    requires few { run.count ≤ MAX_PIECE_SECTORS }
    requires within { end_of run ≤ capacity }
    ensures { IsTrue result ↔ AllAsked (touched_by capacity disk asked.now) run }
{
    is_touched(asked, disk, run.first) && is_touched(asked, disk, run.first + (run.count - 1))
}

/// Whether the entries touch no block of the run.
fn is_in_gap(asked: &[Entry], disk: u32, capacity: u64, run: Run) -> bool
    requires { end_of run ≤ capacity }
    ensures { IsTrue result ↔ NoneAsked (touched_by capacity disk asked.now) run }
{
    is_clear(asked, disk, run.first, run.first + run.count)
}

/// Whether nothing is left to write before a sector.
fn is_next(asked: &[Entry], disk: u32, stage: &StageState, first: u64) -> bool
    requires from { stage.now.at ≤ first }
    requires within { first ≤ stage.now.capacity }
    ensures { IsTrue result ↔ NothingLeft (touched_by stage.now.capacity disk asked.now) stage.now
        stage.now.at first }
{
    if stage.full {
        stage.at == first
    } else {
        is_clear(asked, disk, stage.at, first)
    }
}

/// Whether the run may be zeroed.
pub(crate) fn may_zero(asked: &[Entry], disk: u32, stage: &StageState, run: Run) -> bool
    requires { IsInOrder stage.now }
    ensures { IsTrue result
        ↔ MayZero (touched_by stage.now.capacity disk asked.now) run stage.now }
{
    stage.full
        && run.first == stage.at
        && is_piece(run, stage)
        && is_in_gap(asked, disk, stage.capacity, run)
}
