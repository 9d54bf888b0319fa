//! Whether an event may happen to the world of one disk. Nothing here takes memory.
ghost use Rattle.std.specs.Prelude.{◌≡◌, ◌≤◌, ◌↔◌, [], ◌∷◌, ◌++◌, false, length, IsTrue, IsOk, IsErr, IsSomeAnd};
ghost use Rattle.log_model.specs.Legal.{Legal, only};
ghost use Rattle.log_model.specs.Touched.{between};
ghost use Rattle.warm_core.specs.StageState.{IsInOrder};
ghost use Rattle.warm_core.specs.Staged.{is_unfinished, since_mark, IsBaseOf};
ghost use Rattle.warm_core.specs.World.{MayLose};
ghost use Rattle.warm_core.specs.DiskWorld.{world_of, StandsSound};
ghost use Rattle.warm_core.specs.Events.{MayHappen, MayAdd, MayBegin, MayComplete, answer_now};
ghost use Rattle.warm_core.specs.Asked.{StageMay, IsSpared, removes_needed, IsOpen, IsDue, IsLater, MayBeLast};

use crate::asked::{may_ask, may_copy, may_flush, may_zero};
use crate::{Base, DiskWorld, Event, StageState};
use log_model::{
    Act, Entry, MAX_LOG_ENTRIES, Snapped, accepts, before, between, in_force, last_off, mark,
    may_stand_alone, owner_of, through,
};
use sector_model::SectorList;

/// Whether the event may happen.
pub(crate) fn may_happen(world: &DiskWorld, event: &Event) -> bool
    requires { StandsSound world.now }
    ensures { IsTrue result ↔ MayHappen event.now (world_of world.now) }
{
    match event {
        Event::Machine(entry) => may_add(world, entry),
        Event::Begin { snap, last } => may_begin(world, *snap, *last),
        Event::Stop(filling) => may_stop(world, filling),
        Event::Restart => !world.running,
        Event::Cancel => world.running && !world.cancelled && world.complete.is_none(),
        Event::Complete => may_complete(world),
        _ => match (world.snap, world.stage) {
            (Some(snap), Some(stage)) => stage_may(world, snap, &stage, event),
            _ => false,
        },
    }
}

/// Whether the entry may stand in the log, and takes no snapshot away that is still needed.
fn may_add(world: &DiskWorld, entry: &Entry) -> bool
    requires { StandsSound world.now }
    ensures { IsTrue result ↔ MayAdd entry.now (world_of world.now) }
{
    is_legal(world, entry) && is_spared(world, entry)
}

/// Whether the log with the entry is legal.
fn is_legal(world: &DiskWorld, entry: &Entry) -> bool
    requires { StandsSound world.now }
    ensures { IsTrue result ↔ Legal (only world.now.disk world.now.capacity)
        (world.now.log ++ entry.now ∷ []) }
{
    let log = world.log.as_slice();
    log.len() < MAX_LOG_ENTRIES && may_stand_alone(log, world.disk, world.capacity, entry)
}

/// Whether the entry leaves the current snapshot, or that isn't needed any more.
fn is_spared(world: &DiskWorld, entry: &Entry) -> bool
    ensures { IsTrue result ↔ IsSpared entry.now (world_of world.now) }
{
    !removes_needed(world, entry) || may_lose(world)
}

/// Whether the current snapshot may be removed although it is unfinished.
fn may_lose(world: &DiskWorld) -> bool
    ensures { IsTrue result ↔ MayLose (world_of world.now) }
{
    world.cancelled && world.stage.is_none()
}

/// Whether the entry removes the current snapshot while it is unfinished.
fn removes_needed(world: &DiskWorld, entry: &Entry) -> bool
    ensures { result ≡ removes_needed world.now.base world.now.snap entry.now }
{
    match (world.snap, &entry.act) {
        (Some(snap), Act::Remove { id }) => *id == snap.id && is_unfinished(world.base, snap),
        _ => false,
    }
}

/// Whether the base isn't of this snapshot.
fn is_unfinished(base: Option<Base>, snap: Snapped) -> bool
    ensures { result ≡ is_unfinished base (Some snap) }
{
    match base {
        Some(base) => snap.mark != base.mark,
        None => true,
    }
}

/// Whether a stage on the snapshot may begin.
fn may_begin(world: &DiskWorld, snapshot: u32, last: bool) -> bool
    ensures { IsTrue result ↔ MayBegin snapshot last (world_of world.now) }
{
    is_open(world) && is_due(world, snapshot) && may_be_last(world, snapshot, last)
}

/// Whether a stage may begin, on whatever snapshot.
fn is_open(world: &DiskWorld) -> bool
    ensures { IsTrue result ↔ IsOpen (world_of world.now) }
{
    world.running && !world.cancelled && world.complete.is_none() && world.stage.is_none()
}

/// Whether the snapshot is live, has an identifier, and is above the base and not below the current
/// one.
fn is_due(world: &DiskWorld, snapshot: u32) -> bool
    ensures { IsTrue result ↔ IsDue snapshot (world_of world.now) }
{
    let log = world.log.as_slice();
    owner_of(log, snapshot).is_some()
        && in_force(world.machine, through(log, snapshot), world.disk).is_some()
        && is_later(world, mark(log, snapshot) as u64)
}

/// Whether a mark is above that of the base, and not below that of the current snapshot.
fn is_later(world: &DiskWorld, mark: u64) -> bool
    ensures { IsTrue result ↔ IsLater world.now.base world.now.snap mark }
{
    let above = match world.base {
        Some(base) => base.mark < mark,
        None => true,
    };
    match world.snap {
        Some(snap) => above && snap.mark <= mark,
        None => above,
    }
}

/// Whether the snapshot may be the last one, or not the last one, as is asked.
fn may_be_last(world: &DiskWorld, snapshot: u32, last: bool) -> bool
    ensures { IsTrue result ↔ MayBeLast snapshot last (world_of world.now) }
{
    let stays = !world.last || (last && is_current(world, snapshot));
    stays && (!last || last_off(before(world.log.as_slice(), snapshot)).is_some())
}

/// Whether the snapshot is the current one.
fn is_current(world: &DiskWorld, snapshot: u32) -> bool
    ensures { IsTrue result ↔ IsSomeAnd world.now.snap (λ snap. snap.id ≡ snapshot) }
{
    match world.snap {
        Some(snap) => snap.id == snapshot,
        None => false,
    }
}

/// Whether the world may complete.
fn may_complete(world: &DiskWorld) -> bool
    ensures { IsTrue result ↔ MayComplete (world_of world.now) }
{
    world.running
        && !world.cancelled
        && world.complete.is_none()
        && world.last
        && is_base_of(world.base, world.snap)
}

/// Whether the base is of the snapshot.
fn is_base_of(base: Option<Base>, snap: Option<Snapped>) -> bool
    ensures { IsTrue result ↔ IsBaseOf base snap }
{
    match (base, snap) {
        (Some(base), Some(snap)) => snap.mark == base.mark,
        _ => false,
    }
}

/// Whether the process may stop, with these sectors in the place of the loose ones.
fn may_stop(world: &DiskWorld, filling: &SectorList) -> bool
    requires { StandsSound world.now }
    ensures { IsTrue result ↔ MayHappen (Event.Stop filling.now) (world_of world.now) }
{
    world.running && filling.as_slice().len() as u64 == world.loose.loose_count(&world.volume)
}

/// Whether an event of the stage that runs may happen.
fn stage_may(world: &DiskWorld, snap: Snapped, stage: &StageState, event: &Event) -> bool
    requires mark { snap.mark ≤ length world.now.log }
    requires sized { stage.now.capacity ≡ world.now.capacity }
    requires order { IsInOrder stage.now }
    ensures { IsTrue result ↔ StageMay event.now (world_of world.now) snap stage.now }
{
    let asked = entries_asked(world, snap, stage.full);
    match event {
        Event::PageAnswered => may_ask(asked, world.disk, stage) && is_answered(world, snap, stage),
        Event::PageRefused => may_ask(asked, world.disk, stage) && is_refused(world, snap, stage),
        Event::Copied(run) => may_copy(asked, world.disk, stage, *run),
        Event::Zeroed(run) => may_zero(asked, world.disk, stage, *run),
        Event::Flushed => may_flush(asked, world.disk, stage),
        Event::StageDone => stage.flushed,
        _ => false,
    }
}

/// The entries whose writes a stage asks for.
pub(crate) fn entries_asked(world: &DiskWorld, snap: Snapped, full: bool) -> &[Entry]
    requires { snap.mark ≤ length world.now.log }
    ensures { result.now ≡ between (since_mark full world.now.base) snap.mark world.now.log }
{
    let from = match world.base {
        Some(base) if !full => base.mark,
        _ => 0,
    };
    between(world.log.as_slice(), from as usize, snap.mark as usize)
}

/// Whether a query answers the stage now.
fn is_answered(world: &DiskWorld, snap: Snapped, stage: &StageState) -> bool
    ensures { IsTrue result ↔ IsOk (answer_now (world_of world.now) snap stage.now) }
{
    match world.base {
        Some(base) if !stage.full => accepts(
            world.machine,
            world.log.as_slice(),
            world.disk,
            snap.id,
            base.id,
        ),
        _ => true,
    }
}

/// Whether the stage is a partial one whose identifier is strange now.
fn is_refused(world: &DiskWorld, snap: Snapped, stage: &StageState) -> bool
    ensures { IsTrue result ↔ (stage.now.full ≡ false)
        × IsErr (answer_now (world_of world.now) snap stage.now) }
{
    !stage.full && !is_answered(world, snap, stage)
}
