//! What an event leaves of the world of one disk, where it may happen.
ghost use Rattle.std.specs.Prelude.{◌≡◌, ◌≤◌, ◌<◌, ◌+◌, ◌^◌, length, OnOk, OnErr, IfOk, is_none, option_map, slice_range};
ghost use Rattle.sector_model.specs.Run.{end_of};
ghost use Rattle.sector_model.specs.VolumeContents.{volume_written};
ghost use Rattle.log_model.specs.Legal.{Legal, only};
ghost use Rattle.warm_core.specs.Staged.{disk_at};
ghost use Rattle.warm_core.specs.World.{IsSnapOf};
ghost use Rattle.warm_core.specs.StageState.{begun, made_full, at_its_end};
ghost use Rattle.warm_core.specs.DiskWorld.{world_of, LooseLiesWithin, StandsSound, Leaves};
ghost use Rattle.warm_core.specs.Events.{MayHappen, after, snapped_of};

use crate::conditions::entries_asked;
use crate::{Base, DiskWorld, Event, StageState};
use log_model::{
    Entry, Snapped, answer_page, before, in_force, last_off, mark, sector_at, through,
};
use sector_model::{NoMemory, Page, Run, Runs, Sector, SectorList};
use std::alloc::Global;

/// Carries an event out that may happen. It answers only want of memory.
pub(crate) fn carry_out(alloc: Global, world: &mut DiskWorld, event: Event) -> Result<(), NoMemory>
    requires sound { StandsSound world.old }
    requires happens { MayHappen event (world_of world.old) }
    ensures ok { OnOk result (Leaves event world.old world.new) }
    ensures err { OnErr result (world.new ≡ world.old) }
{
    match event {
        Event::Machine(entry) => world.log.push(entry)?,
        Event::Begin { snap, last } => begin(world, snap, last),
        Event::PageAnswered => take_page(alloc, world)?,
        Event::PageRefused => refuse_page(world),
        Event::Copied(run) => copy(alloc, world, run)?,
        Event::Zeroed(run) => zero(alloc, world, run)?,
        Event::Flushed => flush(alloc, world),
        Event::StageDone => finish(world),
        Event::Stop(filling) => stop(world, &filling),
        Event::Restart => world.running = true,
        Event::Cancel => world.cancelled = true,
        Event::Complete => world.complete = world.snap.and_then(|snap| snap.off_place),
    }
    Ok(())
}

/// Begins a stage on the snapshot.
fn begin(world: &mut DiskWorld, snapshot: u32, last: bool)
    requires { length world.old.log < 2 ^ 64 }
    ensures { world.new ≡ record world.old {
      snap = Some (snapped_of snapshot world.old.log);
      last = last;
      stage = Some (begun world.old.capacity (is_none world.old.base));
    } }
{
    world.snap = Some(snapped(world.log.as_slice(), snapshot));
    world.last = last;
    world.stage = Some(StageState::begin(world.capacity, world.base.is_none()));
}

/// What the log says of a snapshot.
fn snapped(log: &[Entry], snapshot: u32) -> Snapped
    ensures { result ≡ snapped_of snapshot log.now }
{
    Snapped {
        id: snapshot,
        mark: mark(log, snapshot) as u64,
        off_place: last_off(before(log, snapshot)).map(|place| place as u64),
    }
}

/// Takes the page from `covered` on.
fn take_page(alloc: Global, world: &mut DiskWorld) -> Result<(), NoMemory>
    requires sound { StandsSound world.old }
    requires happens { MayHappen Event.PageAnswered (world_of world.old) }
    ensures ok { OnOk result (Leaves Event.PageAnswered world.old world.new) }
    ensures err { OnErr result (world.new ≡ world.old) }
{
    let (Some(snap), Some(mut stage)) = (world.snap, world.stage) else {
        return Ok(());
    };
    let mut page = Page::new(alloc)?;
    answer_page(
        entries_asked(world, snap, stage.full),
        world.disk,
        world.capacity,
        stage.covered,
        &mut page,
    );
    stage.area_page(&page);
    world.stage = Some(stage);
    Ok(())
}

/// Makes the stage a full one.
fn refuse_page(world: &mut DiskWorld)
    requires sound { StandsSound world.old }
    requires happens { MayHappen Event.PageRefused (world_of world.old) }
    ensures { world.new ≡ record world.old { stage = option_map made_full world.old.stage } }
{
    if let Some(mut stage) = world.stage {
        stage.refused();
        world.stage = Some(stage);
    }
}

/// Copies a run from the snapshot.
fn copy(alloc: Global, world: &mut DiskWorld, run: Run) -> Result<(), NoMemory>
    requires sound { StandsSound world.old }
    requires happens { MayHappen (Event.Copied run) (world_of world.old) }
    ensures ok { OnOk result (Leaves (Event.Copied run) world.old world.new) }
    ensures err { OnErr result (world.new ≡ world.old) }
{
    let (Some(snap), Some(mut stage)) = (world.snap, world.stage) else {
        return Ok(());
    };
    let sectors = read_frozen(alloc, world, snap, run)?;
    write(alloc, world, run.first, sectors.as_slice())?;
    stage.copied(run);
    world.stage = Some(stage);
    Ok(())
}

/// Reads a run as the snapshot froze it.
fn read_frozen(
    alloc: Global,
    world: &DiskWorld,
    snap: Snapped,
    run: Run,
) -> Result<Vec<Sector>, NoMemory>
    requires legal { Legal (only world.now.disk world.now.capacity) world.now.log }
    requires snap { IsSnapOf world.now.log snap }
    requires within { end_of run ≤ world.now.capacity }
    ensures { IfOk result (λ sectors. sectors.items ≡ slice_range
        (disk_at world.now.capacity world.now.disk snap.mark world.now.log) run.first
        (end_of run)) }
{
    prove!(run.first <= world.capacity);
    let frozen = before(world.log.as_slice(), snap.id);
    let mut sectors = Vec::new(alloc);
    for at in run.first..run.first + run.count {
        sectors.push(sector_at(frozen, world.disk, at))?;
    }
    Ok(sectors)
}

/// Zeroes a run.
fn zero(alloc: Global, world: &mut DiskWorld, run: Run) -> Result<(), NoMemory>
    requires sound { StandsSound world.old }
    requires happens { MayHappen (Event.Zeroed run) (world_of world.old) }
    ensures ok { OnOk result (Leaves (Event.Zeroed run) world.old world.new) }
    ensures err { OnErr result (world.new ≡ world.old) }
{
    let Some(mut stage) = world.stage else {
        return Ok(());
    };
    let sectors = vec![in alloc; Sector::filled(0); run.count as usize]?;
    write(alloc, world, run.first, sectors.as_slice())?;
    stage.zeroed(run);
    world.stage = Some(stage);
    Ok(())
}

/// Writes sectors to the volume, which are loose then.
fn write(
    alloc: Global,
    world: &mut DiskWorld,
    first: u64,
    sectors: &[Sector],
) -> Result<(), NoMemory>
    requires some { 0 < length sectors.now }
    requires within { first + length sectors.now ≤ world.old.capacity }
    requires sized { length world.old.volume ≡ world.old.capacity }
    requires loose { LooseLiesWithin world.old }
    ensures written { OnOk result (world_of world.new ≡ record (world_of world.old) {
      volume = volume_written first sectors.now (world_of world.old).volume;
    }) }
    ensures loose { OnOk result (LooseLiesWithin world.new) }
    ensures small { world.new.capacity < 2 ^ 63 }
    ensures err { OnErr result (world.new ≡ world.old) }
{
    let room = world.volume.as_slice().len();
    prove!(first < room as u64);
    let count = sectors.len() as u64;
    world.loose = world.loose.joined(alloc, Run { first, count })?;
    world.volume.replace(first as usize, sectors);
    Ok(())
}

/// Flushes the volume, and so ends the stage.
fn flush(alloc: Global, world: &mut DiskWorld)
    requires sound { StandsSound world.old }
    requires happens { MayHappen Event.Flushed (world_of world.old) }
    ensures { Leaves Event.Flushed world.old world.new }
{
    end_stage(world);
    world.loose = Runs::new(alloc);
}

/// Tells the stage that the volume was flushed.
fn end_stage(world: &mut DiskWorld)
    requires sound { StandsSound world.old }
    requires happens { MayHappen Event.Flushed (world_of world.old) }
    ensures { world.new ≡ record world.old { stage = option_map at_its_end world.old.stage } }
{
    if let Some(mut stage) = world.stage {
        stage.flushed();
        world.stage = Some(stage);
    }
}

/// Makes the snapshot of the stage the base.
fn finish(world: &mut DiskWorld)
    requires sound { StandsSound world.old }
    ensures { Leaves Event.StageDone world.old world.new }
{
    if let (Some(snap), Some(_stage)) = (world.snap, world.stage) {
        let id = in_force(
            world.machine,
            through(world.log.as_slice(), snap.id),
            world.disk,
        );
        world.base = id.map(|id| Base {
            mark: snap.mark,
            id,
        });
        world.stage = None;
    }
}

/// Stops the process, with these sectors in the place of the loose ones.
fn stop(world: &mut DiskWorld, filling: &SectorList)
    requires sound { StandsSound world.old }
    requires happens { MayHappen (Event.Stop filling.now) (world_of world.old) }
    ensures { Leaves (Event.Stop filling.now) world.old world.new }
{
    world.volume.take_found(&world.loose, filling.as_slice());
    world.stage = None;
    world.running = false;
}
