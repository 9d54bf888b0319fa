//! Worlds and stages on a disk of two blocks: what may happen and what may not, what is written,
//! and that a stop anywhere ends in the same volume.
ghost use Rattle.std.specs.Prelude.{◌≡◌, [], ◌∷◌, IfOk};
ghost use Rattle.warm_core.specs.DiskWorld.{StandsSound};

use crate::{CoreRefused, DiskWorld, Event, Piece, StageState, follow, step};
use log_model::{Act, Entry, Owner};
use sector_model::{NoMemory, Page, Run, Sector, SectorList};
use std::alloc::Global;
use std::process::Abort;
use std::test::Fail;

/// Sectors of the disk: two blocks.
const CAPACITY: usize = 256;

/// The byte of the sector that the guest writes.
const WRITTEN: u8 = 171;

/// A world in which nothing was done, over a volume of junk.
fn start(alloc: Global) -> Result<DiskWorld, Fail>
    ensures { IfOk result StandsSound }
{
    let junk = vec![in alloc; Sector::filled(238); CAPACITY]?;
    let volume = SectorList::of(alloc, junk.as_slice())?;
    Ok(DiskWorld::new(alloc, 7, 0, volume)?)
}

/// Tries an event, and tells whether it happened.
fn go(alloc: Global, world: DiskWorld, event: Event) -> Result<(DiskWorld, bool), Fail>
    requires { StandsSound world }
    ensures { IfOk result (λ went. StandsSound went.0) }
{
    match step(alloc, world, event) {
        Ok(next) => Ok((next, true)),
        Err((same, CoreRefused::NotNow)) => Ok((same, false)),
        Err((_, CoreRefused::NoMemory)) => Err(NoMemory.into()),
    }
}

/// An entry of the migrations' caller.
fn entry(act: Act) -> Event {
    Event::Machine(Entry { who: 1, act })
}

fn snap(id: u32) -> Event {
    entry(Act::Snap {
        id,
        owner: Owner::Operator,
    })
}

fn begin(snap: u32) -> Event {
    Event::Begin { snap, last: false }
}

fn run(first: u64, count: u64) -> Run
    ensures { result ≡ record { first = first; count = count } }
{
    Run { first, count }
}

/// A guest's write of one sector, number 200.
fn write(alloc: Global) -> Result<Event, Fail> {
    let act = Act::Write {
        disk: 0,
        first: 200,
        sectors: SectorList::of(alloc, &[Sector::filled(WRITTEN)])?,
    };
    Ok(Event::Machine(Entry { who: 3, act }))
}

/// The steps of a full stage from the first snapshot, then of a partial one from the second.
fn row(alloc: Global, place: usize) -> Result<Event, Fail> {
    Ok(match place {
        0 => entry(Act::Enable),
        1 => snap(1),
        2 => begin(1),
        3 | 11 => Event::PageAnswered,
        4 => Event::Zeroed(run(0, 128)),
        5 => Event::Zeroed(run(128, 128)),
        6 | 13 => Event::Flushed,
        7 | 14 => Event::StageDone,
        8 => write(alloc)?,
        9 => snap(2),
        10 => begin(2),
        _ => Event::Copied(run(128, 128)),
    })
}

/// The world after the first steps of the row, each of which happens.
fn after(rt: &impl Abort, alloc: Global, steps: usize) -> Result<DiskWorld, Fail>
    ensures { IfOk result StandsSound }
{
    let mut world = start(alloc)?;
    for place in 0..steps {
        let (next, went) = go(alloc, world, row(alloc, place)?)?;
        assert!(rt; went, "step {place} happens");
        world = next;
    }
    Ok(world)
}

/// Asserts that an event may not happen after so many steps.
fn not_now(rt: &impl Abort, alloc: Global, steps: usize, event: Event) -> Result<(), Fail> {
    let (_world, went) = go(alloc, after(rt, alloc, steps)?, event)?;
    assert!(rt; !went, "not after {steps} steps");
    Ok(())
}

#[test]
fn a_finished_stage_is_the_base(rt: HostRuntime) -> Result<(), Fail> {
    let alloc = rt.alloc();
    let first = after(&rt, alloc, 8)?;
    assert_eq!(rt; first.base.map(|base| base.mark), Some(1));
    let second = after(&rt, alloc, 15)?;
    assert_eq!(rt; second.base.map(|base| base.mark), Some(3));
    Ok(())
}

#[test]
fn a_partial_stage_counts_what_it_copied(rt: HostRuntime) -> Result<(), Fail> {
    let world = after(&rt, rt.alloc(), 13)?;
    assert_eq!(rt; world.stage.map(|stage| stage.written), Some(128));
    Ok(())
}

#[test]
fn nothing_completes_before_the_last_snapshot(rt: HostRuntime) -> Result<(), Fail> {
    not_now(&rt, rt.alloc(), 15, Event::Complete)
}

#[test]
fn a_snapshot_that_is_copied_stays(rt: HostRuntime) -> Result<(), Fail> {
    not_now(&rt, rt.alloc(), 12, entry(Act::Remove { id: 2 }))
}

#[test]
fn a_page_that_is_answered_is_not_refused(rt: HostRuntime) -> Result<(), Fail> {
    not_now(&rt, rt.alloc(), 11, Event::PageRefused)
}

#[test]
fn nothing_is_copied_before_a_page(rt: HostRuntime) -> Result<(), Fail> {
    not_now(&rt, rt.alloc(), 11, Event::Copied(run(128, 128)))
}

#[test]
fn a_stage_is_not_done_before_its_flush(rt: HostRuntime) -> Result<(), Fail> {
    not_now(&rt, rt.alloc(), 13, Event::StageDone)
}

/// The world in which the disk was reset after the second stage began.
fn reset(rt: &impl Abort, alloc: Global) -> Result<DiskWorld, Fail>
    ensures { IfOk result StandsSound }
{
    let (world, went) = go(alloc, after(rt, alloc, 11)?, entry(Act::Reset { disk: 0 }))?;
    assert!(rt; went);
    Ok(world)
}

#[test]
fn a_reset_refuses_the_page(rt: HostRuntime) -> Result<(), Fail> {
    let alloc = rt.alloc();
    let (world, went) = go(alloc, reset(&rt, alloc)?, Event::PageAnswered)?;
    assert!(rt; !went);
    let (world, went) = go(alloc, world, Event::PageRefused)?;
    assert!(rt; went);
    assert_eq!(rt; world.stage, Some(StageState::begin(256, true)));
    Ok(())
}

/// The full stage after the reset, with its page.
fn full_again(rt: &impl Abort, alloc: Global) -> Result<DiskWorld, Fail>
    ensures { IfOk result StandsSound }
{
    let (world, _) = go(alloc, reset(rt, alloc)?, Event::PageRefused)?;
    let (world, went) = go(alloc, world, Event::PageAnswered)?;
    assert!(rt; went);
    Ok(world)
}

#[test]
fn a_full_stage_zeroes_the_gap_and_copies_the_area(rt: HostRuntime) -> Result<(), Fail> {
    let alloc = rt.alloc();
    let (world, went) = go(alloc, full_again(&rt, alloc)?, Event::Copied(run(128, 128)))?;
    assert!(rt; !went);
    let (world, went) = go(alloc, world, Event::Zeroed(run(0, 128)))?;
    assert!(rt; went);
    let (world, went) = go(alloc, world, Event::Zeroed(run(128, 128)))?;
    assert!(rt; !went);
    let (world, went) = go(alloc, world, Event::Copied(run(128, 128)))?;
    assert!(rt; went);
    assert_eq!(rt; world.stage.map(|stage| stage.written), Some(256));
    Ok(())
}

/// As many sectors as are loose, of equal bytes.
fn found(alloc: Global, world: &DiskWorld, byte: u8) -> Result<SectorList, Fail> {
    let count = world.loose.count() as usize;
    let sectors = vec![in alloc; Sector::filled(byte); count]?;
    Ok(SectorList::of(alloc, sectors.as_slice())?)
}

/// The next entry of the machine's log, after so many.
fn next_entry(alloc: Global, entries: usize) -> Result<Event, Fail> {
    Ok(match entries {
        0 => entry(Act::Enable),
        1 => snap(1),
        2 => write(alloc)?,
        3 => snap(2),
        4 => entry(Act::Off),
        _ => snap(3),
    })
}

/// What is tried to get a world on, one after another: steps of the stage, the next stage, the next
/// entry.
fn attempt(alloc: Global, number: usize, entries: usize) -> Result<Event, Fail> {
    Ok(match number {
        0 => Event::Complete,
        1 => Event::StageDone,
        2 => Event::PageAnswered,
        3 => Event::Zeroed(run(0, 128)),
        4 => Event::Zeroed(run(128, 128)),
        5 => Event::Copied(run(128, 128)),
        6 => Event::Flushed,
        7 => begin(1),
        8 => begin(2),
        9 => Event::Begin {
            snap: 3,
            last: true,
        },
        _ => next_entry(alloc, entries)?,
    })
}

/// Tries all attempts once, in order.
fn round(alloc: Global, start: DiskWorld) -> Result<DiskWorld, Fail>
    requires { StandsSound start }
    ensures { IfOk result StandsSound }
{
    let mut world = start;
    for number in 0..11 {
        let entries = world.log.as_slice().len();
        let (next, _) = go(alloc, world, attempt(alloc, number, entries)?)?;
        world = next;
    }
    Ok(world)
}

/// Goes on until the world is complete, and asserts what it holds then.
fn complete(rt: &impl Abort, alloc: Global, start: DiskWorld) -> Result<(), Fail>
    requires { StandsSound start }
{
    let mut world = start;
    for _ in 0..12 {
        world = round(alloc, world)?;
    }
    assert_eq!(rt; world.complete, Some(4));
    for (at, sector) in world.volume.as_slice().iter().enumerate() {
        let byte = if at == 200 { WRITTEN } else { 0 };
        assert_eq!(rt; *sector, Sector::filled(byte), "sector {at}");
    }
    Ok(())
}

/// Stops after so many steps, with these bytes in the loose sectors, restarts and goes on.
fn stop_at(rt: &impl Abort, alloc: Global, steps: usize, byte: u8) -> Result<(), Fail> {
    let world = after(rt, alloc, steps)?;
    let found = found(alloc, &world, byte)?;
    let (world, stopped) = go(alloc, world, Event::Stop(found))?;
    let (world, restarted) = go(alloc, world, Event::Restart)?;
    assert!(rt; stopped && restarted, "a stop after {steps} steps");
    complete(rt, alloc, world)
}

#[test]
fn a_stop_anywhere_ends_in_the_same_volume(rt: HostRuntime) -> Result<(), Fail> {
    for steps in 0..16 {
        for byte in [0, 85, 255] {
            stop_at(&rt, rt.alloc(), steps, byte)?;
        }
    }
    Ok(())
}

#[test]
fn events_in_a_row_pass_over_those_that_may_not_happen(rt: HostRuntime) -> Result<(), Fail> {
    let alloc = rt.alloc();
    let mut events = Vec::new(alloc);
    events.push(Event::Restart)?;
    events.push(entry(Act::Enable))?;
    events.push(Event::Complete)?;
    events.push(snap(1))?;
    let Ok(world) = follow(alloc, start(alloc)?, events) else {
        return Err(NoMemory.into());
    };
    assert_eq!(rt; world.log.as_slice().len(), 2);
    Ok(())
}

#[test]
fn a_cancelled_world_begins_no_stage(rt: HostRuntime) -> Result<(), Fail> {
    let alloc = rt.alloc();
    let (world, cancelled) = go(alloc, after(&rt, alloc, 2)?, Event::Cancel)?;
    assert!(rt; cancelled);
    let (_world, began) = go(alloc, world, begin(1))?;
    assert!(rt; !began);
    Ok(())
}

/// The page of a disk of two blocks of which the second was written.
fn page(alloc: Global) -> Result<Page, Fail>
    ensures { IfOk result (λ page. page ≡ record {
      start = 0;
      length = 256;
      areas = record { first = 128; count = 128 } ∷ [];
    }) }
{
    let mut page = Page::new(alloc)?;
    page.push(Run {
        first: 128,
        count: 128,
    });
    page.cover(256);
    Ok(page)
}

#[test]
fn a_full_stage_goes_through_gap_and_area(rt: HostRuntime) -> Result<(), Fail> {
    let page = page(rt.alloc())?;
    let mut stage = StageState::begin(256, true);
    assert_eq!(rt; stage.piece(&page), Piece::Ask(0));
    stage.area_page(&page);
    assert_eq!(rt; stage.piece(&page), Piece::Zero(run(0, 128)));
    stage.zeroed(run(0, 128));
    assert_eq!(rt; stage.piece(&page), Piece::Copy(run(128, 128)));
    stage.copied(run(128, 128));
    assert_eq!(rt; stage.piece(&page), Piece::Flush);
    stage.flushed();
    assert_eq!(rt; stage.piece(&page), Piece::Done);
    assert_eq!(rt; (stage.done(), stage.written), (true, 256));
    Ok(())
}

#[test]
fn an_area_is_copied_in_pieces_of_128_sectors(rt: HostRuntime) -> Result<(), Fail> {
    let mut page = Page::new(rt.alloc())?;
    page.push(run(0, 256));
    page.cover(256);
    let mut stage = StageState::begin(256, false);
    stage.area_page(&page);
    assert_eq!(rt; stage.piece(&page), Piece::Copy(run(0, 128)));
    stage.copied(run(0, 128));
    assert_eq!(rt; stage.piece(&page), Piece::Copy(run(128, 128)));
    Ok(())
}

#[test]
fn a_gap_is_zeroed_in_pieces_of_128_sectors(rt: HostRuntime) -> Result<(), Fail> {
    let mut page = Page::new(rt.alloc())?;
    page.cover(256);
    let mut stage = StageState::begin(256, true);
    stage.area_page(&page);
    assert_eq!(rt; stage.piece(&page), Piece::Zero(run(0, 128)));
    Ok(())
}

#[test]
fn a_partial_stage_copies_its_area_alone(rt: HostRuntime) -> Result<(), Fail> {
    let page = page(rt.alloc())?;
    let mut stage = StageState::begin(256, false);
    stage.area_page(&page);
    assert_eq!(rt; stage.piece(&page), Piece::Copy(run(128, 128)));
    stage.copied(run(128, 128));
    assert_eq!(rt; stage.piece(&page), Piece::Flush);
    stage.flushed();
    assert_eq!(rt; (stage.done(), stage.written), (true, 128));
    Ok(())
}

#[test]
fn a_refused_stage_begins_anew(rt: HostRuntime) -> Result<(), Fail> {
    let page = page(rt.alloc())?;
    let mut stage = StageState::begin(256, false);
    stage.refused();
    assert_eq!(rt; stage, StageState::begin(256, true));
    assert_eq!(rt; stage.piece(&page), Piece::Ask(0));
    Ok(())
}

#[test]
fn refusals_are_told(rt: HostRuntime) -> Result<(), Fail> {
    let text = format!(in rt.alloc(); "{}, {}", CoreRefused::NotNow, CoreRefused::NoMemory)?;
    assert_eq!(rt; text.as_str(), "not now, no memory");
    Ok(())
}

#[test]
fn refusals_have_their_numbers(rt: HostRuntime) {
    assert_eq!(rt; CoreRefused::NotNow.number(), Some(1));
    assert_eq!(rt; CoreRefused::NoMemory.number(), None);
}
