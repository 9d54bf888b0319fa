//! A tracker beside plain lists of what was touched, for drawn calls; worked answers at the bounds
//! of words, blocks and pages, and behind a reset; and its refusals.
ghost use Rattle.std.specs.Prelude.{◌≡◌, ◌+◌, ◌<◌, ◌≤◌, OnOk, IfOk};

use crate::{TrackRefused, Tracker};
use basics::advance;
use change_id::{ChangeId, Since, pack};
use sector_model::{BLOCK_SECTORS, PAGE_AREAS, Page, Run};
use std::alloc::Global;
use std::process::Abort;
use std::test::Fail;

/// The identifier of machine 1 and disk 0.
fn id_of(resets: u64, seq: u64) -> ChangeId {
    ChangeId {
        uuid: pack(1, 0, resets),
        seq,
    }
}

fn run(first: u64, count: u64) -> Run {
    Run { first, count }
}

/// A tracker kept as lists, which forgets nothing.
#[derive(Drop)]
struct Plain {
    alloc: Global,
    capacity: u64,
    /// Each run that was marked, and how many snapshots were frozen before.
    marks: Vec<(usize, Run)>,
    snapshots: Vec<(u32, Option<ChangeId>)>,
    resets: u64,
    counted: Option<u64>,
}

impl Plain {
    fn new(alloc: Global, capacity: u64) -> Plain {
        Plain {
            alloc,
            capacity,
            marks: Vec::new(alloc),
            snapshots: Vec::new(alloc),
            resets: 0,
            counted: None,
        }
    }

    /// Whether a block was marked after `from` freezes or more, and before `end`.
    fn is_marked(&self, from: usize, end: usize, block: u64) -> bool {
        self.marks.iter().any(|entry| {
            let (freezes, run) = entry;
            from <= *freezes
                && *freezes < end
                && run.first / BLOCK_SECTORS <= block
                && block <= run.first.saturating_add(run.count).saturating_sub(1) / BLOCK_SECTORS
        })
    }

    /// The sectors of a block from `start` on.
    fn part(&self, block: u64, start: u64) -> Run {
        let first = block.saturating_mul(BLOCK_SECTORS);
        let past = first.saturating_add(BLOCK_SECTORS).min(self.capacity);
        let first = first.max(start);
        run(first, past.saturating_sub(first))
    }

    /// The areas from `start` on of the blocks that were marked in a window.
    fn areas_from(&self, from: usize, end: usize, start: u64) -> Result<Vec<Run>, Fail> {
        let mut areas: Vec<Run> = Vec::new(self.alloc);
        let mut area = run(start, 0);
        for block in start / BLOCK_SECTORS..self.capacity.div_ceil(BLOCK_SECTORS) {
            let part = self.part(block, start);
            if self.is_marked(from, end, block) {
                area.count = area.count.saturating_add(part.count);
            } else {
                if area.count != 0 {
                    areas.push(area)?;
                }
                area = run(part.first.saturating_add(part.count), 0);
            }
        }
        if area.count != 0 {
            areas.push(area)?;
        }
        Ok(areas)
    }

    /// The place behind the snapshot of an identifier, if it is of this epoch and not later than
    /// the snapshot at a place.
    fn behind(&self, id: ChangeId, place: usize) -> Option<usize> {
        if id.uuid != pack(1, 0, self.resets) {
            return None;
        }
        let found = self.snapshots.iter().position(|entry| entry.1 == Some(id))?;
        if found <= place {
            Some(found.saturating_add(1))
        } else {
            None
        }
    }

    fn in_force(&self) -> Option<ChangeId> {
        match self.counted {
            Some(seq) if seq != 0 => Some(id_of(self.resets, seq)),
            _ => None,
        }
    }
}

/// A run that two draws say, at most 200 sectors long where `is_short`.
fn drawn_run(capacity: u64, first: u64, count: u64, is_short: bool) -> Run
    requires some { 0 < capacity }
{
    let first = first % capacity;
    let count = 1 + count % (capacity - first);
    if is_short {
        run(first, count.min(200))
    } else {
        run(first, count)
    }
}

/// One time in two, reserves places for a drawn run that needn't be marked next.
fn reserve_another(tracker: &mut Tracker, capacity: u64, draw: u64) -> Result<(), Fail>
    requires some { 0 < capacity }
    ensures free { OnOk result (tracker.new.free_from ≡ tracker.old.free_from) }
    ensures few { OnOk result (tracker.new.epoch ≡ tracker.old.epoch) }
{
    if draw & 256 != 0 {
        let other = drawn_run(capacity, draw >> 30, draw >> 10, draw & 1024 != 0);
        tracker.reserve_mark(other)?;
    }
    Ok(())
}

/// Does what a draw says, to the tracker and to the lists.
fn act(
    rt: &impl Abort,
    tracker: &mut Tracker,
    plain: &mut Plain,
    capacity: u64,
    id: u32,
    draw: u64,
) -> Result<(), Fail>
    requires some { 0 < capacity }
    requires free { tracker.old.free_from ≤ id }
    requires few { tracker.old.epoch ≤ id }
    ensures free { OnOk result (tracker.new.free_from ≤ id + 1) }
    ensures few { OnOk result (tracker.new.epoch ≤ id + 1) }
{
    if draw % 8 < 3 {
        let told = tracker.freeze(id)?;
        plain.counted = plain.counted.map(|n| n.saturating_add(1));
        assert_eq!(rt; told, plain.in_force(), "identifier of {id}");
        plain.snapshots.push((id, told))?;
        return Ok(());
    }
    if draw % 8 == 3 {
        tracker.enable();
        plain.counted = Some(plain.counted.unwrap_or(0));
        return Ok(());
    }
    if draw % 16 == 4 {
        tracker.reset();
        plain.resets = plain.resets.saturating_add(1);
        plain.counted = plain.counted.map(|_| 0);
        return Ok(());
    }
    let marked = drawn_run(capacity, draw >> 40, draw >> 20, draw & 512 != 0);
    if draw & 128 != 0 {
        tracker.reserve_mark(marked)?;
        tracker.reserve_freeze()?;
    }
    tracker.mark(marked)?;
    plain.marks.push((plain.snapshots.len(), marked))?;
    Ok(())
}

/// What is asked: a snapshot, its place and the identifier that it was told, and a page's start.
#[derive(Clone, Copy)]
struct Asked {
    snapshot: u32,
    place: usize,
    told: Option<ChangeId>,
    start: u64,
}

/// Compares a page with the blocks that were marked after `from` freezes or more and before the
/// snapshot that is asked.
fn compare_page(
    rt: &impl Abort,
    page: &Page,
    plain: &Plain,
    from: usize,
    asked: Asked,
) -> Result<(), Fail> {
    let areas = plain.areas_from(from, asked.place.saturating_add(1), asked.start)?;
    assert_eq!(rt; page.areas(), areas.as_slice());
    assert_eq!(rt; page.start(), asked.start);
    assert_eq!(rt; page.length(), plain.capacity.saturating_sub(asked.start));
    Ok(())
}

/// Compares the answer since an identifier.
fn compare_since(
    rt: &impl Abort,
    tracker: &Tracker,
    plain: &Plain,
    asked: Asked,
    id: ChangeId,
    page: &mut Page,
) -> Result<(), Fail> {
    let answer = tracker.query(asked.snapshot, Since::From(id), asked.start, page);
    match plain.behind(id, asked.place) {
        Some(from) => {
            assert_eq!(rt; answer, Ok(()));
            compare_page(rt, page, plain, from, asked)?;
        }
        None => {
            assert_eq!(rt; answer, Err(TrackRefused::Strange(plain.in_force())));
        }
    }
    Ok(())
}

/// Compares all answers at a snapshot.
fn compare_at(
    rt: &impl Abort,
    tracker: &Tracker,
    plain: &Plain,
    asked: Asked,
    page: &mut Page,
) -> Result<(), Fail> {
    assert_eq!(rt; tracker.id_of(asked.snapshot), Ok(asked.told));
    assert_eq!(rt;
        tracker.query(asked.snapshot, Since::All, asked.start, page),
        Ok(())
    );
    compare_page(rt, page, plain, 0, asked)?;
    for other in &plain.snapshots {
        if let Some(id) = other.1 {
            compare_since(rt, tracker, plain, asked, id, page)?;
        }
    }
    compare_since(rt, tracker, plain, asked, id_of(plain.resets, 0), page)?;
    compare_since(rt, tracker, plain, asked, id_of(plain.resets, 99), page)
}

/// Compares all answers at all snapshots, from the disk's start and from another sector.
fn compare_all(
    rt: &impl Abort,
    tracker: &Tracker,
    plain: &Plain,
    start: u64,
    page: &mut Page,
) -> Result<(), Fail> {
    for (place, kept) in plain.snapshots.iter().enumerate() {
        let asked = Asked {
            snapshot: kept.0,
            place,
            told: kept.1,
            start: 0,
        };
        compare_at(rt, tracker, plain, asked, page)?;
        compare_at(rt, tracker, plain, Asked { start, ..asked }, page)?;
    }
    Ok(())
}

/// Does thirty draws on a disk, and compares all answers after each.
fn run_on(rt: &impl Abort, alloc: Global, capacity: u64, seed: u64) -> Result<(), Fail>
    requires some { 0 < capacity }
{
    let mut tracker = Tracker::new(alloc, 1, 0, capacity)?;
    let mut page = Page::new(alloc)?;
    let mut plain = Plain::new(alloc, capacity);
    let mut state = seed;
    for id in 0..30u32 {
        state = advance(state);
        reserve_another(&mut tracker, capacity, state >> 7)?;
        act(rt, &mut tracker, &mut plain, capacity, id, state >> 7)?;
        compare_all(rt, &tracker, &plain, (state >> 24) % capacity, &mut page)?;
    }
    Ok(())
}

#[test]
fn answers_are_those_of_lists_kept_beside(rt: HostRuntime) -> Result<(), Fail> {
    run_on(&rt, rt.alloc(), 1, 11)?;
    run_on(&rt, rt.alloc(), 129, 22)?;
    run_on(&rt, rt.alloc(), 700, 33)?;
    run_on(&rt, rt.alloc(), 700, 44)
}

#[test]
fn words_of_a_large_disk_are_joined(rt: HostRuntime) -> Result<(), Fail> {
    run_on(&rt, rt.alloc(), 8192 + 300, 55)
}

#[test]
fn a_last_sector_alone_in_its_word_is_told(rt: HostRuntime) -> Result<(), Fail> {
    run_on(&rt, rt.alloc(), 3 * 8192 + 1, 66)?;
    run_on(&rt, rt.alloc(), 3 * 8192 + 1, 77)
}

#[test]
fn a_word_that_nothing_touched_parts_two_areas(rt: HostRuntime) -> Result<(), Fail> {
    let alloc = rt.alloc();
    let mut tracker = Tracker::new(alloc, 1, 0, 3 * 8192 + 1)?;
    let mut page = Page::new(alloc)?;
    tracker.mark(run(8191, 1))?;
    tracker.mark(run(24_576, 1))?;
    tracker.freeze(1)?;
    tracker.query(1, Since::All, 0, &mut page)?;
    assert_eq!(rt; page.areas(), [run(8064, 128), run(24_576, 1)].as_slice());
    tracker.query(1, Since::All, 8192, &mut page)?;
    assert_eq!(rt; page.areas(), [run(24_576, 1)].as_slice());
    assert_eq!(rt; page.length(), 16_385);
    Ok(())
}

#[test]
fn blocks_before_a_snapshot_are_told_without_tracking(rt: HostRuntime) -> Result<(), Fail> {
    let alloc = rt.alloc();
    let mut tracker = Tracker::new(alloc, 1, 0, 200)?;
    let mut page = Page::new(alloc)?;
    tracker.mark(run(199, 1))?;
    assert_eq!(rt; tracker.freeze(1)?, None);
    tracker.query(1, Since::All, 0, &mut page)?;
    assert_eq!(rt; page.areas(), [run(128, 72)].as_slice());
    assert_eq!(rt; page.length(), 200);
    Ok(())
}

/// A disk of 256 sectors, tracked, with a snapshot, writes at 127 and 128, and a second one.
fn two_snapshots(rt: &impl Abort, alloc: Global) -> Result<Tracker, Fail>
    ensures free { IfOk result (λ tracker. tracker.free_from ≡ 3) }
    ensures first { IfOk result (λ tracker. tracker.epoch ≡ 0) }
{
    let mut tracker = Tracker::new(alloc, 1, 0, 256)?;
    tracker.enable();
    assert_eq!(rt; tracker.freeze(1)?, Some(id_of(0, 1)));
    tracker.mark(run(127, 1))?;
    tracker.mark(run(128, 1))?;
    assert_eq!(rt; tracker.freeze(2)?, Some(id_of(0, 2)));
    Ok(tracker)
}

#[test]
fn changes_since_an_identifier_join_over_two_blocks(rt: HostRuntime) -> Result<(), Fail> {
    let alloc = rt.alloc();
    let tracker = two_snapshots(&rt, alloc)?;
    let mut page = Page::new(alloc)?;
    tracker.query(2, Since::From(id_of(0, 1)), 0, &mut page)?;
    assert_eq!(rt; page.areas(), [run(0, 256)].as_slice());
    assert_eq!(rt; page.length(), 256);
    assert_eq!(rt; tracker.id_of(2), Ok(Some(id_of(0, 2))));
    tracker.query(2, Since::From(id_of(0, 1)), 200, &mut page)?;
    assert_eq!(rt; page.areas(), [run(200, 56)].as_slice());
    assert_eq!(rt; page.length(), 56);
    Ok(())
}

#[test]
fn nothing_changed_since_the_snapshot_itself(rt: HostRuntime) -> Result<(), Fail> {
    let alloc = rt.alloc();
    let tracker = two_snapshots(&rt, alloc)?;
    let mut page = Page::new(alloc)?;
    tracker.query(2, Since::From(id_of(0, 2)), 0, &mut page)?;
    assert_eq!(rt; page.areas(), [].as_slice());
    assert_eq!(rt; page.length(), 256);
    let past = tracker.query(2, Since::From(id_of(0, 2)), 256, &mut page);
    assert_eq!(rt; past, Err(TrackRefused::Range));
    Ok(())
}

#[test]
fn a_number_that_was_not_given_is_strange(rt: HostRuntime) -> Result<(), Fail> {
    let alloc = rt.alloc();
    let mut tracker = two_snapshots(&rt, alloc)?;
    let mut page = Page::new(alloc)?;
    tracker.freeze(3)?;
    let strange = tracker.query(3, Since::From(id_of(0, 7)), 0, &mut page);
    assert_eq!(rt; strange, Err(TrackRefused::Strange(Some(id_of(0, 3)))));
    Ok(())
}

#[test]
fn a_reset_begins_a_new_epoch_and_keeps_what_was_frozen(rt: HostRuntime) -> Result<(), Fail> {
    let alloc = rt.alloc();
    let mut tracker = two_snapshots(&rt, alloc)?;
    let mut page = Page::new(alloc)?;
    tracker.reset();
    let strange = tracker.query(2, Since::From(id_of(0, 1)), 0, &mut page);
    assert_eq!(rt; strange, Err(TrackRefused::Strange(None)));
    tracker.query(2, Since::All, 0, &mut page)?;
    assert_eq!(rt; page.areas(), [run(0, 256)].as_slice());
    assert_eq!(rt; tracker.id_of(2), Ok(Some(id_of(0, 2))));
    assert_eq!(rt; tracker.freeze(4)?, Some(id_of(1, 1)));
    Ok(())
}

/// Marks one sector of every second block, so that no two areas join.
fn mark_apart(tracker: &mut Tracker, count: u64) -> Result<(), Fail>
    requires free { tracker.old.free_from ≤ 2 }
    requires few { count < 2000 }
    ensures { OnOk result (tracker.new.free_from ≤ 2) }
{
    for index in 0..count {
        tracker.mark(run(256 * index, 1))?;
    }
    Ok(())
}

#[test]
fn one_area_more_than_a_page_holds_gives_two_pages(rt: HostRuntime) -> Result<(), Fail> {
    let alloc = rt.alloc();
    let mut tracker = Tracker::new(alloc, 1, 0, 262_272)?;
    let mut page = Page::new(alloc)?;
    tracker.enable();
    tracker.freeze(1)?;
    mark_apart(&mut tracker, 1025)?;
    tracker.freeze(2)?;
    tracker.query(2, Since::From(id_of(0, 1)), 0, &mut page)?;
    assert_eq!(rt; page.areas().len(), PAGE_AREAS);
    assert_eq!(rt; page.length(), 262_016);
    tracker.query(2, Since::From(id_of(0, 1)), 262_016, &mut page)?;
    assert_eq!(rt; page.areas(), [run(262_144, 128)].as_slice());
    assert_eq!(rt; page.length(), 256);
    Ok(())
}

#[test]
fn refused_calls_say_why(rt: HostRuntime) -> Result<(), Fail> {
    let alloc = rt.alloc();
    let mut tracker = Tracker::new(alloc, 1, 0, 300)?;
    let mut page = Page::new(alloc)?;
    assert_eq!(rt; tracker.mark(run(299, 2)), Err(TrackRefused::Range));
    assert_eq!(rt; tracker.mark(run(0, 0)), Err(TrackRefused::Range));
    assert_eq!(rt; tracker.reserve_mark(run(300, 1)), Err(TrackRefused::Range));
    assert_eq!(rt; tracker.id_of(1), Err(TrackRefused::UnknownSnap));
    tracker.freeze(7)?;
    assert_eq!(rt;
        tracker.query(1, Since::All, 300, &mut page),
        Err(TrackRefused::UnknownSnap)
    );
    assert_eq!(rt;
        tracker.query(8, Since::All, 0, &mut page),
        Err(TrackRefused::UnknownSnap)
    );
    assert_eq!(rt;
        tracker.query(7, Since::All, 300, &mut page),
        Err(TrackRefused::Range)
    );
    Ok(())
}

#[test]
fn each_refusal_has_its_text(rt: HostRuntime) -> Result<(), Fail> {
    let texts = [
        (
            TrackRefused::UnknownSnap,
            "no snapshot was frozen under that id",
        ),
        (
            TrackRefused::Range,
            "the range is empty or passes the disk's end, or starts at it",
        ),
        (
            TrackRefused::Strange(None),
            "the identifier is none of this epoch up to the snapshot",
        ),
        (TrackRefused::NoMemory, "out of memory"),
    ];
    for (refusal, text) in texts {
        let printed = format!(in rt.alloc(); "{refusal}")?;
        assert_eq!(rt; printed.as_str(), text);
    }
    Ok(())
}
