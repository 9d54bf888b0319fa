//! A chain beside plain images for drawn calls, its refusals, and how little a read looks up.
ghost use Rattle.std.specs.Prelude.{◌≡◌, ◌+◌, ◌<◌, ◌≤◌, length, OnOk, ℕ};
ghost use Rattle.snapshot_chain.specs.Reading.{blocks_met};

use crate::{Chain, ChainRefused, Steps, reads_the_fold};
use basics::advance;
use sector_model::{Run, Sector};
use std::alloc::Global;
use std::marker::Brand;
use std::process::Abort;
use std::sync::ledger::{Blank, Ledger};
use std::test::Fail;

/// Sectors of the longest disk that is compared: two blocks and a part of a third.
const CAPACITY: u64 = 300;

/// How many blocks some ranges meet. The proof computes them.
fn ranges_meet_their_blocks()
    ensures one { blocks_met 128 1 ≡ 1 }
    ensures across { blocks_met 127 2 ≡ 2 }
    ensures whole { blocks_met 0 128 ≡ 1 }
    ensures shifted { blocks_met 1 128 ≡ 2 }
{}

/// A disk kept without layers, now and at each live snapshot.
#[derive(Drop)]
struct Plain {
    now: PlainDisk,
    frozen: Vec<(u32, PlainDisk)>,
}

/// A byte for each sector, and for each whether its block was written.
#[derive(Drop)]
struct PlainDisk {
    bytes: Vec<u8>,
    touched: Vec<bool>,
}

impl PlainDisk {
    fn copy(&self) -> Result<PlainDisk, Fail> {
        let bytes = self.bytes.clone()?;
        let touched = self.touched.clone()?;
        Ok(PlainDisk { bytes, touched })
    }

    fn write(&mut self, first: u64, count: u64, byte: u8) {
        for (at, old) in self.bytes.iter_mut().enumerate() {
            if first <= at as u64 && (at as u64) - first < count {
                *old = byte;
            }
        }
        for (at, old) in self.touched.iter_mut().enumerate() {
            let block = at as u64 / 128;
            if first / 128 <= block
                && (first.saturating_add(count).saturating_sub(1)) / 128 >= block
            {
                *old = true;
            }
        }
    }
}

/// Does what a draw says, to the chain and to the plain disk: a freeze under the id, a merge, or a
/// write, before which it may reserve for a merge that doesn't follow.
fn act(
    alloc: Global,
    chain: &mut Chain,
    plain: &mut Plain,
    capacity: u64,
    id: u32,
    draw: u64,
) -> Result<(), Fail>
    requires some { 0 < capacity }
    requires free { chain.old.free_from ≤ id }
    ensures { OnOk result (chain.new.free_from ≤ id + 1) }
{
    if draw % 4 == 0 {
        chain.freeze(id)?;
        plain.frozen.push((id, plain.now.copy()?))?;
        return Ok(());
    }
    if draw % 4 == 1 && !plain.frozen.is_empty() {
        let at = (draw >> 8) as usize % plain.frozen.len();
        let (merged, _image) = plain.frozen.remove(at);
        if draw & 16 != 0 {
            chain.reserve_merge(merged)?;
        }
        chain.merge(merged)?;
        return Ok(());
    }
    if draw & 8 != 0
        && let Some((kept, _image)) = plain.frozen.first()
    {
        chain.reserve_merge(*kept)?;
    }
    let first = (draw >> 40) % capacity;
    let most = if draw & 32 != 0 { 1 } else { capacity - first };
    let count = 1 + (draw >> 20) % most;
    let byte = ((draw >> 4) % 256) as u8;
    let sectors = vec![in alloc; Sector::filled(byte); count as usize]?;
    chain.write(first, sectors.as_slice())?;
    plain.now.write(first, count, byte);
    Ok(())
}

/// Compares what a snapshot holds, or the present, with a plain image.
fn compare(
    rt: &impl Abort,
    alloc: Global,
    chain: &Chain,
    id: Option<u32>,
    plain: &PlainDisk,
) -> Result<(), Fail> {
    let mut buf = vec![in alloc; Sector::filled(77); plain.bytes.len()]?;
    chain.read(id, 0, buf.as_mut_slice())?;
    for (at, sector) in buf.iter().enumerate() {
        assert_eq!(rt;
            Some(sector.0[511]),
            plain.bytes.get(at).copied(),
            "sector {at} of {id:?}"
        );
    }
    Ok(())
}

/// Compares the areas of a snapshot with a plain image.
fn compare_areas(rt: &impl Abort, chain: &Chain, id: u32, plain: &PlainDisk) -> Result<(), Fail> {
    let areas = chain.allocated(id)?;
    for (at, touched) in plain.touched.iter().enumerate() {
        let at = at as u64;
        let is_in = areas
            .as_slice()
            .iter()
            .any(|run| run.first <= at && at - run.first < run.count);
        assert_eq!(rt; is_in, *touched, "area of sector {at} of {id}");
    }
    Ok(())
}

/// Does forty draws on a disk, and compares all that it holds after each.
fn run_on(rt: &impl Abort, alloc: Global, capacity: u64, seed: u64) -> Result<(), Fail>
    requires some { 0 < capacity }
    requires few { capacity < 1000 }
{
    let mut chain = Chain::new(alloc, capacity)?;
    let mut plain = Plain {
        now: PlainDisk {
            bytes: vec![in alloc; 0u8; capacity as usize]?,
            touched: vec![in alloc; false; capacity as usize]?,
        },
        frozen: Vec::new(alloc),
    };
    let mut state = seed;
    for id in 0..40u32 {
        state = advance(state);
        act(alloc, &mut chain, &mut plain, capacity, id, state >> 7)?;
        compare(rt, alloc, &chain, None, &plain.now)?;
        for (snapshot, image) in &plain.frozen {
            compare(rt, alloc, &chain, Some(*snapshot), image)?;
            compare_areas(rt, &chain, *snapshot, image)?;
        }
        for other in 0..40u32 {
            let is_frozen = plain.frozen.iter().any(|entry| entry.0 == other);
            assert_eq!(rt; chain.is_live(other), is_frozen, "whether {other} is live");
        }
    }
    Ok(())
}

#[test]
fn a_chain_reads_as_a_plain_disk(rt: HostRuntime) -> Result<(), Fail> {
    reads_the_fold();
    ranges_meet_their_blocks();
    run_on(&rt, rt.alloc(), 1, 11)?;
    run_on(&rt, rt.alloc(), 128, 22)?;
    run_on(&rt, rt.alloc(), 129, 33)?;
    run_on(&rt, rt.alloc(), CAPACITY, 44)
}

#[test]
fn refused_calls_say_why(rt: HostRuntime) -> Result<(), Fail> {
    let alloc = rt.alloc();
    let mut chain = Chain::new(alloc, CAPACITY)?;
    let mut buf = [Sector::filled(1), Sector::filled(2)];
    assert_eq!(rt; chain.write(299, &buf), Err(ChainRefused::Range));
    assert_eq!(rt; chain.write(0, &[]), Err(ChainRefused::Range));
    assert_eq!(rt; chain.read(None, 299, &mut buf), Err(ChainRefused::Range));
    assert_eq!(rt;
        chain.read(Some(0), 0, &mut buf),
        Err(ChainRefused::UnknownSnap)
    );
    assert_eq!(rt; chain.merge(0), Err(ChainRefused::UnknownSnap));
    chain.write(127, &buf)?;
    chain.freeze(0)?;
    chain.write(299, &[Sector::filled(3)])?;
    let areas = chain.allocated(0)?;
    assert_eq!(rt;
        areas.as_slice(),
        [Run {
            first: 0,
            count: 256
        }]
        .as_slice()
    );
    assert!(rt; chain.is_live(0));
    Ok(())
}

/// A read on a disk of 256 GiB with three snapshots looks up at most four pages.
fn read_of_a_large_disk<L: Ledger>(
    alloc: Global,
    buf: &mut [Sector],
    steps: &mut Steps<L>,
) -> Result<(), Fail>
    requires { length buf.old ≡ 1 }
    ensures { OnOk result (steps.new ≤ steps.old + 4) }
{
    let mut chain = Chain::new(alloc, 1 << 29)?;
    chain.write(0, &[Sector::filled(1)])?;
    chain.freeze(1)?;
    chain.write(128, &[Sector::filled(2)])?;
    chain.freeze(2)?;
    chain.write((1 << 29) - 1, &[Sector::filled(3)])?;
    chain.freeze(3)?;
    chain.read_steps(None, 128, buf, steps)?;
    Ok(())
}

/// The read of the large disk with a count of its own.
fn counted_read_of_a_large_disk<L: Ledger>(
    alloc: Global,
    blank: Blank,
    buf: &mut [Sector],
) -> Result<(), Fail>
    requires name { blank.name ≡ L.name }
    requires parts { blank.parts ≡ L.parts }
    requires some_parts { 0 < L.parts }
    requires one { length buf.old ≡ 1 }
{
    let mut steps = Steps::<L>::new(blank);
    read_of_a_large_disk(alloc, buf, &mut steps)
}

#[test]
fn a_read_of_a_large_disk_looks_up_four_pages_at_most(rt: HostRuntime) -> Result<(), Fail> {
    let mut buf = [Sector::filled(9)];
    counted_read_of_a_large_disk::<Brand>(rt.alloc(), Blank::new(1), &mut buf)?;
    assert_eq!(rt; buf[0], Sector::filled(2));
    Ok(())
}
