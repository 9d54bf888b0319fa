//! What a disk tells of its blocks and identifiers, before and after resets and removals.
ghost use Rattle.std.specs.Prelude.{◌≡◌, ◌+◌, ◌≤◌, IfOk, OnOk};
ghost use Rattle.source_disk.specs.SourceDisk.{epoch_of, IsFree};

use crate::SourceDisk;
use change_id::{ChangeId, Since, pack};
use change_tracker::TrackRefused;
use sector_model::{Page, Run, Sector};
use snapshot_chain::ChainRefused;
use std::alloc::Global;
use std::process::Abort;
use std::test::Fail;

/// The identifier of machine 1 and disk 0.
fn id_of(resets: u64, seq: u64) -> ChangeId {
    ChangeId {
        uuid: pack(1, 0, resets),
        seq,
    }
}

fn run(first: u64, count: u64) -> Run {
    Run { first, count }
}

/// A disk 0 of machine 1 that was never written.
fn fresh_disk(alloc: Global, capacity: u64) -> Result<SourceDisk, Fail>
    ensures free { IfOk result (λ disk. disk.chain.free_from ≡ 0) }
    ensures epoch { IfOk result (λ disk. epoch_of disk ≡ 0) }
{
    Ok(SourceDisk::new(alloc, 1, 0, capacity)?)
}

fn enable(disk: &mut SourceDisk)
    ensures free { disk.new.chain.free_from ≡ disk.old.chain.free_from }
    ensures epoch { epoch_of disk.new ≡ epoch_of disk.old }
{
    disk.enable();
}

/// Takes a snapshot, and tells its identifier.
fn snap(disk: &mut SourceDisk, id: u32) -> Result<Option<ChangeId>, Fail>
    requires { IsFree id disk.old }
    ensures free { OnOk result (disk.new.chain.free_from ≡ id + 1) }
    ensures epoch { OnOk result (epoch_of disk.new ≡ epoch_of disk.old) }
{
    Ok(disk.freeze(id)?)
}

/// Fills a sector.
fn fill(disk: &mut SourceDisk, sector: u64, byte: u8) -> Result<(), Fail>
    ensures free { OnOk result (disk.new.chain.free_from ≡ disk.old.chain.free_from) }
    ensures epoch { OnOk result (epoch_of disk.new ≡ epoch_of disk.old) }
{
    Ok(disk.write(sector, &[Sector::filled(byte)])?)
}

/// The first reset.
fn reset(disk: &mut SourceDisk)
    requires { epoch_of disk.old ≡ 0 }
    ensures { disk.new.chain.free_from ≡ disk.old.chain.free_from }
{
    disk.reset();
}

fn merge(disk: &mut SourceDisk, id: u32) -> Result<(), ChainRefused> {
    disk.merge(id)
}

fn read(disk: &SourceDisk, id: Option<u32>, sector: u64) -> Result<Sector, Fail> {
    let mut buf = [Sector::filled(9)];
    disk.read(id, sector, &mut buf)?;
    Ok(buf[0])
}

/// The page of an answer.
fn query(
    disk: &SourceDisk,
    id: u32,
    since: Since,
    start: u64,
    page: &mut Page,
) -> Result<(), TrackRefused> {
    disk.query(id, since, start, page)
}

/// A disk of 256 sectors, tracked, with a snapshot, writes at 127 and 128, and a second one.
fn two_snapshots(rt: &impl Abort, alloc: Global) -> Result<SourceDisk, Fail>
    ensures free { IfOk result (λ disk. disk.chain.free_from ≡ 3) }
    ensures epoch { IfOk result (λ disk. epoch_of disk ≡ 0) }
{
    let mut disk = fresh_disk(alloc, 256)?;
    enable(&mut disk);
    assert_eq!(rt; snap(&mut disk, 1)?, Some(id_of(0, 1)));
    fill(&mut disk, 127, 1)?;
    fill(&mut disk, 128, 2)?;
    assert_eq!(rt; snap(&mut disk, 2)?, Some(id_of(0, 2)));
    Ok(disk)
}

#[test]
fn an_untracked_disk_tells_its_allocated_areas(rt: HostRuntime) -> Result<(), Fail> {
    let alloc = rt.alloc();
    let mut disk = fresh_disk(alloc, 200)?;
    let mut page = Page::new(alloc)?;
    fill(&mut disk, 199, 1)?;
    assert_eq!(rt; snap(&mut disk, 1)?, None);
    query(&disk, 1, Since::All, 0, &mut page)?;
    assert_eq!(rt; page.areas(), [run(128, 72)].as_slice());
    assert_eq!(rt; page.length(), 200);
    assert_eq!(rt; disk.allocated(1)?.as_slice(), [run(128, 72)].as_slice());
    Ok(())
}

#[test]
fn changes_are_told_since_a_snapshot(rt: HostRuntime) -> Result<(), Fail> {
    let alloc = rt.alloc();
    let disk = two_snapshots(&rt, alloc)?;
    let mut page = Page::new(alloc)?;
    query(&disk, 2, Since::From(id_of(0, 1)), 0, &mut page)?;
    assert_eq!(rt; page.areas(), [run(0, 256)].as_slice());
    query(&disk, 2, Since::From(id_of(0, 2)), 0, &mut page)?;
    assert_eq!(rt; page.areas(), [].as_slice());
    assert_eq!(rt; page.length(), 256);
    let past = query(&disk, 2, Since::From(id_of(0, 2)), 256, &mut page);
    assert_eq!(rt; past, Err(TrackRefused::Range));
    Ok(())
}

#[test]
fn a_number_that_was_not_given_is_strange(rt: HostRuntime) -> Result<(), Fail> {
    let alloc = rt.alloc();
    let mut disk = two_snapshots(&rt, alloc)?;
    let mut page = Page::new(alloc)?;
    snap(&mut disk, 3)?;
    let strange = query(&disk, 3, Since::From(id_of(0, 7)), 0, &mut page);
    assert_eq!(rt; strange, Err(TrackRefused::Strange(Some(id_of(0, 3)))));
    Ok(())
}

#[test]
fn a_reset_makes_identifiers_strange_and_keeps_snapshots(rt: HostRuntime) -> Result<(), Fail> {
    let alloc = rt.alloc();
    let mut disk = two_snapshots(&rt, alloc)?;
    let mut page = Page::new(alloc)?;
    reset(&mut disk);
    let strange = query(&disk, 2, Since::From(id_of(0, 1)), 0, &mut page);
    assert_eq!(rt; strange, Err(TrackRefused::Strange(None)));
    query(&disk, 2, Since::All, 0, &mut page)?;
    assert_eq!(rt; page.areas(), [run(0, 256)].as_slice());
    assert_eq!(rt; disk.id_of(2), Ok(Some(id_of(0, 2))));
    assert_eq!(rt; snap(&mut disk, 3)?, Some(id_of(1, 1)));
    Ok(())
}

#[test]
fn a_removed_snapshot_leaves_what_the_disk_holds(rt: HostRuntime) -> Result<(), Fail> {
    let mut disk = fresh_disk(rt.alloc(), 256)?;
    fill(&mut disk, 5, 1)?;
    snap(&mut disk, 1)?;
    fill(&mut disk, 5, 2)?;
    assert_eq!(rt; read(&disk, Some(1), 5)?, Sector::filled(1));
    merge(&mut disk, 1)?;
    assert_eq!(rt; read(&disk, None, 5)?, Sector::filled(2));
    assert_eq!(rt; merge(&mut disk, 1), Err(ChainRefused::UnknownSnap));
    Ok(())
}

#[test]
fn an_identifier_outlives_its_snapshot(rt: HostRuntime) -> Result<(), Fail> {
    let alloc = rt.alloc();
    let mut disk = two_snapshots(&rt, alloc)?;
    let mut page = Page::new(alloc)?;
    merge(&mut disk, 1)?;
    query(&disk, 2, Since::From(id_of(0, 1)), 0, &mut page)?;
    assert_eq!(rt; page.areas(), [run(0, 256)].as_slice());
    let removed = query(&disk, 1, Since::All, 0, &mut page);
    assert_eq!(rt; removed, Err(TrackRefused::UnknownSnap));
    assert_eq!(rt; disk.id_of(1), Err(TrackRefused::UnknownSnap));
    Ok(())
}
