//! A machine by worked values, one whose log is full, and drawn calls whose answers are compared
//! with those of the plain machine.
ghost use Rattle.std.specs.Prelude.{◌≡◌, ◌<◌, ◌≤◌, IfOk};

use crate::{Machine, PlainLink, WriteRefused, may_have_disks};
use basics::advance;
use change_id::{ChangeId, Since, pack};
use log_model::{Act, Link, LinkRefused, MAX_LOG_ENTRIES, MIGRATION_CALLER, Owner, PlainMachine};
use sector_model::{Page, Run, Sector};
use std::alloc::Global;
use std::process::Abort;
use std::test::Fail;

const OPERATOR: Owner = Owner::Operator;

/// The number of a guest.
const GUEST: u32 = 3;

/// Capacities of the disks on which calls are drawn.
const DRAWN: [u64; 2] = [129, 260];

/// How many calls are drawn.
const CALLS: u32 = 400;

fn run(first: u64, count: u64) -> Run {
    Run { first, count }
}

/// The identifier of disk 0 of machine 1.
fn id(resets: u64, seq: u64) -> ChangeId {
    ChangeId {
        uuid: pack(1, 0, resets),
        seq,
    }
}

/// A machine with the number 1.
fn machine(rt: &impl Abort, alloc: Global, capacities: &[u64]) -> Result<Machine, Fail> {
    assert!(rt; may_have_disks(capacities));
    Ok(Machine::new(alloc, 1, capacities)?)
}

/// The one with a disk of this capacity, for the caller that carries migrations out.
fn link(rt: &impl Abort, alloc: Global, capacity: u64) -> Result<PlainLink, Fail>
    ensures { IfOk result (λ made. made.caller ≡ MIGRATION_CALLER) }
{
    Ok(PlainLink::of(machine(rt, alloc, &[capacity])?))
}

/// A guest writes one sector of disk 0.
fn write(link: PlainLink, first: u64, byte: u8) -> Result<PlainLink, Fail> {
    let mut machine = link.into_machine();
    machine.guest_write(GUEST, 0, first, &[Sector::filled(byte)])?;
    Ok(PlainLink::of(machine))
}

/// Two blocks, both written between snapshots 1 and 2.
fn two_snapshots(rt: &impl Abort, alloc: Global) -> Result<PlainLink, Fail> {
    let mut link = link(rt, alloc, 256)?;
    link.enable()?;
    link.snap(OPERATOR, false)?;
    let mut link = write(write(link, 127, 1)?, 128, 1)?;
    link.snap(OPERATOR, false)?;
    Ok(link)
}

#[test]
fn the_last_block_is_clipped_and_no_tracking_has_no_identifier(
    rt: HostRuntime,
) -> Result<(), Fail> {
    let alloc = rt.alloc();
    let mut page = Page::new(alloc)?;
    let mut link = write(link(&rt, alloc, 200)?, 199, 1)?;
    let snapped = link.snap(OPERATOR, false)?;
    assert_eq!(rt; (snapped.id, snapped.mark, snapped.off_place), (1, 1, None));
    assert_eq!(rt; link.change_id(1, 0)?, None);
    link.query(1, 0, Since::All, 0, &mut page)?;
    assert_eq!(rt; page.areas(), [run(128, 72)].as_slice());
    assert_eq!(rt; (page.start(), page.length()), (0, 200));
    Ok(())
}

#[test]
fn writes_are_changes_since_the_snapshot_before(rt: HostRuntime) -> Result<(), Fail> {
    let alloc = rt.alloc();
    let mut page = Page::new(alloc)?;
    let mut link = two_snapshots(&rt, alloc)?;
    assert_eq!(rt; link.change_id(1, 0)?, Some(id(0, 1)));
    link.query(2, 0, Since::From(id(0, 1)), 0, &mut page)?;
    assert_eq!(rt; page.areas(), [run(0, 256)].as_slice());
    assert_eq!(rt; page.length(), 256);
    assert_eq!(rt; link.change_id(2, 0)?, Some(id(0, 2)));
    Ok(())
}

#[test]
fn nothing_changed_since_the_snapshot_itself(rt: HostRuntime) -> Result<(), Fail> {
    let alloc = rt.alloc();
    let mut page = Page::new(alloc)?;
    let mut link = two_snapshots(&rt, alloc)?;
    link.query(2, 0, Since::From(id(0, 2)), 0, &mut page)?;
    assert_eq!(rt; (page.areas().len(), page.length()), (0, 256));
    let past = link.query(2, 0, Since::From(id(0, 2)), 256, &mut page);
    assert_eq!(rt; past, Err(LinkRefused::Range));
    Ok(())
}

#[test]
fn an_identifier_that_was_not_given_is_strange(rt: HostRuntime) -> Result<(), Fail> {
    let alloc = rt.alloc();
    let mut page = Page::new(alloc)?;
    let mut link = two_snapshots(&rt, alloc)?;
    link.snap(OPERATOR, false)?;
    let strange = link.query(3, 0, Since::From(id(0, 7)), 0, &mut page);
    assert_eq!(rt; strange, Err(LinkRefused::Strange(Some(id(0, 3)))));
    Ok(())
}

#[test]
fn a_reset_makes_identifiers_strange_and_keeps_snapshots(rt: HostRuntime) -> Result<(), Fail> {
    let alloc = rt.alloc();
    let mut page = Page::new(alloc)?;
    let mut link = two_snapshots(&rt, alloc)?;
    link.reset(0)?;
    let strange = link.query(2, 0, Since::From(id(0, 1)), 0, &mut page);
    assert_eq!(rt; strange, Err(LinkRefused::Strange(None)));
    link.query(2, 0, Since::All, 0, &mut page)?;
    assert_eq!(rt; page.areas(), [run(0, 256)].as_slice());
    assert_eq!(rt; link.change_id(2, 0)?, Some(id(0, 2)));
    let next = link.snap(OPERATOR, false)?;
    assert_eq!(rt; link.change_id(next.id, 0)?, Some(id(1, 1)));
    Ok(())
}

#[test]
fn a_removed_snapshot_leaves_what_the_disk_holds(rt: HostRuntime) -> Result<(), Fail> {
    let alloc = rt.alloc();
    let mut buf = [Sector::filled(9)];
    let mut link = write(link(&rt, alloc, 256)?, 5, 1)?;
    link.snap(OPERATOR, false)?;
    let mut link = write(link, 5, 2)?;
    link.read_snap(1, 0, 5, &mut buf)?;
    assert_eq!(rt; buf[0], Sector::filled(1));
    link.remove(OPERATOR, 1)?;
    assert_eq!(rt; link.remove(OPERATOR, 1), Err(LinkRefused::UnknownSnap));
    let machine = link.into_machine();
    machine.read_now(0, 5, &mut buf)?;
    assert_eq!(rt; buf[0], Sector::filled(2));
    assert_eq!(rt; machine.read_now(0, 256, &mut buf), Err(LinkRefused::Range));
    Ok(())
}

#[test]
fn a_machine_that_is_off_takes_no_write(rt: HostRuntime) -> Result<(), Fail> {
    let alloc = rt.alloc();
    let mut link = link(&rt, alloc, 256)?;
    assert_eq!(rt; link.snap(OPERATOR, true), Err(LinkRefused::Running));
    assert_eq!(rt; link.power_off()?, 0);
    assert_eq!(rt; link.power_off(), Err(LinkRefused::AlreadyOff));
    assert_eq!(rt; link.snap(OPERATOR, true)?.off_place, Some(0));
    let mut machine = link.into_machine();
    let refused = machine.guest_write(GUEST, 0, 5, &[Sector::filled(1)]);
    assert_eq!(rt; refused, Err(WriteRefused::Off));
    assert_eq!(rt; machine.look().entries, 2);
    let mut link = PlainLink::of(machine);
    assert_eq!(rt; link.power_on()?, 2);
    assert_eq!(rt; link.power_on(), Err(LinkRefused::AlreadyOn));
    Ok(())
}

#[test]
fn a_migration_s_snapshot_is_removed_by_its_caller_alone(rt: HostRuntime) -> Result<(), Fail> {
    let owner = Owner::Migration(7);
    let mut first = link(&rt, rt.alloc(), 256)?;
    let snapped = first.snap(owner, false)?;
    let by_another = [OPERATOR, Owner::Migration(8)];
    for other in by_another {
        assert_eq!(rt; first.remove(other, snapped.id), Err(LinkRefused::Owned));
    }
    let mut second = PlainLink::numbered(first.into_machine(), MIGRATION_CALLER + 1);
    assert_eq!(rt; second.owned_from(owner, 0), Some(1));
    assert_eq!(rt; second.remove(owner, snapped.id), Err(LinkRefused::Owned));
    let mut first = PlainLink::of(second.into_machine());
    first.remove(owner, snapped.id)?;
    assert_eq!(rt; first.owned_from(owner, 0), None);
    Ok(())
}

#[test]
fn a_large_disk_tells_its_one_block(rt: HostRuntime) -> Result<(), Fail> {
    let alloc = rt.alloc();
    let mut page = Page::new(alloc)?;
    let mut machine = machine(&rt, alloc, &[83_886_080, 209_715_200])?;
    machine.guest_write(GUEST, 0, 2048, &[Sector::filled(1); 8])?;
    let mut link = PlainLink::of(machine);
    link.snap(OPERATOR, false)?;
    link.query(1, 0, Since::All, 0, &mut page)?;
    assert_eq!(rt; page.areas(), [run(2048, 128)].as_slice());
    assert_eq!(rt; page.length(), 83_886_080);
    assert_eq!(rt; link.change_id(1, 1)?, None);
    Ok(())
}

#[test]
fn a_machine_tells_its_disks_and_its_log(rt: HostRuntime) -> Result<(), Fail> {
    let mut machine = machine(&rt, rt.alloc(), &[200, 256])?;
    assert_eq!(rt; (machine.number(), machine.disks()), (1, 2));
    assert_eq!(rt; machine.capacity(1), 256);
    machine.guest_write(GUEST, 1, 255, &[Sector::filled(1)])?;
    let passed = machine.guest_write(GUEST, 0, 199, &[Sector::filled(1); 2]);
    assert_eq!(rt; passed, Err(WriteRefused::Range));
    let entry = machine.entry(0).ok_or("no entry")?;
    assert_eq!(rt; entry.who, GUEST);
    assert!(rt;
        matches!(
            entry.act,
            Act::Write {
                disk: 1,
                first: 255,
                ..
            }
        )
    );
    assert!(rt; machine.entry(1).is_none());
    assert_eq!(rt; machine.look().entries, 1);
    assert_eq!(rt; machine.writes_before(1), 1);
    Ok(())
}

#[test]
fn capacities_have_limits(rt: HostRuntime) {
    assert!(rt; may_have_disks(&[1; 16]));
    assert!(rt; may_have_disks(&[1 << 29]));
    assert!(rt; !may_have_disks(&[]));
    assert!(rt; !may_have_disks(&[1; 17]));
    assert!(rt; !may_have_disks(&[1, 0]));
    assert!(rt; !may_have_disks(&[(1 << 29) + 1]));
}

#[test]
fn a_full_log_is_spent(rt: HostRuntime) -> Result<(), Fail> {
    let alloc = rt.alloc();
    let mut link = link(&rt, alloc, 256)?;
    for _ in 0..MAX_LOG_ENTRIES / 2 {
        link.power_off()?;
        link.power_on()?;
    }
    assert_eq!(rt; link.snap(OPERATOR, false), Err(LinkRefused::Spent));
    assert_eq!(rt; link.power_off(), Err(LinkRefused::Spent));
    assert_eq!(rt; link.power_on(), Err(LinkRefused::AlreadyOn));
    assert_eq!(rt; link.remove(OPERATOR, 1), Err(LinkRefused::UnknownSnap));
    let mut machine = link.into_machine();
    let refused = machine.guest_write(GUEST, 0, 0, &[Sector::filled(1)]);
    assert_eq!(rt; refused, Err(WriteRefused::LogFull));
    assert_eq!(rt; machine.look().entries, MAX_LOG_ENTRIES as u64);
    Ok(())
}

/// A part of a drawn number: below the limit, from the bit on.
fn part(x: u64, bit: u64, limit: u64) -> u64
    requires bits { bit < 64 }
    requires some { 1 ≤ limit }
    ensures { result < limit }
{
    (x >> bit) % limit
}

/// A drawn write to both machines.
fn write_both(rt: &impl Abort, machine: &mut Machine, plain: &mut PlainMachine, x: u64) {
    let sectors = [Sector::stamped(x); 4];
    let written = &sectors[..part(x, 20, 5) as usize];
    let who = part(x, 24, 4) as u32;
    let disk = part(x, 28, 3) as u32;
    let first = part(x, 32, 261);
    let answer = machine.guest_write(who, disk, first, written);
    assert_eq!(rt; answer, plain.write(who, disk, first, written));
}

/// A drawn call of both links.
fn call_both(rt: &impl Abort, link: &mut PlainLink, plain: &mut PlainMachine, x: u64) {
    let disk = part(x, 28, 3) as u32;
    let snap = part(x, 32, 1 + link.facts().snaps as u64) as u32;
    let owner = if part(x, 24, 8) == 0 {
        Owner::Migration(7)
    } else {
        OPERATOR
    };
    match part(x, 56, 16) {
        0 => assert_eq!(rt; link.power_off(), plain.power_off()),
        1..=3 => assert_eq!(rt; link.power_on(), plain.power_on()),
        4 => assert_eq!(rt; link.reset(disk), plain.reset(disk)),
        5 => assert_eq!(rt; link.enable(), plain.enable()),
        6..=9 => assert_eq!(rt; link.remove(owner, snap), plain.remove(owner, snap)),
        10 => assert_eq!(rt; link.snap(OPERATOR, true), plain.snap(OPERATOR, true)),
        _ => assert_eq!(rt; link.snap(OPERATOR, false), plain.snap(OPERATOR, false)),
    }
    assert_eq!(rt; link.facts(), plain.facts());
    assert_eq!(rt; link.owned_from(owner, snap), plain.owned_from(owner, snap));
}

/// The identifier of a drawn snapshot, or one of the first epoch that may not have been given.
fn since(plain: &mut PlainMachine, disk: u32, x: u64) -> Since {
    let snap = part(x, 36, 1 + plain.facts().snaps as u64) as u32;
    match plain.change_id(snap, disk) {
        Ok(Some(given)) => Since::From(given),
        Ok(None) => Since::All,
        Err(_) => Since::From(ChangeId {
            uuid: pack(1, disk, 0),
            seq: part(x, 44, 9),
        }),
    }
}

/// A drawn snapshot of both machines: its identifier, what it froze, and what changed.
fn compare(
    rt: &impl Abort,
    alloc: Global,
    link: &mut PlainLink,
    plain: &mut PlainMachine,
    x: u64,
) -> Result<(), Fail> {
    let disk = part(x, 28, 3) as u32;
    let snap = part(x, 32, 1 + plain.facts().snaps as u64) as u32;
    assert_eq!(rt; link.change_id(snap, disk), plain.change_id(snap, disk));
    let mut read = [Sector::filled(9); 4];
    let mut wanted = [Sector::filled(9); 4];
    let first = part(x, 20, 260);
    let answer = link.read_snap(snap, disk, first, &mut read);
    assert_eq!(rt; answer, plain.read_snap(snap, disk, first, &mut wanted));
    assert_eq!(rt; read, wanted);
    compare_pages(rt, alloc, link, plain, snap, disk, x)
}

/// A drawn page of what changed up to a snapshot.
fn compare_pages(
    rt: &impl Abort,
    alloc: Global,
    link: &mut PlainLink,
    plain: &mut PlainMachine,
    snap: u32,
    disk: u32,
    x: u64,
) -> Result<(), Fail> {
    let mut page = Page::new(alloc)?;
    let mut wanted = Page::new(alloc)?;
    let from = since(plain, disk, x);
    let start = part(x, 50, 300);
    let answer = link.query(snap, disk, from, start, &mut page);
    assert_eq!(rt; answer, plain.query(snap, disk, from, start, &mut wanted));
    assert_eq!(rt; page.areas(), wanted.areas());
    assert_eq!(rt;
        (page.start(), page.length()),
        (wanted.start(), wanted.length())
    );
    Ok(())
}

/// What the writes of a log leave of a sector.
fn last_written(plain: &PlainMachine, number: u32, at: u64) -> Sector {
    let mut last = Sector::filled(0);
    for entry in plain.log() {
        if let Act::Write {
            disk,
            first,
            sectors,
        } = &entry.act
            && *disk == number
            && let Some(place) = at.checked_sub(*first)
            && let Some(sector) = sectors.as_slice().get(place as usize)
        {
            last = *sector;
        }
    }
    last
}

#[test]
fn drawn_calls_answer_as_the_plain_machine_does(rt: HostRuntime) -> Result<(), Fail> {
    let alloc = rt.alloc();
    let mut x = 20_261_201;
    let mut machine = machine(&rt, alloc, &DRAWN)?;
    let mut plain = PlainMachine::new(alloc, 1, &DRAWN, MIGRATION_CALLER)?;
    for _ in 0..CALLS {
        x = advance(x);
        let mut link = PlainLink::of(machine);
        call_both(&rt, &mut link, &mut plain, x);
        compare(&rt, alloc, &mut link, &mut plain, advance(x))?;
        machine = link.into_machine();
        write_both(&rt, &mut machine, &mut plain, x);
        let mut now = [Sector::filled(9)];
        if machine.read_now(0, part(x, 40, 129), &mut now).is_ok() {
            assert_eq!(rt; now[0], last_written(&plain, 0, part(x, 40, 129)));
        }
    }
    Ok(())
}
