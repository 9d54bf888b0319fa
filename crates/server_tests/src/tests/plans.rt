//! The commands on plans, and the journal that they keep, over `migrate`.
use super::machines::{Exchange, HOST, SMALL, lines_of, replies_of};
use super::{DISK_ROOM, EndedRun, SOUND, held, served, served_on};
use edge_traits::{Disk, MemDisk, Pick, StopDisk};
use migrate_server::{Fleet, Status};
use std::test::Fail;

const OK: &str = r#"{"ok":true}"#;

const ENABLE: Exchange = (r#"{"cmd":"enable","vm":"a"}"#, OK);

const SNAPSHOT: Exchange = (
    r#"{"cmd":"snapshot","vm":"a"}"#,
    r#"{"ids":["00000001-0000-0000-0000-000000000000/1"],"ok":true,"snapshot":1}"#,
);

const PLAN: &str = r#"{"cmd":"plan","name":"p","vms":["a"]}"#;

const UNTRACKED: &str = r#"{"error":"no-tracking","ok":false,"vm":"a"}"#;

const START: Exchange = (
    r#"{"cmd":"start","plan":"p"}"#,
    r#"{"migrations":[1],"ok":true}"#,
);

/// A machine that is tracked, and a plan of it.
const PLANNED: [Exchange; 5] = [HOST, SMALL, ENABLE, SNAPSHOT, (PLAN, OK)];

#[test]
fn a_plan_takes_machines_that_are_tracked_and_in_no_other(rt: HostRuntime) -> Result<(), Fail> {
    let exchanges = [
        HOST,
        SMALL,
        (PLAN, UNTRACKED),
        ENABLE,
        (PLAN, UNTRACKED),
        SNAPSHOT,
        (PLAN, OK),
        (PLAN, r#"{"error":"name-taken","ok":false}"#),
        (
            r#"{"cmd":"plan","name":"q","vms":["a"]}"#,
            r#"{"error":"in-plan","ok":false,"vm":"a"}"#,
        ),
    ];
    let run = served(&rt, lines_of(rt.alloc(), &exchanges)?.as_str())?;
    assert_eq!(rt; held(&run), replies_of(rt.alloc(), &exchanges)?.as_bytes());
    Ok(())
}

const STATUS: Exchange = (
    r#"{"cmd":"status"}"#,
    concat!(
        r#"{"migrations":[{"cause":null,"checkpoints":[],"dv":"Pending","marks":[],"mig":1,"#,
        r#""phase":"Started","place":null,"plan":"p","state":"ready","vm":"a","#,
        r#""writes":null,"written":[]}],"ok":true}"#
    ),
);

/// What is asked of a plan once it was made.
const STARTED: [Exchange; 3] = [START, (r#"{"cmd":"cutover","plan":"p"}"#, OK), STATUS];

#[test]
fn a_second_call_goes_on_with_what_the_journal_has(rt: HostRuntime) -> Result<(), Fail> {
    let alloc = rt.alloc();
    let first = served(&rt, lines_of(alloc, &PLANNED)?.as_str())?;
    assert_eq!(rt; held(&first), replies_of(alloc, &PLANNED)?.as_bytes());
    let disk = first.disk.image(Pick::Old)?;
    let lines = lines_of(alloc, &STARTED)?;
    let second = served_on(&rt, &SOUND, &[], lines.as_bytes(), disk, first.fleet)?;
    assert_eq!(rt; held(&second), replies_of(alloc, &STARTED)?.as_bytes());
    assert_eq!(rt; second.status, Status::Ok);
    Ok(())
}

/// The opening of an empty journal has six calls that may fail, and an append begins with a write.
#[test]
fn a_line_whose_record_is_not_kept_has_no_reply(rt: HostRuntime) -> Result<(), Fail> {
    let alloc = rt.alloc();
    let disk = MemDisk::new(alloc, &[], DISK_ROOM, &[7])?;
    let lines = lines_of(alloc, &PLANNED)?;
    let fleet = Fleet::empty(alloc);
    let run = served_on(&rt, &SOUND, &[], lines.as_bytes(), disk, fleet)?;
    assert_eq!(rt; held(&run), replies_of(alloc, &PLANNED[..4])?.as_bytes());
    assert_eq!(rt; run.status, Status::JournalFault);
    Ok(())
}

/// All bytes of a disk, of which there are so many.
fn bytes_of<const N: usize>(mut disk: MemDisk) -> Result<[u8; N], Fail> {
    let mut bytes = [0; N];
    if disk.length()? != N as u64 {
        return Err("another length")?;
    }
    disk.read(0, &mut bytes)?;
    Ok(bytes)
}

#[test]
fn a_file_that_is_no_journal_is_left(rt: HostRuntime) -> Result<(), Fail> {
    let alloc = rt.alloc();
    let disk = MemDisk::new(alloc, b"0123456789", DISK_ROOM, &[])?;
    let run = served_on(&rt, &SOUND, &[], b"x\n", disk, Fleet::empty(alloc))?;
    assert_eq!(rt; run.status, Status::StrangeJournal(0));
    assert_eq!(rt; held(&run), b"".as_slice());
    assert_eq!(rt; bytes_of(run.disk)?, *b"0123456789");
    Ok(())
}

#[test]
fn a_file_of_few_bytes_becomes_a_journal(rt: HostRuntime) -> Result<(), Fail> {
    let alloc = rt.alloc();
    let disk = MemDisk::new(alloc, b"012345678", DISK_ROOM, &[])?;
    let run = served_on(&rt, &SOUND, &[], b"x\n", disk, Fleet::empty(alloc))?;
    assert_eq!(rt; run.status, Status::Ok);
    assert_eq!(rt; bytes_of(run.disk)?, *b"WARMJNL1\0");
    Ok(())
}

/// A plan's record has the minutes between two copies behind its name.
#[test]
fn a_plan_copies_every_hour_where_no_interval_is_asked(rt: HostRuntime) -> Result<(), Fail> {
    let run = served(&rt, lines_of(rt.alloc(), &PLANNED)?.as_str())?;
    assert_eq!(rt;
        bytes_of(run.disk)?,
        *b"WARMJNL1\x01\0\0\0\x13\x01\0\0\0\x01\x01p\0\0\0\x3c\0\0\0\x01\0\0\0\x01\0"
    );
    Ok(())
}

/// A plan of a machine that goes on being written is made and started, and looked at.
const ORDERED: [Exchange; 9] = [
    HOST,
    SMALL,
    ENABLE,
    SNAPSHOT,
    (r#"{"cmd":"remove","vm":"a","snapshot":1}"#, OK),
    (PLAN, OK),
    (
        r#"{"cmd":"write","vm":"a","disk":0,"first":5,"count":1,"fill":1}"#,
        OK,
    ),
    START,
    STATUS,
];

/// A run over a disk that stops at this call, and what a second one writes over what a crash leaves
/// of it, with the lines that weren't answered.
fn goes_on(rt: &HostRuntime, call: u64, pick: Pick) -> Result<EndedRun<MemDisk>, Fail> {
    let alloc = rt.alloc();
    let disk = StopDisk::new(MemDisk::new(alloc, &[], DISK_ROOM, &[])?, call);
    let lines = lines_of(alloc, &ORDERED)?;
    let first = served_on(rt, &SOUND, &[], lines.as_bytes(), disk, Fleet::empty(alloc))?;
    let whole = held(&first) == replies_of(alloc, &ORDERED)?.as_bytes();
    match first.status {
        Status::Ok if whole => {}
        Status::JournalFault if !whole => {}
        _ => return Err("the first run ended otherwise")?,
    }
    let answered = held(&first).iter().filter(|byte| **byte == b'\n').count();
    let rest = lines_of(alloc, ORDERED.get(answered..).unwrap_or(&[]))?;
    let image = first.disk.into_inner().image(pick)?;
    served_on(rt, &SOUND, &[], rest.as_bytes(), image, first.fleet)
}

/// The opening and two appends take at most 15 calls that may stop.
#[test]
fn a_run_goes_on_wherever_the_one_before_was_cut(rt: HostRuntime) -> Result<(), Fail> {
    for call in 1..16 {
        for pick in [Pick::Old, Pick::New, Pick::Mixed(call)] {
            let second = goes_on(&rt, call, pick)?;
            assert_eq!(rt; second.status, Status::Ok);
            let written = held(&second);
            assert!(rt;
                written.is_empty() || written.trim_ascii_end().ends_with(STATUS.1.as_bytes())
            );
        }
    }
    Ok(())
}
