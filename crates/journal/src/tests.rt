//! What a journal leaves on disks in memory, byte for byte, and after a stop at each of its steps.
ghost use Rattle.std.specs.Prelude.{◌≡◌, ◌≤◌, length, IfOk};
ghost use Rattle.record_codec.specs.Record.{KeepsRule};

use crate::{Disk, Journal, JournalRefused, MAGIC, MAX_BYTES, Record, Unrepaired};
use change_id::ChangeId;
use edge_traits::{MemDisk, Pick, StopDisk};
use record_codec::IdList;
use std::alloc::Global;
use std::process::Abort;
use std::test::Fail;

/// The file after the cancel of migration 1, put together by hand.
const ONE_CANCEL: [u8; 19] = *b"WARMJNL1\x01\0\0\0\x05\x11\0\0\0\x01\0";

fn cancel(mig: u32) -> Record
    ensures { KeepsRule result }
{
    Record::CancelAsked { mig }
}

/// A file of so many bytes that begins as a journal and has no open gate.
fn long_file(alloc: Global, len: usize) -> Result<Vec<u8>, Fail>
    requires { 8 ≤ len }
    ensures { IfOk result (λ file. length file.items ≡ len) }
{
    let mut file = vec![in alloc; 0; len]?;
    file[..8].copy_from_slice(&MAGIC);
    Ok(file)
}

/// What a disk of at most 64 bytes holds.
fn bytes_of(rt: &impl Abort, alloc: Global, disk: MemDisk) -> Result<Vec<u8>, Fail> {
    let mut disk = disk;
    let length = disk.length().or(Err("no length"))? as usize;
    assert!(rt; length <= 64);
    let mut bytes = vec![in alloc; 0; length]?;
    disk.read(0, &mut bytes).or(Err("not read"))?;
    Ok(bytes)
}

fn opened<D: Disk + Drop>(alloc: Global, disk: D) -> Result<Journal<D>, Fail> {
    match Journal::open(alloc, disk) {
        Ok(journal) => Ok(journal),
        Err((_, refused)) => Err(refused)?,
    }
}

fn unrepaired<D: Disk + Drop>(alloc: Global, disk: D) -> Result<Unrepaired<D>, Fail> {
    match Unrepaired::read(alloc, disk) {
        Ok(file) => Ok(file),
        Err((_, refused)) => Err(refused)?,
    }
}

fn refusal<D: Disk + Drop>(alloc: Global, disk: D) -> Option<JournalRefused> {
    match Journal::open(alloc, disk) {
        Ok(_) => None,
        Err((_, refused)) => Some(refused),
    }
}

#[test]
fn a_fresh_journal_is_the_magic_and_a_closed_gate(rt: HostRuntime) -> Result<(), Fail> {
    let disk = MemDisk::new(rt.alloc(), b"", 1000, &[])?;
    let disk = opened(rt.alloc(), disk)?.close();
    let bytes = bytes_of(&rt, rt.alloc(), disk)?;
    assert_eq!(rt; bytes.as_slice(), b"WARMJNL1\0".as_slice());
    Ok(())
}

#[test]
fn a_record_is_appended_behind_its_gate(rt: HostRuntime) -> Result<(), Fail> {
    let disk = MemDisk::new(rt.alloc(), b"", 1000, &[])?;
    let mut journal = opened(rt.alloc(), disk)?;
    assert_eq!(rt; journal.append(&cancel(1)), Ok(()));
    assert_eq!(rt; journal.records().len(), 1);
    let bytes = bytes_of(&rt, rt.alloc(), journal.close())?;
    assert_eq!(rt; bytes.as_slice(), ONE_CANCEL.as_slice());
    Ok(())
}

#[test]
fn a_closed_gate_ends_the_records_and_the_file(rt: HostRuntime) -> Result<(), Fail> {
    let mut file = ONE_CANCEL;
    file[8] = 0;
    let disk = MemDisk::new(rt.alloc(), &file, 1000, &[])?;
    let journal = opened(rt.alloc(), disk)?;
    assert_eq!(rt; journal.records().len(), 0);
    let bytes = bytes_of(&rt, rt.alloc(), journal.close())?;
    assert_eq!(rt; bytes.as_slice(), b"WARMJNL1\0".as_slice());
    Ok(())
}

#[test]
fn an_odd_closed_gate_stays(rt: HostRuntime) -> Result<(), Fail> {
    let disk = MemDisk::new(rt.alloc(), b"WARMJNL1\x7fabc", 1000, &[])?;
    let bytes = bytes_of(&rt, rt.alloc(), opened(rt.alloc(), disk)?.close())?;
    assert_eq!(rt; bytes.as_slice(), b"WARMJNL1\x7f".as_slice());
    Ok(())
}

/// A file that has a cancel, and something behind its closed gate.
fn torn_file() -> [u8; 30] {
    let mut file = [1; 30];
    file[..19].copy_from_slice(&ONE_CANCEL);
    file
}

#[test]
fn a_file_that_is_left_keeps_its_bytes(rt: HostRuntime) -> Result<(), Fail> {
    let torn = torn_file();
    let files: [(&[u8], usize); 3] = [(b"abc", 0), (b"WARMJNL1\x7fabc", 0), (&torn, 1)];
    for (file, count) in files {
        let disk = MemDisk::new(rt.alloc(), file, 1000, &[])?;
        let read = unrepaired(rt.alloc(), disk)?;
        assert_eq!(rt; read.records().len(), count, "{file:?}");
        let bytes = bytes_of(&rt, rt.alloc(), read.leave())?;
        assert_eq!(rt; bytes.as_slice(), file);
    }
    Ok(())
}

#[test]
fn a_file_that_is_read_and_repaired_is_opened(rt: HostRuntime) -> Result<(), Fail> {
    let torn = torn_file();
    let files: [(&[u8], &[u8]); 3] = [
        (b"abc", b"WARMJNL1\0"),
        (b"WARMJNL1\x7fabc", b"WARMJNL1\x7f"),
        (&torn, &ONE_CANCEL),
    ];
    for (file, wanted) in files {
        let disk = MemDisk::new(rt.alloc(), file, 1000, &[])?;
        let read = unrepaired(rt.alloc(), disk)?;
        let count = read.records().len();
        let Ok(journal) = read.repair() else {
            return Err("not repaired")?;
        };
        assert_eq!(rt; journal.records().len(), count, "{file:?}");
        let bytes = bytes_of(&rt, rt.alloc(), journal.close())?;
        assert_eq!(rt; bytes.as_slice(), wanted);
    }
    Ok(())
}

#[test]
fn a_repair_that_fails_tells_its_offset(rt: HostRuntime) -> Result<(), Fail> {
    let disk = MemDisk::new(rt.alloc(), &torn_file(), 1000, &[4])?;
    let read = unrepaired(rt.alloc(), disk)?;
    let Err((disk, refused)) = read.repair() else {
        return Err("repaired")?;
    };
    assert_eq!(rt; refused, JournalRefused::DiskFault { at: 19 });
    assert_eq!(rt; opened(rt.alloc(), disk)?.records().len(), 1);
    Ok(())
}

#[test]
fn records_that_are_cut_or_none_are_bad(rt: HostRuntime) -> Result<(), Fail> {
    let mut longer = ONE_CANCEL;
    longer[12] = 6;
    let files: [(&[u8], u64); 4] = [
        (&longer, 1),
        (&ONE_CANCEL[..18], 2),
        (b"WARMJNL1\x01\0\0\0\0\0", 1),
        (b"WARMJNL1\x01\0\0\0\x01\x11\0", 1),
    ];
    for (file, number) in files {
        let disk = MemDisk::new(rt.alloc(), file, 1000, &[]);
        let refused = refusal(rt.alloc(), disk?);
        assert_eq!(rt;
            refused,
            Some(JournalRefused::BadRecord(number)),
            "{file:?}"
        );
    }
    Ok(())
}

#[test]
fn other_files_are_no_journals(rt: HostRuntime) -> Result<(), Fail> {
    let disk = MemDisk::new(rt.alloc(), b"0123456789", 1000, &[])?;
    assert_eq!(rt;
        refusal(rt.alloc(), disk),
        Some(JournalRefused::NotAJournal)
    );
    let disk = MemDisk::new(rt.alloc(), b"012345678", 1000, &[])?;
    assert_eq!(rt; refusal(rt.alloc(), disk), None);
    Ok(())
}

#[test]
fn a_file_of_more_than_the_limit_is_no_journal(rt: HostRuntime) -> Result<(), Fail> {
    let file = long_file(rt.alloc(), MAX_BYTES + 1)?;
    let disk = MemDisk::new(rt.alloc(), &file, MAX_BYTES + 100, &[])?;
    assert_eq!(rt;
        refusal(rt.alloc(), disk),
        Some(JournalRefused::NotAJournal)
    );
    Ok(())
}

#[test]
fn a_piece_that_is_not_read_is_told(rt: HostRuntime) -> Result<(), Fail> {
    let file = long_file(rt.alloc(), 70_000)?;
    let disk = MemDisk::new(rt.alloc(), &file, 80_000, &[4])?;
    let fault = JournalRefused::DiskFault { at: 65_536 };
    assert_eq!(rt; refusal(rt.alloc(), disk), Some(fault));
    Ok(())
}

#[test]
fn a_record_past_the_limit_is_refused(rt: HostRuntime) -> Result<(), Fail> {
    let ids = vec![in rt.alloc(); ChangeId { uuid: 1, seq: 1 }; 2_796_202]?;
    let stored = Record::IdsStored {
        mig: 1,
        ids: IdList::from_vec(ids),
    };
    let disk = MemDisk::new(rt.alloc(), b"", 1000, &[])?;
    let mut journal = opened(rt.alloc(), disk)?;
    assert_eq!(rt;
        journal.append(&stored),
        Err(JournalRefused::Full { length: 9 })
    );
    assert_eq!(rt; journal.append(&cancel(1)), Ok(()));
    Ok(())
}

#[test]
fn a_fault_is_answered_again(rt: HostRuntime) -> Result<(), Fail> {
    let disk = MemDisk::new(rt.alloc(), b"", 1000, &[6])?;
    let mut journal = opened(rt.alloc(), disk)?;
    let fault = JournalRefused::DiskFault { at: 9 };
    assert_eq!(rt; journal.append(&cancel(1)), Err(fault));
    assert_eq!(rt; journal.append(&cancel(2)), Err(fault));
    assert_eq!(rt; journal.records().len(), 0);
    let mut journal = opened(rt.alloc(), journal.close())?;
    assert_eq!(rt; journal.append(&cancel(1)), Ok(()));
    Ok(())
}

#[test]
fn a_disk_that_fails_at_once_is_told(rt: HostRuntime) -> Result<(), Fail> {
    let disk = MemDisk::new(rt.alloc(), b"", 1000, &[1])?;
    assert_eq!(rt;
        refusal(rt.alloc(), disk),
        Some(JournalRefused::DiskFault { at: 0 })
    );
    assert_eq!(rt; JournalRefused::DiskFault { at: 0 }.number(), Some(1));
    assert_eq!(rt; JournalRefused::NoMemory.number(), None);
    Ok(())
}

/// How many appends were acknowledged before the disk stopped, and the disk.
fn run_until_stop(alloc: Global, k: u64) -> Result<(usize, MemDisk), Fail> {
    let disk = StopDisk::new(MemDisk::new(alloc, b"", 1000, &[])?, k);
    let mut journal = match Journal::open(alloc, disk) {
        Ok(journal) => journal,
        Err((disk, _)) => return Ok((0, disk.into_inner())),
    };
    let mut done = 0usize;
    for mig in 1..4u32 {
        if journal.append(&cancel(mig)).is_ok() {
            done = done.saturating_add(1);
        }
    }
    Ok((done, journal.close().into_inner()))
}

/// How many records an image has, which are the cancels in order.
fn records_after(
    rt: &impl Abort,
    alloc: Global,
    disk: &MemDisk,
    pick: Pick,
) -> Result<usize, Fail> {
    let journal = opened(alloc, disk.image(pick)?)?;
    let records = journal.records();
    for (at, record) in records.iter().enumerate() {
        assert!(rt; matches!(record, Record::CancelAsked { mig } if *mig as usize == at + 1));
    }
    Ok(records.len())
}

#[test]
fn a_stop_at_each_step_leaves_what_was_acknowledged_or_one_more(
    rt: HostRuntime,
) -> Result<(), Fail> {
    // The steps are four of the opening and four of each of three appends. The last is no stop.
    let acknowledged = [0, 0, 0, 0, 0, 0, 0, 0, 1, 1, 1, 1, 2, 2, 2, 2, 3];
    let written = [0, 0, 0, 0, 0, 0, 0, 1, 1, 1, 1, 2, 2, 2, 2, 3, 3];
    for (step, (want, most)) in acknowledged.iter().zip(&written).enumerate() {
        let (done, disk) = run_until_stop(rt.alloc(), step as u64 + 1)?;
        assert_eq!(rt; done, *want, "{step}");
        let old = records_after(&rt, rt.alloc(), &disk, Pick::Old)?;
        assert_eq!(rt; old, *want, "{step}");
        let new = records_after(&rt, rt.alloc(), &disk, Pick::New)?;
        assert_eq!(rt; new, *most, "{step}");
        let mixed = records_after(&rt, rt.alloc(), &disk, Pick::Mixed(step as u64))?;
        assert!(rt; *want <= mixed && mixed <= *most, "{step}");
    }
    Ok(())
}

#[test]
fn a_stop_while_a_torn_end_is_cut_keeps_the_records(rt: HostRuntime) -> Result<(), Fail> {
    for k in 1..4u64 {
        let disk = StopDisk::new(MemDisk::new(rt.alloc(), &torn_file(), 1000, &[])?, k);
        let Err((disk, _)) = Journal::open(rt.alloc(), disk) else {
            return Err("opened")?;
        };
        let disk = disk.into_inner();
        for pick in [Pick::Old, Pick::New, Pick::Mixed(k)] {
            assert_eq!(rt; records_after(&rt, rt.alloc(), &disk, pick)?, 1);
        }
    }
    Ok(())
}

#[test]
fn refusals_have_texts(rt: HostRuntime) -> Result<(), Fail> {
    let full = JournalRefused::Full {
        length: MAX_BYTES as u64,
    };
    let text = format!(in rt.alloc(); "{full}; {}", JournalRefused::BadRecord(3))?;
    assert_eq!(rt;
        text.as_str(),
        "the journal of 67108864 bytes has no room for the record; \
            record 3 of the journal is cut or no record"
    );
    Ok(())
}
