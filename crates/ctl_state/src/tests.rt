//! The records of one migration from its plan to its end: what each leaves, that one which is
//! missing or stands twice makes a record strange, how much a stage may write, and which jobs and
//! task there are.
use crate::*;
use checkpoints::Checkpoint;
use phase_table::Phase;
use plan_model::{Moment, Way};
use record_codec::{Record, decode};
use std::test::Fail;

/// The bodies of the records, in their order, of a machine of one disk: a first copy, a further one
/// an hour later, and the cutover.
const BODIES: [&[u8]; 29] = [
    b"\x01\0\0\0\x01\x01p\0\0\0\x3c\0\0\0\x01\0\0\0\x01",
    b"\x02\0\0\0\x01\0\0\0\x01\0\0\0\x01\0\0\0\x01",
    b"\x03\0\0\0\x01\0\0\0\0\0f\x32\x12\xa0",
    b"\x04\0\0\0\x01\0\0\0\x02\0\0\0\0\0\0\0\x04",
    b"\x05\0\0\0\x01\0\0\0\x01\0\0\0\x01\0\0\0\0\0\0\0\0\0\0\0\0\0\0\0\0\0\0\0\x02",
    b"\x06\0\0\0\x01",
    b"\x07\0\0\0\x01\0\0\0\0\0\0\0\x02\0",
    b"\x08\0\0\0\x01\0\0\0\0",
    b"\x09\0\0\0\x01\0\0\0\0\0\0\0\0\0\0\x01\0",
    b"\x0a\0\0\0\x01\0\0\0\0f\x32\x12\xa0",
    b"\x03\0\0\0\x01\x01\0\0\0\0f\x32\x20\xb0",
    b"\x0b\0\0\0\x01\0\0\0\x02",
    b"\x04\0\0\0\x01\0\0\0\x03\0\0\0\0\0\0\0\x07",
    b"\x05\0\0\0\x01\0\0\0\x01\0\0\0\x01\0\0\0\0\0\0\0\0\0\0\0\0\0\0\0\0\0\0\0\x03",
    b"\x07\0\0\0\x01\0\0\0\x02\0\0\0\x03\0",
    b"\x08\0\0\0\x01\0\0\0\0",
    b"\x09\0\0\0\x01\0\0\0\0\0\0\0\0\0\0\0\x80",
    b"\x0a\0\0\0\x01\0\0\0\0f\x32\x20\xb0",
    b"\x0c\0\0\0\x01\0\0\0\0\0\0\0\0\0",
    b"\x03\0\0\0\x01\x02\0\0\0\0f\x32\x27\xb8",
    b"\x0d\0\0\0\x01\x01",
    b"\x0e\0\0\0\x01",
    b"\x0f\0\0\0\x01\x01",
    b"\x0b\0\0\0\x01\0\0\0\x03",
    b"\x10\0\0\0\x01\0\0\0\x04\0\0\0\0\0\0\0\x0b\0\0\0\0\0\0\0\x09",
    b"\x07\0\0\0\x01\0\0\0\x03\0\0\0\x04\x01",
    b"\x08\0\0\0\x01\0\0\0\0",
    b"\x09\0\0\0\x01\0\0\0\0\0\0\0\0\0\0\0\x80",
    b"\x12\0\0\0\x01\0\0\0\0\0\0\0\0\x09",
];

/// Behind each record from the second on: the phase of the migration, how many checkpoints it has,
/// and how many of them are finished.
const STATES: [(Phase, usize, usize); 28] = [
    (Phase::Started, 0, 0),
    (Phase::CreateInitialSnapshot, 0, 0),
    (Phase::StoreInitialIds, 0, 0),
    (Phase::CreateVolumes, 0, 0),
    (Phase::AddFirstCheckpoint, 0, 0),
    (Phase::CopyDisks, 1, 0),
    (Phase::CopyDisks, 1, 0),
    (Phase::CopyDisks, 1, 1),
    (Phase::CopyingPaused, 1, 1),
    (Phase::RemovePreviousSnapshot, 1, 1),
    (Phase::CreateSnapshot, 1, 1),
    (Phase::StoreIds, 1, 1),
    (Phase::AddCheckpoint, 1, 1),
    (Phase::CopyDisks, 2, 1),
    (Phase::CopyDisks, 2, 1),
    (Phase::CopyDisks, 2, 2),
    (Phase::CopyingPaused, 2, 2),
    (Phase::CopyingPaused, 2, 2),
    (Phase::StorePowerState, 2, 2),
    (Phase::PowerOffSource, 2, 2),
    (Phase::WaitForPowerOff, 2, 2),
    (Phase::RemovePenultimateSnapshot, 2, 2),
    (Phase::CreateFinalSnapshot, 2, 2),
    (Phase::AddFinalCheckpoint, 2, 2),
    (Phase::CopyFinal, 3, 2),
    (Phase::CopyFinal, 3, 2),
    (Phase::RemoveFinalSnapshot, 3, 3),
    (Phase::Completed, 3, 3),
];

/// The snapshots of its checkpoints: the one before, 0 for none, and the one that is copied.
const SNAPSHOTS: [(u32, u32); 3] = [(0, 2), (2, 3), (3, 4)];

/// The marks of its checkpoints.
const MARKS: [u64; 3] = [4, 7, 11];

/// The sectors that the stages of each checkpoint wrote.
const WRITTEN: [u64; 3] = [256, 128, 128];

const FIRST: u64 = 1_714_557_600;

fn record(rt: &HostRuntime, number: usize) -> Result<Record, Fail> {
    let body = BODIES
        .get(number.saturating_sub(1))
        .ok_or("no such record")?;
    Ok(decode(rt.alloc(), body)?)
}

/// The state behind the first so many records.
fn state_after(rt: &HostRuntime, count: usize) -> Result<CtlState, Fail> {
    let mut state = CtlState::empty(rt.alloc());
    for number in 1..count.saturating_add(1) {
        state.apply(&record(rt, number)?)?;
    }
    Ok(state)
}

/// The first record that is refused where the record `missing` is left out and the record `double`
/// stands twice; 0 where all stand.
fn refused_at(rt: &HostRuntime, missing: usize, double: usize) -> Result<usize, Fail> {
    let mut state = CtlState::empty(rt.alloc());
    for number in 1..30 {
        let record = record(rt, number)?;
        if number != missing && state.apply(&record).is_err() {
            return Ok(number);
        }
        if number == double && state.apply(&record).is_err() {
            return Ok(number);
        }
    }
    Ok(0)
}

/// Whether these are the first so many checkpoints, of which so many are finished.
fn are_checkpoints(checkpoints: &[Checkpoint], count: usize, finished: usize) -> bool {
    let mut number: usize = 0;
    for (checkpoint, (previous, current)) in checkpoints.iter().zip(&SNAPSHOTS) {
        number = number.saturating_add(1);
        let expected = Checkpoint {
            previous: *previous,
            current: *current,
            done: number <= finished,
        };
        if *checkpoint != expected {
            return false;
        }
    }
    checkpoints.len() == count
}

/// Whether these are the first so many of all numbers.
fn are_first(numbers: &[u64], all: &[u64], count: usize) -> bool {
    numbers.len() == count && all.starts_with(numbers)
}

#[test]
fn each_record_leaves_its_state(rt: HostRuntime) -> Result<(), Fail> {
    let mut state = state_after(&rt, 1)?;
    assert!(rt; state.status(1).is_none());
    let mut number: usize = 1;
    for (phase, count, finished) in STATES {
        number = number.saturating_add(1);
        state.apply(&record(&rt, number)?)?;
        let migration = state.status(1).ok_or("no migration")?;
        let checkpoints = migration.dv.checkpoints();
        assert!(rt; migration.phase == phase, "phase after {number}");
        assert!(rt;
            are_checkpoints(checkpoints, count, finished),
            "checkpoints after {number}"
        );
        assert!(rt;
            are_first(migration.marks.as_slice(), &MARKS, finished),
            "marks after {number}"
        );
        let written = migration.written.as_slice();
        assert!(rt;
            are_first(written, &WRITTEN, finished),
            "written after {number}"
        );
    }
    Ok(())
}

#[test]
fn a_first_copy_ends_in_a_pause(rt: HostRuntime) -> Result<(), Fail> {
    let state = state_after(&rt, 10)?;
    let migration = state.status(1).ok_or("no migration")?;
    assert!(rt; migration.phase == Phase::CopyingPaused);
    assert_eq!(rt; migration.snap, Some(2));
    assert_eq!(rt; migration.marks.as_slice(), [4].as_slice());
    assert_eq!(rt; migration.written.as_slice(), [256].as_slice());
    assert_eq!(rt; migration.last, Some(Moment(FIRST)));
    Ok(())
}

#[test]
fn a_cutover_completes_it(rt: HostRuntime) -> Result<(), Fail> {
    let state = state_after(&rt, 29)?;
    let migration = state.status(1).ok_or("no migration")?;
    assert!(rt; migration.phase == Phase::Completed);
    assert_eq!(rt; migration.marks.as_slice(), [4, 7, 11].as_slice());
    assert_eq!(rt; migration.written.as_slice(), [256, 128, 128].as_slice());
    assert_eq!(rt; migration.place, Some(9));
    assert_eq!(rt; migration.how, Some(How::Completed));
    assert_eq!(rt; state.live_on(1), None);
    Ok(())
}

#[test]
fn a_record_that_is_missing_makes_a_later_one_strange(rt: HostRuntime) -> Result<(), Fail> {
    for missing in 1..29 {
        let expected = match missing {
            18 => 20,
            19 => 0,
            _ => missing + 1,
        };
        assert_eq!(rt; refused_at(&rt, missing, 0)?, expected, "without {missing}");
    }
    Ok(())
}

#[test]
fn a_record_that_stands_twice_is_strange(rt: HostRuntime) -> Result<(), Fail> {
    for double in 1..30 {
        let expected = match double {
            8 | 16 | 19 | 27 => 0,
            _ => double,
        };
        assert_eq!(rt;
            refused_at(&rt, 0, double)?,
            expected,
            "with {double} twice"
        );
    }
    Ok(())
}

/// Whether the first stage may be done where it wrote so many sectors.
fn stage_done(rt: &HostRuntime, written: u64) -> Result<bool, Fail> {
    let mut state = state_after(rt, 8)?;
    let done = Record::StageDone {
        mig: 1,
        disk: 0,
        written,
    };
    Ok(state.apply(&done).is_ok())
}

#[test]
fn a_stage_writes_at_most_twice_the_largest_disk(rt: HostRuntime) -> Result<(), Fail> {
    assert!(rt; stage_done(&rt, 1 << 30)?);
    assert!(rt; !stage_done(&rt, (1 << 30) + 1)?);
    Ok(())
}

fn jobs_after(rt: &HostRuntime, count: usize, now: u64) -> Result<JobList, Fail> {
    Ok(state_after(rt, count)?.ready_jobs(Moment(now))?)
}

#[test]
fn a_pause_has_a_job_where_something_is_due(rt: HostRuntime) -> Result<(), Fail> {
    let phase = [Job::Phase { mig: 1 }];
    assert_eq!(rt; jobs_after(&rt, 2, FIRST)?.as_slice(), phase.as_slice());
    assert_eq!(rt;
        jobs_after(&rt, 10, FIRST + 3_599)?.as_slice(),
        [].as_slice()
    );
    assert_eq!(rt;
        jobs_after(&rt, 10, FIRST + 3_600)?.as_slice(),
        phase.as_slice()
    );
    assert_eq!(rt;
        jobs_after(&rt, 19, FIRST + 3_600)?.as_slice(),
        phase.as_slice()
    );
    assert_eq!(rt;
        jobs_after(&rt, 29, FIRST + 3_600)?.as_slice(),
        [].as_slice()
    );
    Ok(())
}

#[test]
fn a_copy_has_a_job_a_disk(rt: HostRuntime) -> Result<(), Fail> {
    let copy = [Job::Copy { mig: 1, disk: 0 }];
    let phase = [Job::Phase { mig: 1 }];
    assert_eq!(rt; jobs_after(&rt, 7, FIRST)?.as_slice(), copy.as_slice());
    assert_eq!(rt; jobs_after(&rt, 8, FIRST)?.as_slice(), copy.as_slice());
    assert_eq!(rt; jobs_after(&rt, 9, FIRST)?.as_slice(), phase.as_slice());
    assert_eq!(rt; jobs_after(&rt, 26, FIRST)?.as_slice(), copy.as_slice());
    Ok(())
}

#[test]
fn a_cancel_leaves_the_clean_up_alone(rt: HostRuntime) -> Result<(), Fail> {
    let mut state = state_after(&rt, 8)?;
    state.apply(&Record::CancelAsked { mig: 1 })?;
    let jobs = state.ready_jobs(Moment(FIRST))?;
    assert_eq!(rt; jobs.as_slice(), [Job::Clean { mig: 1 }].as_slice());
    assert!(rt;
        state
            .apply(&Record::StageBegun { mig: 1, disk: 0 })
            .is_err()
    );
    state.apply(&Record::StageDone {
        mig: 1,
        disk: 0,
        written: 256,
    })?;
    state.apply(&Record::Ended {
        mig: 1,
        how: 1,
        place: 0,
    })?;
    assert_eq!(rt; state.live_on(1), None);
    Ok(())
}

#[test]
fn a_task_tells_what_its_phase_needs(rt: HostRuntime) -> Result<(), Fail> {
    let state = state_after(&rt, 19)?;
    let task = state.task(1, Moment(FIRST)).ok_or("no migration")?;
    assert!(rt; task.way == Way::Cutover);
    assert_eq!(rt; task.snap, 3);
    assert_eq!(rt; task.previous, 3);
    assert!(rt;
        state_after(&rt, 21)?
            .task(1, Moment(FIRST))
            .ok_or("none")?
            .restore
    );
    Ok(())
}
