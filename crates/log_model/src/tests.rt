//! The definitions on small logs, refusals in their order, and the laws that the layers above call.
ghost use Rattle.std.specs.Prelude.{◌≡◌, ◌∷◌, [], Some, None, Ok, Err, true, false, take, IfOk};
ghost use Rattle.sector_model.specs.Sector.{filled, zero_sector};
ghost use Rattle.log_model.specs.declared.entry.Owner.{Owner};
ghost use Rattle.log_model.specs.declared.entry.Act.{Act};
ghost use Rattle.log_model.specs.Entry.{contents};
ghost use Rattle.log_model.specs.Legal.{machine_on, owner_of};
ghost use Rattle.log_model.specs.Marks.{mark, epoch, number, tracking, in_force, id_at, mark_of_id};
ghost use Rattle.log_model.specs.Frozen.{frozen, off_place};
ghost use Rattle.log_model.specs.Touched.{touched};
ghost use Rattle.log_model.specs.Query.{changed_areas};
ghost use Rattle.log_model.specs.Refusals.{power_off_refusal, remove_refusal};
ghost use Rattle.log_model.specs.Link.{facts_of};
ghost use Rattle.log_model.specs.SmallLog.{small_log};
ghost use Rattle.log_model.specs.declared.folds.Tracking.{Tracking};

use crate::{
    Act, Entry, EntryList, Link, LinkRefused, MAX_LOG_ENTRIES, Owner, PlainMachine, WriteRefused,
    accepted_may_stand, acts, answer_pages_join, answers_stay, calls_follow, ids_answer_between,
    ids_exist, later_entries_keep, legal_logs, marks_of_ids, migrations_keep_theirs,
    numbers_have_no_gap, off_is_frozen, snapshots_have_their_marks, touched_blocks_join,
};
use change_id::{ChangeId, Since, pack};
use sector_model::{Page, Run, Sector};
use std::alloc::Global;
use std::process::Abort;
use std::test::Fail;

const OPERATOR: Owner = Owner::Operator;

/// The definitions on a small log. The proof computes them.
fn definitions_on_small_logs()
    ensures now { contents 2 0 small_log ≡ filled 2 ∷ filled 1 ∷ [] }
    ensures at_first { frozen 2 0 1 small_log ≡ filled 1 ∷ filled 1 ∷ [] }
    ensures mark { mark 2 small_log ≡ 5 }
    ensures touched { touched 300 0 3 5 small_log ≡ 0 ∷ [] }
    ensures off { off_place 2 small_log ≡ Some 4 }
    ensures on_before { off_place 1 small_log ≡ None }
    ensures after_reset { number 0 small_log ≡ 0 }
    ensures resets { epoch 0 small_log ≡ 1 }
    ensures first_id { id_at 1 0 1 small_log
        ≡ Some (record { uuid = 79228162514264337593543950336; seq = 1 }) }
    ensures back { mark_of_id 1 0
        (record { uuid = 79228162514264337593543950336; seq = 1 }) small_log ≡ Some 2 }
    ensures answered { changed_areas 1 300 0 2
        (Since.From (record { uuid = 79228162514264337593543950336; seq = 1 })) (take 7 small_log)
        ≡ Ok (record { first = 0; count = 128 } ∷ []) }
    ensures strange { changed_areas 1 300 0 2
        (Since.From (record { uuid = 79228162514264337593543950336; seq = 1 })) small_log
        ≡ Err None }
    ensures facts { facts_of small_log
        ≡ record { on = false; entries = 8; enabled = true; tracking = true; snaps = 2 } }
    ensures off_already { power_off_refusal small_log ≡ Some LinkRefused.AlreadyOff }
    ensures another_owner { remove_refusal 1 Owner.Operator 2 small_log ≡ Some LinkRefused.Owned }
    ensures none_in_force { in_force 1 0 small_log ≡ None }
    ensures owner { owner_of 2 small_log ≡ Some (Owner.Migration 7) }
    ensures removed { owner_of 1 small_log ≡ None }
{}

fn run(first: u64, count: u64) -> Run {
    Run { first, count }
}

/// The identifier of disk 0 of machine 1.
fn id(resets: u64, seq: u64) -> ChangeId {
    ChangeId {
        uuid: pack(1, 0, resets),
        seq,
    }
}

/// A machine with the number 1 and one disk, for a caller of this number.
fn machine(alloc: Global, capacity: u64, caller: u32) -> Result<PlainMachine, Fail>
    ensures { IfOk result (λ made. made.caller ≡ caller) }
{
    Ok(PlainMachine::new(alloc, 1, &[capacity], caller)?)
}

/// Writes one sector of disk 0.
fn write(on: &mut PlainMachine, first: u64, byte: u8) -> Result<(), Fail> {
    Ok(on.write(3, 0, first, &[Sector::filled(byte)])?)
}

#[test]
fn the_last_block_is_clipped_and_no_tracking_has_no_identifier(
    rt: HostRuntime,
) -> Result<(), Fail> {
    let alloc = rt.alloc();
    let mut link = machine(alloc, 200, 1)?;
    let mut page = Page::new(alloc)?;
    write(&mut link, 199, 1)?;
    let snapped = link.snap(OPERATOR, false)?;
    assert_eq!(rt; (snapped.id, snapped.mark, snapped.off_place), (1, 1, None));
    assert_eq!(rt; link.change_id(1, 0)?, None);
    link.query(1, 0, Since::All, 0, &mut page)?;
    assert_eq!(rt; page.areas(), [run(128, 72)].as_slice());
    assert_eq!(rt; (page.start(), page.length()), (0, 200));
    Ok(())
}

#[test]
fn a_query_tells_what_changed_between_two_snapshots(rt: HostRuntime) -> Result<(), Fail> {
    let alloc = rt.alloc();
    let mut link = machine(alloc, 256, 1)?;
    let mut page = Page::new(alloc)?;
    link.enable()?;
    assert_eq!(rt; link.facts().tracking, false);
    link.snap(OPERATOR, false)?;
    assert_eq!(rt; link.change_id(1, 0)?, Some(id(0, 1)));
    assert_eq!(rt; link.facts().tracking, true);
    write(&mut link, 127, 1)?;
    write(&mut link, 128, 1)?;
    link.snap(OPERATOR, false)?;
    link.query(2, 0, Since::From(id(0, 1)), 0, &mut page)?;
    assert_eq!(rt; page.areas(), [run(0, 256)].as_slice());
    assert_eq!(rt;
        (link.change_id(2, 0)?, page.length()),
        (Some(id(0, 2)), 256)
    );

    // Since its own identifier nothing changed, and a start at the capacity is out of range.
    link.query(2, 0, Since::From(id(0, 2)), 0, &mut page)?;
    assert_eq!(rt; (page.areas().len(), page.length()), (0, 256));
    let past = link.query(2, 0, Since::From(id(0, 2)), 256, &mut page);
    assert_eq!(rt; past, Err(LinkRefused::Range));

    // A number that no snapshot has yet is strange, and the identifier in force is told.
    link.snap(OPERATOR, false)?;
    let later = link.query(3, 0, Since::From(id(0, 7)), 0, &mut page);
    assert_eq!(rt; later, Err(LinkRefused::Strange(Some(id(0, 3)))));

    // A reset makes all identifiers strange, and those of old snapshots stay what they were.
    link.reset(0)?;
    let old = link.query(2, 0, Since::From(id(0, 1)), 0, &mut page);
    assert_eq!(rt; old, Err(LinkRefused::Strange(None)));
    link.query(2, 0, Since::All, 0, &mut page)?;
    assert_eq!(rt; page.areas(), [run(0, 256)].as_slice());
    assert_eq!(rt; link.change_id(2, 0)?, Some(id(0, 2)));
    let next = link.snap(OPERATOR, false)?;
    assert_eq!(rt; link.change_id(next.id, 0)?, Some(id(1, 1)));
    Ok(())
}

#[test]
fn a_snapshot_keeps_what_it_froze_until_it_is_removed(rt: HostRuntime) -> Result<(), Fail> {
    let alloc = rt.alloc();
    let mut link = machine(alloc, 256, 1)?;
    let mut read = [Sector::filled(9); 2];
    write(&mut link, 5, 1)?;
    link.snap(OPERATOR, false)?;
    write(&mut link, 5, 2)?;
    link.read_snap(1, 0, 4, &mut read)?;
    assert_eq!(rt; read, [Sector::filled(0), Sector::filled(1)]);
    link.remove(OPERATOR, 1)?;
    assert_eq!(rt; link.remove(OPERATOR, 1), Err(LinkRefused::UnknownSnap));
    link.snap(OPERATOR, false)?;
    link.read_snap(2, 0, 5, &mut read)?;
    assert_eq!(rt; read, [Sector::filled(2), Sector::filled(0)]);
    assert_eq!(rt; link.owned_from(OPERATOR, 0), Some(2));
    assert_eq!(rt; link.owned_from(OPERATOR, 3), None);
    Ok(())
}

#[test]
fn each_refusal_comes_with_its_cause(rt: HostRuntime) -> Result<(), Fail> {
    let alloc = rt.alloc();
    let mut link = machine(alloc, 256, 1)?;
    assert_eq!(rt; link.snap(OPERATOR, true), Err(LinkRefused::Running));
    assert_eq!(rt; link.power_on(), Err(LinkRefused::AlreadyOn));
    assert_eq!(rt; link.power_off()?, 0);
    assert_eq!(rt; link.power_off(), Err(LinkRefused::AlreadyOff));
    let write_off = link.write(3, 0, 0, &[Sector::filled(1)]);
    assert_eq!(rt; write_off, Err(WriteRefused::Off));
    let last = link.snap(OPERATOR, true)?;
    assert_eq!(rt; last.off_place, Some(0));
    assert_eq!(rt;
        link.remove(Owner::Migration(7), last.id),
        Err(LinkRefused::Owned)
    );
    assert_eq!(rt; link.reset(1), Err(LinkRefused::Range));
    link.enable()?;
    assert_eq!(rt; link.enable(), Err(LinkRefused::AlreadyEnabled));
    assert_eq!(rt; LinkRefused::AlreadyEnabled.number(), Some(9));
    assert_eq!(rt; WriteRefused::LogFull.number(), Some(3));
    assert_eq!(rt; power_cycle(&mut link), Err(LinkRefused::AlreadyOff));
    assert_eq!(rt; link.power_on()?, 3);
    assert_eq!(rt; link.facts().on, true);
    Ok(())
}

/// Off and on again, through the trait alone.
fn power_cycle<L: Link>(link: &mut L) -> Result<u64, LinkRefused> {
    link.power_off()?;
    link.power_on()
}

#[test]
fn a_migration_s_snapshot_isn_t_the_operator_s(rt: HostRuntime) -> Result<(), Fail> {
    let mut link = machine(rt.alloc(), 256, 1)?;
    let snapped = link.snap(Owner::Migration(7), false)?;
    assert_eq!(rt; link.remove(OPERATOR, snapped.id), Err(LinkRefused::Owned));
    assert_eq!(rt; link.owned_from(Owner::Migration(7), 0), Some(1));
    Ok(())
}

#[test]
fn a_migration_s_snapshot_is_removed_under_the_number_1_alone(rt: HostRuntime) -> Result<(), Fail> {
    let owner = Owner::Migration(7);
    let mut log = Vec::new(rt.alloc());
    let snapped = acts::snap(&mut log, 1, owner, false)?;
    assert_eq!(rt;
        acts::remove(&mut log, 2, owner, snapped.id),
        Err(LinkRefused::Owned)
    );
    acts::remove(&mut log, 1, owner, snapped.id)?;
    assert_eq!(rt; log.len(), 2);
    Ok(())
}

#[test]
fn a_full_log_is_spent(rt: HostRuntime) -> Result<(), Fail> {
    let alloc = rt.alloc();
    let mut link = machine(alloc, 256, 1)?;
    for _ in 0..MAX_LOG_ENTRIES {
        link.reset(0)?;
    }
    assert_eq!(rt; link.snap(OPERATOR, false), Err(LinkRefused::Spent));
    assert_eq!(rt;
        link.write(3, 0, 0, &[Sector::filled(1)]),
        Err(WriteRefused::LogFull)
    );
    assert_eq!(rt; link.log().len(), 262_144);
    Ok(())
}

#[test]
fn a_list_of_entries_is_copied(rt: HostRuntime) -> Result<(), Fail> {
    let alloc = rt.alloc();
    let mut link = machine(alloc, 256, 1)?;
    write(&mut link, 5, 1)?;
    link.enable()?;
    let list = EntryList::of(alloc, link.log())?;
    assert_eq!(rt; list.as_slice().len(), 2);
    assert!(rt; matches!(list.as_slice()[1].act, Act::Enable));
    let mut longer = EntryList::of(alloc, list.as_slice())?;
    longer.push(Entry {
        who: 1,
        act: Act::Off,
    })?;
    assert_eq!(rt; longer.as_slice().len(), 3);
    assert!(rt; matches!(longer.as_slice()[2].act, Act::Off));
    Ok(())
}

#[test]
fn the_laws_hold() {
    legal_logs();
    accepted_may_stand();
    off_is_frozen();
    numbers_have_no_gap();
    later_entries_keep();
    snapshots_have_their_marks();
    ids_exist();
    migrations_keep_theirs();
    answers_stay();
    ids_answer_between();
    marks_of_ids();
    calls_follow();
    definitions_on_small_logs();
    touched_blocks_join();
    answer_pages_join();
}

#[test]
fn refusals_of_a_link_say_what_is_wrong(rt: HostRuntime) -> Result<(), Fail> {
    let texts = [
        (LinkRefused::UnknownSnap, "the snapshot isn't live"),
        (LinkRefused::Running, "the machine is on"),
        (
            LinkRefused::Strange(None),
            "the identifier isn't one to ask this snapshot",
        ),
        (LinkRefused::Range, "no such disk or sectors"),
        (LinkRefused::AlreadyOff, "the machine is off already"),
        (LinkRefused::AlreadyOn, "the machine is on already"),
        (LinkRefused::Spent, "the log is full"),
        (
            LinkRefused::Owned,
            "the snapshot isn't the caller's to remove",
        ),
        (
            LinkRefused::AlreadyEnabled,
            "change tracking is enabled already",
        ),
        (LinkRefused::NoMemory, "out of memory"),
    ];
    for (refusal, text) in texts {
        let printed = format!(in rt.alloc(); "{refusal}")?;
        assert_eq!(rt; printed.as_str(), text);
    }
    Ok(())
}

#[test]
fn refusals_of_a_write_say_what_is_wrong(rt: HostRuntime) -> Result<(), Fail> {
    let texts = [
        (WriteRefused::Off, "the machine is off"),
        (WriteRefused::Range, "no such disk or sectors"),
        (WriteRefused::LogFull, "the log is full"),
        (WriteRefused::NoMemory, "out of memory"),
    ];
    for (refusal, text) in texts {
        let printed = format!(in rt.alloc(); "{refusal}")?;
        assert_eq!(rt; printed.as_str(), text);
    }
    Ok(())
}
