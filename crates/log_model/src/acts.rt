//! What each act adds to a log, and why it is refused.
ghost use Rattle.std.specs.Prelude.{◌≡◌, ◌+◌, ◌≤◌, IfOk, length};
ghost use Rattle.log_model.specs.Legal.{taken, written};
ghost use Rattle.basics.specs.Refusal.{IsRefusedOr};
ghost use Rattle.log_model.specs.Link.{snapped_after};
ghost use Rattle.log_model.specs.Refusals.{spent_refusal, snap_refusal, may_remove, remove_refusal, power_off_refusal, power_on_refusal, reset_refusal, enable_refusal, write_refusal};
ghost use Rattle.log_model.specs.PlainMachine.{Appends};

use crate::folds::{is_enabled, last_off, machine_on, owner_of, taken, written};
use crate::query::is_on_disk;
use crate::{
    Act, Entry, LinkRefused, MAX_LOG_ENTRIES, MIGRATION_CALLER, Owner, Snapped, WriteRefused,
};
use basics::{MAX_LOGGED_SECTORS, MAX_WRITE_SECTORS};
use sector_model::{Sector, SectorList};
use std::alloc::Global;

/// Adds an entry, unless the log is full.
fn append(log: &mut Vec<Entry>, who: u32, act: Act) -> Result<(), LinkRefused>
    ensures entries { Appends result
        (record { who = who; act = act })
        log.old.items log.new.items }
    ensures refused { IsRefusedOr (spent_refusal log.old.items) LinkRefused.NoMemory result }
{
    if log.len() >= MAX_LOG_ENTRIES {
        return Err(LinkRefused::Spent);
    }
    match log.push(Entry { who, act }) {
        Ok(()) => Ok(()),
        Err(_) => Err(LinkRefused::NoMemory),
    }
}

/// Takes a snapshot.
pub fn snap(
    log: &mut Vec<Entry>,
    who: u32,
    owner: Owner,
    must_be_off: bool,
) -> Result<Snapped, LinkRefused>
    requires { length log.old.items ≤ MAX_LOG_ENTRIES }
    ensures entries { Appends result
        (record { who = who; act = Act.Snap (taken log.old.items + 1) owner })
        log.old.items log.new.items }
    ensures refused { IsRefusedOr
        (snap_refusal must_be_off log.old.items) LinkRefused.NoMemory result }
    ensures snapped { IfOk result (λ snapped. snapped ≡ snapped_after log.old.items) }
{
    if must_be_off && machine_on(log) {
        return Err(LinkRefused::Running);
    }
    let snapped = Snapped {
        id: taken(log) as u32 + 1,
        mark: log.len() as u64,
        off_place: last_off(log).map(|place| place as u64),
    };
    let id = snapped.id;
    append(log, who, Act::Snap { id, owner })?;
    Ok(snapped)
}

/// Whether the caller with this number may remove in an owner's name a snapshot that an owner has:
/// its own, and what a migration has only under [`MIGRATION_CALLER`].
pub fn may_remove(caller: u32, owner: Owner, has: Owner) -> bool
    ensures { result ≡ may_remove caller owner has }
{
    match (owner, has) {
        (Owner::Operator, Owner::Operator) => true,
        (Owner::Migration(number), Owner::Migration(other)) => {
            number == other && caller == MIGRATION_CALLER
        }
        _ => false,
    }
}

/// Removes a live snapshot.
pub fn remove(log: &mut Vec<Entry>, who: u32, owner: Owner, id: u32) -> Result<(), LinkRefused>
    ensures entries { Appends result
        (record { who = who; act = Act.Remove id })
        log.old.items log.new.items }
    ensures refused { IsRefusedOr
        (remove_refusal who owner id log.old.items) LinkRefused.NoMemory result }
{
    match owner_of(log, id) {
        None => Err(LinkRefused::UnknownSnap),
        Some(has) if may_remove(who, owner, has) => append(log, who, Act::Remove { id }),
        Some(_) => Err(LinkRefused::Owned),
    }
}

/// Powers the machine off.
pub fn power_off(log: &mut Vec<Entry>, who: u32) -> Result<u64, LinkRefused>
    ensures entries { Appends result
        (record { who = who; act = Act.Off })
        log.old.items log.new.items }
    ensures refused { IsRefusedOr (power_off_refusal log.old.items) LinkRefused.NoMemory result }
    ensures place { IfOk result (λ place. place ≡ length log.old.items) }
{
    if !machine_on(log) {
        return Err(LinkRefused::AlreadyOff);
    }
    let place = log.len() as u64;
    append(log, who, Act::Off)?;
    Ok(place)
}

/// Powers the machine on.
pub fn power_on(log: &mut Vec<Entry>, who: u32) -> Result<u64, LinkRefused>
    ensures entries { Appends result
        (record { who = who; act = Act.On })
        log.old.items log.new.items }
    ensures refused { IsRefusedOr (power_on_refusal log.old.items) LinkRefused.NoMemory result }
    ensures place { IfOk result (λ place. place ≡ length log.old.items) }
{
    if machine_on(log) {
        return Err(LinkRefused::AlreadyOn);
    }
    let place = log.len() as u64;
    append(log, who, Act::On)?;
    Ok(place)
}

/// Resets the tracking of a disk.
pub fn reset(
    log: &mut Vec<Entry>,
    who: u32,
    capacities: &[u64],
    disk: u32,
) -> Result<(), LinkRefused>
    ensures entries { Appends result
        (record { who = who; act = Act.Reset disk })
        log.old.items log.new.items }
    ensures refused { IsRefusedOr
        (reset_refusal capacities.now disk log.old.items) LinkRefused.NoMemory result }
{
    if disk as usize >= capacities.len() {
        return Err(LinkRefused::Range);
    }
    append(log, who, Act::Reset { disk })
}

/// Enables change tracking.
pub fn enable(log: &mut Vec<Entry>, who: u32) -> Result<(), LinkRefused>
    ensures entries { Appends result
        (record { who = who; act = Act.Enable })
        log.old.items log.new.items }
    ensures refused { IsRefusedOr (enable_refusal log.old.items) LinkRefused.NoMemory result }
{
    if is_enabled(log) {
        return Err(LinkRefused::AlreadyEnabled);
    }
    append(log, who, Act::Enable)
}

/// Adds a guest's write.
pub fn write(
    log: &mut Vec<Entry>,
    capacities: &[u64],
    alloc: Global,
    who: u32,
    disk: u32,
    first: u64,
    sectors: &[Sector],
) -> Result<(), WriteRefused>
    requires { written log.old.items ≤ MAX_LOGGED_SECTORS }
    ensures entries { Appends result
        (record { who = who; act = Act.Write disk first sectors.now })
        log.old.items log.new.items }
    ensures refused { IsRefusedOr
        (write_refusal capacities.now disk first (length sectors.now) log.old.items)
        WriteRefused.NoMemory result }
{
    let count = sectors.len() as u64;
    if !machine_on(log) {
        return Err(WriteRefused::Off);
    }
    if !is_on_disk(capacities, disk, first, count) || count > MAX_WRITE_SECTORS {
        return Err(WriteRefused::Range);
    }
    if written(log) + count > MAX_LOGGED_SECTORS || log.len() >= MAX_LOG_ENTRIES {
        return Err(WriteRefused::LogFull);
    }
    let Ok(sectors) = SectorList::of(alloc, sectors) else {
        return Err(WriteRefused::NoMemory);
    };
    let act = Act::Write {
        disk,
        first,
        sectors,
    };
    match append(log, who, act) {
        Ok(()) => Ok(()),
        Err(_) => Err(WriteRefused::NoMemory),
    }
}
