//! Whether an entry may stand in a log that is judged for one disk alone.
ghost use Rattle.std.specs.Prelude.{◌≡◌, ◌+◌, ◌≤◌, ◌<◌, ◌^◌, ◌↔◌, IsTrue};
ghost use Rattle.log_model.specs.Legal.{Legal, only, MayStand, ActsFor, OwnerLets};
ghost use Rattle.log_model.specs.MayStand.{MayWrite};

use crate::folds::{is_enabled, machine_on, owner_of, taken, written};
use crate::{Act, Entry, MIGRATION_CALLER, Owner};
use basics::{MAX_LOGGED_SECTORS, MAX_WRITE_SECTORS};

/// Whether the entry may stand after the log, where of all disks only this one is known: of entries
/// for others neither number nor range is asked.
pub fn may_stand_alone(log: &[Entry], disk: u32, capacity: u64, entry: &Entry) -> bool
    requires { Legal (only disk capacity) log.now }
    ensures { IsTrue result ↔ MayStand (only disk capacity) log.now entry.now }
{
    match &entry.act {
        Act::Write {
            disk: other,
            first,
            sectors,
        } => {
            let count = sectors.as_slice().len() as u64;
            let lies = *other != disk || (count <= capacity && *first <= capacity - count);
            lies && may_write(log, disk, capacity, count)
        }
        Act::Snap { id, owner } => *id as usize == taken(log) + 1 && acts_for(entry.who, *owner),
        Act::Remove { id } => is_let(entry.who, owner_of(log, *id)),
        Act::Reset { .. } => true,
        Act::Enable => !is_enabled(log),
        Act::Off => machine_on(log),
        Act::On => !machine_on(log),
    }
}

/// Whether so many sectors may be written after the log, wherever they lie.
fn may_write(log: &[Entry], disk: u32, capacity: u64, count: u64) -> bool
    requires { Legal (only disk capacity) log.now }
    ensures { IsTrue result ↔ MayWrite log.now count }
{
    machine_on(log)
        && 1 <= count
        && count <= MAX_WRITE_SECTORS
        && written(log) + count <= MAX_LOGGED_SECTORS
}

/// Whether snapshots of the owner are taken and removed under this number.
fn acts_for(who: u32, owner: Owner) -> bool
    ensures { IsTrue result ↔ ActsFor who owner }
{
    match owner {
        Owner::Operator => true,
        Owner::Migration(_) => who == MIGRATION_CALLER,
    }
}

/// Whether what has this owner may be removed under the number: a snapshot without an owner isn't
/// live.
fn is_let(who: u32, owner: Option<Owner>) -> bool
    ensures { IsTrue result ↔ OwnerLets who owner }
{
    match owner {
        Some(owner) => acts_for(who, owner),
        None => false,
    }
}
