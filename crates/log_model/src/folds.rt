//! What the entries of a log mean, each fact by one pass over them.
ghost use Rattle.std.specs.Prelude.{◌≡◌, ◌≢◌, ◌<◌, ◌≤◌, ◌^◌, ℕ, Some, length, position, MatchOption, IsTrue, ◌↔◌};
ghost use Rattle.log_model.specs.Entry.{takes};
ghost use Rattle.log_model.specs.Legal.{machine_on, taken, owner_of, owner_after, is_enabled, written};
ghost use Rattle.log_model.specs.Marks.{mark, epoch, counted, counted_after, number, tracking, tracking_after};
ghost use Rattle.log_model.specs.Frozen.{last_off};
ghost use Rattle.log_model.specs.Link.{facts_of, Owns, IsLeastOwned};

use crate::{Act, Entry, Facts, MAX_LOG_ENTRIES, Owner};

/// How far change tracking of a machine has come.
#[derive(Clone, Copy, Debug, PartialEq, Eq)]
pub enum Tracking {
    /// It was never enabled.
    Never,
    /// It was enabled, and the machine wasn't stunned since.
    Enabled,
    /// A snapshot or a power-on has put it into effect.
    Active,
}

/// Whether the machine is on after the log.
pub fn machine_on(log: &[Entry]) -> bool
    ensures { result ≡ machine_on log.now }
{
    log.iter().fold(true, |on, entry| {
        if entry.act.is_off() {
            false
        } else if entry.act.is_on() {
            true
        } else {
            on
        }
    })
}

/// How many snapshots were taken.
pub fn taken(log: &[Entry]) -> usize
    ensures { result ≡ taken log.now }
{
    log.iter().filter(|entry| entry.act.is_snap()).count()
}

/// The owner of a live snapshot.
pub fn owner_of(log: &[Entry], snapshot: u32) -> Option<Owner>
    ensures { result ≡ owner_of snapshot log.now }
{
    log.iter()
        .fold(None, |owner, entry| owner_after(owner, entry, snapshot))
}

/// The owner of a snapshot after one entry more.
fn owner_after(owner: Option<Owner>, entry: &Entry, snapshot: u32) -> Option<Owner>
    ensures { result ≡ owner_after snapshot owner entry.now }
{
    match &entry.act {
        Act::Snap { id, owner: by } if *id == snapshot => Some(*by),
        Act::Remove { id } if *id == snapshot => None,
        _ => owner,
    }
}

/// Whether an Enable entry stands in the log.
pub fn is_enabled(log: &[Entry]) -> bool
    ensures { result ≡ is_enabled log.now }
{
    log.iter().fold(
        false,
        |enabled, entry| if entry.act.is_enable() { true } else { enabled },
    )
}

/// How many sectors all writes have together.
pub fn written(log: &[Entry]) -> u64
    requires { written log.now < 2 ^ 64 }
    ensures { result ≡ written log.now }
{
    log.iter().map(|entry| entry.act.sectors()).sum()
}

/// How many entries stand before the one that takes the snapshot.
pub fn mark(log: &[Entry], snapshot: u32) -> usize
    ensures mark { result ≡ mark snapshot log.now }
    ensures within { result ≤ length log.now }
{
    snap_place(log, snapshot).unwrap_or(log.len())
}

/// The place of the entry that takes the snapshot.
fn snap_place(log: &[Entry], snapshot: u32) -> Option<usize>
    ensures { result ≡ position (λ entry. takes snapshot entry.act) log.now }
{
    log.iter().position(|entry| entry.act.takes(snapshot))
}

/// How often the tracking of the disk was reset.
pub fn epoch(log: &[Entry], disk: u32) -> u64
    ensures { result ≡ epoch disk log.now }
{
    log.iter().filter(|entry| entry.act.resets(disk)).count() as u64
}

/// The disk's sequence number: how many snapshots were taken since tracking was enabled and last
/// reset.
pub fn number(log: &[Entry], disk: u32) -> u64
    ensures { result ≡ number disk log.now }
{
    let mut counted = None;
    for entry in log {
        counted = match counted {
            None if entry.act.is_enable() => Some(0),
            None => None,
            Some(_) if entry.act.resets(disk) => Some(0),
            Some(n) if entry.act.is_snap() => Some(n + 1),
            Some(n) => Some(n),
        };
    }
    counted.unwrap_or(0)
}

/// How far tracking has come.
pub fn tracking_of(log: &[Entry]) -> Tracking
    ensures { result ≡ tracking log.now }
{
    log.iter().fold(Tracking::Never, tracking_after)
}

/// How far it has come after one entry more.
fn tracking_after(tracking: Tracking, entry: &Entry) -> Tracking
    ensures { result ≡ tracking_after tracking entry.now }
{
    match tracking {
        Tracking::Never if entry.act.is_enable() => Tracking::Enabled,
        Tracking::Enabled if entry.act.is_snap() || entry.act.is_on() => Tracking::Active,
        _ => tracking,
    }
}

/// The place where the machine was powered off, if it is off.
pub fn last_off(log: &[Entry]) -> Option<usize>
    ensures { result ≡ last_off log.now }
{
    log.iter().enumerate().fold(None, |place, (at, entry)| {
        if entry.act.is_off() {
            Some(at)
        } else if entry.act.is_on() {
            None
        } else {
            place
        }
    })
}

/// What a machine is like after the log.
pub fn facts_of(log: &[Entry]) -> Facts
    requires { length log.now ≤ MAX_LOG_ENTRIES }
    ensures { result ≡ facts_of log.now }
{
    Facts {
        on: machine_on(log),
        entries: log.len() as u64,
        enabled: is_enabled(log),
        tracking: tracking_of(log) == Tracking::Active,
        snaps: taken(log) as u32,
    }
}

/// The least live snapshot of the owner from `from` on, up to the last that was taken.
pub fn least_owned(log: &[Entry], owner: Owner, from: u32) -> Option<u32>
    requires { length log.now ≤ MAX_LOG_ENTRIES }
    ensures { MatchOption result
        ((s : ℕ) → from ≤ s → s ≤ taken log.now → owner_of s log.now ≢ Some owner)
        (λ s. IsLeastOwned owner from log.now (Some s)) }
{
    for snapshot in from..taken(log) as u32 + 1 {
        if is_owned(log, owner, snapshot) {
            return Some(snapshot);
        }
    }
    None
}

/// Whether the snapshot is live, and the owner's.
fn is_owned(log: &[Entry], owner: Owner, snapshot: u32) -> bool
    ensures { IsTrue result ↔ Owns owner snapshot log.now }
{
    owner_of(log, snapshot) == Some(owner)
}
