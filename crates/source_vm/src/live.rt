//! The live snapshots of a machine with their owners, in the order in which they were taken, which
//! is that of their numbers.
ghost use Rattle.std.specs.Prelude.{◌≡◌, ◌<◌, ◌≤◌, length, nat_lt, true, false};
ghost use Rattle.std.specs.Vec.{vec_len, vec_capacity};
ghost use Rattle.std.specs.List.Sorted.{IsPartitionPoint};
ghost use Rattle.source_vm.specs.Live.{without, live_after, owner_in, AreAscending, IsLeastIn};

use log_model::{Act, Owner};

/// A live snapshot.
#[derive(Clone, Copy, Debug)]
pub(crate) struct LiveSnap {
    /// Its number.
    pub id: u32,
    /// Who it belongs to.
    pub owner: Owner,
}

/// Adds the snapshot that an act takes, or removes the one that it removes. It takes no memory.
pub(crate) fn follow(live: &mut Vec<LiveSnap>, act: &Act)
    requires room { vec_len live.old < vec_capacity live.old }
    requires ascending { AreAscending live.old.items }
    ensures { live.new.items ≡ live_after act.now live.old.items }
{
    match act {
        Act::Snap { id, owner } => {
            let taken = LiveSnap {
                id: *id,
                owner: *owner,
            };
            live.push(taken).unwrap();
        }
        Act::Remove { id } => remove(live, *id),
        Act::Write { .. } | Act::Reset { .. } | Act::Enable | Act::Off | Act::On => {}
    }
}

/// Removes a snapshot, if it is live.
fn remove(live: &mut Vec<LiveSnap>, id: u32)
    requires { AreAscending live.old.items }
    ensures { live.new.items ≡ without id live.old.items }
{
    let place = place_from(live.as_slice(), id);
    if place < live.len() && live[place].id == id {
        live.remove(place);
    }
}

/// The owner of a snapshot, if it is live.
pub(crate) fn owner_in(live: &[LiveSnap], id: u32) -> Option<Owner>
    requires { AreAscending live.now }
    ensures { result ≡ owner_in id live.now }
{
    match live.get(place_from(live, id)) {
        Some(snap) if snap.id == id => Some(snap.owner),
        _ => None,
    }
}

/// The least live snapshot of the owner from `from` on.
pub(crate) fn least_owned_in(live: &[LiveSnap], owner: Owner, from: u32) -> Option<u32>
    requires { AreAscending live.now }
    ensures { IsLeastIn owner from live.now result }
{
    let later = &live[place_from(live, from)..];
    for snap in later {
        if snap.owner == owner {
            return Some(snap.id);
        }
    }
    None
}

/// The place of the first number that isn't lower.
fn place_from(live: &[LiveSnap], id: u32) -> usize
    requires { AreAscending live.now }
    ensures bound { result ≤ length live.now }
    ensures point { IsPartitionPoint (λ s. nat_lt s.id id ≡ true) (λ s. nat_lt s.id id ≡ false)
        live.now result }
{
    live.partition_point(|snap| snap.id < id)
}
