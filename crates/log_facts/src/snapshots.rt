//! What a log says of each snapshot, by its number.
ghost use Rattle.std.specs.Prelude.{◌≡◌, IfOk};
ghost use Rattle.ctl_state.specs.Migration.{change_at};
ghost use Rattle.log_facts.specs.Snapshots.{with_owner, facts_after, AreSnapshots};

use basics::NoMemory;
use log_model::{Act, Entry, Owner, taken};
use std::alloc::Global;

/// What a log says of a snapshot.
#[derive(Clone, Copy, Debug)]
pub(crate) struct SnapshotFacts {
    /// Who it belongs to, if it is live.
    pub owner: Option<Owner>,
    /// Whether it was removed.
    pub removed: bool,
}

impl SnapshotFacts {
    /// Of one that was not taken yet.
    const NEW: SnapshotFacts = SnapshotFacts {
        owner: None,
        removed: false,
    };
}

/// Those of the numbers 0 up to the last that was taken; no snapshot has 0. It answers only want of
/// memory.
pub(crate) fn snapshots_of(alloc: Global, log: &[Entry]) -> Result<Vec<SnapshotFacts>, NoMemory>
    ensures { IfOk result (λ snapshots. AreSnapshots log.now snapshots.items) }
{
    let count = taken(log) + 1;
    let mut snapshots = vec![in alloc; SnapshotFacts::NEW; count]?;
    for entry in log {
        follow(&mut snapshots, &entry.act);
    }
    Ok(snapshots)
}

/// Follows an act.
fn follow(snapshots: &mut [SnapshotFacts], act: &Act)
    ensures { snapshots.new ≡ facts_after act.now snapshots.old }
{
    match act {
        Act::Snap { id, owner } => put(snapshots, *id, Some(*owner), false),
        Act::Remove { id } => put(snapshots, *id, None, true),
        Act::Write { .. } | Act::Reset { .. } | Act::Enable | Act::Off | Act::On => {}
    }
}

/// Puts the owner of a snapshot, and whether it was removed now.
fn put(snapshots: &mut [SnapshotFacts], id: u32, owner: Option<Owner>, removed: bool)
    ensures { snapshots.new ≡ change_at snapshots.old id (with_owner owner removed) }
{
    let place = id as usize;
    if place < snapshots.len() {
        snapshots[place] = SnapshotFacts {
            owner,
            removed: snapshots[place].removed || removed,
        };
    }
}
