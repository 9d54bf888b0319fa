//! A machine as one caller reaches it.
ghost use Rattle.std.specs.Prelude.{◌≡◌, ◌+◌, IfOk, OnOk, OnErr, length, slice_range};
ghost use Rattle.sector_model.specs.Page.{page_from};
ghost use Rattle.log_model.specs.Legal.{capacity_of, taken, ActsFor};
ghost use Rattle.log_model.specs.Marks.{id_at};
ghost use Rattle.log_model.specs.Frozen.{frozen};
ghost use Rattle.log_model.specs.Query.{changed_areas};
ghost use Rattle.log_model.specs.Refusals.{snap_refusal, remove_refusal, change_id_refusal, query_refusal, read_refusal, power_off_refusal, power_on_refusal, reset_refusal, enable_refusal};
ghost use Rattle.basics.specs.Refusal.{IsRefusedBy, IsRefusedOr};
ghost use Rattle.log_model.specs.Link.{LinkState, OnlyReads, AddsAct, log_met, snapped_after, facts_of, IsLeastOwned};

use crate::{Act, LinkRefused, Owner};
use change_id::{ChangeId, Since};
use sector_model::{Page, Sector};

/// A snapshot that was just taken.
#[derive(Clone, Copy, Debug, PartialEq, Eq)]
pub struct Snapped {
    /// Its number: 1, 2 and so on.
    pub id: u32,
    /// How many entries of the log stand before it.
    pub mark: u64,
    /// Where the machine was powered off, if it is off.
    pub off_place: Option<u64>,
}

/// What a machine is like.
#[derive(Clone, Copy, Debug, PartialEq, Eq)]
pub struct Facts {
    /// Whether it is powered on.
    pub on: bool,
    /// How many entries its log has.
    pub entries: u64,
    /// Whether change tracking was enabled.
    pub enabled: bool,
    /// Whether tracking is active: a snapshot or a power-on came after it was enabled.
    pub tracking: bool,
    /// How many snapshots were taken so far.
    pub snaps: u32,
}

/// A machine as one caller reaches it. Each call sees the machine's log at one moment. Others may
/// have added entries since the caller's last call, unless nobody else reaches the machine. Calls
/// take memory from the machine's own allocator.
pub trait Link {
    /// The machine's number, the capacities of its disks, the caller's number, the turn, whether
    /// nobody else reaches the machine, the log as last seen, and the caller's own entries.
    ghost state: { Self → LinkState };

    /// Takes a snapshot. One in a migration's name is taken by the caller with the number
    /// [`MIGRATION_CALLER`](crate::MIGRATION_CALLER) alone. [`LinkRefused::Running`] where the
    /// machine must be off and is on, [`LinkRefused::Spent`] where the log is full,
    /// [`LinkRefused::NoMemory`].
    fn snap(&mut self, owner: Owner, must_be_off: bool) -> Result<Snapped, LinkRefused>
        requires { ActsFor (state self.old).caller owner }
        ensures adds { AddsAct result (Act.Snap (taken (log_met result (state self.new)) + 1) owner)
            (state self.old) (state self.new) }
        ensures refused { IsRefusedOr
            (snap_refusal must_be_off (log_met result (state self.new)))
            LinkRefused.NoMemory result }
        ensures snapped { IfOk result
            (λ snapped. snapped ≡ snapped_after (log_met result (state self.new))) };

    /// Removes a live snapshot in its owner's name. [`LinkRefused::UnknownSnap`] where it isn't
    /// live, [`LinkRefused::Owned`] where it is another owner's, or a migration's and the caller's
    /// number isn't [`MIGRATION_CALLER`](crate::MIGRATION_CALLER), [`LinkRefused::Spent`] where the
    /// log is full, [`LinkRefused::NoMemory`].
    fn remove(&mut self, owner: Owner, id: u32) -> Result<(), LinkRefused>
        ensures adds { AddsAct result (Act.Remove id) (state self.old) (state self.new) }
        ensures refused { IsRefusedOr
            (remove_refusal (state self.old).caller owner id (log_met result (state self.new)))
            LinkRefused.NoMemory result };

    /// The identifier of a disk at a live snapshot, if tracking was enabled before it. A later
    /// reset doesn't change it. [`LinkRefused::UnknownSnap`] where the snapshot isn't live,
    /// [`LinkRefused::Range`] where the disk is unknown.
    fn change_id(&mut self, id: u32, disk: u32) -> Result<Option<ChangeId>, LinkRefused>
        ensures reads { OnlyReads (state self.old) (state self.new) }
        ensures refused { IsRefusedBy
            (change_id_refusal (state self.old).capacities id disk (state self.new).seen) result }
        ensures found { IfOk result
            (λ found. found ≡ id_at (state self.old).machine disk id (state self.new).seen) };

    /// Puts into the page the areas of a disk that changed between an identifier, or the beginning,
    /// and a live snapshot: those from sector `start` on, at most
    /// [`PAGE_AREAS`](sector_model::PAGE_AREAS).
    /// [`LinkRefused::UnknownSnap`] where the snapshot isn't live, [`LinkRefused::Range`] where the
    /// disk is unknown or `start` isn't below its capacity, [`LinkRefused::Strange`] where the
    /// identifier isn't one of this disk's present epoch up to the snapshot.
    fn query(
        &mut self,
        id: u32,
        disk: u32,
        since: Since,
        start: u64,
        page: &mut Page,
    ) -> Result<(), LinkRefused>
        ensures reads { OnlyReads (state self.old) (state self.new) }
        ensures refused { IsRefusedBy
            (query_refusal (state self.old).machine (state self.old).capacities id disk since start
            (state self.new).seen) result }
        ensures areas { OnOk result (IfOk
            (changed_areas (state self.old).machine
            (capacity_of (state self.old).capacities disk) disk id since (state self.new).seen)
            (λ areas. page.new
            ≡ page_from (capacity_of (state self.old).capacities disk) areas start)) }
        ensures kept { OnErr result (page.new ≡ page.old) };

    /// Reads the sectors of a disk from `first` on as a live snapshot froze them.
    /// [`LinkRefused::UnknownSnap`] where it isn't live, [`LinkRefused::Range`] where the buffer is
    /// empty, the disk is unknown, or the range passes its capacity.
    fn read_snap(
        &mut self,
        id: u32,
        disk: u32,
        first: u64,
        buf: &mut [Sector],
    ) -> Result<(), LinkRefused>
        ensures reads { OnlyReads (state self.old) (state self.new) }
        ensures refused { IsRefusedBy
            (read_refusal (state self.old).capacities id disk first (length buf.old)
            (state self.new).seen) result }
        ensures sectors { OnOk result (buf.new ≡ slice_range
            (frozen (capacity_of (state self.old).capacities disk) disk id (state self.new).seen)
            first (first + length buf.old)) }
        ensures kept { OnErr result (buf.new ≡ buf.old) };

    /// Powers the machine off, and tells the place of the entry. [`LinkRefused::AlreadyOff`] where
    /// it is off, [`LinkRefused::Spent`] where the log is full, [`LinkRefused::NoMemory`].
    fn power_off(&mut self) -> Result<u64, LinkRefused>
        ensures adds { AddsAct result Act.Off (state self.old) (state self.new) }
        ensures refused { IsRefusedOr
            (power_off_refusal (log_met result (state self.new))) LinkRefused.NoMemory result }
        ensures place { IfOk result (λ place. place ≡ length (log_met result (state self.new))) };

    /// Powers the machine on, and tells the place of the entry. [`LinkRefused::AlreadyOn`] where it
    /// is on, [`LinkRefused::Spent`] where the log is full, [`LinkRefused::NoMemory`].
    fn power_on(&mut self) -> Result<u64, LinkRefused>
        ensures adds { AddsAct result Act.On (state self.old) (state self.new) }
        ensures refused { IsRefusedOr
            (power_on_refusal (log_met result (state self.new))) LinkRefused.NoMemory result }
        ensures place { IfOk result (λ place. place ≡ length (log_met result (state self.new))) };

    /// Resets the tracking of a disk: identifiers given before are strange from then on.
    /// [`LinkRefused::Range`] where the disk is unknown, [`LinkRefused::Spent`] where the log is
    /// full, [`LinkRefused::NoMemory`].
    fn reset(&mut self, disk: u32) -> Result<(), LinkRefused>
        ensures adds { AddsAct result (Act.Reset disk) (state self.old) (state self.new) }
        ensures refused { IsRefusedOr
            (reset_refusal (state self.old).capacities disk (log_met result (state self.new)))
            LinkRefused.NoMemory result };

    /// Enables change tracking. [`LinkRefused::AlreadyEnabled`] where it was enabled before,
    /// [`LinkRefused::Spent`] where the log is full, [`LinkRefused::NoMemory`].
    fn enable(&mut self) -> Result<(), LinkRefused>
        ensures adds { AddsAct result Act.Enable (state self.old) (state self.new) }
        ensures refused { IsRefusedOr
            (enable_refusal (log_met result (state self.new))) LinkRefused.NoMemory result };

    /// What the machine is like.
    fn facts(&mut self) -> Facts
        ensures reads { OnlyReads (state self.old) (state self.new) }
        ensures facts { result ≡ facts_of (state self.new).seen };

    /// The least live snapshot of an owner with a number of at least `from`, or None where there is
    /// none.
    fn owned_from(&mut self, owner: Owner, from: u32) -> Option<u32>
        ensures reads { OnlyReads (state self.old) (state self.new) }
        ensures least { IsLeastOwned owner from (state self.new).seen result };
}
