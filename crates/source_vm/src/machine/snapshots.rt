//! Snapshots: each is one of all disks and one entry, and so is its removal.
ghost use Rattle.std.specs.Prelude.{◌≡◌, ◌+◌, length, slice_range, IfOk, OnOk, OnErr};
ghost use Rattle.basics.specs.Refusal.{IsRefusedBy, IsRefusedOr};
ghost use Rattle.sector_model.specs.Page.{page_from};
ghost use Rattle.log_model.specs.declared.entry.Act.{Act};
ghost use Rattle.log_model.specs.Frozen.{frozen};
ghost use Rattle.log_model.specs.Legal.{Legal, all_of, ActsFor, capacity_of, taken};
ghost use Rattle.log_model.specs.Link.{snapped_after};
ghost use Rattle.log_model.specs.Marks.{id_at};
ghost use Rattle.log_model.specs.Query.{changed_areas};
ghost use Rattle.log_model.specs.Refusals.{snap_refusal, remove_refusal, change_id_refusal, query_refusal, read_refusal};
ghost use Rattle.source_vm.specs.Machine.{Adds};
ghost use Rattle.source_vm.specs.Refusals.{link_refused};

use super::Machine;
use crate::disks::{freeze_all, merge_all, reserve_freezes, reserve_merges};
use change_id::{ChangeId, Since};
use change_tracker::TrackRefused;
use log_model::{Act, LinkRefused, Owner, Snapped};
use sector_model::{Page, Sector};

impl Machine {
    /// Takes a snapshot of all disks, under the number `who`.
    pub(crate) fn snap(
        &mut self,
        who: u32,
        owner: Owner,
        must_be_off: bool,
    ) -> Result<Snapped, LinkRefused>
        requires { ActsFor who owner }
        ensures adds { Adds result who (Act.Snap (taken self.old.log + 1) owner)
            self.old self.new }
        ensures refused { IsRefusedOr
            (snap_refusal must_be_off self.old.log) LinkRefused.NoMemory result }
        ensures snapped { IfOk result (λ snapped. snapped ≡ snapped_after self.old.log) }
        ensures legal { Legal (all_of self.new.capacities) self.new.log }
    {
        if let Some(refused) = self.log.snap_refusal(must_be_off) {
            return Err(refused);
        }
        if self.log.reserve().is_err() || reserve_freezes(&mut self.disks).is_err() {
            return Err(LinkRefused::NoMemory);
        }
        let snapped = self.log.snapped();
        let id = snapped.id;
        freeze_all(&mut self.disks, id);
        self.log.push(who, Act::Snap { id, owner });
        Ok(snapped)
    }

    /// Removes a live snapshot of all disks in its owner's name, under the number `who`.
    pub(crate) fn remove(&mut self, who: u32, owner: Owner, id: u32) -> Result<(), LinkRefused>
        ensures adds { Adds result who (Act.Remove id) self.old self.new }
        ensures refused { IsRefusedOr
            (remove_refusal who owner id self.old.log) LinkRefused.NoMemory result }
        ensures legal { Legal (all_of self.new.capacities) self.new.log }
    {
        if let Some(refused) = self.log.remove_refusal(who, owner, id) {
            return Err(refused);
        }
        if self.log.reserve().is_err() || reserve_merges(&mut self.disks, id).is_err() {
            return Err(LinkRefused::NoMemory);
        }
        merge_all(&mut self.disks, id);
        self.log.push(who, Act::Remove { id });
        Ok(())
    }

    /// The identifier of a disk at a live snapshot.
    pub(crate) fn change_id(&self, id: u32, disk: u32) -> Result<Option<ChangeId>, LinkRefused>
        ensures refused { IsRefusedBy
            (change_id_refusal self.now.capacities id disk self.now.log) result }
        ensures found { IfOk result
            (λ found. found ≡ id_at self.now.number disk id self.now.log) }
        ensures legal { Legal (all_of self.now.capacities) self.now.log }
    {
        if !self.log.is_live(id) {
            return Err(LinkRefused::UnknownSnap);
        }
        match self.disks.get(disk as usize) {
            Some(found) => found.id_of(id).map_err(link_refused),
            None => Err(LinkRefused::Range),
        }
    }

    /// Puts into the page what changed on a disk between an identifier, or the beginning, and a
    /// live snapshot.
    pub(crate) fn query(
        &self,
        id: u32,
        disk: u32,
        since: Since,
        start: u64,
        page: &mut Page,
    ) -> Result<(), LinkRefused>
        ensures refused { IsRefusedBy
            (query_refusal self.now.number self.now.capacities id disk since start self.now.log)
            result }
        ensures areas { OnOk result (IfOk
            (changed_areas self.now.number (capacity_of self.now.capacities disk) disk id since
            self.now.log)
            (λ areas. page.new
            ≡ page_from (capacity_of self.now.capacities disk) areas start)) }
        ensures kept { OnErr result (page.new ≡ page.old) }
        ensures legal { Legal (all_of self.now.capacities) self.now.log }
    {
        if !self.log.is_live(id) {
            return Err(LinkRefused::UnknownSnap);
        }
        match self.disks.get(disk as usize) {
            Some(found) => found.query(id, since, start, page).map_err(link_refused),
            None => Err(LinkRefused::Range),
        }
    }

    /// Reads the sectors of a disk from `first` on as a live snapshot froze them.
    pub(crate) fn read_snap(
        &self,
        id: u32,
        disk: u32,
        first: u64,
        buf: &mut [Sector],
    ) -> Result<(), LinkRefused>
        ensures refused { IsRefusedBy
            (read_refusal self.now.capacities id disk first (length buf.old) self.now.log) result }
        ensures sectors { OnOk result (buf.new ≡ slice_range
            (frozen (capacity_of self.now.capacities disk) disk id self.now.log)
            first (first + length buf.old)) }
        ensures kept { OnErr result (buf.new ≡ buf.old) }
        ensures legal { Legal (all_of self.now.capacities) self.now.log }
    {
        if !self.log.is_live(id) {
            return Err(LinkRefused::UnknownSnap);
        }
        match self.disks.get(disk as usize) {
            Some(found) if found.read(Some(id), first, buf).is_ok() => Ok(()),
            _ => Err(LinkRefused::Range),
        }
    }
}

/// The refusal of a machine that one of its disks gives.
fn link_refused(refused: TrackRefused) -> LinkRefused
    ensures { result ≡ link_refused refused }
{
    match refused {
        TrackRefused::UnknownSnap => LinkRefused::UnknownSnap,
        TrackRefused::Range => LinkRefused::Range,
        TrackRefused::Strange(id) => LinkRefused::Strange(id),
        TrackRefused::NoMemory => LinkRefused::NoMemory,
    }
}
