//! The records of one migration: whether each may stand where the migration is, and what it
//! changes.
ghost use Rattle.std.specs.Prelude.{◌≡◌, ◌≤◌, ◌==◌, ◌&&◌, Some, None, true, OnOk, OnErr, is_none};
ghost use Rattle.record_codec.specs.declared.record.Record.{Record};
ghost use Rattle.checkpoints.specs.DataVolume.{add_refusal, after_add};
ghost use Rattle.ctl_state.specs.Migration.{same_phase, moved, is_live, reached, current_snapshot, stored_place, is_left, is_being_copied};
ghost use Rattle.ctl_state.specs.Steps.{with_snapshot, without_snapshot, with_volume_done, with_stage_done, with_end, end_by, finished_volume, fact_of_way, fact_of_end, after_step};
ghost use Rattle.ctl_state.specs.MayStand.{have_numbers, goes_on_in, copies_disks, may_choose, is_later, may_take, may_store, is_current, adds_checkpoint, may_add, may_begin, may_finish, may_pause, may_remove, may_see, may_take_final, may_cancel, may_end, may_step};

use crate::marks::push_both;
use crate::{How, MAX_STAGE_SECTORS, Migration};
use basics::NoMemory;
use change_id::ChangeId;
use checkpoints::DataVolume;
use phase_table::{Fact, Phase, next};
use plan_model::Moment;
use record_codec::Record;

// Whether a record may stand.
impl Migration {
    #[tactic(auto, unfolding(crate::specs::Migration::same_phase))]
    pub(crate) fn is_at(&self, phase: Phase) -> bool
        ensures { result ≡ same_phase self.now.phase phase }
    {
        self.phase.number() == phase.number()
    }

    fn goes_on_in(&self, phase: Phase) -> bool
        ensures { result ≡ goes_on_in self.now phase }
    {
        !self.cancel && self.is_at(phase)
    }

    fn copies_disks(&self) -> bool
        ensures { result ≡ copies_disks self.now }
    {
        self.is_at(Phase::CopyDisks) || self.is_at(Phase::CopyFinal)
    }

    fn may_choose(&self, way: u8) -> bool
        ensures { result ≡ may_choose self.now way }
    {
        (self.goes_on_in(Phase::Started) && way == 0)
            || (self.goes_on_in(Phase::CopyingPaused) && (way == 1 || way == 2))
    }

    pub(crate) fn reached(&self) -> u32
        ensures { result ≡ reached self.now }
    {
        match self.dv.checkpoints().last() {
            None => 0,
            Some(checkpoint) => checkpoint.current,
        }
    }

    fn may_take(&self, snap: u32) -> bool
        ensures { result ≡ may_take self.now snap }
    {
        (self.goes_on_in(Phase::CreateInitialSnapshot) || self.goes_on_in(Phase::CreateSnapshot))
            && self.reached() < snap
    }

    fn may_store(&self, ids: &[ChangeId]) -> bool
        ensures { result ≡ may_store self.now ids.now }
    {
        (self.goes_on_in(Phase::StoreInitialIds) || self.goes_on_in(Phase::StoreIds))
            && ids.len() == self.disks as usize
            && have_numbers(ids)
    }

    fn is_current(&self, snap: u32) -> bool
        ensures { result ≡ is_current self.now snap }
    {
        match self.snap {
            None => false,
            Some(current) => current == snap,
        }
    }

    fn adds_checkpoint(&self, last: bool) -> bool
        ensures { result ≡ adds_checkpoint self.now last }
    {
        if last {
            self.goes_on_in(Phase::AddFinalCheckpoint)
        } else {
            self.goes_on_in(Phase::AddFirstCheckpoint) || self.goes_on_in(Phase::AddCheckpoint)
        }
    }

    fn may_add(&self, previous: u32, current: u32, last: bool) -> bool
        ensures { result ≡ may_add self.now previous current last }
    {
        self.adds_checkpoint(last)
            && self.is_current(current)
            && accepts(&self.dv, previous, current)
    }

    fn may_begin(&self, disk: u32) -> bool
        ensures { result ≡ may_begin self.now disk }
    {
        !self.cancel && self.copies_disks() && self.is_left(disk)
    }

    fn is_being_copied(&self, disk: u32) -> bool
        ensures { result ≡ is_being_copied self.now disk }
    {
        match self.copies.as_slice().get(disk as usize) {
            None => false,
            Some(copy) => copy.begun && !copy.done,
        }
    }

    fn may_finish(&self, disk: u32, written: u64) -> bool
        ensures { result ≡ may_finish self.now disk written }
    {
        self.copies_disks() && self.is_being_copied(disk) && written <= MAX_STAGE_SECTORS
    }

    fn may_pause(&self) -> bool
        ensures { result ≡ may_pause self.now }
    {
        self.goes_on_in(Phase::CopyDisks) && self.copies.all_done()
    }

    fn may_remove(&self, snap: u32) -> bool
        ensures { result ≡ may_remove self.now snap }
    {
        (self.goes_on_in(Phase::RemovePreviousSnapshot)
            || self.goes_on_in(Phase::RemovePenultimateSnapshot))
            && snap == self.snap.unwrap_or(0)
    }

    fn may_see(&self, off: bool) -> bool
        ensures { result ≡ may_see self.now off }
    {
        self.goes_on_in(Phase::WaitForPowerOff)
            || (!off && self.goes_on_in(Phase::CreateFinalSnapshot))
    }

    fn may_take_final(&self, snap: u32, mark: u64, place: u64) -> bool
        ensures { result ≡ may_take_final self.now snap mark place }
    {
        self.goes_on_in(Phase::CreateFinalSnapshot) && place < mark && self.reached() < snap
    }

    fn may_cancel(&self) -> bool
        ensures { result ≡ may_cancel self.now }
    {
        self.how.is_none() && !self.cancel
    }

    pub(crate) fn may_end(&self, how: u8, place: u64) -> bool
        ensures { result ≡ may_end self.now how place }
    {
        if !self.is_live() {
            return false;
        }
        match how {
            0 => self.goes_on_in(Phase::RemoveFinalSnapshot) && place == self.place.unwrap_or(0),
            1 => place == 0 && self.cancel,
            2 | 3 => place == 0 && !self.cancel,
            _ => false,
        }
    }

    pub(crate) fn may_step(&self, r: &Record) -> bool
        ensures { result ≡ may_step self.now r.now }
    {
        match r {
            Record::PlanMade { .. } | Record::MigrationStarted { .. } | Record::CutoverSet { .. } =>
                false,
            Record::Chosen { way, .. } => self.may_choose(*way),
            Record::SnapTaken { snap, .. } => self.may_take(*snap),
            Record::IdsStored { ids, .. } => self.may_store(ids.as_slice()),
            Record::VolumesMade { .. } => self.goes_on_in(Phase::CreateVolumes),
            Record::CheckpointAdded {
                previous,
                current,
                last,
                ..
            } => { self.may_add(*previous, *current, *last) }
            Record::StageBegun { disk, .. } => self.may_begin(*disk),
            Record::StageDone { disk, written, .. } => self.may_finish(*disk, *written),
            Record::Paused { .. } => self.may_pause(),
            Record::SnapRemoved { snap, .. } => self.may_remove(*snap),
            Record::PowerStored { .. } => self.goes_on_in(Phase::StorePowerState),
            Record::PoweredOff { .. } => self.goes_on_in(Phase::PowerOffSource),
            Record::OffSeen { off, .. } => self.may_see(*off),
            Record::FinalSnapTaken {
                snap,
                mark,
                place,
                ..
            } => { self.may_take_final(*snap, *mark, *place) }
            Record::CancelAsked { .. } => self.may_cancel(),
            Record::Ended { how, place, .. } => self.may_end(*how, *place),
        }
    }
}

// What a record changes.
impl Migration {
    #[tactic(auto, unfolding(crate::specs::Migration::next_of))]
    fn go(&mut self, fact: Fact)
        ensures { self.new ≡ moved self.old fact }
    {
        if let Some(phase) = next(self.phase, fact) {
            self.phase = phase;
        }
    }

    fn set_snapshot(&mut self, snap: u32, mark: u64)
        ensures { self.new ≡ with_snapshot snap mark self.old }
    {
        self.snap = Some(snap);
        self.mark = mark;
        self.copies.forget_ids();
    }

    fn clear_snapshot(&mut self)
        ensures { self.new ≡ without_snapshot self.old }
    {
        self.snap = None;
        self.mark = 0;
    }

    fn add_checkpoint(&mut self, previous: u32, current: u32, last: bool) -> Result<(), NoMemory>
        requires { add_refusal self.old.dv previous current ≡ None }
        ensures ok { OnOk result (self.new
            ≡ after_step self.old (Record.CheckpointAdded 0 previous current last)) }
        ensures err { OnErr result (self.new ≡ self.old) }
    {
        if self.dv.add(previous, current, last).is_err() {
            return Err(NoMemory);
        }
        self.copies.renew();
        self.go(Fact::Done);
        Ok(())
    }

    fn finish_stage(&mut self, disk: u32, written: u64) -> Result<(), NoMemory>
        requires { written ≤ MAX_STAGE_SECTORS }
        ensures ok { OnOk result (self.new ≡ with_stage_done disk written self.old) }
        ensures err { OnErr result (self.new ≡ self.old) }
    {
        let mut copies = self.copies.clone()?;
        copies.finish(disk, self.mark, written);
        if copies.all_done() {
            let sum = copies.written();
            push_both(&mut self.marks, self.mark, &mut self.written, sum)?;
            self.copies = copies;
            self.have_checkpoint();
        } else {
            self.copies = copies;
        }
        Ok(())
    }

    fn have_checkpoint(&mut self)
        ensures { self.new ≡ with_volume_done self.old }
    {
        finish_volume(&mut self.dv);
        if self.is_at(Phase::CopyFinal) {
            self.go(Fact::Done);
        }
    }

    fn end(&mut self, how: How)
        ensures { self.new ≡ with_end how self.old }
    {
        let fact = match how {
            How::Completed => Fact::Done,
            How::Cancelled => Fact::Cancelled,
            How::FailedVolume | How::FailedSpent => Fact::Failed,
        };
        self.go(fact);
        self.clear_snapshot();
        self.how = Some(how);
    }
}

impl Migration {
    /// The record, which may stand, takes effect. It answers only want of memory.
    pub(crate) fn take_step(&mut self, r: &Record) -> Result<(), NoMemory>
        requires { may_step self.old r.now ≡ true }
        ensures ok { OnOk result (self.new ≡ after_step self.old r.now) }
        ensures err { OnErr result (self.new ≡ self.old) }
    {
        match r {
            Record::PlanMade { .. } | Record::MigrationStarted { .. } | Record::CutoverSet { .. } =>
                {}
            Record::CheckpointAdded {
                previous,
                current,
                last,
                ..
            } => { self.add_checkpoint(*previous, *current, *last)? }
            Record::StageBegun { disk, .. } => self.copies.begin(*disk),
            Record::StageDone { disk, written, .. } => self.finish_stage(*disk, *written)?,
            Record::CancelAsked { .. } => self.cancel = true,
            Record::Ended { how, .. } => self.end_by(*how),
            Record::Chosen { way, .. } => self.choose(*way),
            Record::SnapTaken { snap, mark, .. } => self.take_snapshot(*snap, *mark),
            Record::IdsStored { ids, .. } => self.store_ids(ids.as_slice()),
            Record::VolumesMade { .. } => self.have_volumes(),
            Record::Paused { at, .. } => self.pause(*at),
            Record::SnapRemoved { .. } => self.remove_snapshot(),
            Record::PowerStored { on, .. } => self.store_power(*on),
            Record::PoweredOff { .. } => self.go(Fact::Done),
            Record::OffSeen { off, .. } => self.see(*off),
            Record::FinalSnapTaken {
                snap,
                mark,
                place,
                ..
            } => { self.take_final(*snap, *mark, *place) }
        }
        Ok(())
    }

    fn choose(&mut self, way: u8)
        ensures { self.new ≡ moved self.old (fact_of_way way) }
    {
        let fact = match way {
            1 => Fact::Precopy,
            2 => Fact::Cutover,
            _ => Fact::Done,
        };
        self.go(fact);
    }

    fn take_snapshot(&mut self, snap: u32, mark: u64)
        ensures { self.new ≡ after_step self.old (Record.SnapTaken 0 snap mark) }
    {
        self.set_snapshot(snap, mark);
        self.go(Fact::Done);
    }

    fn store_ids(&mut self, ids: &[ChangeId])
        ensures { self.new ≡ after_step self.old (Record.IdsStored 0 ids.now) }
    {
        self.copies.store_ids(ids);
        self.go(Fact::Done);
    }

    fn have_volumes(&mut self)
        ensures { self.new ≡ after_step self.old (Record.VolumesMade 0) }
    {
        self.volumes = true;
        self.go(Fact::Done);
    }

    fn pause(&mut self, at: u64)
        ensures { self.new ≡ after_step self.old (Record.Paused 0 at) }
    {
        self.last = Some(Moment(at));
        self.go(Fact::Done);
    }

    fn remove_snapshot(&mut self)
        ensures { self.new ≡ after_step self.old (Record.SnapRemoved 0 0) }
    {
        self.clear_snapshot();
        self.go(Fact::Done);
    }

    fn store_power(&mut self, on: bool)
        ensures { self.new ≡ after_step self.old (Record.PowerStored 0 on) }
    {
        self.power = Some(on);
        self.go(Fact::Done);
    }

    fn see(&mut self, off: bool)
        ensures { self.new ≡ after_step self.old (Record.OffSeen 0 off) }
    {
        self.go(if off { Fact::Done } else { Fact::Running });
    }

    fn take_final(&mut self, snap: u32, mark: u64, place: u64)
        ensures { self.new ≡ after_step self.old (Record.FinalSnapTaken 0 snap mark place) }
    {
        self.set_snapshot(snap, mark);
        self.place = Some(place);
        self.go(Fact::Done);
    }

    pub(crate) fn end_by(&mut self, how: u8)
        ensures { self.new ≡ end_by how self.old }
    {
        if let Some(how) = How::of(how) {
            self.end(how);
        }
    }
}

/// Whether each identifier has a number from 1 on.
fn have_numbers(ids: &[ChangeId]) -> bool
    ensures { result ≡ have_numbers ids.now }
{
    ids.iter().all(|id| 0 < id.seq)
}

/// Whether a checkpoint between these snapshots may be added.
fn accepts(dv: &DataVolume, previous: u32, current: u32) -> bool
    ensures { result ≡ is_none (add_refusal dv.now previous current) }
{
    let (reached, done) = match dv.checkpoints().last() {
        None => (0, true),
        Some(checkpoint) => (checkpoint.current, checkpoint.done),
    };
    !dv.final_checkpoint() && done && previous == reached && previous < current
}

/// The last checkpoint is finished, if there is one that isn't.
fn finish_volume(dv: &mut DataVolume)
    ensures { dv.new ≡ finished_volume dv.old }
{
    let _ = dv.done();
}
