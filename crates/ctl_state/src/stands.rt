//! Whether a record may stand, without reading it.
ghost use Rattle.std.specs.Prelude.{◌≡◌};
ghost use Rattle.ctl_state.specs.MayStand.{record_may_stand, may_plan, may_step_in};

use crate::work::has_double;
use crate::{CtlState, Name, NumberList};
use record_codec::Record;

impl CtlState {
    /// Whether the record may stand behind those before it, so that [`apply`](CtlState::apply)
    /// doesn't find it strange. It takes no memory, and for a plan the square of its machines.
    pub fn stands(&self, r: &Record) -> bool
        ensures { result ≡ record_may_stand self.now r.now }
    {
        match r {
            Record::PlanMade {
                plan,
                name,
                vms,
                ..
            } => self.may_plan(*plan, name, vms),
            Record::MigrationStarted {
                mig,
                plan,
                vm,
                disks,
            } => { self.may_start(*mig, *plan, *vm, *disks) }
            Record::CutoverSet { plan, has, at } => self.may_cut_over(*plan, *has, *at),
            Record::Chosen { mig, .. }
            | Record::SnapTaken { mig, .. }
            | Record::IdsStored { mig, .. }
            | Record::VolumesMade { mig }
            | Record::CheckpointAdded { mig, .. }
            | Record::StageBegun { mig, .. }
            | Record::StageDone { mig, .. }
            | Record::Paused { mig, .. }
            | Record::SnapRemoved { mig, .. }
            | Record::PowerStored { mig, .. }
            | Record::PoweredOff { mig }
            | Record::OffSeen { mig, .. }
            | Record::FinalSnapTaken { mig, .. }
            | Record::CancelAsked { mig }
            | Record::Ended { mig, .. } => self.may_step_in(*mig, r),
        }
    }

    fn may_plan(&self, plan: u32, name: &Name, vms: &NumberList) -> bool
        ensures { result ≡ may_plan self.now plan name.now vms.now }
    {
        self.is_new_plan(plan, name) && self.are_free(vms.as_slice()) && !has_double(vms.as_slice())
    }

    fn may_step_in(&self, mig: u32, r: &Record) -> bool
        ensures { result ≡ may_step_in self.now mig r.now }
    {
        match self.status(mig) {
            None => false,
            Some(migration) => migration.may_step(r),
        }
    }
}
