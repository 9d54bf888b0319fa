//! One record more: it is strange where it may not stand, and else takes effect. What can be
//! refused is looked at before memory is taken, and memory is taken before anything changes.
ghost use Rattle.std.specs.Prelude.{◌≡◌, false, not, OnOk, OnErr};
ghost use Rattle.std.specs.Bool.{OnTrue};
ghost use Rattle.std.specs.List.{list_any};
ghost use Rattle.ctl_state.specs.Value.{is_at_work};
ghost use Rattle.plan_model.specs.Plans.{is_taken};
ghost use Rattle.ctl_state.specs.Lookups.{HasRoom};
ghost use Rattle.basics.specs.Refusal.{IsRefusedOr};
ghost use Rattle.record_codec.specs.declared.record.Record.{Record};
ghost use Rattle.ctl_state.specs.Refusal.{strange_unless};
ghost use Rattle.ctl_state.specs.MayStand.{record_may_stand, is_new_plan, are_free, may_plan, may_start, is_next, may_cut_over, may_step_in, ends};
ghost use Rattle.ctl_state.specs.Fold.{after_record, after_step_in};

use crate::migration::{end_one, step_one};
use crate::plans::{add_plan, cut_over, cutover_of, end_in, is_next_of, start_one};
use crate::work::{begin_work, put_to_work, take_from_work};
use crate::{CtlState, Migration, StateRefused};
use basics::MAX_DISKS;
use plan_model::{Name, NumberList};
use record_codec::Record;

impl CtlState {
    /// The state behind one record more. [`StateRefused::Strange`] exactly where the record may not
    /// stand behind those before it. A refused record changes nothing.
    pub fn apply(&mut self, r: &Record) -> Result<(), StateRefused>
        ensures refused { IsRefusedOr (strange_unless (record_may_stand self.old r.now))
            StateRefused.NoMemory result }
        ensures applied { OnOk result (self.new ≡ after_record self.old r.now) }
        ensures kept { OnErr result (self.new ≡ self.old) }
    {
        match r {
            Record::PlanMade {
                plan,
                name,
                interval,
                vms,
            } => { self.make_plan(*plan, name, *interval, vms) }
            Record::MigrationStarted {
                mig,
                plan,
                vm,
                disks,
            } => { self.start_migration(*mig, *plan, *vm, *disks) }
            Record::CutoverSet { plan, has, at } => self.set_cutover(*plan, *has, *at),
            Record::Ended { mig, how, place } => self.end_migration(*mig, *how, *place),
            Record::Chosen { mig, .. }
            | Record::SnapTaken { mig, .. }
            | Record::IdsStored { mig, .. }
            | Record::VolumesMade { mig }
            | Record::CheckpointAdded { mig, .. }
            | Record::StageBegun { mig, .. }
            | Record::StageDone { mig, .. }
            | Record::Paused { mig, .. }
            | Record::SnapRemoved { mig, .. }
            | Record::PowerStored { mig, .. }
            | Record::PoweredOff { mig }
            | Record::OffSeen { mig, .. }
            | Record::FinalSnapTaken { mig, .. }
            | Record::CancelAsked { mig } => self.step(*mig, r),
        }
    }
}

// The records of plans.
impl CtlState {
    fn make_plan(
        &mut self,
        plan: u32,
        name: &Name,
        interval: u32,
        vms: &NumberList,
    ) -> Result<(), StateRefused>
        ensures refused { IsRefusedOr (strange_unless (may_plan self.old plan name.now vms.now))
            StateRefused.NoMemory result }
        ensures applied { OnOk result (self.new
            ≡ after_record self.old (Record.PlanMade plan name.now interval vms.now)) }
        ensures kept { OnErr result (self.new ≡ self.old) }
    {
        if !self.is_new_plan(plan, name) || !self.are_free(vms.as_slice()) {
            return Err(StateRefused::Strange);
        }
        put_to_work(&mut self.work, vms.as_slice())?;
        let added = add_plan(
            &mut self.plans,
            &mut self.courses,
            &mut self.names,
            plan,
            name,
            interval,
            vms,
        );
        if added.is_err() {
            take_from_work(&mut self.work, vms.as_slice());
            return Err(StateRefused::NoMemory);
        }
        Ok(())
    }

    fn start_migration(
        &mut self,
        mig: u32,
        plan: u32,
        vm: u32,
        disks: u32,
    ) -> Result<(), StateRefused>
        ensures refused { IsRefusedOr (strange_unless (may_start self.old mig plan vm disks))
            StateRefused.NoMemory result }
        ensures applied { OnOk result (self.new
            ≡ after_record self.old (Record.MigrationStarted mig plan vm disks)) }
        ensures kept { OnErr result (self.new ≡ self.old) }
    {
        if !self.may_start(mig, plan, vm, disks) {
            return Err(StateRefused::Strange);
        }
        let migration = Migration::new(self.alloc, mig, plan, vm, disks)?;
        self.migrations.push(migration)?;
        start_one(&mut self.courses, plan);
        begin_work(&mut self.work, vm, mig);
        Ok(())
    }

    fn set_cutover(&mut self, plan: u32, has: bool, at: u64) -> Result<(), StateRefused>
        ensures refused { IsRefusedOr (strange_unless (may_cut_over self.old plan has at))
            StateRefused.NoMemory result }
        ensures applied { OnOk result (self.new
            ≡ after_record self.old (Record.CutoverSet plan has at)) }
        ensures kept { OnErr result (self.new ≡ self.old) }
    {
        if !self.may_cut_over(plan, has, at) {
            return Err(StateRefused::Strange);
        }
        cut_over(&mut self.courses, plan, cutover_of(has, at));
        Ok(())
    }
}

// The records of migrations.
impl CtlState {
    fn step(&mut self, mig: u32, r: &Record) -> Result<(), StateRefused>
        requires { ends r.now ≡ false }
        ensures refused { IsRefusedOr (strange_unless (may_step_in self.old mig r.now))
            StateRefused.NoMemory result }
        ensures applied { OnOk result (self.new ≡ after_step_in self.old mig r.now) }
        ensures kept { OnErr result (self.new ≡ self.old) }
    {
        step_one(&mut self.migrations, mig, r)
    }

    fn end_migration(&mut self, mig: u32, how: u8, place: u64) -> Result<(), StateRefused>
        ensures refused { IsRefusedOr
            (strange_unless (may_step_in self.old mig (Record.Ended mig how place)))
            StateRefused.NoMemory result }
        ensures applied { OnOk result (self.new
            ≡ after_record self.old (Record.Ended mig how place)) }
        ensures kept { OnErr result (self.new ≡ self.old) }
    {
        let (plan, vm) = match self.status(mig) {
            Some(m) if m.may_end(how, place) => (m.plan, m.vm),
            _ => return Err(StateRefused::Strange),
        };
        end_one(&mut self.migrations, mig, how);
        end_in(&mut self.courses, plan);
        self.work.remove(&vm);
        Ok(())
    }

    pub(crate) fn is_new_plan(&self, plan: u32, name: &Name) -> bool
        ensures { result ≡ is_new_plan self.now plan name.now }
    {
        plan != 0 && plan as usize - 1 == self.plans.len() && self.is_new_name(name)
    }

    #[tactic(auto, using(crate::proofs::ListFacts::is_untaken))]
    fn is_new_name(&self, name: &Name) -> bool
        ensures { result ≡ not (is_taken name.now self.now.plans) }
    {
        self.plan_named(name).is_none()
    }

    pub(crate) fn are_free(&self, vms: &[u32]) -> bool
        ensures { result ≡ are_free self.now vms.now }
    {
        !vms.is_empty() && !self.any_at_work(vms)
    }

    fn any_at_work(&self, vms: &[u32]) -> bool
        ensures { result ≡ list_any (is_at_work self.now) vms.now }
    {
        vms.iter().any(|vm| self.is_at_work(*vm))
    }

    pub(crate) fn may_start(&self, mig: u32, plan: u32, vm: u32, disks: u32) -> bool
        ensures value { result ≡ may_start self.now mig plan vm disks }
        ensures room { OnTrue result (HasRoom self.now.courses plan) }
    {
        mig != 0
            && mig as usize - 1 == self.migrations.len()
            && self.is_next(plan, vm)
            && 0 < disks
            && disks as usize <= MAX_DISKS
    }

    fn is_next(&self, plan: u32, vm: u32) -> bool
        ensures value { result ≡ is_next self.now plan vm }
        ensures room { OnTrue result (HasRoom self.now.courses plan) }
    {
        match (self.plan(plan), self.course(plan)) {
            (Some(plan), Some(course)) => is_next_of(vm, plan, course),
            _ => false,
        }
    }

    pub(crate) fn may_cut_over(&self, plan: u32, has: bool, at: u64) -> bool
        ensures { result ≡ may_cut_over self.now plan has at }
    {
        match self.course(plan) {
            None => false,
            Some(course) => 0 < course.live && (has || at == 0),
        }
    }
}
