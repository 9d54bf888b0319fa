//! The jobs that may be done at a moment.
ghost use Rattle.std.specs.Prelude.{◌≡◌, ◌≤◌, ◌++◌, IfOk, OnOk, length, map};
ghost use Rattle.ctl_state.specs.Migration.{left_from};
ghost use Rattle.ctl_state.specs.Ready.{way_due, is_waiting, is_copying, jobs_of, ready};

use crate::{CtlState, DiskCopy, Migration};
use basics::{MAX_DISKS, NoMemory};
use phase_table::Phase;
use plan_model::{Moment, Way, due};
use std::alloc::Global;
use std::marker::Model;

/// A piece of a migration's work.
#[derive(Clone, Copy, Debug, PartialEq, Eq)]
pub enum Job {
    /// What its phase does.
    Phase {
        /// The number of the migration.
        mig: u32,
    },
    /// The copy of one disk.
    Copy {
        /// The number of the migration.
        mig: u32,
        /// The number of the disk.
        disk: u32,
    },
    /// The removal of what it left, before it ends cancelled or failed.
    Clean {
        /// The number of the migration.
        mig: u32,
    },
}

/// Jobs, in order.
#[derive(Debug, Drop)]
pub struct JobList {
    jobs: Vec<Job>,
}

impl Model for JobList {
    ghost use Rattle.std.specs.Prelude.{List};
    ghost use Rattle.ctl_state.specs.declared.ready.Job.{Job};

    ghost Value = { List Job };

    ghost view = { λ list. list.jobs.items };
}

impl JobList {
    /// A copy of the jobs. It answers only want of memory.
    pub fn of(alloc: Global, jobs: &[Job]) -> Result<JobList, NoMemory>
        ensures { IfOk result (λ list. list ≡ jobs.now) }
    {
        let jobs = Vec::from_slice(alloc, jobs)?;
        Ok(JobList { jobs })
    }

    /// The jobs, in order.
    pub fn as_slice(&self) -> &[Job]
        ensures { result.now ≡ self.now }
    {
        self.jobs.as_slice()
    }
}

impl CtlState {
    /// The jobs that may be done at `now`, in order of migration, then disk. A migration whose
    /// cancel stands has its clean-up alone. One that copies has a job for each disk that is left,
    /// one that is paused has a job where something is due, and any other live one has the job of
    /// its phase.
    pub fn ready_jobs(&self, now: Moment) -> Result<JobList, NoMemory>
        ensures { IfOk result (λ jobs. jobs ≡ ready self.now now) }
    {
        let mut jobs = Vec::new(self.alloc);
        for migration in &self.migrations {
            self.put_jobs(now, migration, &mut jobs)?;
        }
        Ok(JobList { jobs })
    }

    fn put_jobs(&self, now: Moment, m: &Migration, jobs: &mut Vec<Job>) -> Result<(), NoMemory>
        ensures { OnOk result (jobs.new.items ≡ jobs.old.items ++ jobs_of self.now now m.now) }
    {
        if !m.is_live() {
            return Ok(());
        }
        if m.cancel {
            jobs.push(Job::Clean { mig: m.number })?;
        } else if m.is_copying() {
            put_copies(m.number, m.copies(), jobs)?;
        } else if !self.is_waiting(now, m) {
            jobs.push(Job::Phase { mig: m.number })?;
        }
        Ok(())
    }

    fn is_waiting(&self, now: Moment, m: &Migration) -> bool
        ensures { result ≡ is_waiting self.now now m.now }
    {
        m.is_at(Phase::CopyingPaused) && self.way_due(now, m).number() == 0
    }

    #[tactic(auto, unfolding(crate::specs::Ready::due_between))]
    /// What is due for the migration at `now`: nothing before its first pause.
    pub fn way_due(&self, now: Moment, m: &Migration) -> Way
        ensures { result ≡ way_due self.now now m.now }
    {
        let Some(last) = m.last else {
            return Way::Nothing;
        };
        match (self.plan(m.plan), self.course(m.plan)) {
            (Some(plan), Some(course)) => due(now, last, plan.interval, course.cutover),
            _ => Way::Nothing,
        }
    }
}

impl Migration {
    fn is_copying(&self) -> bool
        ensures { result ≡ is_copying self.now }
    {
        self.is_at(Phase::CopyFinal) || (self.is_at(Phase::CopyDisks) && !self.copies.all_done())
    }
}

fn put_copies(mig: u32, copies: &[DiskCopy], jobs: &mut Vec<Job>) -> Result<(), NoMemory>
    requires { length copies.now ≤ MAX_DISKS }
    ensures { OnOk result (jobs.new.items ≡ jobs.old.items
        ++ map (λ disk. Job.Copy mig disk) (left_from 0 copies.now)) }
{
    for (disk, copy) in copies.iter().enumerate() {
        if !copy.done {
            jobs.push(Job::Copy {
                mig,
                disk: disk as u32,
            })?;
        }
    }
    Ok(())
}
