//! Whether a task is a phase's or a clean-up's, and laws of what these do. Each law is the contract
//! of a function whose body does nothing.
ghost use Rattle.std.specs.Prelude.{◌≡◌};
ghost use Rattle.ctl_state.specs.CleanUp.{is_clean_up, failing_task};
ghost use Rattle.ctl_state.specs.EffectLaws.{EffectsAreOne, EffectsGoOn, BegunGoOn, TasksTellJobs, PhasesMayStand, CleanUpsMayStand};

use crate::{How, PhaseTask};

impl PhaseTask {
    /// Whether it is a clean-up's, and not a phase's.
    pub fn is_clean_up(self) -> bool
        ensures { result ≡ is_clean_up self }
    {
        self.how.number() > 0
    }

    /// The task of the clean-up of a failure, in place of this one.
    pub fn failing(self, how: How) -> PhaseTask
        ensures { result ≡ failing_task how self }
    {
        PhaseTask { how, ..self }
    }
}

/// Where nobody shares the machine a job leaves one thing and says one thing. What it does is calls
/// in a row, also where it was cut off.
pub fn effects_are_one()
    ensures one { EffectsAreOne }
    ensures goes_on { EffectsGoOn }
    ensures begun { BegunGoOn }
{}

/// A task tells whether it is a phase's or a clean-up's.
pub fn tasks_tell_jobs()
    ensures { TasksTellJobs }
{}

/// What a job says may stand in the state that its task was made from.
pub fn effects_may_stand()
    ensures phases { PhasesMayStand }
    ensures clean_ups { CleanUpsMayStand }
{}
