//! Laws of what every value of records is. Each function's contract is the law, and its body does
//! nothing.
ghost use Rattle.ctl_state.specs.Completion.{CancelsAreAsked, CompletedIsWhole, CancelledWhereAsked};
ghost use Rattle.ctl_state.specs.SoundLaws.{StepsKeepSound, RecordsKeepSound, ValuesAreSound, CutoversStay, OtherJobsStay, CancelLeavesTask};

/// Whatever records come to is sound, and each record that may stand keeps that.
pub fn values_are_sound()
    ensures steps { StepsKeepSound }
    ensures records { RecordsKeepSound }
    ensures values { ValuesAreSound }
{}

/// A record leaves the cutovers of plans but by their own record, and the jobs and the tasks of
/// other migrations.
pub fn other_jobs_stay()
    ensures cutovers { CutoversStay }
    ensures jobs { OtherJobsStay }
    ensures cancel { CancelLeavesTask }
{}

/// A cancel stands exactly where a record asks for it. A migration is complete only with each disk
/// copied in its final checkpoint, with a place and with no cancel, and of those that have ended it
/// is cancelled exactly where a cancel stands.
pub fn ends_are_as_asked()
    ensures cancels { CancelsAreAsked }
    ensures complete { CompletedIsWhole }
    ensures cancelled { CancelledWhereAsked }
{}
