//! Laws of the definitions. Each function's contract is the law, and its body does nothing, or
//! calls laws below.
ghost use Rattle.migrate_server.specs.Laws.{SameLinesSameReplies, SameInputSameOutput, StoresAnswerMovesAlone};
ghost use Rattle.migrate_server.specs.Runs.{FreshHoldsTogether, UnopenedHoldTogether, ServedHoldTogether, RunsFindOne, CrashesHoldTogether, NoneIsStrange, FleetAgrees};

use restart::{agreeing_records_are_taken, strange_at_one_record};

/// The same lines have the same replies, from the same fleet and records and volumes of the same
/// names, as long as the store fails in no command; and what they leave agrees in the same way. So
/// two runs of the same input that end well write the same bytes.
pub fn sessions_agree()
    ensures lines { SameLinesSameReplies }
    ensures input { SameInputSameOutput }
{}

/// A store has a say in the answers to moves alone, and in those only by refusing one, because the
/// name is taken or a call of it failed. All other answers, and what becomes of the fleet and the
/// records, are the same over any two stores.
pub fn stores_answer_moves_alone()
    ensures { StoresAnswerMovesAlone }
{}

/// Where each list of records that a crash may leave on the journal's disk would be taken over the
/// fleet, this is so behind a run, and behind a crash of it: with the same lists where no line was
/// served, else with the journal's records and, after a fault, those and the one more. Where the
/// disk tells what it holds, what a run finds is one of the lists, what it leaves goes on from it,
/// and no run finds the journal strange. The fleet agrees with each list. A fresh disk begins so.
/// Hence a chain of runs over disks that tell, each over what the one before left or a crash of
/// that with the fleet as it was left, loses no record and never ends by a strange journal.
pub fn runs_hold_together()
    ensures fresh { FreshHoldsTogether }
    ensures unopened { UnopenedHoldTogether }
    ensures served { ServedHoldTogether }
    ensures find { RunsFindOne }
    ensures crashes { CrashesHoldTogether }
    ensures none { NoneIsStrange }
    ensures agree { FleetAgrees }
{
    strange_at_one_record();
    agreeing_records_are_taken();
}
