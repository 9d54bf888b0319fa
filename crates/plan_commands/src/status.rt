//! The command `status`: a line for each migration. What such a line shows is in `line.rt`.
ghost use Rattle.std.specs.Prelude.{◌≡◌, IfOk};
ghost use Rattle.fleet.specs.Sound.{AllAreIn};
ghost use Rattle.plan_commands.specs.commands.Status.{status_reply};

use crate::line::migration_line;
use basics::{NoMemory, Sequence};
use ctl_state::CtlState;
use fleet::Fleet;
use reply_json::Reply;
use std::alloc::Global;

/// A line a migration, in order of their numbers. No machine of the fleet may be out. It is never
/// refused, and answers only want of memory. It walks the log of the machine of each migration that
/// is complete.
pub fn status_of(alloc: Global, fleet: &Fleet, state: &CtlState) -> Result<Reply, NoMemory>
    requires { AllAreIn fleet.now }
    ensures { IfOk result (λ reply. reply ≡ status_reply fleet.now state.now) }
{
    let mut lines = Vec::new(alloc);
    for migration in state.migrations() {
        let line = migration_line(alloc, fleet, state, migration)?;
        lines.push(line)?;
    }
    Ok(Reply::Status(Sequence::from_vec(lines)))
}
