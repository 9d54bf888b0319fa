//! The command `host`, with the limit that a host has where the line names none.
ghost use Rattle.std.specs.Prelude.{◌≡◌, IfOk, IfSome, OnErr};
ghost use Rattle.basics.specs.Spelled.{IsName};
ghost use Rattle.basics.specs.declared.limits.TheConstants.{MAX_HOST_LIMIT};
ghost use Rattle.cmd_json.specs.Range.{IsWithin};
ghost use Rattle.answers.specs.Answer.{AnswersFor};
ghost use Rattle.fleet_commands.specs.commands.Host.{host_refusal, host_reply, after_host};

use crate::refusals::fleet_told;
use answers::{Answer, Refusal};
use basics::{Name, NoMemory};
use fleet::Fleet;
use reply_json::Reply;

/// How many disks that are copied from a host may be in flight where the line names no limit.
pub const DEFAULT_HOST_LIMIT: u32 = 20;

/// Adds a host, with the limit or else [`DEFAULT_HOST_LIMIT`]. [`Refusal::NameTaken`] where a host
/// has the name, then [`Refusal::TooMany`]. It answers want of memory too, and has then changed
/// nothing.
pub fn run_host(fleet: &mut Fleet, name: &Name, limit: Option<u32>) -> Result<Answer, NoMemory>
    requires named { IsName name.now }
    requires limited { IfSome limit (IsWithin 1 MAX_HOST_LIMIT) }
    ensures answer { IfOk result (λ answer. AnswersFor (host_refusal name.now fleet.old)
        host_reply (after_host name.now limit fleet.old) answer fleet.old fleet.new) }
    ensures err { OnErr result (fleet.new ≡ fleet.old) }
{
    let limit = limit.unwrap_or(DEFAULT_HOST_LIMIT);
    match fleet.add_host(name.as_str(), limit) {
        Ok(()) => Ok(Ok(Reply::Done)),
        Err(why) => Ok(Err(fleet_told(why).ok_or(NoMemory)?)),
    }
}
