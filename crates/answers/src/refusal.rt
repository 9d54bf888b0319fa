//! Why lines are refused, and the reply that tells it.
ghost use Rattle.std.specs.Prelude.{◌≡◌, IfOk};
ghost use Rattle.answers.specs.Refusal.{refusal_text, cause_text, carried_by, refusal_reply};

use basics::{Name, NoMemory, Text};
use change_id::{ChangeId, IdRefused};
use reply_json::{Carried, Reply};
use std::alloc::Global;
use std::error::Error;
use std::fmt;

/// Why a line was refused.
#[derive(Debug, Drop)]
pub enum Refusal {
    /// The line is longer than a line may be.
    Long,
    /// It isn't JSON.
    Json,
    /// It names no command that is built.
    Command,
    /// The member of this name is missing, of the wrong kind or no name, or too many.
    Field(Text),
    /// The member of this name has a number or a moment that it may not have.
    Number(Text),
    /// The name stands for something already.
    NameTaken,
    /// No host has the name.
    UnknownHost,
    /// A machine may not have such disks, or so many.
    BadSize,
    /// There are as many hosts, or machines, as there may be.
    TooMany,
    /// No machine has the name.
    UnknownVm,
    /// No machine has this name of a list.
    UnknownListed(Name),
    /// The machine of this name stands twice in a list.
    Doubled(Name),
    /// The machine of this name is in a plan that hasn't ended for it.
    InPlan(Name),
    /// The changes of the machine of this name aren't tracked.
    NoTracking(Name),
    /// The plan names no machine.
    Empty,
    /// No plan has the name.
    UnknownPlan,
    /// Each machine of the plan has its migration.
    Started,
    /// No machine of the plan has its migration.
    NotStarted,
    /// Each migration of the plan has ended.
    Ended,
    /// The machine's changes are tracked already.
    AlreadyEnabled,
    /// The machine is off.
    Off,
    /// The disk is unknown, or the sectors pass its end.
    Range,
    /// The log has no room for what is written.
    LogFull,
    /// The snapshot isn't live.
    UnknownSnapshot,
    /// The snapshot is a migration's.
    Owned,
    /// The text is no change identifier.
    Since(IdRefused),
    /// The change identifier can't be answered. It carries the one in force.
    Strange(Option<ChangeId>),
    /// The machine is on already.
    AlreadyOn,
    /// The machine is off already.
    AlreadyOff,
    /// The machine's log has as many entries as it may have.
    Spent,
    /// The store or the volume failed.
    Volume,
}

impl Refusal {
    /// The reply that tells the refusal. It answers only want of memory.
    pub fn reply(self, alloc: Global) -> Result<Reply, NoMemory>
        ensures { IfOk result (λ reply. reply ≡ refusal_reply self) }
    {
        let error = Text::of(alloc, self.text())?;
        let carried = self.carried(alloc)?;
        Ok(Reply::Refused { error, carried })
    }

    /// The text of the refusal.
    pub fn text(&self) -> &'static str
        ensures { result.now ≡ refusal_text self.now }
    {
        match self {
            Refusal::Long => "long",
            Refusal::Json => "json",
            Refusal::Command => "command",
            Refusal::Field(_) => "field",
            Refusal::Number(_) => "number",
            Refusal::NameTaken => "name-taken",
            Refusal::UnknownHost => "unknown-host",
            Refusal::BadSize => "bad-size",
            Refusal::TooMany => "too-many",
            Refusal::UnknownVm | Refusal::UnknownListed(_) => "unknown-vm",
            Refusal::Doubled(_) => "doubled",
            Refusal::InPlan(_) => "in-plan",
            Refusal::NoTracking(_) => "no-tracking",
            Refusal::Empty => "empty",
            Refusal::UnknownPlan => "unknown-plan",
            Refusal::Started => "started",
            Refusal::NotStarted => "not-started",
            Refusal::Ended => "ended",
            Refusal::AlreadyEnabled => "already-enabled",
            Refusal::Off => "off",
            Refusal::Range => "range",
            Refusal::LogFull => "log-full",
            Refusal::UnknownSnapshot => "unknown-snapshot",
            Refusal::Owned => "owned",
            Refusal::Since(_) => "since",
            Refusal::Strange(_) => "strange",
            Refusal::AlreadyOn => "already-on",
            Refusal::AlreadyOff => "already-off",
            Refusal::Spent => "spent",
            Refusal::Volume => "volume",
        }
    }

    fn carried(self, alloc: Global) -> Result<Carried, NoMemory>
        ensures { IfOk result (λ carried. carried ≡ carried_by self) }
    {
        let carried = match self {
            Refusal::Field(name) | Refusal::Number(name) => Carried::Name(name),
            Refusal::UnknownListed(vm)
            | Refusal::Doubled(vm)
            | Refusal::InPlan(vm)
            | Refusal::NoTracking(vm) => Carried::Vm(Text::of(alloc, vm.as_str())?),
            Refusal::Since(why) => Carried::Cause(Text::of(alloc, cause_text(why))?),
            Refusal::Strange(id) => Carried::Id(id),
            _ => Carried::Nothing,
        };
        Ok(carried)
    }
}

impl fmt::Display for Refusal {
    ghost use Rattle.std.specs.Prelude.{Some};
    ghost use Rattle.answers.specs.Refusal.{refusal_text};

    ghost output = { λ refusal. Some (refusal_text refusal) };

    fn fmt<W: fmt::Write>(&self, f: &mut fmt::Formatter<W>) -> fmt::Result {
        write!(f, "{}", self.text())
    }
}

impl Error for Refusal {}

/// What is wrong with a text that is no change identifier.
fn cause_text(why: IdRefused) -> &'static str
    ensures { result.now ≡ cause_text why }
{
    match why {
        IdRefused::Form => "form",
        IdRefused::Uuid => "uuid",
        IdRefused::Number => "number",
    }
}
