//! The objects within a list, by their members.
ghost use Rattle.std.specs.Prelude.{codes, IfOk};
ghost use Rattle.basics.specs.Spelled.{IsName};
ghost use Rattle.cmd_json.specs.Commands.{guest, disturbance, act_named};
ghost use Rattle.cmd_json.specs.Kinds.{a_text};
ghost use Rattle.cmd_json.specs.Left.{left_in};
ghost use Rattle.cmd_json.specs.Members.{Reads, and_then, required};

use crate::command::{ActLine, DisturbLine, GuestLine};
use crate::kind::{Kind, Misfit};
use crate::kinds::{LONG, NameKind, TextKind, WORD};
use crate::members::Members;
use crate::refusal::CmdRefused;
use json::Value;
use std::alloc::Global;

impl From<CmdRefused> for Misfit {
    ghost use Rattle.cmd_json.specs.Members.{misfit_of};
    ghost use Rattle.std.specs.Prelude.{◌≡◌};

    ghost from_gives = { λ refusal misfit. misfit ≡ misfit_of refusal };

    fn from(refused: CmdRefused) -> Self {
        match refused {
            CmdRefused::Number(_) => Misfit::Number,
            CmdRefused::NoMemory => Misfit::NoMemory,
            CmdRefused::Field(_) | CmdRefused::Json | CmdRefused::Command => Misfit::Field,
        }
    }
}

/// A guest of a run.
#[derive(Drop)]
pub(crate) struct GuestKind;

impl Kind for GuestKind {
    ghost use Rattle.basics.specs.Spelled.{IsName};
    ghost use Rattle.cmd_json.specs.Commands.{guest};
    ghost use Rattle.cmd_json.specs.Members.{an_object};

    type Said = GuestLine;

    ghost says = { λ _. an_object guest };

    ghost known = { λ _ line. IsName line.vm };

    fn read(&self, alloc: Global, value: Value<'_>) -> Result<GuestLine, Misfit> {
        let Value::Object(list) = value else {
            return Err(Misfit::Field);
        };
        let mut members = Members::of(alloc, list);
        let line = read_guest(&mut members)?;
        Ok(members.finish(line)?)
    }
}

fn read_guest(members: &mut Members<'_>) -> Result<GuestLine, CmdRefused>
    ensures reads { Reads (guest (left_in members.old)) (left_in members.new) result }
    ensures known { IfOk result (λ line. IsName line.vm) }
{
    let vm = members.required("vm", NameKind)?;
    let seed = members.required("seed", LONG)?;
    let count = members.required("count", LONG)?;
    Ok(GuestLine { vm, seed, count })
}

/// A disturbance of a run.
#[derive(Drop)]
pub(crate) struct DisturbKind;

impl Kind for DisturbKind {
    ghost use Rattle.basics.specs.Spelled.{IsName};
    ghost use Rattle.cmd_json.specs.Commands.{disturbance};
    ghost use Rattle.cmd_json.specs.Members.{an_object};

    type Said = DisturbLine;

    ghost says = { λ _. an_object disturbance };

    ghost known = { λ _ line. IsName line.vm };

    fn read(&self, alloc: Global, value: Value<'_>) -> Result<DisturbLine, Misfit> {
        let Value::Object(list) = value else {
            return Err(Misfit::Field);
        };
        let mut members = Members::of(alloc, list);
        let line = read_disturbance(&mut members)?;
        Ok(members.finish(line)?)
    }
}

fn read_disturbance(members: &mut Members<'_>) -> Result<DisturbLine, CmdRefused>
    ensures reads { Reads (disturbance (left_in members.old)) (left_in members.new) result }
    ensures known { IfOk result (λ line. IsName line.vm) }
{
    let vm = members.required("vm", NameKind)?;
    let act = read_act(members)?;
    Ok(DisturbLine { vm, act })
}

fn read_act(members: &mut Members<'_>) -> Result<ActLine, CmdRefused>
    ensures { Reads (and_then act_named (required (codes "act") a_text) (left_in members.old))
        (left_in members.new) result }
{
    let act = members.required("act", TextKind)?;
    read_named(act.as_str(), members)
}

// Reads the other members of the act of that name.
#[tactic(auto, unfolding(crate::specs::Commands::act_named))]
fn read_named(act: &str, members: &mut Members<'_>) -> Result<ActLine, CmdRefused>
    ensures { Reads (act_named act.now (left_in members.old)) (left_in members.new) result }
{
    match act {
        "reset" => {
            let disk = members.required("disk", WORD)?;
            Ok(ActLine::Reset { disk })
        }
        "snapshot" => Ok(ActLine::Snapshot),
        "on" => Ok(ActLine::On),
        "off" => Ok(ActLine::Off),
        "cancel" => Ok(ActLine::Cancel),
        _ => Err(members.refusal_of("act")),
    }
}
