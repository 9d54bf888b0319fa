//! Laws of the definitions. Each function's contract is the law, and its body does nothing but to
//! call laws below.
ghost use Rattle.fleet_commands.specs.Logs.{ActsAddThere, HostsAddNone, VmsAddNone, ActsKeepIn};
ghost use Rattle.fleet_commands.specs.commands.Query.{AsksForOne, EachAsks};

use fleet::machines_stay_in;

/// A command that acts on a machine adds one entry to the log of that machine and changes no other
/// log, and what adds a host or a machine changes none. All machines stay in.
pub fn acts_add_one_entry()
    ensures acts { ActsAddThere }
    ensures hosts { HostsAddNone }
    ensures vms { VmsAddNone }
    ensures stay_in { ActsKeepIn }
{
    machines_stay_in();
}

/// Each text asks a query for one thing.
pub fn texts_ask_for_one()
    ensures each { EachAsks }
    ensures one { AsksForOne }
{}
