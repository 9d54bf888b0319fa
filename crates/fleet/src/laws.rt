//! Laws of the definitions, and of every fleet. Each function's contract is the law, and its body
//! does nothing that counts.
ghost use Rattle.fleet.specs.Laws.{GoesOnItself, GoesOnFurther, HostsGoOn, VmsGoOn, LogsGoOn, LiftGoesOn, LowerGoesOn, MayGoBackThen, LowersWhatWasLifted, SameLogIsNothing, LaterLogCounts, EmptyIsIn, HostsStayIn, VmsStayIn, LogsStayIn, InIsFound};
ghost use Rattle.fleet.specs.Finding.{NamesLeadToHosts, NamesLeadToVms, NumbersAreWithin, LogIsFound, OthersStay, NumbersStay, HostsStay, CountStays, EarlierStay, NewIsFound, KnownNamesStay};
ghost use Rattle.fleet.specs.Sound.{IsFleet};

use crate::Fleet;

/// What is true of every fleet: a look at it tells that.
pub fn fleet_is_sound(fleet: &Fleet)
    ensures { IsFleet fleet.now }
{
    let _ = fleet.vm_at(0);
}

/// A fleet goes on from itself, from what it went on from, and with each call: no host and no
/// machine is lost or changed, and the log of each machine only grows.
pub fn fleets_go_on()
    ensures itself { GoesOnItself }
    ensures further { GoesOnFurther }
    ensures hosts { HostsGoOn }
    ensures vms { VmsGoOn }
    ensures logs { LogsGoOn }
    ensures lift { LiftGoesOn }
    ensures lower { LowerGoesOn }
{}

/// A machine that was taken out may be put back after any calls of its link. It has then the log
/// that the link saw, and nothing else of the fleet has changed: nothing at all, where that is the
/// log that it had.
pub fn lowers_what_was_lifted()
    ensures may { MayGoBackThen }
    ensures lowers { LowersWhatWasLifted }
    ensures same { SameLogIsNothing }
    ensures later { LaterLogCounts }
{}

/// Machines that are added are in, and stay in where hosts and machines are added and logs change.
/// Where none is out, each that is known is found in.
pub fn machines_stay_in()
    ensures empty { EmptyIsIn }
    ensures hosts { HostsStayIn }
    ensures vms { VmsStayIn }
    ensures logs { LogsStayIn }
    ensures found { InIsFound }
{}

/// A name that is found is that of the host or machine at its place or number, and a number of a
/// machine is 1 to the count of machines.
pub fn names_lead_there()
    ensures hosts { NamesLeadToHosts }
    ensures vms { NamesLeadToVms }
    ensures within { NumbersAreWithin }
{}

/// Where the log of a machine changes, that machine has it, and everything else stays.
pub fn others_stay()
    ensures found { LogIsFound }
    ensures others { OthersStay }
    ensures numbers { NumbersStay }
    ensures hosts { HostsStay }
    ensures count { CountStays }
{}

/// A machine that is added has the next number, and those before it are found as before.
pub fn found_after_adding()
    ensures earlier { EarlierStay }
    ensures new_one { NewIsFound }
    ensures names { KnownNamesStay }
{}
