//! The machines that are in some plan's unfinished work, each with its live migration, if it has
//! one, so that machines are looked up one by one. A plan puts all of its machines in, or none.
ghost use Rattle.std.specs.Prelude.{◌≡◌, not, OnOk, OnErr};
ghost use Rattle.basics.specs.Refusal.{IsRefusedOr};
ghost use Rattle.ctl_state.specs.Refusal.{strange_unless};
ghost use Rattle.ctl_state.specs.MayStand.{has_double};
ghost use Rattle.ctl_state.specs.Work.{HasNone, Joins, Leaves, HasSame, Begins, why_not};

use crate::StateRefused;
use std::collections::BTreeMap;

/// Puts these machines, none of which is in the map, into it, all waiting. Strange exactly where
/// one stands twice; then, and for want of memory, the map stays.
pub(crate) fn put_to_work(
    work: &mut BTreeMap<u32, Option<u32>>,
    vms: &[u32],
) -> Result<(), StateRefused>
    requires { HasNone work.old vms.now }
    ensures refused { IsRefusedOr (strange_unless (not (has_double vms.now)))
        StateRefused.NoMemory result }
    ensures put { OnOk result (Joins work.old work.new vms.now) }
    ensures kept { OnErr result (HasSame work.old work.new) }
{
    let mut left = vms.len();
    while left > 0 {
        match work.insert(vms[left - 1], None) {
            Ok(None) => left -= 1,
            Ok(Some(_)) => {
                take_from_work(work, &vms[left..]);
                return Err(StateRefused::Strange);
            }
            Err(_) => {
                take_from_work(work, &vms[left..]);
                return Err(why_not(vms));
            }
        }
    }
    Ok(())
}

/// The machine, which waits, has its migration from now on.
pub(crate) fn begin_work(work: &mut BTreeMap<u32, Option<u32>>, vm: u32, mig: u32)
    ensures { Begins work.old work.new vm mig }
{
    if let Some(live) = work.get_mut(&vm) {
        *live = Some(mig);
    }
}

/// Takes these machines out of the map.
pub(crate) fn take_from_work(work: &mut BTreeMap<u32, Option<u32>>, vms: &[u32])
    ensures { Leaves work.old work.new vms.now }
{
    for vm in vms {
        work.remove(vm);
    }
}

// Where memory runs out, doubles are looked for without it, which takes the square of the list.
fn why_not(vms: &[u32]) -> StateRefused
    ensures { result ≡ why_not vms.now }
{
    if has_double(vms) {
        StateRefused::Strange
    } else {
        StateRefused::NoMemory
    }
}

/// Whether a machine stands twice in the list.
pub(crate) fn has_double(vms: &[u32]) -> bool
    ensures { result ≡ has_double vms.now }
{
    for (i, vm) in vms.iter().enumerate() {
        if vms[i + 1..].contains(vm) {
            return true;
        }
    }
    false
}
