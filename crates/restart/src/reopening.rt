//! The controller is opened again from its journal.
ghost use Rattle.std.specs.Prelude.{◌≡◌, IfOk, IfErr};
ghost use Rattle.restart.specs.Reopening.{Reopens, SaysWhy, IsLeft};

use crate::ReopenRefused;
use crate::standing::fold_records;
use ctl_state::Controller;
use edge_traits::Disk;
use fleet::Fleet;
use journal::Unrepaired;
use std::alloc::Global;
use target_volume::VolumeStore;

/// Opens the controller whose journal is on a disk: it has what the journal's records come to over
/// the fleet, and the store as it was. A machine of the fleet that is out counts as one that isn't
/// there. The fleet stays as it is.
///
/// [`ReopenRefused::Journal`] where the journal can't be opened: its disk failed, the file is no
/// journal, or a record of it is bad. [`ReopenRefused::Strange`] exactly where the records are
/// strange to the fleet, at the first of them that may not stand behind those before it, that names
/// a machine that isn't there, isn't tracked or has another number of disks, or that says what the
/// log of its migration's machine doesn't; or at the last of them, where the current snapshot of a
/// live migration is gone. [`ReopenRefused::NoMemory`] for want of memory. Each gives the disk and
/// the store back, and writes nothing before all records are taken.
pub fn reopen<D: Disk, T: VolumeStore>(
    alloc: Global,
    disk: D,
    store: T,
    fleet: &mut Fleet,
) -> Result<Controller<D, T>, (D, T, ReopenRefused)>
    ensures reopened { IfOk result
        (λ c. Reopens fleet.old (D.state disk) c.state c.journal) }
    ensures refused { IfErr result
        (λ r. SaysWhy fleet.old r.2 (D.state disk) (D.state r.0)) }
    ensures left { IfErr result (λ r. IsLeft fleet.old (D.state disk) (D.state r.0)) }
    ensures kept { IfOk result (λ c. c.store ≡ store) }
    ensures given_back { IfErr result (λ r. r.1 ≡ store) }
    ensures fleet { fleet.new ≡ fleet.old }
{
    let file = match Unrepaired::read(alloc, disk) {
        Ok(file) => file,
        Err((disk, why)) => return Err((disk, store, why.into())),
    };
    let state = match fold_records(alloc, fleet, file.records()) {
        Ok(state) => state,
        Err(why) => return Err((file.leave(), store, why)),
    };
    match file.repair() {
        Ok(journal) => Ok(Controller {
            state,
            journal,
            store,
        }),
        Err((disk, why)) => Err((disk, store, why.into())),
    }
}
