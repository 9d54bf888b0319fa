//! Keeping records, one after another: a record is in the journal before the state takes it, so
//! that the state never says more than the disk.
ghost use Rattle.std.specs.Prelude.{◌≡◌, true, IfErr, OnOk};
ghost use Rattle.record_codec.specs.Record.{KeepsRule};
ghost use Rattle.ctl_state.specs.MayStand.{record_may_stand};
ghost use Rattle.record_keeping.specs.Keeping.{keeping, IsReady, MayBeKept, Keeps, KeepsFront, KeepsOne, CutOff, IsBehind};

use crate::NotKept;
use ctl_state::{Controller, StateRefused};
use edge_traits::Disk;
use journal::JournalRefused;
use record_codec::Record;
use target_volume::VolumeStore;

/// Keeps records that may stand behind those of the controller, in their order: each is on the disk
/// before the next is begun with. Where one isn't kept, those before it are, and no later one is
/// tried: [`NotKept::Fault`] only where the journal's disk failed, [`NotKept::Full`] exactly where
/// the record would make the file too long, [`NotKept::NoMemory`] for want of memory. After a
/// refusal the state may be behind the journal's records by one, and the journal is to be opened
/// again.
pub fn keep_records<D: Disk, T: VolumeStore>(
    controller: &mut Controller<D, T>,
    records: &[Record],
) -> Result<(), NotKept>
    requires ready { IsReady (keeping controller.old.state controller.old.journal) }
    requires follow { MayBeKept controller.old.state records.now }
    ensures kept { OnOk result (Keeps records.now
        (keeping controller.old.state controller.old.journal)
        (keeping controller.new.state controller.new.journal)) }
    ensures cut { IfErr result (λ why. KeepsFront why records.now
        controller.old.journal controller.new.journal) }
    ensures behind { IfErr result (λ why. IsBehind why
        (keeping controller.new.state controller.new.journal)) }
    ensures store { controller.new.store ≡ controller.old.store }
{
    for record in records {
        keep(controller, record)?;
    }
    Ok(())
}

/// Keeps one record that may stand.
fn keep<D: Disk, T: VolumeStore>(
    controller: &mut Controller<D, T>,
    record: &Record,
) -> Result<(), NotKept>
    requires ready { IsReady (keeping controller.old.state controller.old.journal) }
    requires stands { record_may_stand controller.old.state record.now ≡ true }
    requires rule { KeepsRule record.now }
    ensures kept { OnOk result (KeepsOne record.now
        (keeping controller.old.state controller.old.journal)
        (keeping controller.new.state controller.new.journal)) }
    ensures cut { IfErr result (λ why. CutOff why record.now
        controller.old.journal controller.new.journal) }
    ensures behind { IfErr result (λ why. IsBehind why
        (keeping controller.new.state controller.new.journal)) }
    ensures store { controller.new.store ≡ controller.old.store }
{
    match controller.journal.append(record) {
        Ok(()) => {}
        Err(JournalRefused::DiskFault { .. }) => return Err(NotKept::Fault),
        Err(JournalRefused::Full { .. }) => return Err(NotKept::Full),
        Err(
            JournalRefused::NotAJournal | JournalRefused::BadRecord(_) | JournalRefused::NoMemory,
        ) => return Err(NotKept::NoMemory),
    }
    match controller.state.apply(record) {
        Ok(()) => Ok(()),
        Err(StateRefused::Strange | StateRefused::NoMemory) => Err(NotKept::NoMemory),
    }
}
