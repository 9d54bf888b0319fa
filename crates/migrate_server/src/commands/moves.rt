//! A move: a fresh disk, written as the line says, and copied in full to a fresh volume.
ghost use Rattle.std.specs.Prelude.{◌≡◌, ◌+◌, ◌-◌, ◌^◌, ◌≤◌, min, nat_le, true, List, All, IfOk, OnErr, length};
ghost use Rattle.std.specs.List.{list_all, sum_by};
ghost use Rattle.basics.specs.Refusal.{IsRefusedBy};
ghost use Rattle.cmd_json.specs.declared.command.Command.TheVariants.{Move};
ghost use Rattle.fleet.specs.Fleet.{FleetState};
ghost use Rattle.record_codec.specs.declared.record.Record.{Record};
ghost use Rattle.migrate_server.specs.NewVolume.{CopyAnswers};
ghost use Rattle.migrate_server.specs.Session.{serving, Answers};
ghost use Rattle.migrate_server.specs.WrittenDisk.{AreWithin, frozen_sectors, IsFrozen};
ghost use Rattle.migrate_server.specs.commands.Moves.{move_refusal};

use crate::copy::copy_full;
use crate::written_disk::WrittenDisk;
use answers::{Answer, Refusal};
use basics::{MAX_LOGGED_SECTORS, Name, NoMemory};
use cmd_json::MoveWrite;
use reply_json::Reply;
use sector_model::Sector;
use std::alloc::Global;
use target_volume::{StoreRefused, VolumeName, VolumeStore};
use warm_core::MAX_PIECE_SECTORS;

/// Applies the writes to a fresh disk, and copies it to a fresh volume of that name. In this order:
/// [`Refusal::Range`] where a write passes the end of the disk, [`Refusal::LogFull`] where they
/// have more sectors in sum than a log may have, both before the volume is made;
/// [`Refusal::NameTaken`] where a volume has the name; [`Refusal::Volume`] where the store fails.
/// It answers want of memory too, and has then changed nothing.
pub(crate) fn run_move<T: VolumeStore>(
    alloc: Global,
    name: Name,
    sectors: u64,
    writes: &[MoveWrite],
    store: &mut T,
) -> Result<Answer, NoMemory>
    ensures answer { IfOk result (λ answer. (fleet : FleetState)
        (records : List Record) → Answers (Move name sectors writes.now) answer
        (serving fleet records (T.state store.old))
        (serving fleet records (T.state store.new))) }
    ensures err { OnErr result (T.state store.new ≡ T.state store.old) }
{
    if let Err(why) = fits(sectors, writes) {
        return Ok(Err(why));
    }
    let Ok(disk) = WrittenDisk::new(alloc, sectors, writes) else {
        return Err(NoMemory);
    };
    let mut buffer = vec![in alloc; Sector::filled(0); MAX_PIECE_SECTORS as usize]?;
    let name = VolumeName::Given(name);
    match copy_to_new_volume(&disk, &mut buffer, &name, sectors, store) {
        Ok(()) => Ok(Ok(Reply::Moved {
            writes: writes.len() as u64,
            written: sectors,
        })),
        Err(StoreRefused::Exists) => Ok(Err(Refusal::NameTaken)),
        Err(StoreRefused::Failed) => Ok(Err(Refusal::Volume)),
        Err(StoreRefused::NoMemory) => Err(NoMemory),
    }
}

/// Whether the writes lie within a disk and are few enough, by what they are alone.
fn fits(sectors: u64, writes: &[MoveWrite]) -> Result<(), Refusal>
    ensures refused { IsRefusedBy (move_refusal sectors writes.now) result }
    ensures within { IfOk result (λ _. AreWithin sectors writes.now) }
{
    if !all_end_by(sectors, writes) {
        return Err(Refusal::Range);
    }
    if written_by(writes) > MAX_LOGGED_SECTORS {
        return Err(Refusal::LogFull);
    }
    Ok(())
}

fn all_end_by(sectors: u64, writes: &[MoveWrite]) -> bool
    ensures value { result ≡ list_all (λ w. nat_le (w.first + w.count) sectors) writes.now }
    ensures within { result ≡ true → AreWithin sectors writes.now }
{
    writes.iter().all(|write| ends_by(write, sectors))
}

fn ends_by(write: &MoveWrite, sectors: u64) -> bool
    ensures { result ≡ nat_le (write.now.first + write.now.count) sectors }
{
    write.count <= sectors && write.first <= sectors - write.count
}

/// How many sectors the writes have in sum, up to the most that a number has.
fn written_by(writes: &[MoveWrite]) -> u64
    ensures { result ≡ min (sum_by (λ w. w.count) writes.now) (2 ^ 64 - 1) }
{
    let mut written: u64 = 0;
    for write in writes {
        written = written.saturating_add(write.count);
    }
    written
}

/// Makes a volume, copies the disk to it, and gives it back to the store, also where the copy
/// failed.
fn copy_to_new_volume<T: VolumeStore>(
    disk: &WrittenDisk,
    buffer: &mut [Sector],
    name: &VolumeName,
    sectors: u64,
    store: &mut T,
) -> Result<(), StoreRefused>
    requires sized { length (frozen_sectors disk.now) ≡ sectors }
    requires frozen { IsFrozen disk.now }
    requires room { MAX_PIECE_SECTORS ≤ length buffer.old }
    ensures { CopyAnswers (frozen_sectors disk.now) name.now sectors result
        (T.state store.old) (T.state store.new) }
{
    let mut volume = store.create(name, sectors)?;
    let copied = copy_full(disk, buffer, &mut volume);
    store.keep_back(volume);
    copied?;
    Ok(())
}
