//! A full copy of a disk to a volume: what the disk has allocated is written, the rest is zeroed,
//! and each sector is written once.
ghost use Rattle.std.specs.Prelude.{◌≡◌, ◌+◌, ◌-◌, ◌≤◌, ◌<◌, ℕ, true, false, length, All, OnOk, OnErr, min};
ghost use Rattle.sector_model.specs.Run.{end_of, in_runs, AreSpaced};
ghost use Rattle.migrate_server.specs.Copy.{after_copy, CopyFails};
ghost use Rattle.migrate_server.specs.WrittenDisk.{frozen_sectors, IsFrozen};

use crate::written_disk::WrittenDisk;
use sector_model::{Runs, Sector};
use target_volume::{Volume, VolumeFailed};
use warm_core::MAX_PIECE_SECTORS;

/// Copies the allocated runs of a frozen disk to a volume that was never written, zeroes the rest,
/// and flushes. Each sector is written once, in one pass, by a buffer that a piece fits into. A
/// failure is the volume's, and leaves open what that holds.
pub(crate) fn copy_full<V: Volume>(
    disk: &WrittenDisk,
    buffer: &mut [Sector],
    volume: &mut V,
) -> Result<(), VolumeFailed>
    requires frozen { IsFrozen disk.now }
    requires room { MAX_PIECE_SECTORS ≤ length buffer.old }
    requires sized { (V.state volume.old).capacity ≡ length (frozen_sectors disk.now) }
    requires fresh { (V.state volume.old).written ≡ 0 }
    ensures copied { OnOk result
        (V.state volume.new ≡ after_copy (frozen_sectors disk.now) (V.state volume.old)) }
    ensures failed { OnErr result (CopyFails (V.state volume.old) (V.state volume.new)) }
{
    let capacity = volume.capacity();
    let mut at = 0;
    while at < capacity {
        let piece = next_piece(&disk.allocated, at, capacity);
        if piece.is_data {
            let sectors = &mut buffer[..piece.count as usize];
            disk.read(at, sectors);
            volume.write(at, sectors)?;
        } else {
            volume.zero(at, piece.count)?;
        }
        at += piece.count;
    }
    volume.flush()
}

/// The next sectors to write: how many, and whether they are data.
#[derive(Clone, Copy, Debug)]
struct Piece {
    count: u64,
    is_data: bool,
}

/// The piece from a sector on.
fn next_piece(allocated: &Runs, at: u64, capacity: u64) -> Piece
    requires before_end { at < capacity }
    requires spaced { AreSpaced allocated.now }
    requires within { All (λ run. end_of run ≤ capacity) allocated.now }
    ensures some { 0 < result.count }
    ensures few { result.count ≤ MAX_PIECE_SECTORS }
    ensures inside { at + result.count ≤ capacity }
    ensures data { result.is_data ≡ true → (s : ℕ) → at ≤ s → s < at + result.count
        → in_runs allocated.now s ≡ true }
    ensures gap { result.is_data ≡ false → (s : ℕ) → at ≤ s → s < at + result.count
        → in_runs allocated.now s ≡ false }
{
    let Some(run) = allocated.next_from(at) else {
        return piece_to(at, capacity, false);
    };
    if run.first == at {
        piece_to(at, run.first + run.count, true)
    } else {
        piece_to(at, run.first, false)
    }
}

/// At most as many sectors as a piece may have, of those from one on and before another.
fn piece_to(at: u64, end: u64, is_data: bool) -> Piece
    requires { at < end }
    ensures { result ≡ record { count = min MAX_PIECE_SECTORS (end - at); is_data = is_data } }
{
    Piece {
        count: MAX_PIECE_SECTORS.min(end - at),
        is_data,
    }
}
