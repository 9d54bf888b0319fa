//! The steps on the disk. Each function has at most four calls of the disk, and says what a crash
//! may leave wherever they fail.
ghost use Rattle.std.specs.Prelude.{◌≡◌, ◌≢◌, ◌⊎◌, ◌≤◌, ◌<◌, ◌+◌, ◌-◌, ◌%◌, ◌^◌, [], ◌∷◌, ◌++◌, ℕ, length, take, drop, option_map, IfSome, IfOk, IfErr, OnOk, OnErr, MatchResult};
ghost use Rattle.std.specs.Option.{ForSome};
ghost use Rattle.basics.specs.Faults.{HasCause, Rose};
ghost use Rattle.basics.specs.Replaced.{replaced};
ghost use Rattle.edge_traits.specs.Disk.{WhereTold, settled};
ghost use Rattle.journal.specs.Devices.{IsSettled, LeavesCutAppend, LeavesCut, LeavesFew, IsFileRead};
ghost use Rattle.journal.specs.Opening.{empty_file as file_of_none};

use crate::JournalRefused;
use crate::format::{CLOSED_GATE, EMPTY_BYTES, MAGIC, MAX_BYTES, OPEN_GATE, PIECE_BYTES};
use edge_traits::Disk;
use std::alloc::Global;

/// The offset that a failed step tells.
#[derive(Clone, Copy)]
pub(crate) struct FaultAt(pub(crate) u64);

/// Syncs the disk and reads all of it.
pub(crate) fn read_disk<D: Disk>(alloc: Global, disk: &mut D) -> Result<Vec<u8>, JournalRefused>
    ensures read { IsFileRead (D.state disk.old) (D.state disk.new) result }
{
    if disk.sync().is_err() {
        return Err(JournalRefused::DiskFault { at: 0 });
    }
    let Ok(length) = disk.length() else {
        return Err(JournalRefused::DiskFault { at: 0 });
    };
    if length > MAX_BYTES as u64 {
        return Err(JournalRefused::NotAJournal);
    }
    let mut bytes = vec![in alloc; 0; length as usize]?;
    match read_pieces(disk, &mut bytes) {
        Ok(()) => Ok(bytes),
        Err(FaultAt(at)) => Err(JournalRefused::DiskFault { at }),
    }
}

/// Fills the buffer with the bytes of the disk, piece by piece.
fn read_pieces<D: Disk>(disk: &mut D, bytes: &mut [u8]) -> Result<(), FaultAt>
    requires all { ForSome (D.state disk.old).contents (λ c. length bytes.old ≡ length c.bytes) }
    requires few { length bytes.old ≤ MAX_BYTES }
    ensures given { OnOk result (IfSome (D.state disk.old).contents (λ c. bytes.new ≡ c.bytes)) }
    ensures kept { (D.state disk.new).contents ≡ (D.state disk.old).contents }
    ensures cause { HasCause (D.state disk.old).faults (D.state disk.new).faults result }
    ensures offset { IfErr result
        (λ fault. (fault.0 < length bytes.old) × (fault.0 % PIECE_BYTES ≡ 0)) }
{
    let mut at = 0usize;
    while at < bytes.len() {
        let end = bytes.len().min(at + PIECE_BYTES);
        read_piece(disk, bytes, at, end)?;
        at = end;
    }
    Ok(())
}

/// Fills a range of the buffer with the bytes of the disk at the same offsets.
fn read_piece<D: Disk>(disk: &mut D, bytes: &mut [u8], at: usize, end: usize) -> Result<(), FaultAt>
    requires range { at ≤ end }
    requires within { end ≤ length bytes.old }
    requires all { ForSome (D.state disk.old).contents (λ c. length bytes.old ≡ length c.bytes) }
    ensures given { OnOk result (IfSome (D.state disk.old).contents
        (λ c. bytes.new ≡ replaced bytes.old at (take (end - at) (drop at c.bytes)))) }
    ensures kept { (D.state disk.new).contents ≡ (D.state disk.old).contents }
    ensures cause { HasCause (D.state disk.old).faults (D.state disk.new).faults result }
    ensures offset { IfErr result (λ fault. fault.0 ≡ at) }
{
    disk.read(at as u64, &mut bytes[at..end])
        .or(Err(FaultAt(at as u64)))
}

/// Makes the disk an empty journal.
pub(crate) fn create<D: Disk>(disk: &mut D) -> Result<(), FaultAt>
    requires settled { ForSome (D.state disk.old).contents IsSettled }
    requires short { ForSome (D.state disk.old).contents (λ c. length c.bytes ≤ EMPTY_BYTES) }
    ensures created { OnOk result ((D.state disk.new).contents
        ≡ option_map (λ c. settled file_of_none) (D.state disk.old).contents) }
    ensures cut { OnErr result (WhereTold (LeavesFew EMPTY_BYTES)
        (D.state disk.old).contents (D.state disk.new).contents) }
    ensures cause { HasCause (D.state disk.old).faults (D.state disk.new).faults result }
    ensures offset { IfErr result (λ fault. (fault.0 ≡ 0) ⊎ (fault.0 ≡ EMPTY_BYTES)) }
{
    disk.cut(0).or(Err(FaultAt(0)))?;
    disk.write_at(0, &empty_file()).or(Err(FaultAt(0)))?;
    disk.sync().or(Err(FaultAt(EMPTY_BYTES as u64)))
}

/// The file of a journal without records.
fn empty_file() -> [u8; EMPTY_BYTES]
    ensures { result ≡ file_of_none }
{
    let mut file = [CLOSED_GATE; EMPTY_BYTES];
    file[..MAGIC.len()].copy_from_slice(&MAGIC);
    file
}

/// Cuts the disk to its first `end` bytes.
pub(crate) fn cut_to<D: Disk>(disk: &mut D, end: u64) -> Result<(), FaultAt>
    requires settled { ForSome (D.state disk.old).contents IsSettled }
    requires within { ForSome (D.state disk.old).contents (λ c. end ≤ length c.bytes) }
    ensures cut { OnOk result ((D.state disk.new).contents
        ≡ option_map (λ c. settled (take end c.bytes)) (D.state disk.old).contents) }
    ensures left { OnErr result (WhereTold (LeavesCut end)
        (D.state disk.old).contents (D.state disk.new).contents) }
    ensures cause { HasCause (D.state disk.old).faults (D.state disk.new).faults result }
    ensures offset { IfErr result (λ fault. fault.0 ≡ end) }
{
    disk.cut(end).or(Err(FaultAt(end)))?;
    disk.sync().or(Err(FaultAt(end)))
}

/// Writes a cell and a closed gate behind a file of `len` bytes, and when they are on the disk,
/// opens the file's last gate.
pub(crate) fn append_cell<D: Disk>(disk: &mut D, len: u64, cell: &[u8]) -> Result<(), FaultAt>
    requires settled { ForSome (D.state disk.old).contents IsSettled }
    requires long { ForSome (D.state disk.old).contents (λ c. len ≡ length c.bytes) }
    requires some { 1 ≤ len }
    requires few { len + length cell.now < 2 ^ 64 }
    ensures appended { OnOk result ((D.state disk.new).contents
        ≡ option_map (λ c. settled (take (len - 1) c.bytes ++ OPEN_GATE ∷ cell.now))
        (D.state disk.old).contents) }
    ensures cut { OnErr result (WhereTold (LeavesCutAppend cell.now)
        (D.state disk.old).contents (D.state disk.new).contents) }
    ensures cause { HasCause (D.state disk.old).faults (D.state disk.new).faults result }
    ensures offset { IfErr result (λ fault. (fault.0 ≡ len)
        ⊎ ((fault.0 ≡ len - 1) ⊎ (fault.0 ≡ len + length cell.now))) }
{
    let gate = len - 1;
    let end = len + cell.len() as u64;
    disk.write_at(len, cell).or(Err(FaultAt(len)))?;
    disk.sync().or(Err(FaultAt(end)))?;
    disk.write_at(gate, &[OPEN_GATE]).or(Err(FaultAt(gate)))?;
    disk.sync().or(Err(FaultAt(end)))
}
