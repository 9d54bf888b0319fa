//! The reading of a file's cells, and the writing of one.
ghost use Rattle.std.specs.Prelude.{◌≡◌, ◌≤◌, ◌<◌, ◌+◌, ◌^◌, [], ◌∷◌, ◌++◌, List, ℕ, length, MatchOption, MatchResult, IfOk, IfErr, OnOk};
ghost use Rattle.record_codec.specs.Record.{KeepsRule, HasSpelling, spelling, word_bytes as bytes_of};
ghost use Rattle.record_codec.specs.Parse.{word_at};
ghost use Rattle.journal.specs.Cells.{IsOpen, AreRead, IsFound, IsRecordRead, begins_closed};
ghost use Rattle.journal.specs.Format.{cell};

use crate::JournalRefused;
use crate::format::{
    CELL_BYTES, CLOSED_GATE, EMPTY_BYTES, LEAST_SPELLING, MAGIC, MAX_BYTES, OPEN_GATE,
};
use byteorder::{BigEndian, ByteOrder};
use record_codec::{CodecRefused, Record, decode, encode, spelled_len};
use std::alloc::Global;

/// The records that stand in a file, and how many bytes it has up to the closed gate behind them.
#[derive(Drop)]
pub(crate) struct Found {
    pub(crate) records: Vec<Record>,
    pub(crate) end: usize,
}

/// Reads a file of at most [`MAX_BYTES`] bytes.
pub(crate) fn read_file(alloc: Global, bytes: &[u8]) -> Result<Found, JournalRefused>
    requires { length bytes.now ≤ MAX_BYTES }
    ensures { IsFound bytes.now result }
{
    if bytes.len() <= EMPTY_BYTES {
        return Ok(Found {
            records: Vec::new(alloc),
            end: EMPTY_BYTES,
        });
    }
    let (magic, cells) = bytes.split_at(MAGIC.len());
    if magic != MAGIC.as_slice() {
        return Err(JournalRefused::NotAJournal);
    }
    read_cells(alloc, cells)
}

/// Reads the cells of a file, from the first gate on.
fn read_cells(alloc: Global, cells: &[u8]) -> Result<Found, JournalRefused>
    requires { length cells.now ≤ MAX_BYTES }
    ensures { AreRead cells.now result }
{
    let mut records = Vec::with_capacity(alloc, count_cells(cells))?;
    let mut rest = cells;
    while let Some((body, behind)) = open_cell(rest) {
        let record = read_record(alloc, body, records.len())?;
        records.push(record)?;
        rest = behind;
    }
    if is_closed(rest) {
        let end = MAGIC.len() + cells.len() - rest.len() + 1;
        Ok(Found { records, end })
    } else {
        Err(JournalRefused::BadRecord(records.len() as u64 + 1))
    }
}

/// Whether a closed gate stands here.
fn is_closed(rest: &[u8]) -> bool
    ensures { result ≡ begins_closed rest.now }
{
    rest.first().is_some_and(|gate| *gate != OPEN_GATE)
}

/// The record whose spelling a body is, behind so many others.
fn read_record(alloc: Global, body: &[u8], before: usize) -> Result<Record, JournalRefused>
    requires { before < 2 ^ 63 }
    ensures { IsRecordRead body.now before result }
{
    match decode(alloc, body) {
        Ok(record) => Ok(record),
        Err(CodecRefused::Bad) => Err(JournalRefused::BadRecord(before as u64 + 1)),
        Err(CodecRefused::NoMemory) => Err(JournalRefused::NoMemory),
    }
}

/// How many open cells with room for a record stand here, one behind another. So no file can ask
/// for more places than its bytes could fill.
fn count_cells(cells: &[u8]) -> usize {
    let mut count = 0usize;
    let mut rest = cells;
    while let Some((body, behind)) = open_cell(rest) {
        if body.len() < LEAST_SPELLING {
            break;
        }
        count = count.saturating_add(1);
        rest = behind;
    }
    count
}

/// The body of the first cell, where that is whole and its gate open, and what stands behind it.
fn open_cell(cells: &[u8]) -> Option<(&[u8], &[u8])>
    ensures { MatchOption result
        ((body behind : List ℕ) → ¬ IsOpen cells.now body behind)
        (λ found. IsOpen cells.now found.0.now found.1.now) }
{
    if cells.len() < CELL_BYTES {
        return None;
    }
    if cells[0] != OPEN_GATE {
        return None;
    }
    let len = word(&cells[1..]) as usize;
    let behind = &cells[CELL_BYTES..];
    if len > behind.len() {
        return None;
    }
    Some(behind.split_at(len))
}

/// A number in four bytes.
#[tactic(auto, unfolding(record_codec::specs::Record::word_bytes))]
fn word_bytes(number: u32) -> [u8; 4]
    ensures { result ≡ bytes_of number }
{
    let mut bytes = [0; 4];
    BigEndian::write_u32(&mut bytes, number);
    bytes
}

/// The number in the first four bytes.
#[tactic(auto, unfolding(record_codec::specs::Parse::word_at))]
fn word(bytes: &[u8]) -> u32
    requires { 4 ≤ length bytes.now }
    ensures { result ≡ word_at bytes.now }
{
    u32::from_be_bytes([bytes[0], bytes[1], bytes[2], bytes[3]])
}

/// The cell of a record, with a closed gate behind it. It answers only want of memory.
pub(crate) fn cell_of(alloc: Global, record: &Record) -> Result<Vec<u8>, JournalRefused>
    requires rule { KeepsRule record.now }
    requires few { length (spelling record.now) < 2 ^ 32 }
    ensures bytes { IfOk result (λ bytes. bytes.items ≡ cell record.now ++ CLOSED_GATE ∷ []) }
    ensures spells { OnOk result (HasSpelling record.now) }
    ensures memory { IfErr result (λ refusal. refusal ≡ JournalRefused.NoMemory) }
{
    let size = spelled_len(record);
    let len = word_bytes(size as u32);
    let mut bytes = Vec::with_capacity(alloc, CELL_BYTES + size)?;
    bytes.extend_from_slice(&len)?;
    encode(record, &mut bytes)?;
    bytes.push(CLOSED_GATE)?;
    Ok(bytes)
}
