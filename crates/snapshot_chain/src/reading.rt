//! A read of layers, block by block, from the newest layer down.
ghost use Rattle.std.specs.Prelude.{◌≡◌, ◌+◌, ◌*◌, ◌<◌, ◌≤◌, ◌^◌, length, ℕ, true, false, slice_get, slice_index_or, unwrap_or, Some, None};
ghost use Rattle.std.specs.Bool.{OnTrue};
ghost use Rattle.sector_model.specs.Sector.{zero_sector};
ghost use Rattle.snapshot_chain.specs.Page128.{sector_at};
ghost use Rattle.snapshot_chain.specs.Layers.{found, sector_found};
ghost use Rattle.snapshot_chain.specs.Reading.{blocks_met, IsRead, TakesMissing};

use crate::{Layer, Page128, Steps};
use sector_model::{BLOCK_SECTORS, Sector};
use std::sync::ledger::Ledger;

/// Reads the sectors from sector `first` of the disk on, block by block.
pub(crate) fn read_layers<L: Ledger>(
    layers: &[Layer],
    first: u64,
    buf: &mut [Sector],
    steps: &mut Steps<L>,
)
    requires { first + length buf.old < 2 ^ 64 }
    ensures sectors { (k : ℕ) → k < length buf.old
        → slice_get buf.new k ≡ Some (sector_found layers.now (first + k)) }
    ensures counted { steps.old ≤ steps.new }
    ensures cost { steps.new ≤ steps.old + length layers.now * blocks_met first (length buf.old) }
{
    let end = first + buf.len() as u64;
    for block in first / BLOCK_SECTORS..end.div_ceil(BLOCK_SECTORS) {
        let from = first.max(BLOCK_SECTORS * block);
        let offset = from % BLOCK_SECTORS;
        let count = (end - from).min(BLOCK_SECTORS - offset);
        let start = (from - first) as usize;
        let part = &mut buf[start..start + count as usize];
        read_block(layers, block, offset, part, steps);
    }
}

/// Reads sectors of one block from an offset on, from the newest layer down until each is found.
fn read_block<L: Ledger>(
    layers: &[Layer],
    block: u64,
    offset: u64,
    buf: &mut [Sector],
    steps: &mut Steps<L>,
)
    requires { offset + length buf.old ≤ BLOCK_SECTORS }
    ensures sectors { (k : ℕ) → k < length buf.old
        → slice_get buf.new k ≡ Some (unwrap_or (found layers.now block (offset + k)) zero_sector) }
    ensures counted { steps.old ≤ steps.new }
    ensures cost { steps.new ≤ steps.old + length layers.now }
{
    let mut is_found = [false; BLOCK_SECTORS as usize];
    let is_found = &mut is_found[..buf.len()];
    clear(buf, is_found);
    let mut left = layers.len();
    while left > 0 && !all_found(is_found) {
        left -= 1;
        if let Some(page) = layers[left].page(block, steps) {
            take_missing(page, offset, buf, is_found);
        }
    }
}

/// Before a layer is looked at, nothing is found, and all is zero.
fn clear(buf: &mut [Sector], is_found: &mut [bool])
    requires { length is_found.old ≡ length buf.old }
    ensures same { length is_found.new ≡ length buf.new }
    ensures read { (k : ℕ) → k < length buf.old
        → IsRead None (slice_index_or is_found.new k false) (slice_get buf.new k) }
{
    let zero = Sector::filled(0);
    for k in 0..buf.len() {
        buf[k] = zero;
        is_found[k] = false;
    }
}

/// Whether nothing is left to be found.
fn all_found(is_found: &[bool]) -> bool
    ensures { OnTrue result ((k : ℕ) → k < length is_found.now
        → slice_index_or is_found.now k false ≡ true) }
{
    is_found.iter().all(|found| *found)
}

/// Takes from a page the sectors that were not found before.
fn take_missing(page: &Page128, offset: u64, buf: &mut [Sector], is_found: &mut [bool])
    requires fits { offset + length buf.old ≤ BLOCK_SECTORS }
    requires same { length is_found.old ≡ length buf.old }
    ensures { (k : ℕ) → k < length buf.old → TakesMissing (sector_at page.now (offset + k))
        (slice_index_or is_found.old k false) (slice_get buf.old k)
        (slice_index_or is_found.new k false) (slice_get buf.new k) }
{
    for k in 0..buf.len() {
        if !is_found[k]
            && let Some(sector) = page.get(offset + k as u64)
        {
            buf[k] = *sector;
            is_found[k] = true;
        }
    }
}
