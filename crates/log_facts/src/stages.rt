//! How many sectors of a disk may differ between two places of a log.
ghost use Rattle.std.specs.Prelude.{◌≡◌, ◌+◌, ◌*◌, ◌<◌, ◌≤◌, ◌&&◌, ◌||◌, ◌^◌, ℕ, false, nat_lt, length, IfOk, OnOk};
ghost use Rattle.std.specs.BTreeSet.{contains, IsOrdered};
ghost use Rattle.std.specs.Option.{option_map_or};
ghost use Rattle.std.specs.Ordering.{nat_cmp};
ghost use Rattle.sector_model.specs.Run.{meets, touches, block_count, areas_of, touched_blocks};
ghost use Rattle.log_model.specs.Entry.{write_to, writes_of};
ghost use Rattle.ctl_state.specs.Asks.{changed_sectors};

use basics::NoMemory;
use log_model::{Act, Entry, between};
use sector_model::{BLOCK_SECTORS, Run, Runs};
use std::alloc::Global;
use std::collections::BTreeSet;

/// The sectors of the blocks that entries from one place on and before another touch. The places
/// may lie behind the log, and in any order. It answers only want of memory.
pub(crate) fn changed_sectors(
    alloc: Global,
    log: &[Entry],
    disk: u32,
    capacity: u64,
    from: u64,
    end: u64,
) -> Result<u64, NoMemory>
    ensures { IfOk result (λ count. count ≡ changed_sectors capacity disk from end log.now) }
{
    let end = (end as usize).min(log.len());
    let entries = between(log, from as usize, end);
    let areas = areas_touched(alloc, entries, disk, capacity)?;
    Ok(areas.count())
}

/// The areas of the blocks of the disk that the entries touch.
fn areas_touched(
    alloc: Global,
    entries: &[Entry],
    disk: u32,
    capacity: u64,
) -> Result<Runs, NoMemory>
    ensures { IfOk result (λ areas. areas
        ≡ areas_of capacity (touched_blocks capacity (writes_of disk entries.now))) }
{
    let mut blocks = BTreeSet::new(alloc);
    for entry in entries {
        touch(&mut blocks, entry, disk, capacity)?;
    }
    let list = list_of(alloc, &blocks)?;
    let Ok(areas) = Runs::from_blocks(alloc, &list, capacity) else {
        return Err(NoMemory);
    };
    Ok(areas)
}

/// The numbers of a set, ascending.
fn list_of(alloc: Global, blocks: &BTreeSet<u64>) -> Result<Vec<u64>, NoMemory>
    ensures keys { IfOk result (λ list. list.items ≡ blocks.now.keys) }
    ensures ordered { IsOrdered nat_cmp blocks.now }
{
    let mut list = Vec::new(alloc);
    for block in blocks {
        list.push(*block)?;
    }
    Ok(list)
}

/// Adds the blocks of the disk that an entry touches.
fn touch(
    blocks: &mut BTreeSet<u64>,
    entry: &Entry,
    disk: u32,
    capacity: u64,
) -> Result<(), NoMemory>
    ensures { OnOk result ((block : ℕ) → contains nat_cmp blocks.new block
        ≡ (contains nat_cmp blocks.old block
        || (nat_lt block (block_count capacity)
        && option_map_or (touches block) (write_to disk entry.now.act) false))) }
{
    match &entry.act {
        Act::Write {
            disk: other,
            first,
            sectors,
        } if *other == disk => {
            let count = sectors.as_slice().len() as u64;
            add_met(
                blocks,
                Run {
                    first: *first,
                    count,
                },
                capacity,
            )
        }
        _ => Ok(()),
    }
}

/// Adds the blocks below the capacity that a run meets.
fn add_met(blocks: &mut BTreeSet<u64>, run: Run, capacity: u64) -> Result<(), NoMemory>
    ensures { OnOk result ((block : ℕ) → contains nat_cmp blocks.new block
        ≡ (contains nat_cmp blocks.old block
        || (nat_lt block (block_count capacity) && meets block run.first run.count))) }
{
    if run.count == 0 {
        return Ok(());
    }
    let end = capacity.min(run.first.saturating_add(run.count));
    for block in run.first / BLOCK_SECTORS..end.div_ceil(BLOCK_SECTORS) {
        blocks.insert(block)?;
    }
    Ok(())
}
