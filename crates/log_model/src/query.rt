//! What a log answers to a query, and what it leaves of a disk.
ghost use Rattle.std.specs.Prelude.{◌≡◌, ◌<◌, ◌≤◌, ◌+◌, ◌^◌, ◌&&◌, ℕ, nat_lt, not, length, map, MatchResult, MatchBool, IsTrue};
ghost use Rattle.std.specs.List.{range_with_len};
ghost use Rattle.sector_model.specs.Run.{next_run, areas_of, touched_blocks};
ghost use Rattle.sector_model.specs.Page.{page_from};
ghost use Rattle.log_model.specs.Entry.{writes_of};
ghost use Rattle.log_model.specs.Legal.{capacity_of};
ghost use Rattle.log_model.specs.Marks.{mark, before, through, in_force};
ghost use Rattle.log_model.specs.Touched.{between, touched_areas, entry_touches, is_touched};
ghost use Rattle.log_model.specs.Query.{changed_areas, accepts};
ghost use Rattle.log_model.specs.Refusals.{is_known, is_on_disk};
ghost use Rattle.log_model.specs.PlainMachine.{numbered_place, sector_after, sector_at};

use crate::folds::{epoch, mark, number};
use crate::{Act, Entry, LinkRefused};
use change_id::{ChangeId, Since, counted_id, pack};
use sector_model::{BLOCK_SECTORS, PAGE_AREAS, Page, Run, Sector};

/// The entries before the one that takes the snapshot.
pub fn before(log: &[Entry], snapshot: u32) -> &[Entry]
    ensures { result.now ≡ before snapshot log.now }
{
    &log[..mark(log, snapshot)]
}

/// The entries up to the one that takes the snapshot, with it.
pub fn through(log: &[Entry], snapshot: u32) -> &[Entry]
    ensures { result.now ≡ through snapshot log.now }
{
    let end = log.len().min(mark(log, snapshot) + 1);
    &log[..end]
}

/// The identifier of a disk that is in force after the log.
pub fn in_force(machine: u32, log: &[Entry], disk: u32) -> Option<ChangeId>
    ensures { result ≡ in_force machine disk log.now }
{
    let uuid = pack(machine, disk, epoch(log, disk));
    counted_id(uuid, number(log, disk))
}

/// Whether a query of the snapshot accepts the identifier.
pub fn accepts(machine: u32, log: &[Entry], disk: u32, snapshot: u32, id: ChangeId) -> bool
    ensures { result ≡ accepts machine disk snapshot id log.now }
{
    let resets = epoch(log, disk);
    id.uuid == pack(machine, disk, resets)
        && epoch(before(log, snapshot), disk) == resets
        && 1 <= id.seq
        && id.seq <= number(through(log, snapshot), disk)
}

/// The place of the entry that gave the disk this number in its present epoch.
pub fn numbered_place(log: &[Entry], disk: u32, seq: u64) -> usize
    ensures place { result ≡ numbered_place disk seq log.now }
    ensures within { result ≤ length log.now }
{
    let now = epoch(log, disk);
    for place in 0..log.len() {
        let upto = &log[..place + 1];
        if epoch(upto, disk) == now && number(upto, disk) == seq {
            return place;
        }
    }
    log.len()
}

/// The entries from one place on, before another.
pub fn between(log: &[Entry], from: usize, end: usize) -> &[Entry]
    requires { end ≤ length log.now }
    ensures { result.now ≡ between from end log.now }
{
    let upto = &log[..end];
    &upto[from.min(end)..]
}

/// The capacity of a known disk, where it lies past a sector. [`LinkRefused::Range`] where it
/// doesn't, or the disk is unknown.
pub fn capacity_past(capacities: &[u64], disk: u32, start: u64) -> Result<u64, LinkRefused>
    ensures { MatchBool
        (is_known capacities.now disk && nat_lt start (capacity_of capacities.now disk))
        (result ≡ Ok (capacity_of capacities.now disk)) (result ≡ Err LinkRefused.Range) }
{
    match capacities.get(disk as usize) {
        Some(&capacity) if start < capacity => Ok(capacity),
        _ => Err(LinkRefused::Range),
    }
}

/// Whether the sectors are some, and lie on a known disk.
pub fn is_on_disk(capacities: &[u64], disk: u32, first: u64, count: u64) -> bool
    ensures within { result ≡ is_on_disk capacities.now disk first count }
    ensures fits { IsTrue result → first + count < 2 ^ 64 }
{
    match capacities.get(disk as usize) {
        Some(&capacity) => 1 <= count && count <= capacity && first <= capacity - count,
        None => false,
    }
}

/// The place from which on a query of a snapshot tells changes. [`LinkRefused::Strange`] where the
/// identifier isn't accepted.
pub fn since_place(
    machine: u32,
    log: &[Entry],
    disk: u32,
    snapshot: u32,
    since: Since,
) -> Result<usize, LinkRefused>
    ensures { MatchResult result
        (λ place. (c : ℕ) → changed_areas machine c disk snapshot since log.now
        ≡ Ok (touched_areas c disk place (mark snapshot log.now) log.now))
        (λ refusal. (refusal ≡ LinkRefused.Strange (in_force machine disk log.now))
        × ((c : ℕ) → changed_areas machine c disk snapshot since log.now
        ≡ Err (in_force machine disk log.now))) }
{
    match since {
        Since::All => Ok(0),
        Since::From(id) if accepts(machine, log, disk, snapshot, id) => {
            Ok(numbered_place(log, disk, id.seq))
        }
        Since::From(_) => Err(LinkRefused::Strange(in_force(machine, log, disk))),
    }
}

/// What the log leaves of one sector of a disk.
pub fn sector_at(log: &[Entry], disk: u32, at: u64) -> Sector
    ensures { result ≡ sector_at disk at log.now }
{
    log.iter().fold(
        Sector::filled(0),
        |sector, entry| sector_after(sector, entry, disk, at),
    )
}

/// Reads what the log leaves of a disk's sectors from `first` on.
pub fn read_into(log: &[Entry], disk: u32, first: u64, buf: &mut [Sector])
    requires { first + length buf.old ≤ 2 ^ 64 }
    ensures { buf.new
        ≡ map (λ i. sector_at disk (first + i) log.now) (range_with_len 0 (length buf.old)) }
{
    for i in 0..buf.len() {
        buf[i] = sector_at(log, disk, first + i as u64);
    }
}

/// The sector after one entry more.
fn sector_after(sector: Sector, entry: &Entry, disk: u32, at: u64) -> Sector
    ensures { result ≡ sector_after disk at sector entry.now }
{
    match &entry.act {
        Act::Write {
            disk: other,
            first,
            sectors,
        } if *other == disk && *first <= at => {
            let offset = (at - *first) as usize;
            sectors.as_slice().get(offset).copied().unwrap_or(sector)
        }
        _ => sector,
    }
}

/// Whether the entry touches the block of a sector of the disk.
pub fn entry_touches(entry: &Entry, disk: u32, sector: u64) -> bool
    ensures { result ≡ entry_touches disk sector entry.now }
{
    match &entry.act {
        Act::Write {
            disk: other,
            first,
            sectors,
        } if *other == disk => {
            let count = sectors.as_slice().len() as u64;
            let block = sector / BLOCK_SECTORS;
            let block_first = block * BLOCK_SECTORS;
            0 < count
                && *first / BLOCK_SECTORS <= block
                && (block_first < *first || block_first - *first < count)
        }
        _ => false,
    }
}

/// Whether an entry of the log touches that block.
pub fn is_touched(log: &[Entry], disk: u32, sector: u64) -> bool
    ensures { result ≡ is_touched disk sector log.now }
{
    log.iter().any(|entry| entry_touches(entry, disk, sector))
}

/// The first sector from `from` on that is touched, or isn't, as is asked; the capacity where there
/// is none.
fn first_sector(log: &[Entry], disk: u32, from: u64, capacity: u64, touched: bool) -> u64
    requires { from ≤ capacity }
    ensures from { from ≤ result }
    ensures within { result ≤ capacity }
    ensures before { (s : ℕ) → from ≤ s → s < result → is_touched disk s log.now ≡ not touched }
    ensures found { result < capacity → is_touched disk result log.now ≡ touched }
{
    for sector in from..capacity {
        if is_touched(log, disk, sector) == touched {
            return sector;
        }
    }
    capacity
}

/// The area of a disk that holds sector `at`, from there on, or else the next one.
fn next_touched(log: &[Entry], disk: u32, at: u64, capacity: u64) -> Option<Run>
    requires { at ≤ capacity }
    ensures { result
        ≡ next_run at (areas_of capacity (touched_blocks capacity (writes_of disk log.now))) }
{
    let first = first_sector(log, disk, at, capacity, true);
    if first == capacity {
        return None;
    }
    let end = first_sector(log, disk, first, capacity, false);
    Some(Run {
        first,
        count: end - first,
    })
}

/// Makes the page the one of the areas that the log touches, from sector `start` on.
pub fn answer_page(log: &[Entry], disk: u32, capacity: u64, start: u64, page: &mut Page)
    requires { start < capacity }
    ensures { page.new ≡ page_from capacity
        (areas_of capacity (touched_blocks capacity (writes_of disk log.now))) start }
{
    page.clear(start);
    let mut at = start;
    while let Some(run) = next_touched(log, disk, at, capacity) {
        if page.areas().len() == PAGE_AREAS {
            page.cover(at - start);
            return;
        }
        page.push(run);
        at = run.first + run.count;
    }
    page.cover(capacity - start);
}
