//! Runs of sectors, and the areas that blocks cover.
ghost use Rattle.std.specs.Prelude.{◌≡◌, ◌<◌, ◌≤◌, ◌^◌, ◌*◌, IfOk, OnOk, OnErr, All, nat_le, ◌==◌};
ghost use Rattle.std.specs.List.{sum_by};
ghost use Rattle.std.specs.List.Sorted.{IsStrictlyIncreasing};
ghost use Rattle.sector_model.specs.Run.{end_of, with_run};

mod joined;
mod loose;

use crate::NoMemory;
pub use joined::next_run;
use std::alloc::Global;
use std::marker::Model;

/// Sectors of a block, the unit in which a tracker remembers changes.
pub const BLOCK_SECTORS: u64 = 128;

/// The sectors from `first` on, `count` of them.
#[derive(Clone, Copy, Debug, PartialEq, Eq)]
pub struct Run {
    pub first: u64,
    pub count: u64,
}

impl Run {
    ghost use Rattle.sector_model.specs.Run.{from_sector};

    /// Whether the run ends at or before a sector.
    fn ends_by(&self, at: u64) -> bool
        ensures { result ≡ nat_le (end_of self.now) at }
    {
        self.first <= at && self.count <= at - self.first
    }

    /// Whether a sector is the first one behind the run.
    fn ends_at(&self, at: u64) -> bool
        ensures { result ≡ (end_of self.now == at) }
    {
        self.first <= at && at - self.first == self.count
    }

    /// The part of the run from a sector on.
    fn from_sector(&self, at: u64) -> Run
        requires { at < end_of self.now }
        ensures { result ≡ from_sector at self.now }
    {
        if self.first < at {
            let passed = at - self.first;
            Run {
                first: at,
                count: self.count - passed,
            }
        } else {
            *self
        }
    }
}

/// Runs in ascending order, each of at least one sector, with at least one sector between two.
#[derive(Debug, Drop)]
pub struct Runs {
    runs: Vec<Run>,
}

impl Model for Runs {
    ghost use Rattle.std.specs.Prelude.{List};
    ghost use Rattle.sector_model.specs.declared.run.Run.{Run};
    ghost use Rattle.sector_model.specs.Run.{AreSpaced};

    ghost Value = { List Run };

    ghost view = { λ a. a.runs.items };

    ghost invariant = { λ a. AreSpaced a.runs.items };
}

impl Runs {
    ghost use Rattle.sector_model.specs.Run.{AreSpaced, areas_of, complement_of, next_run};

    /// A copy of these runs. It answers only want of memory.
    pub fn of(alloc: Global, runs: &[Run]) -> Result<Runs, NoMemory>
        requires { AreSpaced runs.now }
        ensures { IfOk result (λ list. list ≡ runs.now) }
    {
        let runs = runs.to_vec(alloc)?;
        Ok(Runs { runs })
    }

    /// The areas of blocks: their sectors, clipped at the capacity, where neighbours join.
    /// It answers only want of memory.
    pub fn from_blocks(alloc: Global, blocks: &[u64], capacity: u64) -> Result<Runs, NoMemory>
        requires ascending { IsStrictlyIncreasing blocks.now }
        requires begin_below { All (λ block. BLOCK_SECTORS * block < capacity) blocks.now }
        ensures { IfOk result (λ runs. runs ≡ areas_of capacity blocks.now) }
    {
        let mut runs = Vec::new(alloc);
        for block in blocks {
            let first = BLOCK_SECTORS * *block;
            let count = BLOCK_SECTORS.min(capacity - first);
            append(&mut runs, Run { first, count })?;
        }
        Ok(Runs { runs })
    }

    /// The maximal runs of the sectors below the capacity that are in none of these runs.
    /// It answers only want of memory.
    pub fn complement(&self, alloc: Global, capacity: u64) -> Result<Runs, NoMemory>
        requires { All (λ run. end_of run ≤ capacity) self.now }
        ensures { IfOk result (λ gaps. gaps ≡ complement_of capacity self.now) }
    {
        let runs = self.as_slice();
        let mut gaps = Vec::new(alloc);
        let mut at = 0;
        for run in runs {
            append(
                &mut gaps,
                Run {
                    first: at,
                    count: run.first - at,
                },
            )?;
            at = run.first + run.count;
        }
        append(
            &mut gaps,
            Run {
                first: at,
                count: capacity - at,
            },
        )?;
        Ok(Runs { runs: gaps })
    }

    /// How many sectors the runs have.
    pub fn count(&self) -> u64
        ensures { result ≡ sum_by (λ run. run.count) self.now }
    {
        sectors_of(self.as_slice())
    }

    /// The run that holds a sector, from there on, or else the first later run. None where there
    /// is neither.
    pub fn next_from(&self, at: u64) -> Option<Run>
        ensures { result ≡ next_run at self.now }
    {
        next_run(self.as_slice(), at)
    }

    /// The runs, in ascending order.
    pub fn as_slice(&self) -> &[Run]
        ensures same { result.now ≡ self.now }
        ensures spaced { AreSpaced result.now }
    {
        self.runs.as_slice()
    }
}

/// How many sectors the runs have together.
fn sectors_of(runs: &[Run]) -> u64
    requires { sum_by (λ run. run.count) runs.now < 2 ^ 64 }
    ensures { result ≡ sum_by (λ run. run.count) runs.now }
{
    runs.iter().map(|run| run.count).sum()
}

/// Adds a run behind the others. It lengthens a last one that ends just before it, and a run of no
/// sector adds nothing.
fn append(runs: &mut Vec<Run>, run: Run) -> Result<(), NoMemory>
    requires { end_of run < 2 ^ 64 }
    ensures ok { OnOk result
        (runs.new.items ≡ with_run runs.old.items run.first run.count) }
{
    if run.count == 0 {
        return Ok(());
    }
    if let Some(last) = runs.len().checked_sub(1)
        && runs[last].ends_at(run.first)
    {
        runs[last].count += run.count;
        return Ok(());
    }
    runs.push(run)?;
    Ok(())
}
