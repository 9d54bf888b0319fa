//! Runs one by one: none of them, one more, and the next one of a list that is borrowed.
ghost use Rattle.std.specs.Prelude.{◌≡◌, [], ◌∷◌, ◌++◌, ◌+◌, ◌<◌, ◌^◌, ℕ, List, IfOk, OnOk, ◌||◌, ◌≤◌, All};
ghost use Rattle.sector_model.specs.Run.{end_of, has, in_runs, AreSpaced, next_run};
ghost use Rattle.sector_model.specs.Joining.{hull, left_over, Fits64};

use crate::{NoMemory, Run, Runs};
use std::alloc::Global;

impl Run {
    /// The shortest run that has the sectors of both.
    fn hull(&self, other: &Run) -> Run
        requires fits { end_of self.now < 2 ^ 64 }
        requires other_fits { end_of other.now < 2 ^ 64 }
        ensures { result ≡ hull self.now other.now }
    {
        let first = self.first.min(other.first);
        let end = (self.first + self.count).max(other.first + other.count);
        Run {
            first,
            count: end - first,
        }
    }
}

impl Runs {
    /// No runs. It takes no memory.
    pub fn new(alloc: Global) -> Runs
        ensures { result ≡ [] }
    {
        Runs {
            runs: Vec::new(alloc),
        }
    }

    /// The runs of the sectors that are in these runs or in one run more. It answers only want of
    /// memory.
    pub fn joined(&self, alloc: Global, more: Run) -> Result<Runs, NoMemory>
        requires some { 0 < more.count }
        requires fits { end_of more < 2 ^ 64 }
        ensures members { IfOk result (λ runs. (sector : ℕ)
            → in_runs runs sector ≡ (in_runs self.now sector || has sector more)) }
        ensures within { IfOk result (λ runs. (end : ℕ) → All (λ run. end_of run ≤ end) self.now
            → end_of more ≤ end → All (λ run. end_of run ≤ end) runs) }
    {
        let mut joined = Vec::new(alloc);
        let mut left = Some(more);
        for run in self.as_slice() {
            left = place(&mut joined, left, *run)?;
        }
        put_left(&mut joined, left)?;
        Ok(Runs { runs: joined })
    }
}

/// Puts a run behind others, and before it the one that is left, if that one ends before it. One
/// that meets it, or is next to it, goes on with it.
fn place(joined: &mut Vec<Run>, left: Option<Run>, run: Run) -> Result<Option<Run>, NoMemory>
    requires run_fits { end_of run < 2 ^ 64 }
    requires left_fits { Fits64 left }
    ensures placed { IfOk result (λ left_now. (rest : List Run)
        → joined.new.items ++ left_over left_now rest
        ≡ joined.old.items ++ left_over left (run ∷ rest)) }
    ensures fits { IfOk result Fits64 }
{
    let Some(more) = left else {
        joined.push(run)?;
        return Ok(None);
    };
    if run.first + run.count < more.first {
        joined.push(run)?;
        return Ok(Some(more));
    }
    if more.first + more.count < run.first {
        joined.push(more)?;
        joined.push(run)?;
        return Ok(None);
    }
    Ok(Some(more.hull(&run)))
}

/// Puts the run that is left behind the others.
fn put_left(joined: &mut Vec<Run>, left: Option<Run>) -> Result<(), NoMemory>
    ensures { OnOk result (joined.new.items ≡ joined.old.items ++ left_over left []) }
{
    if let Some(more) = left {
        joined.push(more)?;
    }
    Ok(())
}

/// The run that holds a sector, from there on, or else the first later run. None where there is
/// neither. The runs are ascending and apart.
pub fn next_run(runs: &[Run], at: u64) -> Option<Run>
    requires { AreSpaced runs.now }
    ensures { result ≡ next_run at runs.now }
{
    let index = runs.partition_point(|run| run.ends_by(at));
    let run = runs.get(index)?;
    Some(run.from_sector(at))
}
