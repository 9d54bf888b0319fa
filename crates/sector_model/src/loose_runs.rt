//! Loose sectors of a volume, kept as runs.
ghost use Rattle.std.specs.Prelude.{◌≡◌, ◌≤◌, length, All};
ghost use Rattle.sector_model.specs.Run.{end_of};
ghost use Rattle.sector_model.specs.VolumeContents.{with_found, loose_count};
ghost use Rattle.sector_model.specs.LooseRuns.{flags_of, volume_of, RunsAreUnique, LooseRunsCount, LooseRunsGrow, NoLooseRuns};

use crate::{Runs, Sector, SectorList};

impl SectorList {
    /// Puts what a stop left, in order, in place of the sectors of the runs. It takes no memory.
    pub fn take_found(&mut self, loose: &Runs, filling: &[Sector])
        requires within { All (λ run. end_of run ≤ length self.old) loose.now }
        requires long { length filling.now ≡ loose_count (volume_of self.old loose.now) }
        ensures { self.new
            ≡ with_found (flags_of (length self.old) loose.now) self.old filling.now }
    {
        let mut at = 0;
        for run in loose.as_slice() {
            let end = at + run.count as usize;
            self.replace(run.first as usize, &filling[at..end]);
            at = end;
        }
    }
}

/// What runs tell of loose sectors: spaced runs are told by their sectors, as many sectors are
/// loose as they have, a write makes its run loose, and after a flush there is none.
pub fn loose_runs_tell()
    ensures unique { RunsAreUnique }
    ensures count { LooseRunsCount }
    ensures grow { LooseRunsGrow }
    ensures none { NoLooseRuns }
{}
