//! A table of successors: rows of a phase, a fact and the phase that comes then. A table may have
//! any number of rows in any order; where two rows are of one phase and one fact, the first counts.
ghost use Rattle.std.specs.Prelude.{◌≡◌, ◌↔◌, IsTrue, IsNone};
ghost use Rattle.phase_table.specs.Table.{Fits, fits, NoRowFits, successor_in};

use crate::Phase;

/// What a migration in some phase has seen.
#[derive(Clone, Copy, Debug, PartialEq, Eq)]
pub enum Fact {
    /// The work of the phase is done.
    Done,
    /// A further copy before the cutover is due.
    Precopy,
    /// The cutover is due.
    Cutover,
    /// The machine, which should be off, is on.
    Running,
    /// The migration was cancelled, and is cleaned up.
    Cancelled,
    /// It failed, and is cleaned up.
    Failed,
}

/// One row of a table of successors.
#[derive(Clone, Copy, Debug, PartialEq, Eq)]
pub struct Row {
    /// The phase in which a migration is.
    pub phase: Phase,
    /// What it has seen there.
    pub fact: Fact,
    /// The phase that it is in from then on.
    pub successor: Phase,
}

impl Row {
    /// Whether the row is of this phase and this fact.
    fn fits(&self, phase: Phase, fact: Fact) -> bool
        ensures value { result ≡ fits self.now phase fact }
        ensures means { IsTrue result ↔ Fits self.now phase fact }
    {
        self.phase == phase && self.fact == fact
    }
}

/// A table of successors, of `N` rows in order.
#[derive(Clone, Copy, Debug, PartialEq, Eq)]
pub struct Table<const N: usize> {
    /// The rows. Of several rows of one phase and one fact the first counts.
    pub rows: [Row; N],
}

impl<const N: usize> Table<N> {
    /// The successor of the first row that is of this phase and this fact. None where no row is.
    pub fn first(&self, phase: Phase, fact: Fact) -> Option<Phase>
        ensures first { result ≡ successor_in self.now.rows phase fact }
        ensures none { IsNone result ↔ NoRowFits self.now.rows phase fact }
    {
        let row = self.rows.iter().find(|row| row.fits(phase, fact))?;
        Some(row.successor)
    }
}
