//! A list of numbers of 64 bits: the marks of a migration's finished checkpoints, and the sectors
//! that were written for each.
ghost use Rattle.std.specs.Prelude.{◌≡◌, [], ◌∷◌, ◌++◌, IfOk, OnOk, OnErr};

use basics::NoMemory;
use std::alloc::Global;
use std::marker::Model;

/// Numbers of 64 bits, in order.
#[derive(Debug, Drop)]
pub struct MarkList {
    marks: Vec<u64>,
}

impl Model for MarkList {
    ghost use Rattle.std.specs.Prelude.{List, ℕ};

    ghost Value = { List ℕ };

    ghost view = { λ list. list.marks.items };
}

impl MarkList {
    /// A copy of the numbers. It answers only want of memory.
    pub fn of(alloc: Global, marks: &[u64]) -> Result<MarkList, NoMemory>
        ensures { IfOk result (λ list. list ≡ marks.now) }
    {
        let marks = Vec::from_slice(alloc, marks)?;
        Ok(MarkList { marks })
    }

    pub(crate) fn new(alloc: Global) -> MarkList
        ensures { result ≡ [] }
    {
        MarkList {
            marks: Vec::new(alloc),
        }
    }

    /// The numbers, in order.
    pub fn as_slice(&self) -> &[u64]
        ensures { result.now ≡ self.now }
    {
        self.marks.as_slice()
    }
}

/// A number at the end of each of two lists, or of none of them for want of memory.
pub(crate) fn push_both(
    marks: &mut MarkList,
    mark: u64,
    sums: &mut MarkList,
    sum: u64,
) -> Result<(), NoMemory>
    ensures mark { OnOk result (marks.new ≡ marks.old ++ mark ∷ []) }
    ensures sum { OnOk result (sums.new ≡ sums.old ++ sum ∷ []) }
    ensures marks_kept { OnErr result (marks.new ≡ marks.old) }
    ensures sums_kept { OnErr result (sums.new ≡ sums.old) }
{
    marks.marks.reserve(1)?;
    sums.marks.push(sum)?;
    marks.marks.push(mark)?;
    Ok(())
}
