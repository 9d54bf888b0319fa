//! A list of numbers of machines, as plans and records have it. It keeps its memory to itself, so
//! that callers see the numbers and nothing else.
ghost use Rattle.std.specs.Prelude.{◌≡◌, ◌<◌, ◌^◌, IfOk};
ghost use Rattle.std.specs.List.{AllByRecursion};

use crate::NoMemory;
use std::alloc::{AllocError, Global};
use std::marker::Model;

/// Numbers of 32 bits, in order.
#[derive(Debug, Drop)]
pub struct NumberList {
    numbers: Vec<u32>,
}

impl Model for NumberList {
    ghost use Rattle.std.specs.Prelude.{List, ℕ};

    ghost Value = { List ℕ };

    ghost view = { λ list. list.numbers.items };
}

impl NumberList {
    /// A copy of the numbers. It answers only want of memory.
    pub fn of(alloc: Global, numbers: &[u32]) -> Result<NumberList, NoMemory>
        ensures { IfOk result (λ list. list ≡ numbers.now) }
    {
        let numbers = Vec::from_slice(alloc, numbers)?;
        Ok(NumberList { numbers })
    }

    /// The list of these numbers, in their memory.
    pub fn from_vec(numbers: Vec<u32>) -> NumberList
        ensures { result ≡ numbers.items }
    {
        NumberList { numbers }
    }

    /// The numbers, in order. Each has 32 bits, which callers learn here.
    pub fn as_slice(&self) -> &[u32]
        ensures numbers { result.now ≡ self.now }
        ensures fit { AllByRecursion (λ number. number < 2 ^ 32) self.now }
    {
        let numbers = self.numbers.as_slice();
        each_fits(numbers);
        numbers
    }
}

/// Numbers of 32 bits are below 2^32. The fact is the contract; there is nothing to do.
fn each_fits(numbers: &[u32])
    ensures { AllByRecursion (λ number. number < 2 ^ 32) numbers.now }
{}

impl Clone for NumberList {
    ghost use Rattle.std.specs.Prelude.{◌≡◌};

    ghost is_clone = { λ list copy. copy ≡ list };

    fn clone(&self) -> Result<NumberList, AllocError> {
        let numbers = self.numbers.clone()?;
        Ok(NumberList { numbers })
    }
}

impl PartialEq for NumberList {
    ghost use Rattle.std.specs.Prelude.{◌==◌};
    ghost use Rattle.std.proofs.Common.{rules};
    ghost use Rattle.std.specs.Cmp.Rules.{comparing};
    ghost use lib.Pointwise.{pointwise};

    ghost eq = { pointwise ◌==◌ };

    ghost laws = { Prim.search (comparing, rules) };

    fn eq(&self, other: &NumberList) -> bool {
        self.numbers == other.numbers
    }
}

impl Eq for NumberList {
    ghost use Rattle.std.proofs.Common.{rules};
    ghost use Rattle.std.specs.Cmp.Rules.{comparing};

    ghost laws = { Prim.search (comparing, rules) };
}
