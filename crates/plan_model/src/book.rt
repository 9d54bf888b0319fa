//! What is known of machines, by their names, so that a name of a list takes a few look-ups only.
ghost use Rattle.std.specs.Prelude.{◌≡◌, ℕ, List, IfOk, option_copied, map};
ghost use Rattle.std.specs.List.{find};
ghost use Rattle.std.specs.BTreeMap.{get};
ghost use Rattle.std.specs.Cmp.Lexicographic.{slice_cmp};
ghost use Rattle.std.specs.Ordering.{nat_cmp};
ghost use Rattle.plan_model.specs.Plans.{count_of};
ghost use Rattle.plan_model.specs.Book.{standing_in, double_of, is_double, is_unknown, is_in_plan, is_untracked, number_of};

use crate::{Name, VmFact};
use basics::{NoMemory, NumberList};
use std::alloc::Global;
use std::collections::BTreeMap;

/// What is kept of a machine.
#[derive(Clone, Copy)]
pub(crate) struct Standing {
    number: u32,
    in_plan: bool,
    tracking: bool,
}

/// What is known of each machine, by its name. Of two of one name the first counts.
pub(crate) fn book_of(alloc: Global, known: &[VmFact]) -> Result<BTreeMap<Name, Standing>, NoMemory>
    ensures { IfOk result (λ book. (name : List ℕ) →
        get (slice_cmp nat_cmp) book name ≡ standing_in known.now name) }
{
    let mut book = BTreeMap::new(alloc);
    for vm in known {
        if !book.contains_key(&vm.name) {
            let standing = Standing {
                number: vm.number,
                in_plan: vm.in_plan,
                tracking: vm.tracking,
            };
            book.insert(vm.name.clone()?, standing)?;
        }
    }
    Ok(book)
}

/// For each listed name whether it is listed twice or more.
pub(crate) fn doubles_of(alloc: Global, vms: &[Name]) -> Result<BTreeMap<Name, bool>, NoMemory>
    ensures { IfOk result (λ doubles. (name : List ℕ) →
        get (slice_cmp nat_cmp) doubles name ≡ double_of (count_of vms.now name)) }
{
    let mut doubles = BTreeMap::new(alloc);
    for name in vms {
        let again = doubles.contains_key(name);
        doubles.insert(name.clone()?, again)?;
    }
    Ok(doubles)
}

/// The first name that is listed twice.
pub(crate) fn first_doubled<'a>(doubles: &BTreeMap<Name, bool>, vms: &'a [Name]) -> Option<&'a Name>
    ensures { option_copied result
        ≡ find (λ name. is_double (get (slice_cmp nat_cmp) doubles.now name)) vms.now }
{
    vms.iter()
        .find(|name| doubles.get(*name).copied().unwrap_or(false))
}

/// The first name that no machine has.
pub(crate) fn first_unknown<'a>(
    book: &BTreeMap<Name, Standing>,
    vms: &'a [Name],
) -> Option<&'a Name>
    ensures { option_copied result
        ≡ find (λ name. is_unknown (get (slice_cmp nat_cmp) book.now name)) vms.now }
{
    vms.iter().find(|name| !book.contains_key(*name))
}

/// The first name whose machine is in a plan.
pub(crate) fn first_in_plan<'a>(
    book: &BTreeMap<Name, Standing>,
    vms: &'a [Name],
) -> Option<&'a Name>
    ensures { option_copied result
        ≡ find (λ name. is_in_plan (get (slice_cmp nat_cmp) book.now name)) vms.now }
{
    vms.iter().find(|name| is_in_plan(book, name))
}

fn is_in_plan(book: &BTreeMap<Name, Standing>, name: &Name) -> bool
    ensures { result ≡ is_in_plan (get (slice_cmp nat_cmp) book.now name.now) }
{
    match book.get(name) {
        Some(standing) => standing.in_plan,
        None => false,
    }
}

/// The first name whose machine isn't tracked.
pub(crate) fn first_untracked<'a>(
    book: &BTreeMap<Name, Standing>,
    vms: &'a [Name],
) -> Option<&'a Name>
    ensures { option_copied result
        ≡ find (λ name. is_untracked (get (slice_cmp nat_cmp) book.now name)) vms.now }
{
    vms.iter().find(|name| is_untracked(book, name))
}

fn is_untracked(book: &BTreeMap<Name, Standing>, name: &Name) -> bool
    ensures { result ≡ is_untracked (get (slice_cmp nat_cmp) book.now name.now) }
{
    match book.get(name) {
        Some(standing) => !standing.tracking,
        None => false,
    }
}

/// The numbers of the machines, in the order of their names. A name that no machine has gives 0.
pub(crate) fn numbers_of(
    alloc: Global,
    book: &BTreeMap<Name, Standing>,
    vms: &[Name],
) -> Result<NumberList, NoMemory>
    ensures { IfOk result (λ numbers. numbers
        ≡ map (λ name. number_of (get (slice_cmp nat_cmp) book.now name)) vms.now) }
{
    let numbers = vms.iter().map(|name| number_of(book, name));
    Ok(NumberList::from_vec(numbers.collect(alloc)?))
}

fn number_of(book: &BTreeMap<Name, Standing>, name: &Name) -> u32
    ensures { result ≡ number_of (get (slice_cmp nat_cmp) book.now name.now) }
{
    match book.get(name) {
        Some(standing) => standing.number,
        None => 0,
    }
}
