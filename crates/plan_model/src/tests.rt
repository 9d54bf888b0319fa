//! Moments in one table, and the public calls once.
ghost use Rattle.std.specs.Prelude.{◌≡◌, [], ◌∷◌, Some, None, IfOk, codes, vec_len};
ghost use Rattle.plan_model.specs.Plans.{plan_refusal, next_plan};
ghost use Rattle.plan_model.specs.SmallPlans.{three_machines, one_plan};

use crate::{
    Cutover, Moment, MomentRefused, Name, NumberList, Plan, PlanRefused, VmFact, Way, due, validate,
};
use basics::{MAX_NAME_BYTES, NoMemory, is_name};
use std::alloc::Global;
use std::test::Fail;

#[test]
fn how_moments_are_written(rt: HostRuntime) -> Result<(), Fail> {
    let told = [
        ("2024-05-01T10:00:00Z", 1_714_557_600),
        ("2000-01-01T00:00:00Z", 946_684_800),
        ("2000-02-29T00:00:00Z", 951_782_400),
        ("2024-02-29T23:59:59Z", 1_709_251_199),
        ("2024-04-30T23:59:59Z", 1_714_521_599),
        ("2100-03-01T00:00:00Z", 4_107_542_400),
        ("2999-12-31T23:59:59Z", 32_503_679_999),
    ];
    for (text, seconds) in told {
        assert_eq!(rt; Moment::parse(text), Ok(Moment(seconds)), "{text}");
    }
    let refused = [
        "2023-02-29T00:00:00Z",
        "2100-02-29T00:00:00Z",
        "2024-04-31T00:00:00Z",
        "2024-13-01T00:00:00Z",
        "2024-00-10T00:00:00Z",
        "2024-05-00T00:00:00Z",
        "2024-05-01T24:00:00Z",
        "2024-05-01T10:60:00Z",
        "2016-12-31T23:59:60Z",
        "2024-05-01t10:00:00Z",
        "2024-05-01T10:00:00z",
        "2024-05-01T10:00:00.5Z",
        "2024-05-01T10:00:00+00:00",
        "2024-05-01T12:00:00+02:00",
        "1999-12-31T23:59:59Z",
        "3000-01-01T00:00:00Z",
        "2024-05-01 10:00:00Z",
        "20240501T100000Z",
        "",
    ];
    for text in refused {
        assert_eq!(rt; Moment::parse(text), Err(MomentRefused::Form), "{text}");
    }
    Ok(())
}

#[test]
fn what_is_due_at_its_second(rt: HostRuntime) -> Result<(), Fail> {
    let at = |seconds| Some(Cutover {
        at: Some(Moment(seconds)),
    });
    assert_eq!(rt; due(Moment(699), Moment(100), 10, None), Way::Nothing);
    assert_eq!(rt; due(Moment(700), Moment(100), 10, None), Way::Precopy);
    assert_eq!(rt; due(Moment(700), Moment(100), 10, at(700)), Way::Cutover);
    assert_eq!(rt; due(Moment(700), Moment(100), 10, at(701)), Way::Precopy);
    assert_eq!(rt;
        due(Moment(0), Moment(0), 10, Some(Cutover { at: None })),
        Way::Cutover
    );
    assert_eq!(rt;
        due(Moment(u64::MAX), Moment(u64::MAX), 1, None),
        Way::Nothing
    );
    Ok(())
}

#[test]
fn the_numbers_of_ways(rt: HostRuntime) {
    assert_eq!(rt; Way::Nothing.number(), 0);
    assert_eq!(rt; Way::Precopy.number(), 1);
    assert_eq!(rt; Way::Cutover.number(), 2);
}

/// The definitions on small lists, where two reasons in a row stand at once. The proof computes
/// them.
fn definitions_on_small_lists()
    ensures taken { plan_refusal (codes "p") [] three_machines one_plan
        ≡ Some PlanRefused.NameTaken }
    ensures empty { plan_refusal (codes "q") [] three_machines one_plan
        ≡ Some PlanRefused.Empty }
    ensures doubled { plan_refusal (codes "q")
        (codes "a" ∷ codes "x" ∷ codes "x" ∷ codes "a" ∷ []) three_machines one_plan
        ≡ Some (PlanRefused.Doubled (codes "a")) }
    ensures unknown { plan_refusal (codes "q") (codes "b" ∷ codes "x" ∷ codes "y" ∷ [])
        three_machines one_plan ≡ Some (PlanRefused.UnknownVm (codes "x")) }
    ensures in_plan { plan_refusal (codes "q") (codes "c" ∷ codes "b" ∷ [])
        three_machines one_plan ≡ Some (PlanRefused.InPlan (codes "b")) }
    ensures no_tracking { plan_refusal (codes "q") (codes "a" ∷ codes "c" ∷ [])
        three_machines one_plan ≡ Some (PlanRefused.NoTracking (codes "c")) }
    ensures accepted { plan_refusal (codes "q") (codes "a" ∷ []) three_machines one_plan
        ≡ None }
    ensures plan { (next_plan (codes "q") (codes "a" ∷ []) three_machines one_plan 10).vms
        ≡ 3 ∷ [] }
{}

fn name(alloc: Global, text: &str) -> Result<Name, NoMemory> {
    if text.is_empty() || text.len() > MAX_NAME_BYTES {
        return Err(NoMemory);
    }
    Name::of(alloc, text)
}

fn names(alloc: Global, texts: &[&str]) -> Result<Vec<Name>, NoMemory> {
    let mut names = Vec::new(alloc);
    for text in texts {
        names.push(name(alloc, text)?)?;
    }
    Ok(names)
}

fn machine(
    alloc: Global,
    text: &str,
    number: u32,
    in_plan: bool,
    tracking: bool,
) -> Result<VmFact, NoMemory> {
    let name = name(alloc, text)?;
    Ok(VmFact {
        name,
        number,
        in_plan,
        tracking,
    })
}

/// One machine that is free, one that is in a plan, one that isn't tracked, and a free one again.
fn machines(alloc: Global) -> Result<Vec<VmFact>, NoMemory> {
    let mut known = Vec::new(alloc);
    known.push(machine(alloc, "a", 3, false, true)?)?;
    known.push(machine(alloc, "b", 5, true, true)?)?;
    known.push(machine(alloc, "c", 7, false, false)?)?;
    known.push(machine(alloc, "d", 9, false, true)?)?;
    Ok(known)
}

/// One plan, of the name `p`.
fn one_plan(alloc: Global) -> Result<Vec<Plan>, NoMemory>
    ensures { IfOk result (λ plans. vec_len plans ≡ 1) }
{
    let mut plans = Vec::new(alloc);
    plans.push(Plan {
        number: 1,
        name: name(alloc, "p")?,
        interval: 10,
        vms: NumberList::of(alloc, &[5])?,
    })?;
    Ok(plans)
}

/// What becomes of a plan `title` of the listed machines, after the plan `p`.
fn second_plan(alloc: Global, title: &str, listed: &[&str]) -> Result<Plan, PlanRefused> {
    let known = machines(alloc)?;
    let plans = one_plan(alloc)?;
    let vms = names(alloc, listed)?;
    if !is_name(title.as_bytes()) {
        return Err(PlanRefused::NoMemory);
    }
    validate(alloc, title, &vms, &known, &plans, 10)
}

#[test]
fn the_first_name_that_stands_again_is_told(rt: HostRuntime) -> Result<(), Fail> {
    definitions_on_small_lists();
    let doubled = second_plan(rt.alloc(), "q", &["a", "b", "b", "a"]);
    let name = name(rt.alloc(), "a").ok().ok_or("memory")?;
    assert!(rt; doubled == Err(PlanRefused::Doubled(name)));
    Ok(())
}

#[test]
fn an_unknown_machine_is_told(rt: HostRuntime) -> Result<(), Fail> {
    let unknown = second_plan(rt.alloc(), "q", &["b", "x"]);
    let name = name(rt.alloc(), "x").ok().ok_or("memory")?;
    assert!(rt; unknown == Err(PlanRefused::UnknownVm(name)));
    Ok(())
}

#[test]
fn a_machine_in_a_plan_is_told(rt: HostRuntime) -> Result<(), Fail> {
    let planned = second_plan(rt.alloc(), "q", &["c", "b"]);
    let name = name(rt.alloc(), "b").ok().ok_or("memory")?;
    assert!(rt; planned == Err(PlanRefused::InPlan(name)));
    Ok(())
}

#[test]
fn an_untracked_machine_is_told(rt: HostRuntime) -> Result<(), Fail> {
    let untracked = second_plan(rt.alloc(), "q", &["a", "c"]);
    let name = name(rt.alloc(), "c").ok().ok_or("memory")?;
    assert!(rt; untracked == Err(PlanRefused::NoTracking(name)));
    Ok(())
}

#[test]
fn a_taken_name_goes_before_an_empty_list(rt: HostRuntime) {
    let taken = second_plan(rt.alloc(), "p", &[]);
    assert!(rt; taken == Err(PlanRefused::NameTaken));
    let empty = second_plan(rt.alloc(), "q", &[]);
    assert!(rt; empty == Err(PlanRefused::Empty));
}

#[test]
fn a_second_plan_has_the_number_2(rt: HostRuntime) -> Result<(), Fail> {
    let plan = second_plan(rt.alloc(), "q", &["d", "a"])
        .ok()
        .ok_or("refused")?;
    let wanted = Plan {
        number: 2,
        name: name(rt.alloc(), "q").ok().ok_or("memory")?,
        interval: 10,
        vms: NumberList::of(rt.alloc(), &[9, 3]).ok().ok_or("memory")?,
    };
    assert!(rt; plan == wanted);
    Ok(())
}

#[test]
fn a_refusal_prints_its_name(rt: HostRuntime) -> Result<(), Fail> {
    let unknown = PlanRefused::UnknownVm(name(rt.alloc(), "x").ok().ok_or("memory")?);
    let text = format!(in rt.alloc(); "{unknown}")?;
    assert_eq!(rt; text.as_str(), "there is no machine x");
    Ok(())
}
