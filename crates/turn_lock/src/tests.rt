//! Four threads over one turn: their entries stand once and in each one's order, also where passes
//! come and go beside them. Two threads over a turn whose value reaches another turn.
ghost use Rattle.std.specs.Prelude.{◌≡◌, ℕ, false, true, length, Some, IfOk, ◌<◌, ◌+◌, All};
ghost use Rattle.turn_lock.specs.Story.{AddsUnder};
ghost use Rattle.turn_lock.specs.Pass.{IsFreeAt, IsPassOf};

use crate::{Pass, SplitRefused, Storied, Turn};
use std::alloc::{AllocError, Global};
use std::sync::Wait;
use std::test::Fail;
use std::thread;
use std::thread::Threads;

#[derive(Clone, Copy, Debug, PartialEq, Eq)]
struct Note {
    who: u32,
    value: u64,
}

/// Notes, each under the number of the pass that added it.
#[derive(Debug, Drop)]
struct Notes {
    notes: Vec<Note>,
}

impl Storied for Notes {
    ghost use Rattle.std.specs.Prelude.{length};

    type Entry = Note;

    type Frame = ();

    ghost frame = { λ _. tt };

    ghost story = { λ n. n.notes.items };

    ghost who = { λ n. n.who };

    fn length(&self) -> u64 {
        self.notes.len() as u64
    }
}

impl Notes {
    // It adds nothing where there is no room.
    fn add(&mut self, who: u32, value: u64)
        ensures { AddsUnder (λ note. note.who) who self.old.notes.items self.new.notes.items }
    {
        let _ = self.notes.push(Note { who, value });
    }
}

fn room_for(alloc: Global, count: usize) -> Result<Notes, AllocError> {
    Ok(Notes {
        notes: Vec::with_capacity(alloc, count)?,
    })
}

fn add_one<R: Wait>(rt: &R, turn: &Turn<Notes>, pass: &mut Pass<Notes>, value: u64)
    requires { IsFreeAt pass.old turn.now }
    ensures free { IsFreeAt pass.new turn.now }
    ensures same { (pass.new.number ≡ pass.old.number) × (pass.new.out ≡ pass.old.out) }
{
    let mut notes = turn.take(rt, pass);
    notes.add(pass.number(), value);
    turn.give(pass, notes);
}

fn add_all<R: Wait>(rt: &R, turn: &Turn<Notes>, mut pass: Pass<Notes>, count: u64) -> Pass<Notes>
    requires { IsFreeAt pass turn.now }
    ensures { IsFreeAt result turn.now × (result.number ≡ pass.number) × (result.out ≡ pass.out) }
{
    for value in 0..count {
        add_one(rt, turn, &mut pass, value);
    }
    pass
}

type Two = (Pass<Notes>, Pass<Notes>);

// Four threads add as many notes each.
fn add_in_four<R: Threads + Wait + Sync>(
    rt: &R,
    turn: &Turn<Notes>,
    left: Two,
    right: Two,
    count: u64,
) -> (Two, Two)
    requires left { IsFreeAt left.0 turn.now × IsFreeAt left.1 turn.now }
    requires right { IsFreeAt right.0 turn.now × IsFreeAt right.1 turn.now }
    ensures left { IsFreeAt result.0.0 turn.now × IsFreeAt result.0.1 turn.now }
    ensures right { IsFreeAt result.1.0 turn.now × IsFreeAt result.1.1 turn.now }
{
    thread::join(
        rt,
        move || -> Two
            requires { IsFreeAt left.0 turn.now × IsFreeAt left.1 turn.now }
            ensures { IsFreeAt result.0 turn.entry.now × IsFreeAt result.1 turn.entry.now }
        { add_in_two(rt, turn, left, count) },
        move || -> Two
            requires { IsFreeAt right.0 turn.now × IsFreeAt right.1 turn.now }
            ensures { IsFreeAt result.0 turn.entry.now × IsFreeAt result.1 turn.entry.now }
        { add_in_two(rt, turn, right, count) },
    )
}

fn add_in_two<R: Threads + Wait + Sync>(rt: &R, turn: &Turn<Notes>, passes: Two, count: u64) -> Two
    requires { IsFreeAt passes.0 turn.now × IsFreeAt passes.1 turn.now }
    ensures { IsFreeAt result.0 turn.now × IsFreeAt result.1 turn.now }
{
    let (a, b) = passes;
    thread::join(
        rt,
        move || -> Pass<Notes>
            requires { IsFreeAt a turn.now }
            ensures { IsFreeAt result turn.entry.now }
        { add_all(rt, turn, a, count) },
        move || -> Pass<Notes>
            requires { IsFreeAt b turn.now }
            ensures { IsFreeAt result turn.entry.now }
        { add_all(rt, turn, b, count) },
    )
}

// Splits a pass off, which adds a note, and joins it, again and again.
fn split_and_join<R: Wait>(
    rt: &R,
    turn: &Turn<Notes>,
    mut first: Pass<Notes>,
    count: u64,
) -> Pass<Notes>
    requires { IsFreeAt first turn.now × (first.number ≡ 0) }
    ensures { IsFreeAt result turn.now × (result.number ≡ 0) × (result.out ≡ first.out) }
{
    for value in 0..count {
        let Ok(mut other) = turn.split(&mut first) else {
            break;
        };
        add_one(rt, turn, &mut other, value);
        turn.join(&mut first, other);
    }
    first
}

// The values under a number, in the order of the notes.
fn values_of(alloc: Global, notes: &Notes, who: u32) -> Result<Vec<u64>, AllocError> {
    let mut values = Vec::new(alloc);
    for note in &notes.notes {
        if note.who == who {
            values.push(note.value)?;
        }
    }
    Ok(values)
}

fn are_counted_up(values: &[u64], count: u64) -> bool {
    values.len() as u64 == count
        && values
            .iter()
            .enumerate()
            .all(|(i, value)| *value == i as u64)
}

// What four threads add by passes that are split off before and joined after. Meanwhile a fifth
// splits and joins, where `churn` isn't 0.
fn add_by_four<R: Threads + Wait + Sync>(
    rt: &R,
    turn: &Turn<Notes>,
    mut first: Pass<Notes>,
    count: u64,
    churn: u64,
) -> Result<Pass<Notes>, SplitRefused>
    requires { IsFreeAt first turn.now × (first.number ≡ 0) × (first.out ≡ 0) }
    ensures { IfOk result
        (λ first. IsFreeAt first turn.now × (first.number ≡ 0) × (first.out ≡ 0)) }
{
    let left = (turn.split(&mut first)?, turn.split(&mut first)?);
    let right = (turn.split(&mut first)?, turn.split(&mut first)?);
    let ((left, right), mut first) = thread::join(
        rt,
        move || -> (Two, Two)
            requires left { IsFreeAt left.0 turn.now × IsFreeAt left.1 turn.now }
            requires right { IsFreeAt right.0 turn.now × IsFreeAt right.1 turn.now }
            ensures left { IsFreeAt result.0.0 turn.entry.now × IsFreeAt result.0.1 turn.entry.now }
            ensures right { IsFreeAt result.1.0 turn.entry.now
                × IsFreeAt result.1.1 turn.entry.now }
        { add_in_four(rt, turn, left, right, count) },
        move || -> Pass<Notes>
            requires { IsFreeAt first turn.now × (first.number ≡ 0) × (first.out ≡ 4) }
            ensures { IsFreeAt result turn.entry.now × (result.number ≡ 0) × (result.out ≡ 4) }
        { split_and_join(rt, turn, first, churn) },
    );
    turn.join(&mut first, left.0);
    turn.join(&mut first, left.1);
    turn.join(&mut first, right.0);
    turn.join(&mut first, right.1);
    Ok(first)
}

fn notes_of_four<R: Threads + Wait + Sync>(
    rt: &R,
    alloc: Global,
    count: u64,
    churn: u64,
) -> Option<Notes> {
    let room = room_for(alloc, 10_000).ok()?;
    let (turn, first) = Turn::new(alloc, room).ok()?;
    let first = add_by_four(rt, &turn, first, count, churn).ok()?;
    Some(turn.close(first))
}

#[test]
fn entries_of_four_threads_stand_once_and_in_their_order(rt: HostRuntime) -> Result<(), Fail> {
    let notes = notes_of_four(&rt, rt.alloc(), 1000, 0).expect(&rt, "memory");
    assert_eq!(rt; notes.length(), 4000);
    for who in 1..5 {
        let values = values_of(rt.alloc(), &notes, who)?;
        assert!(rt; are_counted_up(values.as_slice(), 1000), "under {who}");
    }
    Ok(())
}

#[test]
fn passes_come_and_go_beside_four_threads(rt: HostRuntime) -> Result<(), Fail> {
    let notes = notes_of_four(&rt, rt.alloc(), 500, 500).expect(&rt, "memory");
    assert_eq!(rt; notes.length(), 2500);
    for who in 1..5 {
        let values = values_of(rt.alloc(), &notes, who)?;
        assert!(rt; are_counted_up(values.as_slice(), 500), "under {who}");
    }
    for who in 5..505 {
        let values = values_of(rt.alloc(), &notes, who)?;
        assert_eq!(rt;
            values.as_slice(),
            [who as u64 - 5].as_slice(),
            "under {who}"
        );
    }
    Ok(())
}

/// What can be added to.
trait Target {
    fn add(&mut self, value: u64);
}

/// A pass of a turn, beside that turn.
#[derive(Drop)]
struct Client<'a, R: Wait> {
    rt: &'a R,
    turn: &'a Turn<Notes>,
    pass: Pass<Notes>,
    ghost free: { IsFreeAt pass turn.now },
}

impl<'a, R: Wait> Target for Client<'a, R> {
    fn add(&mut self, value: u64) {
        add_one(self.rt, self.turn, &mut self.pass, value);
    }
}

/// A value that reaches another turn, with notes of its own.
#[derive(Drop)]
struct Desk<T> {
    target: T,
    notes: Notes,
}

impl<T> Storied for Desk<T> {
    ghost use Rattle.std.specs.Prelude.{length};

    type Entry = Note;

    type Frame = ();

    ghost frame = { λ _. tt };

    ghost story = { λ d. d.notes.notes.items };

    ghost who = { λ n. n.who };

    fn length(&self) -> u64 {
        self.notes.length()
    }
}

// It adds to the desk and to what the desk reaches.
fn add_to_both<T: Target, R: Wait>(
    rt: &R,
    turn: &Turn<Desk<T>>,
    mut pass: Pass<Desk<T>>,
    count: u64,
) -> Pass<Desk<T>>
    requires { IsFreeAt pass turn.now }
    ensures { IsFreeAt result turn.now × (result.number ≡ pass.number) × (result.out ≡ pass.out) }
{
    for value in 0..count {
        let mut desk = turn.take(rt, &mut pass);
        desk.target.add(value);
        desk.notes.add(pass.number(), value);
        turn.give(&mut pass, desk);
    }
    pass
}

fn add_to_both_by_two<T: Target + Send + Drop, R: Threads + Wait + Sync>(
    rt: &R,
    alloc: Global,
    target: T,
    count: u64,
) -> Option<Desk<T>> {
    let notes = room_for(alloc, 10_000).ok()?;
    let (turn, mut first) = Turn::new(alloc, Desk { target, notes }).ok()?;
    let other = turn.split(&mut first).ok()?;
    let shared = &turn;
    let (mut first, other) = thread::join(
        rt,
        move || -> Pass<Desk<T>>
            requires { IsFreeAt first shared.now × (first.number ≡ 0) × (first.out ≡ 1) }
            ensures { IsFreeAt result shared.entry.now × (result.number ≡ 0) × (result.out ≡ 1) }
        { add_to_both(rt, shared, first, count) },
        move || -> Pass<Desk<T>>
            requires { IsFreeAt other shared.now }
            ensures { IsFreeAt result shared.entry.now }
        { add_to_both(rt, shared, other, count) },
    );
    turn.join(&mut first, other);
    Some(turn.close(first))
}

#[test]
fn a_turn_lies_behind_another(rt: HostRuntime) -> Result<(), Fail> {
    let alloc = rt.alloc();
    let (inner, mut first) = Turn::new(alloc, room_for(alloc, 10_000)?)
        .ok()
        .expect(&rt, "memory");
    let pass = inner.split(&mut first).ok().expect(&rt, "numbers");
    let client = Client {
        rt: &rt,
        turn: &inner,
        pass,
    };
    let desk = add_to_both_by_two(&rt, alloc, client, 300).expect(&rt, "memory");
    let Desk { target, notes } = desk;
    assert_eq!(rt; notes.length(), 600);
    drop(target);
    let reached = inner.take(&rt, &mut first);
    let values = values_of(alloc, &reached, 1);
    inner.give(&mut first, reached);
    assert_eq!(rt; values?.as_slice().len(), 600);
    Ok(())
}
