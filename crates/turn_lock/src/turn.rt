//! The lock: one caller at a time has the value, in the order in which they came.
ghost use Rattle.std.specs.Prelude.{◌≡◌, ◌≢◌, ℕ, ◌+◌, ◌-◌, ◌%◌, ◌^◌, ◌<◌, [], ◌∷◌, length, true, false, None, Some, All, if◌then◌else◌, is_ok, ◌≤◌, MatchResult, IfOk, IfErr, drop};
ghost use Rattle.basics.specs.Prefix.{IsPrefix};
ghost use Rattle.turn_lock.specs.Story.{AddsUnder, added_by};
ghost use Rattle.turn_lock.specs.View.{is_among};
ghost use Rattle.turn_lock.specs.Pass.{first_pass, split_first, split_off, joined_with, holding, gave_back, entries_of, IsPassOf, IsOneOf};

use crate::pass::{MOST_NUMBERS, Pass};
use crate::rule::{Compare, Divide, DrawNumber, DrawTicket, History, Serve, Unite};
use crate::story::Storied;
use crate::view::View;
use crate::wait::wait_for;
use atomic_table::{Refused, Table};
use std::alloc::{AllocError, AllocFailed, Global};
use std::fmt;
use std::marker::Model;
use std::snapshot::Snapshot;
use std::sync::Wait;

/// Memory ran out. A call that answers it has changed nothing.
#[derive(Clone, Copy, Debug, PartialEq, Eq)]
pub struct NoMemory;

impl From<AllocError> for NoMemory {
    fn from(_refused: AllocError) -> Self {
        NoMemory
    }
}

/// Why a pass can't be split.
#[derive(Clone, Copy, Debug, PartialEq, Eq)]
pub enum SplitRefused {
    /// All numbers are drawn: [`MOST_NUMBERS`] of them.
    Full,
}

impl fmt::Display for SplitRefused {
    fn fmt<W: fmt::Write>(&self, f: &mut fmt::Formatter<W>) -> fmt::Result {
        match self {
            SplitRefused::Full => f.write_str("all numbers of passes are drawn"),
        }
    }
}

/// A value that threads take turns at. It stands for its [`TurnState`].
#[derive(Drop)]
pub struct Turn<V: Storied> {
    table: Table<Option<V>, View<V::Frame, V::Entry>, Snapshot<V>, History<V>, Global>,
}

impl<V: Storied> Model for Turn<V> {
    ghost use Rattle.turn_lock.specs.declared.view.TurnState.{TurnState};

    ghost Value = { TurnState V.Frame };

    ghost use Rattle.turn_lock.specs.Turn.{turn_state, IsLockTable};

    ghost view = { λ t. let shared = t.table.shared in
        turn_state V.frame V.story shared.table_id shared.key.value };

    ghost invariant = { λ t. IsLockTable t.table.shared.table_id };
}

// The words of the table: the numbers drawn, the tickets drawn and the tickets served.
const MADE: usize = 0;

const TICKET: usize = 1;

pub(crate) const SERVED: usize = 2;

impl<V: Storied> Turn<V> {
    /// A turn round the value, and its first pass, which has the number 0. Where memory runs out
    /// the value comes back.
    pub fn new(alloc: Global, value: V) -> Result<(Turn<V>, Pass<V>), (V, NoMemory)>
        ensures turn { IfOk result (λ made. (made.0.frame ≡ V.frame value)
            × (made.0.start ≡ length (V.story value))) }
        ensures pass { IfOk result (λ made. made.1 ≡ first_pass made.0 (V.story value)) }
        ensures back { IfErr result (λ refused. refused.0 ≡ value) }
    {
        let beginning = Snapshot::of(&value);
        let slots = match one_slot(alloc, value) {
            Ok(slots) => slots,
            Err(value) => return Err((value, NoMemory)),
        };
        match Table::new(alloc, &[1, 0, 0], slots, &beginning) {
            Ok((table, seat)) => Ok((
                Turn { table },
                Pass {
                    seat,
                    number: 0,
                    made: 1,
                    out: 0,
                    holds: false,
                },
            )),
            Err(Refused { slots }) => Err((only_value(slots), NoMemory)),
        }
    }

    /// Makes another pass, which has seen as much as pass 0 and added nothing.
    /// [`SplitRefused::Full`] where [`MOST_NUMBERS`] are drawn. It takes no memory.
    pub fn split(&self, first: &mut Pass<V>) -> Result<Pass<V>, SplitRefused>
        requires turn { first.old.turn ≡ Some self.now }
        requires first { first.old.number ≡ 0 }
        ensures made { MatchResult result
            (λ pass. (first.old.made < MOST_NUMBERS) × (pass ≡ split_off first.old))
            (λ refusal. first.old.made ≡ MOST_NUMBERS) }
        ensures first { first.new ≡ (if is_ok result then split_first first.old else first.old) }
        ensures fresh { IfOk result
            (λ pass. added_by V.who pass.number self.now.start pass.seen ≡ []) }
    {
        if first.made == MOST_NUMBERS {
            return Err(SplitRefused::Full);
        }
        let number = first.made;
        let shared = &self.table.shared;
        shared.fetch_add::<DrawNumber<V>>(&mut first.seat, MADE, 1);
        let seat = shared.split_seat::<Divide<V>>(&mut first.seat);
        first.made += 1;
        first.out += 1;
        Ok(Pass {
            seat,
            number,
            made: 0,
            out: 0,
            holds: false,
        })
    }

    /// Ends a pass that doesn't hold the turn. Pass 0 keeps its number with its entries, and has
    /// then seen what either had seen. It takes no memory.
    pub fn join(&self, first: &mut Pass<V>, other: Pass<V>)
        requires turn { IsPassOf first.old self.now.name × IsPassOf other self.now.name }
        requires first { first.old.number ≡ 0 }
        requires free { other.holds ≡ false }
        ensures pass { first.new ≡ joined_with first.old other }
        ensures out { first.new.out + 1 ≡ first.old.out }
        ensures seen { IsPrefix first.old.seen first.new.seen × IsPrefix other.seen first.new.seen }
        ensures held { first.old.holds ≡ true → first.new.seen ≡ first.old.seen }
        ensures fresh { (other.number ≢ 0) × (is_among other.number first.old.ended ≡ false) }
    {
        let shared = &self.table.shared;
        shared.join_seat::<Unite<V>>(&mut first.seat, other.into_seat());
        shared.load::<Compare<V>>(&mut first.seat, SERVED);
        first.out -= 1;
    }

    /// Draws a ticket, waits until it is served, and takes the value out. Its story goes on from
    /// what this pass had seen, and what is new in it is of others. It takes no memory.
    pub fn take<R: Wait>(&self, rt: &R, pass: &mut Pass<V>) -> V
        requires turn { pass.old.turn ≡ Some self.now }
        requires free { pass.old.holds ≡ false }
        ensures frame { V.frame result ≡ self.now.frame }
        ensures pass { pass.new ≡ holding (V.story result) pass.old }
        ensures goes_on { IsPrefix pass.old.seen (V.story result) }
        ensures reach { self.now.start ≤ length (V.story result) }
        ensures own { added_by V.who pass.old.number self.now.start (V.story result)
            ≡ pass.old.mine }
        ensures others { added_by V.who pass.old.number (length pass.old.seen) (V.story result)
            ≡ [] }
    {
        let shared = &self.table.shared;
        let ticket = shared.fetch_add::<DrawTicket<V>>(&mut pass.seat, TICKET, 1);
        wait_for(rt, shared, &mut pass.seat, ticket);
        pass.holds = true;
        let taken = shared.exchange(&mut pass.seat, 0, None);
        let Some(value) = taken else { unreachable!() };
        value
    }

    /// Gives the value back, and lets the next pass take it. The value has the turn's frame, and
    /// a story of what was taken and then entries under this pass's number. It takes no memory.
    pub fn give(&self, pass: &mut Pass<V>, value: V)
        requires turn { pass.old.turn ≡ Some self.now }
        requires holder { pass.old.holds ≡ true }
        requires frame { V.frame value ≡ self.now.frame }
        requires adds { AddsUnder V.who pass.old.number pass.old.seen (V.story value) }
        ensures pass { pass.new ≡ gave_back (V.story value) pass.old }
        ensures own { added_by V.who pass.old.number self.now.start (V.story value)
            ≡ pass.new.mine }
    {
        let shared = &self.table.shared;
        let taken = shared.exchange(&mut pass.seat, 0, Some(value));
        let None = taken else { unreachable!() };
        let served = shared.fetch_add::<Serve<V>>(&mut pass.seat, SERVED, 1);
        pass.holds = false;
        if shared.peek(TICKET) != served.wrapping_add(1) {
            shared.wake_all(SERVED);
        }
    }

    /// Ends the turn, and gives its value. Pass 0 is the only one left. What the story has gained
    /// since the turn was made is of pass 0 and of the passes that were joined. It takes no
    /// memory.
    pub fn close(self, first: Pass<V>) -> V
        requires turn { IsPassOf first self.name }
        requires first { first.number ≡ 0 }
        requires alone { first.out ≡ 0 }
        requires free { first.holds ≡ false }
        ensures frame { V.frame result ≡ self.frame }
        ensures goes_on { IsPrefix first.seen (V.story result) }
        ensures entries { (number : ℕ) → added_by V.who number self.start (V.story result)
            ≡ entries_of number first }
        ensures whose { All (λ entry. IsOneOf (V.who entry) first)
            (drop self.start (V.story result)) }
    {
        let Turn { table } = self;
        let mut closed = table.close_with(first.into_seat());
        let value = closed.take(0);
        closed.free();
        let Some(value) = value else { unreachable!() };
        value
    }
}

// The one slot of a table, with the value in it.
fn one_slot<V>(alloc: Global, value: V) -> Result<Vec<Option<V>>, V>
    ensures slot { IfOk result (λ slots. slots.items ≡ Some value ∷ []) }
    ensures back { IfErr result (λ refused. refused ≡ value) }
{
    let mut slots = Vec::new(alloc);
    match slots.push(Some(value)) {
        Ok(()) => Ok(slots),
        Err(AllocFailed { value }) => {
            slots.destroy_empty();
            let Some(value) = value else { unreachable!() };
            Err(value)
        }
    }
}

fn only_value<V>(mut slots: Vec<Option<V>>) -> V
    requires { (value : V) × (slots.items ≡ Some value ∷ []) }
    ensures { slots.items ≡ Some result ∷ [] }
{
    let last = slots.pop();
    slots.destroy_empty();
    let Some(Some(value)) = last else {
        unreachable!()
    };
    value
}
