//! What threads know of a lock, as plain data. Only clauses read these types: no value of them is
//! made.
use std::collections::LinkedList;

/// What a lock's value was when the lock was made: its frame, and how many entries its story had.
pub struct Beginning<F> {
    pub frame: F,
    pub start: u64,
}

/// The number of a pass that was joined, and the entries that it had added.
pub struct EndedPass<E> {
    pub number: u32,
    pub mine: LinkedList<E>,
}

/// What a join has left to check: the two stories that it put together, and the number that it
/// ended beside how many passes were out and which had ended before.
pub struct JoinCheck<E> {
    pub first: LinkedList<E>,
    pub other: LinkedList<E>,
    pub number: u32,
    pub out: u32,
    pub ended: LinkedList<EndedPass<E>>,
}

/// What the seat of pass 0 knows besides: how many numbers were drawn, how many other passes
/// there are, the passes that were joined, the number that it drew and has not given yet, and
/// what a join has left to check.
pub struct Chief<E> {
    pub made: u32,
    pub out: u32,
    pub ended: LinkedList<EndedPass<E>>,
    pub due: Option<u32>,
    pub joined: Option<JoinCheck<E>>,
}

/// What a seat at the lock's table knows. A seat whose pass was joined is spent, and has no
/// beginning.
pub struct View<F, E> {
    pub beginning: Option<Beginning<F>>,
    pub number: u32,
    pub seen: LinkedList<E>,
    pub mine: LinkedList<E>,
    pub ticket: Option<u64>,
    pub holds: bool,
    pub chief: Chief<E>,
}

/// What a [`crate::Turn`] stands for: the numbers that name it, and the frame and the length of
/// the story of the value that it was made with.
pub struct TurnState<F> {
    pub name: LinkedList<u64>,
    pub frame: F,
    pub start: u64,
}

/// What a [`crate::Pass`] stands for: its turn, its number, whether it holds the turn, the story
/// as its holder last knew it, and the entries that it added. Pass 0 stands besides for how many
/// numbers were drawn, how many other passes are out, and the joined passes in the order of their
/// joins.
pub struct PassState<F, E> {
    pub turn: Option<TurnState<F>>,
    pub number: u32,
    pub holds: bool,
    pub seen: LinkedList<E>,
    pub mine: LinkedList<E>,
    pub made: u32,
    pub out: u32,
    pub ended: LinkedList<EndedPass<E>>,
}
