//! A lock whose value has a history, and the tokens of the threads that take turns at it.
//!
//! A [`Turn`] guards one value. A thread takes the value with its [`Pass`], adds entries under
//! the number of that pass, and gives the value back. The lock proves that the value has one
//! history: whatever a thread takes begins with all that it had seen, and its own entries stand
//! in it, each once and in its order.
#![tactic(auto)]

mod pass;
mod rule;
mod story;
#[cfg(test)]
mod tests;
mod turn;
mod view;
mod wait;

pub use pass::{MOST_NUMBERS, Pass};
pub use story::Storied;
pub use turn::{NoMemory, SplitRefused, Turn};
pub use view::{EndedPass, PassState, TurnState};
