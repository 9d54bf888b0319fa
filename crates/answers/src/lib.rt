//! What a line is answered: a reply to what it asked for, or a refusal with its text and what its
//! reply carries; and the bytes of the line that tells it.
#![tactic(auto)]

mod answer;
mod refusal;
#[cfg(test)]
mod tests;

pub use answer::{Answer, line_for};
pub use refusal::Refusal;
