//! The records of the journal and their bytes. Each record that keeps its rule has exactly one
//! spelling, no two records share one, and nothing but a spelling is read.
#![tactic(auto)]

mod fields;
mod fixed;
mod laws;
mod parse;
mod puts;
mod record;
mod spell;
#[cfg(test)]
mod tests;
mod variable;

pub use basics::{Name, NoMemory, NumberList};
pub use laws::{spelled_is_read, spellings_differ, spellings_have_their_size};
pub use parse::{CodecRefused, decode};
pub use record::{IdList, Kind, MAX_HOW, MAX_WAY, Record};
pub use spell::{encode, spelled_len};
