//! The commands, one file each: it carries the command out, and says by the definitions what it
//! answers and leaves.
pub(crate) mod moves;
pub(crate) mod plans;
