//! The numbers of the file's format: what a file begins with, the gates before its records, and
//! the least and the most that it holds.

/// What each journal's file begins with.
pub const MAGIC: [u8; 8] = [b'W', b'A', b'R', b'M', b'J', b'N', b'L', b'1'];

/// The length of a journal without records: the magic and a closed gate. A file of at most so many
/// bytes is one.
pub const EMPTY_BYTES: usize = 9;

/// The most bytes of a journal's file: 64 MiB.
pub const MAX_BYTES: usize = 1 << 26;

/// The gate of a record that stands. Any other value is closed.
pub(crate) const OPEN_GATE: u8 = 1;

/// The gate that this program writes where no record stands yet.
pub(crate) const CLOSED_GATE: u8 = 0;

/// How many bytes a record takes besides its spelling: a gate, and the length of the spelling.
pub(crate) const CELL_BYTES: usize = 5;

/// How many bytes of a file are read in one call: 64 KiB.
pub(crate) const PIECE_BYTES: usize = 1 << 16;

/// No record's spelling has fewer bytes: a kind and a number of four bytes.
pub(crate) const LEAST_SPELLING: usize = 5;
