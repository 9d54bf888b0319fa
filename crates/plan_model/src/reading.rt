//! What the text of a moment says: its shape, its date and time of day, and the seconds before it.
ghost use Rattle.std.specs.Prelude.{◌≡◌, ◌+◌, ◌*◌, ◌<◌, ◌≤◌, IsTrue, length};
ghost use Rattle.std.specs.List.{list_all, zip};
ghost use Rattle.plan_model.specs.Moments.{has_shape, has_pattern, two_digits, reading, is_moment, seconds_before};

use crate::calendar::{MAX_YEAR, MIN_YEAR, is_date, seconds_before_date};
use crate::{SECONDS_PER_HOUR, SECONDS_PER_MINUTE};

/// What a text of a moment looks like: a digit where this has a 0, and elsewhere this very byte.
const SHAPE: &[u8] = b"0000-00-00T00:00:00Z";

/// A date and a time of day, as a text says it.
#[derive(Clone, Copy)]
pub(crate) struct Reading {
    year: u64,
    month: u64,
    day: u64,
    hour: u64,
    minute: u64,
    second: u64,
}

/// Whether a text has the length, the digits and the punctuation of a moment.
pub(crate) fn has_shape(text: &[u8]) -> bool
    ensures shape { result ≡ has_shape text.now }
    ensures sized { IsTrue result → length text.now ≡ 20 }
{
    text.len() == SHAPE.len() && have_patterns(SHAPE, text)
}

fn have_patterns(patterns: &[u8], text: &[u8]) -> bool
    ensures { result ≡ list_all (λ p. has_pattern p.0 p.1) (zip patterns.now text.now) }
{
    patterns
        .iter()
        .zip(text)
        .all(|(pattern, byte)| has_pattern(*pattern, *byte))
}

fn has_pattern(pattern: u8, byte: u8) -> bool
    ensures { result ≡ has_pattern pattern byte }
{
    if pattern == b'0' {
        byte.is_ascii_digit()
    } else {
        byte == pattern
    }
}

/// What a text of that length says.
pub(crate) fn read(text: &[u8]) -> Reading
    requires { length text.now ≡ 20 }
    ensures { result ≡ reading text.now }
{
    Reading {
        year: two_digits(text, 0) * 100 + two_digits(text, 2),
        month: two_digits(text, 5),
        day: two_digits(text, 8),
        hour: two_digits(text, 11),
        minute: two_digits(text, 14),
        second: two_digits(text, 17),
    }
}

// The number that the digits at an index and behind it write. A byte that is no digit is at most
// 207 above the digit 0.
fn two_digits(text: &[u8], at: usize) -> u64
    requires { at + 1 < length text.now }
    ensures value { result ≡ two_digits text.now at }
    ensures small { result ≤ 11 * 207 }
{
    let high = text[at].saturating_sub(b'0');
    let low = text[at + 1].saturating_sub(b'0');
    u64::from(high) * 10 + u64::from(low)
}

/// Whether the calendar and a clock of 24 hours have it, in the years that are read.
pub(crate) fn is_moment(reading: Reading) -> bool
    ensures { result ≡ is_moment reading }
{
    MIN_YEAR <= reading.year
        && reading.year <= MAX_YEAR
        && is_date(reading.year, reading.month, reading.day)
        && reading.hour < 24
        && reading.minute < 60
        && reading.second < 60
}

/// The seconds from the first of 1970 up to it.
pub(crate) fn seconds_before(reading: Reading) -> u64
    requires { IsTrue (is_moment reading) }
    ensures { result ≡ seconds_before reading }
{
    seconds_before_date(reading.year, reading.month, reading.day)
        + (reading.hour * SECONDS_PER_HOUR + reading.minute * SECONDS_PER_MINUTE + reading.second)
}
