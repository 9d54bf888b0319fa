//! A moment in whole seconds, and how it is written.
ghost use Rattle.std.specs.Prelude.{◌≡◌, IfOk, Some};
ghost use Rattle.basics.specs.Refusal.{IsRefusedBy};
ghost use Rattle.plan_model.specs.Moments.{moment_of, moment_refusal, moment_refusal_number};

use crate::reading::{has_shape, is_moment, read, seconds_before};
use std::error::Error;
use std::fmt;

/// The seconds of a minute, in which intervals are given.
pub const SECONDS_PER_MINUTE: u64 = 60;

/// The seconds of an hour.
pub const SECONDS_PER_HOUR: u64 = 3_600;

/// The seconds of a day, as in POSIX: no leap second is counted.
pub const SECONDS_PER_DAY: u64 = 86_400;

/// A moment, in seconds since 1970-01-01T00:00:00Z, [`SECONDS_PER_DAY`] a day.
#[derive(Clone, Copy, Debug, PartialEq, Eq, PartialOrd, Ord)]
pub struct Moment(pub u64);

impl Moment {
    /// The moment that a text tells: `YYYY-MM-DDThh:mm:ssZ`, a date of the years 2000 to 2999 and
    /// a time of day in UTC, as in RFC 3339. Every other text is [`MomentRefused::Form`]: another
    /// spelling that RFC 3339 has, a date that the calendar lacks, `24:00:00`, a leap second. It
    /// takes no memory, and never answers [`MomentRefused::NoMemory`].
    pub fn parse(text: &str) -> Result<Moment, MomentRefused>
        ensures refused { IsRefusedBy (moment_refusal text.now) result }
        ensures told { IfOk result (λ moment. moment_of text.now ≡ Some moment) }
    {
        let text = text.as_bytes();
        if !has_shape(text) {
            return Err(MomentRefused::Form);
        }
        let reading = read(text);
        if !is_moment(reading) {
            return Err(MomentRefused::Form);
        }
        Ok(Moment(seconds_before(reading)))
    }
}

/// Why a text isn't read as a moment.
#[derive(Clone, Copy, Debug, PartialEq, Eq)]
pub enum MomentRefused {
    /// The text isn't the spelling of a moment.
    Form,
    /// Memory ran out.
    NoMemory,
}

impl MomentRefused {
    /// The number of the refusal, 1. Want of memory has none.
    pub fn number(&self) -> Option<u8>
        ensures { result ≡ moment_refusal_number self.now }
    {
        match self {
            MomentRefused::Form => Some(1),
            MomentRefused::NoMemory => None,
        }
    }
}

impl fmt::Display for MomentRefused {
    ghost use Rattle.std.specs.Prelude.{Some};
    ghost use Rattle.plan_model.specs.Moments.{moment_refusal_text};

    ghost output = { λ refusal. Some (moment_refusal_text refusal) };

    fn fmt<W: fmt::Write>(&self, f: &mut fmt::Formatter<W>) -> fmt::Result {
        match self {
            MomentRefused::Form => write!(f, "a moment is written YYYY-MM-DDThh:mm:ssZ"),
            MomentRefused::NoMemory => write!(f, "memory ran out"),
        }
    }
}

impl Error for MomentRefused {}
