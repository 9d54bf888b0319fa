//! What a migration is to do next.
ghost use Rattle.std.specs.Prelude.{◌≡◌};
ghost use Rattle.plan_model.specs.Way.{is_cutover_due, is_copy_due, due_way, way_number};

use crate::{Moment, SECONDS_PER_MINUTE};

/// That a plan is to be cut over.
#[derive(Clone, Copy, Debug, PartialEq, Eq)]
pub struct Cutover {
    /// The first moment at which it may be done. None: at once.
    pub at: Option<Moment>,
}

/// What is to be done next with a migration.
#[derive(Clone, Copy, Debug, PartialEq, Eq)]
pub enum Way {
    /// Nothing is due.
    Nothing,
    /// What changed since the last copy is copied while the machine runs.
    Precopy,
    /// The machine is powered off and copied for the last time.
    Cutover,
}

impl Way {
    /// The number under which records keep the choice: 0, 1, 2.
    pub fn number(self) -> u8
        ensures { result ≡ way_number self }
    {
        match self {
            Way::Nothing => 0,
            Way::Precopy => 1,
            Way::Cutover => 2,
        }
    }
}

/// What is due at `now`, where the last copy was at `last` and `interval` minutes are to lie
/// between copies. A cutover that is set and has come goes before a copy.
pub fn due(now: Moment, last: Moment, interval: u32, cutover: Option<Cutover>) -> Way
    ensures { result ≡ due_way now last interval cutover }
{
    if is_cutover_due(now, cutover) {
        Way::Cutover
    } else if is_copy_due(now, last, interval) {
        Way::Precopy
    } else {
        Way::Nothing
    }
}

fn is_cutover_due(now: Moment, cutover: Option<Cutover>) -> bool
    ensures { result ≡ is_cutover_due now cutover }
{
    match cutover {
        None => false,
        Some(Cutover { at: None }) => true,
        Some(Cutover { at: Some(at) }) => at.0 <= now.0,
    }
}

fn is_copy_due(now: Moment, last: Moment, interval: u32) -> bool
    ensures { result ≡ is_copy_due now last interval }
{
    match last.0.checked_add(SECONDS_PER_MINUTE * u64::from(interval)) {
        Some(next) => next <= now.0,
        None => false,
    }
}
