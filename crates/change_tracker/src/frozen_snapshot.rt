//! A snapshot as a tracker keeps it: the id that it was frozen under, and its identifier.
use change_id::ChangeId;

/// A snapshot that was frozen. Its place in the list is the number of freezes before it.
#[derive(Clone, Copy, Debug, PartialEq, Eq)]
pub struct FrozenSnapshot {
    pub id: u32,
    /// None where tracking wasn't enabled before it.
    pub change_id: Option<ChangeId>,
}
