//! What a journal remembers of a failure.
use record_codec::Record;
use std::snapshot::Snapshot;

/// The offset that the failed append told, and the record whose append it was.
#[derive(Drop)]
pub(crate) struct Failure {
    pub(crate) at: u64,
    pub(crate) refused: Snapshot<Record>,
}
