//! What a command asks for: records, and a reply that is given only once they are kept, so that
//! nothing is told that a crash could take back.
ghost use Rattle.std.specs.Prelude.{◌≡◌, [], ◌∷◌, IfOk};

use basics::{NoMemory, Sequence};
use record_codec::Record;
use reply_json::Reply;
use std::alloc::Global;

/// What a command asks for, where it isn't refused.
#[derive(Debug, Drop)]
pub struct Asked {
    /// The records that are to be kept, one after another, before the command is answered.
    pub records: Sequence<Record>,
    /// What it is answered once they are kept.
    pub reply: Reply,
}

/// One record and this reply.
pub(crate) fn asked_once(alloc: Global, kept: Record, reply: Reply) -> Result<Asked, NoMemory>
    ensures records { IfOk result (λ asked. asked.records ≡ kept ∷ []) }
    ensures reply { IfOk result (λ asked. asked.reply ≡ reply) }
{
    let mut records = Vec::new(alloc);
    records.push(kept)?;
    Ok(Asked {
        records: Sequence::from_vec(records),
        reply,
    })
}
