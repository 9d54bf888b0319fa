//! What can be written as a value of JSON, each kind by its own data.
use basics::NoMemory;
use json::Writer;
use std::alloc::Global;

/// A value of a reply.
pub(crate) trait ToJson {
    ghost use Rattle.std.specs.Prelude.{OnOk};
    ghost use Rattle.serde_json.specs.Data.{Data};
    ghost use Rattle.reply_json.specs.Fits.{NumbersFit};
    ghost use Rattle.reply_json.specs.ToJson.{Puts, tokens_of};

    ghost json: { Self → Data };

    /// Writes the value after what the writer has.
    fn put(&self, alloc: Global, writer: &mut Writer) -> Result<(), NoMemory>
        ensures puts { Puts result writer.old writer.new (tokens_of (json self.now)) }
        ensures fits { OnOk result (NumbersFit (json self.now)) };
}
