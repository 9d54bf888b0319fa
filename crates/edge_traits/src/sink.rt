//! Where bytes go: replies are written here, and a failure is counted.
ghost use Rattle.std.specs.Prelude.{◌≡◌, OnOk, OnErr};
ghost use Rattle.std.specs.Io.KnownBytes.{Appends};
ghost use Rattle.basics.specs.Faults.{HasCause};
ghost use Rattle.edge_traits.specs.Sink.{SinkState, AppendsPrefix};

use crate::Failed;

/// Something that bytes are put into, one after another.
pub trait Sink {
    /// The bytes that it was given, where it tells them, and its count of faults.
    ghost state: { Self → SinkState };

    /// Appends all of `bytes`. [`Failed`] only where the sink itself failed, and then it has
    /// appended the first of them, which may be none or all.
    fn put(&mut self, bytes: &[u8]) -> Result<(), Failed>
        ensures whole { OnOk result
            (Appends (state self.old).held (state self.new).held bytes.now) }
        ensures part { OnErr result
            (AppendsPrefix (state self.old).held (state self.new).held bytes.now) }
        ensures cause { HasCause (state self.old).faults (state self.new).faults result };

    /// How often it has failed; a count that ends at 2^64 - 1.
    fn faults(&self) -> u64
        ensures { result ≡ (state self.now).faults };
}
