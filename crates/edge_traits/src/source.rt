//! Where bytes come from: commands are read here, and a failure is counted.
ghost use Rattle.std.specs.Prelude.{◌≡◌, ◌<◌, length};
ghost use Rattle.std.specs.Io.{ReadsAtMost};
ghost use Rattle.std.specs.Io.KnownBytes.{ReadConsumes};
ghost use Rattle.basics.specs.Faults.{HasCause};
ghost use Rattle.edge_traits.specs.Source.{SourceState};

use crate::Failed;

/// Something that bytes are read from, in order.
pub trait Source {
    /// The bytes that it has still to give, where it tells them, and its count of faults.
    ghost state: { Self → SourceState };

    /// Fills the front of `buf` with the next bytes and says how many it gave; 0 is the end.
    /// [`Failed`] only where the source itself failed, and then it gave no byte.
    fn read(&mut self, buf: &mut [u8]) -> Result<usize, Failed>
        requires { 0 < length buf.old }
        ensures bound { ReadsAtMost result buf.new }
        ensures bytes { ReadConsumes (state self.old).left (state self.new).left result buf.new }
        ensures cause { HasCause (state self.old).faults (state self.new).faults result };

    /// How often it has failed; a count that ends at 2^64 - 1.
    fn faults(&self) -> u64
        ensures { result ≡ (state self.now).faults };
}
