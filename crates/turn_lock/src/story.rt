//! Values that a lock can keep a history of.
ghost use Rattle.std.specs.Prelude.{◌≡◌, ℕ, List, length};

/// A value with a history. What it is does not change, and what happened to it is a list of
/// entries, each under the number of the one who added it. Only clauses speak of frames and
/// entries: no value of either type has to be made.
pub trait Storied {
    /// What was added to the history at one time.
    type Entry;
    /// What stays as it is.
    type Frame;

    ghost frame: { Self → Self.Frame };

    ghost story: { Self → List Self.Entry };

    ghost who: { Self.Entry → ℕ };

    /// How many entries the history has.
    fn length(&self) -> u64
        ensures { result ≡ length (story self.now) };
}
