//! A disk, as a journal is kept on it.
ghost use Rattle.std.specs.Prelude.{◌≡◌, ◌+◌, ◌≤◌, length, take, drop, option_map, IfSome, IfOk, OnOk, OnErr};
ghost use Rattle.std.specs.Option.{ForSome};
ghost use Rattle.basics.specs.Faults.{HasCause};
ghost use Rattle.edge_traits.specs.Disk.{DiskState, IsImage, IsBrokenWrite, IsBrokenCut, WhereTold, after_write, after_cut, after_sync};

use crate::Failed;

/// A disk: bytes from the offset 0 on, whose number changes by writes past the end and by cuts. Its
/// calls may fail, and each takes no memory. A crash leaves what was there at the last
/// [`Disk::sync`] that succeeded, but for the ranges written since, the part past the old end, and
/// the length. Where a disk doesn't tell what it holds, its calls take any offset and say only
/// what they count.
pub trait Disk {
    /// What it holds, where it tells that, and its count of faults.
    ghost state: { Self → DiskState };

    /// How many bytes it has.
    fn length(&mut self) -> Result<u64, Failed>
        ensures count { IfOk result (λ count. IfSome (state self.old).contents
            (λ c. count ≡ length c.bytes)) }
        ensures kept { (state self.new).contents ≡ (state self.old).contents }
        ensures cause { HasCause (state self.old).faults (state self.new).faults result };

    /// Fills `buf` with the bytes from the offset `at` on, which all lie within the length.
    fn read(&mut self, at: u64, buf: &mut [u8]) -> Result<(), Failed>
        requires { ForSome (state self.old).contents
            (λ c. at + length buf.old ≤ length c.bytes) }
        ensures given { OnOk result (IfSome (state self.old).contents
            (λ c. buf.new ≡ take (length buf.old) (drop at c.bytes))) }
        ensures kept { (state self.new).contents ≡ (state self.old).contents }
        ensures cause { HasCause (state self.old).faults (state self.new).faults result };

    /// Writes from the offset `at` on, which is at most the length, and past the end as far as it
    /// reaches. After a failure any part of that may be done, with any bytes in the range.
    fn write_at(&mut self, at: u64, bytes: &[u8]) -> Result<(), Failed>
        requires { ForSome (state self.old).contents (λ c. at ≤ length c.bytes) }
        ensures written { OnOk result ((state self.new).contents
            ≡ option_map (after_write at bytes.now) (state self.old).contents) }
        ensures broken { OnErr result (WhereTold (IsBrokenWrite at (length bytes.now))
            (state self.old).contents (state self.new).contents) }
        ensures cause { HasCause (state self.old).faults (state self.new).faults result };

    /// Cuts it to `len` bytes, at most as many as it has. After a failure it may have any
    /// length between.
    fn cut(&mut self, len: u64) -> Result<(), Failed>
        requires { ForSome (state self.old).contents (λ c. len ≤ length c.bytes) }
        ensures cut { OnOk result ((state self.new).contents
            ≡ option_map (after_cut len) (state self.old).contents) }
        ensures broken { OnErr result (WhereTold (IsBrokenCut len)
            (state self.old).contents (state self.new).contents) }
        ensures cause { HasCause (state self.old).faults (state self.new).faults result };

    /// Makes all that was written and cut durable: from then on a crash leaves what a read gives,
    /// which is one of the images from before. A failure leaves what it holds, and its images, as
    /// they were.
    fn sync(&mut self) -> Result<(), Failed>
        ensures synced { OnOk result ((state self.new).contents
            ≡ option_map after_sync (state self.old).contents) }
        ensures possible { OnOk result (IfSome (state self.old).contents
            (λ c. IsImage c c.bytes)) }
        ensures kept { OnErr result ((state self.new).contents ≡ (state self.old).contents) }
        ensures cause { HasCause (state self.old).faults (state self.new).faults result };

    /// How often it has failed; a count that ends at 2^64 - 1.
    fn faults(&self) -> u64
        ensures { result ≡ (state self.now).faults };
}
