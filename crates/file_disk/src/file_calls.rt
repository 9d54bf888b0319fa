//! What a disk asks of the file that it is.
ghost use Rattle.std.specs.Prelude.{◌≡◌, ◌+◌, ◌≤◌, length, take, drop, Option, option_map, IfSome, IfOk, OnOk, OnErr};
ghost use Rattle.std.specs.Option.{ForSome};
ghost use Rattle.edge_traits.specs.Disk.{DiskContents, IsImage, IsBrokenWrite, IsBrokenCut, WhereTold, after_write, after_cut, after_sync};

use std::io;

/// The calls on one file. Each does all of its work, in as many steps as that takes, or answers an
/// error, and none of them counts. A file of the system tells nothing of what it holds; one that
/// tells it is as a disk.
pub trait FileCalls {
    /// What it holds, where it tells that.
    ghost contents: { Self → Option DiskContents };

    /// How many bytes it has.
    fn length(&mut self) -> io::Result<u64>
        ensures count { IfOk result (λ count. IfSome (contents self.old)
            (λ c. count ≡ length c.bytes)) }
        ensures kept { contents self.new ≡ contents self.old };

    /// Fills `buf` with the bytes from the offset `at` on. Where there are fewer, that is an error.
    fn read_whole(&mut self, at: u64, buf: &mut [u8]) -> io::Result<()>
        requires { ForSome (contents self.old) (λ c. at + length buf.old ≤ length c.bytes) }
        ensures given { OnOk result (IfSome (contents self.old)
            (λ c. buf.new ≡ take (length buf.old) (drop at c.bytes))) }
        ensures kept { contents self.new ≡ contents self.old };

    /// Writes all of `bytes` from the offset `at` on. After an error any part of that may be done.
    fn write_whole(&mut self, at: u64, bytes: &[u8]) -> io::Result<()>
        requires { ForSome (contents self.old) (λ c. at ≤ length c.bytes) }
        ensures written { OnOk result (contents self.new
            ≡ option_map (after_write at bytes.now) (contents self.old)) }
        ensures broken { OnErr result (WhereTold (IsBrokenWrite at (length bytes.now))
            (contents self.old) (contents self.new)) };

    /// Cuts it to `len` bytes. After an error it may have any length between.
    fn cut(&mut self, len: u64) -> io::Result<()>
        requires { ForSome (contents self.old) (λ c. len ≤ length c.bytes) }
        ensures cut { OnOk result (contents self.new
            ≡ option_map (after_cut len) (contents self.old)) }
        ensures broken { OnErr result (WhereTold (IsBrokenCut len)
            (contents self.old) (contents self.new)) };

    /// Makes its bytes and its length durable. An error leaves both as they were.
    fn sync(&mut self) -> io::Result<()>
        ensures synced { OnOk result (contents self.new
            ≡ option_map after_sync (contents self.old)) }
        ensures possible { OnOk result (IfSome (contents self.old)
            (λ c. IsImage c c.bytes)) }
        ensures kept { OnErr result (contents self.new ≡ contents self.old) };
}
