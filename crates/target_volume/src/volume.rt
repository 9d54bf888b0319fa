//! A volume, as whoever fills it sees it. Nothing is told of where it keeps its sectors, but that
//! each call may fail, and what a failure leaves.
ghost use Rattle.std.specs.Prelude.{◌≡◌, ◌+◌, ◌≤◌, length, take, drop, IsTrue, IsOk, IsSome, IfSome, OnOk, OnErr};
ghost use Rattle.sector_model.specs.VolumeContents.{IsSized};
ghost use Rattle.target_volume.specs.Volume.{VolumeState, after_write, after_zero, after_flush, VolumeFails, Breaks};

use basics::Failed;
use sector_model::Sector;

/// A volume failed. Its count of faults rose.
#[derive(Clone, Copy, Debug, PartialEq, Eq)]
pub struct VolumeFailed;

impl From<Failed> for VolumeFailed {
    fn from(_failed: Failed) -> Self {
        VolumeFailed
    }
}

/// A disk of a fixed number of sectors that a migration fills. Ranges count sectors and lie within
/// the capacity. Its calls take no memory.
pub trait Volume {
    /// Its name, its capacity, what it holds, how many sectors were written, and its faults.
    ghost state: { Self → VolumeState };

    /// How many sectors it has. No call changes that.
    fn capacity(&self) -> u64
        ensures count { result ≡ (state self.now).capacity }
        ensures sized { IfSome (state self.now).contents (IsSized (state self.now).capacity) };

    /// Fills `buf` with the sectors from `first` on.
    fn read(&mut self, first: u64, buf: &mut [Sector]) -> Result<(), VolumeFailed>
        requires { first + length buf.old ≤ (state self.old).capacity }
        ensures given { OnOk result (IfSome (state self.old).contents
            (λ c. buf.new ≡ take (length buf.old) (drop first c.sectors))) }
        ensures same { OnOk result (state self.new ≡ state self.old) }
        ensures failed { OnErr result (VolumeFails (state self.old) (state self.new)) }
        ensures sound { IsTrue (state self.old).sound → IsOk result };

    /// Writes the sectors from `first` on. They are loose until a flush succeeds. After a failure
    /// the range is loose and may hold anything.
    fn write(&mut self, first: u64, sectors: &[Sector]) -> Result<(), VolumeFailed>
        requires { first + length sectors.now ≤ (state self.old).capacity }
        ensures written { OnOk result
            (state self.new ≡ after_write first sectors.now (state self.old)) }
        ensures broken { OnErr result
            (Breaks first (length sectors.now) (state self.old) (state self.new)) }
        ensures sound { IsTrue (state self.old).sound → IsOk result };

    /// Writes zeros over `count` sectors from `first` on, with the same effect as such a write.
    fn zero(&mut self, first: u64, count: u64) -> Result<(), VolumeFailed>
        requires { first + count ≤ (state self.old).capacity }
        ensures zeroed { OnOk result (state self.new ≡ after_zero first count (state self.old)) }
        ensures broken { OnErr result (Breaks first count (state self.old) (state self.new)) }
        ensures sound { IsTrue (state self.old).sound → IsOk result };

    /// Makes all that was written durable: nothing is loose afterwards. A failure leaves what it
    /// holds as it was.
    fn flush(&mut self) -> Result<(), VolumeFailed>
        ensures flushed { OnOk result (state self.new ≡ after_flush (state self.old)) }
        ensures failed { OnErr result (VolumeFails (state self.old) (state self.new)) }
        ensures sound { IsTrue (state self.old).sound → IsOk result };

    /// How often it has failed; a count that ends at 2^64 - 1.
    fn faults(&self) -> u64
        ensures { result ≡ (state self.now).faults };

    /// A sound volume tells what it holds.
    ghost sound_tells: { (v : Self) → IsTrue (state v).sound → IsSome (state v).contents };
}
