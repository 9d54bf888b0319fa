//! A volume in memory. It holds all its sectors, and fails where its store was told that it
//! should.
ghost use Rattle.std.specs.Prelude.{◌≡◌, ◌+◌, ◌≤◌, ◌↔◌, length, take, drop, replicate, true, false, is_ok, IsTrue, IsOk, IsErr, IfSome, IfOk, OnOk, OnErr};
ghost use Rattle.basics.specs.Calls.{FailsNext, after_call};
ghost use Rattle.basics.specs.Replaced.{replaced};
ghost use Rattle.sector_model.specs.VolumeContents.{IsSized};
ghost use Rattle.target_volume.specs.MemVolume.{held_state, fresh_held, held_written, held_zeroed, held_flushed, held_broken, volume_state};
ghost use Rattle.target_volume.specs.Volume.{after_write, after_zero, after_flush, VolumeFails, Breaks};

use crate::{NoMemory, Volume, VolumeFailed, VolumeName};
use basics::Calls;
use sector_model::Sector;
use std::alloc::Global;
use std::marker::Model;

/// What a volume in memory holds, and its calls.
#[derive(Debug, Drop)]
pub(crate) struct Held {
    pub(crate) sectors: Vec<Sector>,
    pub(crate) loose: Vec<bool>,
    pub(crate) written: u64,
    pub(crate) calls: Calls,
}

impl Held {
    /// A volume whose bytes are all the junk byte. It answers only want of memory.
    pub(crate) fn fresh(
        alloc: Global,
        capacity: u64,
        junk: u8,
        failing: Vec<u64>,
    ) -> Result<Held, NoMemory>
        ensures { IfOk result (λ held. held_state held ≡ fresh_held capacity junk failing.items) }
    {
        let capacity = capacity as usize;
        let sectors = vec![in alloc; Sector::filled(junk); capacity]?;
        let loose = vec![in alloc; false; capacity]?;
        Ok(Held {
            sectors,
            loose,
            written: 0,
            calls: Calls::new(failing),
        })
    }
}

/// A volume in memory. It holds all its sectors, and fails where its store was told that it
/// should.
#[derive(Debug, Drop)]
pub struct MemVolume {
    pub(crate) name: VolumeName,
    pub(crate) held: Held,
}

impl Model for MemVolume {
    ghost use Rattle.std.specs.Prelude.{◌≡◌, length};
    ghost use Rattle.target_volume.specs.MemVolume.{MemVolumeState, held_state};

    ghost Value = { MemVolumeState };

    ghost view = { λ v. record { name = v.name; held = held_state v.held } };

    ghost invariant = { λ v. length v.held.loose.items ≡ length v.held.sectors.items };
}

impl Volume for MemVolume {
    ghost use Rattle.std.specs.Prelude.{refl};

    ghost state = { volume_state };

    ghost sound_tells = { λ v h. refl };

    fn capacity(&self) -> u64 {
        self.held.sectors.len() as u64
    }

    /// Fails exactly where it was told to. Then only its counts change, and the buffer stays.
    fn read(&mut self, first: u64, buf: &mut [Sector]) -> Result<(), VolumeFailed>
        requires { first + length buf.old ≤ length self.old.held.contents.sectors }
        ensures given { OnOk result
            (buf.new ≡ take (length buf.old) (drop first self.old.held.contents.sectors)) }
        ensures same { OnOk result (volume_state self.new ≡ volume_state self.old) }
        ensures failed { OnErr result
            (VolumeFails (volume_state self.old) (volume_state self.new)) }
        ensures sound { IsTrue (volume_state self.old).sound → IsOk result }

        ensures fails { IsErr result ↔ FailsNext self.old.held.calls }
        ensures left { self.new ≡ record self.old {
          held = record self.old.held { calls = after_call self.old.held.calls (is_ok result) };
        } }
        ensures unfilled { OnErr result (buf.new ≡ buf.old) }
    {
        self.held.calls.next()?;
        let first = first as usize;
        buf.copy_from_slice(&self.held.sectors[first..first + buf.len()]);
        Ok(())
    }

    /// Fails exactly where it was told to. Its range is then loose, and its sectors are as before.
    fn write(&mut self, first: u64, sectors: &[Sector]) -> Result<(), VolumeFailed>
        requires { first + length sectors.now ≤ length self.old.held.contents.sectors }
        ensures written { OnOk result
            (volume_state self.new ≡ after_write first sectors.now (volume_state self.old)) }
        ensures broken { OnErr result
            (Breaks first (length sectors.now) (volume_state self.old) (volume_state self.new)) }
        ensures sound { IsTrue (volume_state self.old).sound → IsOk result }

        ensures fails { IsErr result ↔ FailsNext self.old.held.calls }
        ensures left { OnOk result (self.new ≡ record self.old {
          held = held_written first sectors.now self.old.held;
        }) }
        ensures left_broken { OnErr result (self.new ≡ record self.old {
          held = held_broken first (length sectors.now) self.old.held;
        }) }
    {
        let first = first as usize;
        let written = self.held.written.saturating_add(sectors.len() as u64);
        fill(&mut self.held.loose, first, sectors.len(), true);
        self.held.calls.next()?;
        replace(&mut self.held.sectors, first, sectors);
        self.held.written = written;
        Ok(())
    }

    /// Fails exactly where it was told to. Its range is then loose, and its sectors are as before.
    fn zero(&mut self, first: u64, count: u64) -> Result<(), VolumeFailed>
        requires { first + count ≤ length self.old.held.contents.sectors }
        ensures zeroed { OnOk result
            (volume_state self.new ≡ after_zero first count (volume_state self.old)) }
        ensures broken { OnErr result
            (Breaks first count (volume_state self.old) (volume_state self.new)) }
        ensures sound { IsTrue (volume_state self.old).sound → IsOk result }

        ensures fails { IsErr result ↔ FailsNext self.old.held.calls }
        ensures left { OnOk result (self.new ≡ record self.old {
          held = held_zeroed first count self.old.held;
        }) }
        ensures left_broken { OnErr result (self.new ≡ record self.old {
          held = held_broken first count self.old.held;
        }) }
    {
        let first = first as usize;
        let written = self.held.written.saturating_add(count);
        fill(&mut self.held.loose, first, count as usize, true);
        self.held.calls.next()?;
        let zero = Sector::filled(0);
        fill(&mut self.held.sectors, first, count as usize, zero);
        self.held.written = written;
        Ok(())
    }

    /// Fails exactly where it was told to, and then changes only its counts.
    fn flush(&mut self) -> Result<(), VolumeFailed>
        ensures flushed { OnOk result
            (volume_state self.new ≡ after_flush (volume_state self.old)) }
        ensures failed { OnErr result
            (VolumeFails (volume_state self.old) (volume_state self.new)) }
        ensures sound { IsTrue (volume_state self.old).sound → IsOk result }

        ensures fails { IsErr result ↔ FailsNext self.old.held.calls }
        ensures left { OnOk result (self.new ≡ record self.old {
          held = held_flushed self.old.held;
        }) }
        ensures left_failed { OnErr result (self.new ≡ record self.old {
          held = record self.old.held { calls = after_call self.old.held.calls false };
        }) }
    {
        if self.held.calls.next().is_err() {
            return Err(VolumeFailed);
        }
        self.held.loose.fill(false);
        Ok(())
    }

    fn faults(&self) -> u64 {
        self.held.calls.faults()
    }
}

/// Puts items in place of as many others, from an index on.
fn replace(items: &mut [Sector], first: usize, with: &[Sector])
    requires { first + length with.now ≤ length items.old }
    ensures { items.new ≡ replaced items.old first with.now }
{
    items[first..first + with.len()].copy_from_slice(with);
}

/// Puts one value in place of `count` items, from an index on.
fn fill<T: Copy>(items: &mut [T], first: usize, count: usize, value: T)
    requires within { first + count ≤ length items.old }
    requires infallible { T.is_infallible value }
    requires exact { (copy : T) → T.is_clone value copy → copy ≡ value }
    ensures { items.new ≡ replaced items.old first (replicate count value) }
{
    items[first..first + count].fill(value);
}
