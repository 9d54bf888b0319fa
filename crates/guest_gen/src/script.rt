//! The generator and its writes.
ghost use Rattle.std.specs.Prelude.{◌≡◌, ◌≤◌, ◌+◌, ◌*◌, ◌%◌, ◌/◌, ◌^◌, ◌<◌, [], ◌∷◌, length, slice_index, min, All, IfOk, MatchOption};
ghost use Rattle.guest_gen.specs.Script.{offered, write_from, Lies};

use basics::{MAX_DISK_SECTORS, MAX_DISKS, advance};
use sector_model::NoMemory;
use std::alloc::Global;
use std::marker::Model;

/// A write of a guest. Each of its sectors is the stamp, big-endian, 64 times.
#[derive(Clone, Copy, Debug, PartialEq, Eq)]
pub struct GuestWrite {
    /// The disk, from 0.
    pub disk: u32,
    /// The first sector that is written.
    pub first: u64,
    /// How many sectors are written: 1 to 8.
    pub count: u64,
    /// What the sectors repeat.
    pub stamp: u64,
}

/// The writes of one guest that are still to come. Contracts see it as their list.
///
/// The numbers come from the linear congruential generator of Knuth's MMIX, which starts at the
/// seed.
#[derive(Debug, Drop)]
pub struct GuestScript {
    state: u64,
    left: u64,
    capacities: Vec<u64>,
}

impl Model for GuestScript {
    ghost use Rattle.std.specs.Prelude.{List, ℕ, ◌≤◌, length, All, ◌<◌};
    ghost use Rattle.guest_gen.specs.declared.script.GuestWrite.{GuestWrite};

    ghost Value = { List GuestWrite };

    ghost use Rattle.guest_gen.specs.Script.{offered};

    ghost view = { λ s. offered s.state s.left s.capacities.items };

    ghost use Rattle.basics.specs.declared.limits.TheConstants.{MAX_DISKS};

    ghost invariant = { λ s. (1 ≤ length s.capacities.items)
        × (length s.capacities.items ≤ MAX_DISKS)
        × All (λ c. 1 ≤ c) s.capacities.items };
}

impl GuestScript {
    /// The writes of a guest of this seed: `count` of them, on disks of these capacities, in
    /// sectors. There are 1 to [`MAX_DISKS`] disks of 1 to [`MAX_DISK_SECTORS`] sectors each.
    pub fn new(
        alloc: Global,
        seed: u64,
        count: u64,
        capacities: &[u64],
    ) -> Result<GuestScript, NoMemory>
        requires disks { (1 ≤ length capacities.now) × (length capacities.now ≤ MAX_DISKS) }
        requires sizes { All (λ c. (1 ≤ c) × (c ≤ MAX_DISK_SECTORS)) capacities.now }
        ensures script { IfOk result (λ script. script ≡ offered seed count capacities.now) }
        ensures lie { IfOk result (λ script. All (Lies capacities.now) script) }
    {
        let capacities = Vec::from_slice(alloc, capacities)?;
        Ok(GuestScript {
            state: seed,
            left: count,
            capacities,
        })
    }

    /// The next write, or none after the last. It takes no memory.
    pub fn next(&mut self) -> Option<GuestWrite>
        ensures { MatchOption result
            ((self.old ≡ []) × (self.new ≡ []))
            (λ write. self.old ≡ write ∷ self.new) }
    {
        if self.left == 0 {
            return None;
        }
        let write = write_after(self.state, self.capacities.as_slice());
        self.left -= 1;
        self.state = write.stamp;
        Some(write)
    }
}

// The write that the next three numbers make. Its stamp is the third of them.
fn write_after(state: u64, capacities: &[u64]) -> GuestWrite
    requires disks { (1 ≤ length capacities.now) × (length capacities.now ≤ MAX_DISKS) }
    requires sizes { All (λ c. 1 ≤ c) capacities.now }
    ensures { result ≡ write_from state capacities.now }
{
    let x1 = advance(state);
    let x2 = advance(x1);
    let x3 = advance(x2);
    let disk = (x1 >> 33) as usize % capacities.len();
    let capacity = capacities[disk];
    let first = (x2 >> 33) % capacity;
    GuestWrite {
        disk: disk as u32,
        first,
        count: (1 + (x3 >> 33) % 8).min(capacity - first),
        stamp: x3,
    }
}
