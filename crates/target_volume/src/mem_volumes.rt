//! A store of volumes in memory, which fails where it was told to, and so do its volumes.
ghost use Rattle.std.specs.Prelude.{◌≡◌, ◌≢◌, ℕ, ◌+◌, ◌≤◌, ◌↔◌, ◌⊎◌, Option, Some, None, option_map, length, not, is_ok, IsTrue, IsOk, IsErr, IsSome, IfSome, IsSomeAnd, MatchOption, IfOk, IfErr, OnOk, OnErr, IsErrOf};
ghost use Rattle.std.specs.BTreeMap.{get, insert_entry, IsUnchanged, IsOrdered};
ghost use Rattle.basics.specs.Calls.{FailsNext};
ghost use Rattle.basics.specs.Faults.{counted_by};
ghost use Rattle.target_volume.specs.MemVolume.{held_state, volume_state};
ghost use Rattle.target_volume.specs.MemVolumes.{Home, Lent, slot_state, stored_of, store_state, volume_calls, new_store, called, next_volume, after_creating, after_opening, after_keeping, IsHome, IsHomeWith, IsLent, IsLentWith, is_failure};
ghost use Rattle.target_volume.specs.VolumeName.{volume_cmp, find_volume, with_volume};
ghost use Rattle.target_volume.specs.VolumeStore.{Loan, Lends, IsFresh, IsThere, StoreFails, Refuses, IsLentOut, after_taking_back, at_home, IsOrderly};
ghost use Rattle.target_volume.specs.declared.volume_name.VolumeName.{VolumeName};

use crate::mem_volume::Held;
use crate::{MemVolume, NoMemory, StoreRefused, VolumeFailed, VolumeName, VolumeStore};
use basics::Calls;
use std::alloc::Global;
use std::collections::BTreeMap;
use std::marker::Model;

/// How many calls of a volume have numbers of their own among those that are to fail.
pub const VOLUME_CALLS: u64 = 1 << 32;

/// A volume of the store, or where that is lent out, its capacity and its count of faults as it
/// went out.
#[derive(Debug, Drop)]
pub(crate) enum Slot {
    Home(Held),
    Lent { capacity: u64, faults: u64 },
}

/// A store of volumes in memory. A new volume is full of a junk byte.
#[derive(Debug, Drop)]
pub struct MemVolumes {
    alloc: Global,
    junk: u8,
    failing: Vec<u64>,
    calls: Calls,
    created: u64,
    sound: bool,
    slots: BTreeMap<VolumeName, Slot>,
}

impl Model for MemVolumes {
    ghost use Rattle.std.specs.Prelude.{map};
    ghost use Rattle.target_volume.specs.MemVolumes.{MemVolumesState, slot_state, IsWhole};

    ghost Value = { MemVolumesState };

    ghost view = { λ s. record {
      junk = s.junk;
      failing = s.failing.items;
      calls = s.calls;
      created = s.created;
      sound = s.sound;
      slots = map (λ slot. (slot.0, slot_state slot.1)) s.slots.entries;
    } };

    ghost invariant = { λ s. IsWhole s.sound s.failing.items s.calls s.slots.entries };
}

impl MemVolumes {
    /// An empty store, whose new volumes are full of the byte `junk`. In `fail` a number below
    /// [`VOLUME_CALLS`] is that of a call of `size`, `create` and `open`, from 1, that fails. The
    /// number `i * VOLUME_CALLS + k` is the k-th call of `read`, `write`, `zero` and `flush` on
    /// the i-th volume that was created. It answers only want of memory.
    pub fn new(alloc: Global, junk: u8, fail: &[u64]) -> Result<MemVolumes, NoMemory>
        ensures { IfOk result (λ store. store ≡ new_store junk fail.now) }
    {
        let store_calls = fail
            .iter()
            .copied()
            .filter(|number| *number < VOLUME_CALLS)
            .collect(alloc)?;
        Ok(MemVolumes {
            alloc,
            junk,
            failing: fail.to_vec(alloc)?,
            calls: Calls::new(store_calls),
            created: 0,
            sound: fail.is_empty(),
            slots: BTreeMap::new(alloc),
        })
    }

    /// Makes a volume and lends it out. It answers only want of memory.
    fn make(&mut self, name: &VolumeName, capacity: u64) -> Result<MemVolume, NoMemory>
        ensures made { IfOk result (λ vol. vol ≡ next_volume name.now capacity self.old) }
        ensures lent { OnOk result (self.new ≡ record self.old {
          created = counted_by 1 self.old.created;
          slots = with_volume name.now (Lent (record { capacity = capacity; faults = 0 }))
              self.old.slots;
        }) }
        ensures unchanged { OnErr result (self.new ≡ self.old) }
    {
        let number = self.created.saturating_add(1);
        let failing = failing_calls(self.alloc, &self.failing, number)?;
        let held = Held::fresh(self.alloc, capacity, self.junk, failing)?;
        let volume = MemVolume {
            name: name.copy()?,
            held,
        };
        let lent = Slot::Lent {
            capacity,
            faults: 0,
        };
        set_slot(&mut self.slots, name.copy()?, lent)?;
        self.created = number;
        Ok(volume)
    }
}

/// The count of faults of a volume that is at home with this capacity.
fn faults_at_home(
    slots: &BTreeMap<VolumeName, Slot>,
    name: &VolumeName,
    capacity: u64,
) -> Option<u64>
    ensures { MatchOption result
        (¬ IsHome capacity (option_map slot_state (get volume_cmp slots.now name.now)))
        (λ faults. IsHomeWith capacity faults
        (option_map slot_state (get volume_cmp slots.now name.now))) }
{
    match slots.get(name) {
        Some(Slot::Home(held)) if held.sectors.len() as u64 == capacity => {
            Some(held.calls.faults())
        }
        _ => None,
    }
}

/// The count of faults with which a volume was lent out.
fn faults_as_lent(slots: &BTreeMap<VolumeName, Slot>, name: &VolumeName) -> u64
    requires { IsLent (option_map slot_state (get volume_cmp slots.now name.now)) }
    ensures { IsLentWith result (option_map slot_state (get volume_cmp slots.now name.now)) }
{
    match slots.get(name) {
        Some(Slot::Lent { faults, .. }) => *faults,
        _ => unreachable!(),
    }
}

/// The numbers of the calls that are to fail on a volume, of those given for all volumes.
fn failing_calls(alloc: Global, all: &[u64], volume: u64) -> Result<Vec<u64>, NoMemory>
    ensures { IfOk result (λ numbers. numbers.items ≡ volume_calls volume all.now) }
{
    let numbers = all
        .iter()
        .filter(|number| **number / VOLUME_CALLS == volume);
    Ok(numbers.map(|number| *number % VOLUME_CALLS).collect(alloc)?)
}

/// Sets what stands under a name. Only a new name takes memory.
fn set_slot(
    slots: &mut BTreeMap<VolumeName, Slot>,
    name: VolumeName,
    slot: Slot,
) -> Result<Option<Slot>, NoMemory>
    ensures before { IfOk result (λ before. before ≡ get volume_cmp slots.old name) }
    ensures set { OnOk result
        (slots.new.entries ≡ insert_entry volume_cmp slots.old.entries name slot) }
    ensures new_name { OnErr result (get volume_cmp slots.old name ≡ None) }
    ensures unchanged { OnErr result (IsUnchanged slots.old slots.new) }
    ensures was_ordered { IsOrdered volume_cmp slots.old }
    ensures ordered { IsOrdered volume_cmp slots.new }
{
    Ok(slots.insert(name, slot)?)
}

impl VolumeStore for MemVolumes {
    ghost use Rattle.std.specs.Prelude.{refl};

    type Vol = MemVolume;

    ghost state = { store_state };

    ghost sound_tells = { λ s h. refl };

    /// Fails exactly where it was told to.
    fn size(&mut self, name: &VolumeName) -> Result<Option<u64>, VolumeFailed>
        ensures found { IfOk result (λ size. IfSome (store_state self.old).volumes
            (λ volumes. size ≡ option_map (λ v. v.capacity) (find_volume name.now volumes))) }
        ensures found_lent { IfOk result
            (λ size. IfSome (find_volume name.now (store_state self.old).loans)
            (λ loan. size ≡ Some loan.capacity)) }
        ensures same { OnOk result (store_state self.new ≡ store_state self.old) }
        ensures failed { OnErr result
            (StoreFails (store_state self.old) (store_state self.new)) }
        ensures sound { IsTrue (store_state self.old).sound → IsOk result }

        ensures fails { IsErr result ↔ FailsNext self.old.calls }
        ensures left { self.new ≡ called (is_ok result) self.old }
    {
        self.calls.next()?;
        let Some(slot) = self.slots.get(name) else {
            return Ok(None);
        };
        Ok(Some(slot.capacity()))
    }

    /// Fails exactly where it was told to, whether there is a volume of that name or not.
    fn create(&mut self, name: &VolumeName, capacity: u64) -> Result<MemVolume, StoreRefused>
        ensures exists { IsErrOf result StoreRefused.Exists
            → IfSome (store_state self.old).volumes
            (λ volumes. IsSome (find_volume name.now volumes)) }
        ensures taken { IfSome (store_state self.old).volumes
            (λ volumes. IsSome (find_volume name.now volumes)
            → IsErrOf result StoreRefused.Exists ⊎ IsErrOf result StoreRefused.Failed) }
        ensures taken_lent { IsSome (find_volume name.now (store_state self.old).loans)
            → IsErrOf result StoreRefused.Exists ⊎ IsErrOf result StoreRefused.Failed }
        ensures lent { IfOk result (λ vol. Lends name.now capacity (volume_state vol)
            (store_state self.old) (store_state self.new)) }
        ensures fresh { IfOk result (λ vol. IsFresh (volume_state vol) (store_state self.old)) }
        ensures refused { IfErr result
            (λ why. Refuses why (store_state self.old) (store_state self.new)) }
        ensures sound { IsTrue (store_state self.old).sound
            → IsErrOf result StoreRefused.Failed → ⊥ }

        ensures fails { IsErrOf result StoreRefused.Failed ↔ FailsNext self.old.calls }
        ensures made { IfOk result (λ vol. vol ≡ next_volume name.now capacity self.old) }
        ensures left { OnOk result (self.new ≡ after_creating name.now capacity self.old) }
        ensures left_refused { IfErr result
            (λ why. self.new ≡ called (not (is_failure why)) self.old) }
    {
        self.calls.next()?;
        if self.slots.contains_key(name) {
            return Err(StoreRefused::Exists);
        }
        Ok(self.make(name, capacity)?)
    }

    /// Fails exactly where it was told to, or where no volume of that name and capacity is at
    /// home.
    fn open(&mut self, name: &VolumeName, capacity: u64) -> Result<MemVolume, StoreRefused>
        ensures lent { IfOk result (λ vol. Lends name.now capacity (volume_state vol)
            (store_state self.old) (store_state self.new)) }
        ensures as_held { IfOk result (λ vol. IfSome (store_state self.old).volumes
            (λ volumes. (find_volume name.now volumes ≡ Some (at_home (volume_state vol)))
            × IsSome (volume_state vol).contents)) }
        ensures refused { IfErr result
            (λ why. Refuses why (store_state self.old) (store_state self.new)) }
        ensures not_exists { IsErrOf result StoreRefused.Exists → ⊥ }
        ensures missing { IfSome (store_state self.old).volumes
            (λ volumes. (IsThere name.now capacity volumes → ⊥)
            → IsErrOf result StoreRefused.Failed) }
        ensures away { IsSome (find_volume name.now (store_state self.old).loans)
            → IsErrOf result StoreRefused.Failed }
        ensures sound { IsTrue (store_state self.old).sound
            → IfSome (store_state self.old).volumes (λ volumes. IsThere name.now capacity volumes
            → IsErrOf result StoreRefused.Failed → ⊥) }

        ensures fails { IsErrOf result StoreRefused.Failed
            ↔ (¬ IsHome capacity (find_volume name.now self.old.slots)
            ⊎ FailsNext self.old.calls) }
        ensures opened { IfOk result
            (λ vol. find_volume name.now self.old.slots ≡ Some (Home vol.held)) }
        ensures left { IfOk result (λ vol. self.new ≡ after_opening vol self.old) }
        ensures left_refused { IfErr result
            (λ why. self.new ≡ called (not (is_failure why)) self.old) }
    {
        let Some(faults) = faults_at_home(&self.slots, name, capacity) else {
            return Err(StoreRefused::from(self.calls.fail()));
        };
        self.calls.next()?;
        let volume_name = name.copy()?;
        let lent = Slot::Lent { capacity, faults };
        match set_slot(&mut self.slots, name.copy()?, lent)? {
            Some(Slot::Home(held)) => Ok(MemVolume {
                name: volume_name,
                held,
            }),
            Some(Slot::Lent { .. }) | None => unreachable!(),
        }
    }

    fn keep_back(&mut self, vol: MemVolume)
        requires { IsLentOut (volume_state vol) (store_state self.old) }
        ensures kept { (name : VolumeName) (loan : Loan) → (volume_state vol).name ≡ Some name
            → find_volume name (store_state self.old).loans ≡ Some loan
            → store_state self.new
            ≡ after_taking_back name loan.faults (volume_state vol) (store_state self.old) }
        ensures later { (store_state self.old).faults ≤ (store_state self.new).faults }

        ensures left { (loan : Loan) → find_volume vol.name self.old.slots ≡ Some (Lent loan)
            → self.new ≡ after_keeping loan.faults vol self.old }
    {
        let MemVolume { name, held } = vol;
        let lent = faults_as_lent(&self.slots, &name);
        self.calls
            .add_faults(held.calls.faults().saturating_sub(lent));
        self.sound = self.sound && held.calls.never_fail();
        set_slot(&mut self.slots, name, Slot::Home(held)).unwrap();
    }

    fn faults(&self) -> u64 {
        self.calls.faults()
    }
}

impl Slot {
    fn capacity(&self) -> u64
        ensures { result ≡ (stored_of (slot_state self.now)).capacity }
    {
        match self {
            Slot::Home(held) => held.sectors.len() as u64,
            Slot::Lent { capacity, .. } => *capacity,
        }
    }
}
