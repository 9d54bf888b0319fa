//! A store that keeps volumes by name. It lends a volume to one at a time, so that two never fill
//! the same.
ghost use Rattle.std.specs.Prelude.{◌≡◌, ℕ, ◌≤◌, ◌⊎◌, option_map, IsTrue, IsOk, IsSome, IfSome, IsSomeAnd, Some, IfOk, IfErr, OnOk, OnErr, IsErrOf};
ghost use Rattle.target_volume.specs.Volume.{VolumeState};
ghost use Rattle.target_volume.specs.VolumeName.{find_volume};
ghost use Rattle.target_volume.specs.VolumeStore.{StoreState, Loan, Lends, IsFresh, IsThere, StoreFails, Refuses, IsLentOut, after_taking_back, at_home, IsOrderly};
ghost use Rattle.target_volume.specs.declared.volume_name.VolumeName.{VolumeName};

use crate::{StoreRefused, Volume, VolumeFailed, VolumeName};

/// A store of volumes. It lends a volume out, and takes it back.
pub trait VolumeStore {
    /// The volumes that it lends out.
    type Vol: Volume;

    /// What it has under each name, what it has lent out, and its faults.
    ghost state: { Self → StoreState };

    /// The capacity of a volume, or None where there is none of that name.
    fn size(&mut self, name: &VolumeName) -> Result<Option<u64>, VolumeFailed>
        ensures found { IfOk result (λ size. IfSome (state self.old).volumes
            (λ volumes. size ≡ option_map (λ v. v.capacity) (find_volume name.now volumes))) }
        ensures found_lent { IfOk result
            (λ size. IfSome (find_volume name.now (state self.old).loans)
            (λ loan. size ≡ Some loan.capacity)) }
        ensures same { OnOk result (state self.new ≡ state self.old) }
        ensures failed { OnErr result (StoreFails (state self.old) (state self.new)) }
        ensures sound { IsTrue (state self.old).sound → IsOk result };

    /// Makes a volume and lends it out. What it holds is open. [`StoreRefused::Exists`] comes only
    /// where there is one of that name, and where there is one it comes, or
    /// [`StoreRefused::Failed`].
    fn create(&mut self, name: &VolumeName, capacity: u64) -> Result<Self::Vol, StoreRefused>
        ensures exists { IsErrOf result StoreRefused.Exists → IfSome (state self.old).volumes
            (λ volumes. IsSome (find_volume name.now volumes)) }
        ensures taken { IfSome (state self.old).volumes
            (λ volumes. IsSome (find_volume name.now volumes)
            → IsErrOf result StoreRefused.Exists ⊎ IsErrOf result StoreRefused.Failed) }
        ensures taken_lent { IsSome (find_volume name.now (state self.old).loans)
            → IsErrOf result StoreRefused.Exists ⊎ IsErrOf result StoreRefused.Failed }
        ensures lent { IfOk result (λ vol. Lends name.now capacity (Self.Vol.state vol)
            (state self.old) (state self.new)) }
        ensures fresh { IfOk result (λ vol. IsFresh (Self.Vol.state vol) (state self.old)) }
        ensures refused { IfErr result (λ why. Refuses why (state self.old) (state self.new)) }
        ensures sound { IsTrue (state self.old).sound → IsErrOf result StoreRefused.Failed → ⊥ };

    /// Lends a volume out, as the store holds it. [`StoreRefused::Failed`] comes too where there
    /// is none of that name at home, or one of another capacity. It never answers
    /// [`StoreRefused::Exists`].
    fn open(&mut self, name: &VolumeName, capacity: u64) -> Result<Self::Vol, StoreRefused>
        ensures lent { IfOk result (λ vol. Lends name.now capacity (Self.Vol.state vol)
            (state self.old) (state self.new)) }
        ensures as_held { IfOk result (λ vol. IfSome (state self.old).volumes
            (λ volumes. (find_volume name.now volumes ≡ Some (at_home (Self.Vol.state vol)))
            × IsSome (Self.Vol.state vol).contents)) }
        ensures refused { IfErr result (λ why. Refuses why (state self.old) (state self.new)) }
        ensures not_exists { IsErrOf result StoreRefused.Exists → ⊥ }
        ensures missing { IfSome (state self.old).volumes
            (λ volumes. (IsThere name.now capacity volumes → ⊥)
            → IsErrOf result StoreRefused.Failed) }
        ensures away { IsSome (find_volume name.now (state self.old).loans)
            → IsErrOf result StoreRefused.Failed }
        ensures sound { IsTrue (state self.old).sound → IfSome (state self.old).volumes
            (λ volumes. IsThere name.now capacity volumes
            → IsErrOf result StoreRefused.Failed → ⊥) };

    /// Takes back a volume that this store lent out, and holds it as it is now. The store's count
    /// of faults rises by as much as the volume's did since it was lent out. It takes no memory.
    fn keep_back(&mut self, vol: Self::Vol)
        requires { IsLentOut (Self.Vol.state vol) (state self.old) }
        ensures kept { (name : VolumeName) (loan : Loan) → (Self.Vol.state vol).name ≡ Some name
            → find_volume name (state self.old).loans ≡ Some loan
            → state self.new
            ≡ after_taking_back name loan.faults (Self.Vol.state vol) (state self.old) }
        ensures later { (state self.old).faults ≤ (state self.new).faults };

    /// How often it has failed, with the volumes that it took back; a count that ends at 2^64 - 1.
    fn faults(&self) -> u64
        ensures count { result ≡ (state self.now).faults }
        ensures orderly { IsOrderly (state self.now) };

    /// A sound store tells what it has.
    ghost sound_tells: { (s : Self) → IsTrue (state s).sound → IsSome (state s).volumes };
}
