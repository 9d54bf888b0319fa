//! The checkpoints of one data volume, in the order in which they were added. An import can't be
//! carried on from a copy that isn't whole, so only what goes on from a finished one is added.
ghost use Rattle.std.specs.Prelude.{◌≡◌, OnOk, OnErr};
ghost use Rattle.basics.specs.Refusal.{IsRefusedBy, IsRefusedOr};
ghost use Rattle.checkpoints.specs.DataVolume.{no_checkpoints, goes_on, add_refusal, after_add, with_last_done, done_refusal, after_done, phase_of, IsSound};

use crate::{CheckRefused, Checkpoint, DvPhase};
use std::alloc::Global;
use std::marker::Model;

/// A data volume that is imported checkpoint by checkpoint. Callers see it as the list of its
/// checkpoints, and whether the last of them is the final one.
#[derive(Debug, Drop)]
pub struct DataVolume {
    checkpoints: Vec<Checkpoint>,
    has_final: bool,
}

impl Model for DataVolume {
    ghost use Rattle.checkpoints.specs.DataVolume.{DataVolumeState, IsSound};

    ghost Value = { DataVolumeState };

    ghost view = { λ v. record { checkpoints = v.checkpoints.items; has_final = v.has_final } };

    ghost invariant = { λ v.
        IsSound (record { checkpoints = v.checkpoints.items; has_final = v.has_final }) };
}

impl DataVolume {
    /// A data volume without a checkpoint. What is added is kept on `alloc`.
    pub fn new(alloc: Global) -> DataVolume
        ensures { result ≡ no_checkpoints }
    {
        DataVolume {
            checkpoints: Vec::new(alloc),
            has_final: false,
        }
    }

    /// Adds a checkpoint that brings the volume from `previous`, the snapshot that it holds by now
    /// (0 while it holds none), to the later snapshot `current`. After one with `last` no other is
    /// taken: [`CheckRefused::Final`]. [`CheckRefused::Order`] for one that can't be copied onto
    /// what the volume holds: the checkpoint before is still being copied, or it reached another
    /// snapshot than `previous`, or `current` isn't later.
    pub fn add(&mut self, previous: u32, current: u32, last: bool) -> Result<(), CheckRefused>
        ensures refused { IsRefusedOr (add_refusal self.old previous current)
            CheckRefused.NoMemory result }
        ensures added { OnOk result (self.new ≡ after_add self.old previous current last) }
        ensures kept { OnErr result (self.new ≡ self.old) }
    {
        if self.has_final {
            return Err(CheckRefused::Final);
        }
        if !self.goes_on(previous, current) {
            return Err(CheckRefused::Order);
        }
        self.checkpoints.push(Checkpoint {
            previous,
            current,
            done: false,
        })?;
        self.has_final = last;
        Ok(())
    }

    /// The last checkpoint is copied. [`CheckRefused::Order`] where there is none, or it was done
    /// before.
    pub fn done(&mut self) -> Result<(), CheckRefused>
        ensures refused { IsRefusedBy (done_refusal self.old.checkpoints) result }
        ensures finished { OnOk result (self.new ≡ after_done self.old) }
        ensures kept { OnErr result (self.new ≡ self.old) }
    {
        finish_last(&mut self.checkpoints)
    }

    /// The checkpoints, in the order in which they were added.
    pub fn checkpoints(&self) -> &[Checkpoint]
        ensures list { result.now ≡ self.now.checkpoints }
        ensures sound { IsSound self.now }
    {
        self.checkpoints.as_slice()
    }

    /// Whether the final checkpoint was added.
    pub fn final_checkpoint(&self) -> bool
        ensures { result ≡ self.now.has_final }
    {
        self.has_final
    }

    /// How far the import is.
    pub fn phase(&self) -> DvPhase
        ensures { result ≡ phase_of self.now }
    {
        match self.checkpoints.last() {
            None => DvPhase::Pending,
            Some(checkpoint) if !checkpoint.done => DvPhase::InProgress,
            Some(_) if self.has_final => DvPhase::Succeeded,
            Some(_) => DvPhase::Paused,
        }
    }

    // Whether a checkpoint between these snapshots goes on from the last one.
    fn goes_on(&self, previous: u32, current: u32) -> bool
        ensures { result ≡ goes_on self.now.checkpoints previous current }
    {
        let (reached, done) = match self.checkpoints.last() {
            None => (0, true),
            Some(checkpoint) => (checkpoint.current, checkpoint.done),
        };
        done && previous == reached && current > previous
    }
}

fn finish_last(checkpoints: &mut Vec<Checkpoint>) -> Result<(), CheckRefused>
    ensures refused { IsRefusedBy (done_refusal checkpoints.old.items) result }
    ensures finished { OnOk result (checkpoints.new.items ≡ with_last_done checkpoints.old.items) }
    ensures kept { OnErr result (checkpoints.new.items ≡ checkpoints.old.items) }
{
    let Some(checkpoint) = checkpoints.last_mut() else {
        return Err(CheckRefused::Order);
    };
    if checkpoint.done {
        return Err(CheckRefused::Order);
    }
    checkpoint.done = true;
    Ok(())
}
