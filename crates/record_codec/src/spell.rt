//! The writing of records. The memory for a record is taken first, in one growth, so that what
//! comes after can't fail and leaves no record in part.
ghost use Rattle.std.specs.Prelude.{◌≡◌, ◌≤◌, ◌+◌, ◌++◌, OnOk, OnErr, length, vec_len, vec_capacity};
ghost use Rattle.std.specs.List.{AllByRecursion};
ghost use Rattle.record_codec.specs.Record.{HasRange, KeepsRule, fields_of, spelling, spelled_size, Spells};

use crate::puts::{put_byte, put_flag, put_ids, put_long, put_name, put_word, put_words};
use crate::{Kind, NoMemory, Record};

/// Appends the one spelling of a record to `out`, which [`crate::decode`] reads as that record. It
/// answers only want of memory, and then `out` is as before.
pub fn encode(r: &Record, out: &mut Vec<u8>) -> Result<(), NoMemory>
    requires { KeepsRule r.now }
    ensures spelled { OnOk result (out.new.items ≡ out.old.items ++ spelling r.now) }
    ensures spells { OnOk result (Spells (spelling r.now) r.now) }
    ensures unchanged { OnErr result (out.new.items ≡ out.old.items) }
{
    out.reserve(spelled_len(r))?;
    put_record(out, r);
    Ok(())
}

/// How many bytes the spelling of a record has. It takes no memory.
#[tactic(auto, using(crate::proofs::Sizes::spellings_have_their_size))]
pub fn spelled_len(r: &Record) -> usize
    requires { KeepsRule r.now }
    ensures { result ≡ length (spelling r.now) }
{
    match r {
        Record::PlanMade { name, vms, .. } => 14 + name.as_str().len() + 4 * vms.as_slice().len(),
        Record::IdsStored { ids, .. } => 9 + 24 * ids.as_slice().len(),
        Record::VolumesMade { .. } | Record::PoweredOff { .. } | Record::CancelAsked { .. } => 5,
        Record::PowerStored { .. } | Record::OffSeen { .. } => 6,
        Record::StageBegun { .. } | Record::SnapRemoved { .. } => 9,
        Record::Paused { .. } => 13,
        Record::Chosen { .. } | Record::CutoverSet { .. } | Record::Ended { .. } => 14,
        Record::CheckpointAdded { .. } => 14,
        Record::MigrationStarted { .. } | Record::SnapTaken { .. } | Record::StageDone { .. } => 17,
        Record::FinalSnapTaken { .. } => 25,
    }
}

fn put_record(out: &mut Vec<u8>, r: &Record)
    requires rule { KeepsRule r.now }
    requires room { vec_len out.old + spelled_size r.now ≤ vec_capacity out.old }
    ensures spelled { out.new.items ≡ out.old.items ++ spelling r.now }
    ensures ranges { AllByRecursion HasRange (fields_of r.now) }
{
    macro_rules! spell {
        ($($name:ident { $($field:ident: $put:ident),* })*) => {
            match r {
                $(Record::$name { $($field),* } => {
                    put_byte(out, &Kind::$name.byte());
                    $($put(out, $field);)*
                })*
            }
        };
    }
    spell! {
        PlanMade { plan: put_word, name: put_name, interval: put_word, vms: put_words }
        MigrationStarted { mig: put_word, plan: put_word, vm: put_word, disks: put_word }
        Chosen { mig: put_word, way: put_byte, at: put_long }
        SnapTaken { mig: put_word, snap: put_word, mark: put_long }
        IdsStored { mig: put_word, ids: put_ids }
        VolumesMade { mig: put_word }
        CheckpointAdded { mig: put_word, previous: put_word, current: put_word, last: put_flag }
        StageBegun { mig: put_word, disk: put_word }
        StageDone { mig: put_word, disk: put_word, written: put_long }
        Paused { mig: put_word, at: put_long }
        SnapRemoved { mig: put_word, snap: put_word }
        CutoverSet { plan: put_word, has: put_flag, at: put_long }
        PowerStored { mig: put_word, on: put_flag }
        PoweredOff { mig: put_word }
        OffSeen { mig: put_word, off: put_flag }
        FinalSnapTaken { mig: put_word, snap: put_word, mark: put_long, place: put_long }
        CancelAsked { mig: put_word }
        Ended { mig: put_word, how: put_byte, place: put_long }
    }
}
