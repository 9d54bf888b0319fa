//! The reading of the kinds whose fields have a fixed size. Their bytes are counted first, so that
//! no read goes past the end.
ghost use Rattle.std.specs.Prelude.{◌≡◌, length};
ghost use Rattle.record_codec.specs.Parse.{fixed_size, fixed_record, fixed_rule, parse_fixed};

use crate::fields::Fields;
use crate::{Kind, MAX_HOW, MAX_WAY, Record};

/// The record of a kind whose fields have a fixed size. None where the bytes are no such fields, or
/// the record would break its rule.
pub(crate) fn fixed(kind: Kind, bytes: &[u8]) -> Option<Record>
    ensures { result ≡ parse_fixed kind bytes.now }
{
    if bytes.len() != fixed_size(kind) {
        return None;
    }
    let record = fixed_record(kind, bytes)?;
    if keeps_rule(&record) {
        Some(record)
    } else {
        None
    }
}

/// How many bytes the fields of the kind take, and 0 where that isn't fixed.
fn fixed_size(kind: Kind) -> usize
    ensures { result ≡ fixed_size kind }
{
    match kind {
        Kind::VolumesMade | Kind::PoweredOff | Kind::CancelAsked => 4,
        Kind::PowerStored | Kind::OffSeen => 5,
        Kind::StageBegun | Kind::SnapRemoved => 8,
        Kind::Paused => 12,
        Kind::Chosen | Kind::CheckpointAdded | Kind::CutoverSet | Kind::Ended => 13,
        Kind::MigrationStarted | Kind::SnapTaken | Kind::StageDone => 16,
        Kind::FinalSnapTaken => 24,
        Kind::PlanMade | Kind::IdsStored => 0,
    }
}

fn fixed_record(kind: Kind, bytes: &[u8]) -> Option<Record>
    requires { length bytes.now ≡ fixed_size kind }
    ensures { result ≡ fixed_record kind bytes.now }
{
    let mut fields = Fields::of(bytes);
    macro_rules! records {
        ($($record:ident { $($field:ident: $read:ident $(($or:tt))?),* })*) => {
            match kind {
                $(Kind::$record => {
                    $(let $field = fields.$read() $($or)?;)*
                    Some(Record::$record { $($field),* })
                })*
                Kind::PlanMade | Kind::IdsStored => None,
            }
        };
    }
    records! {
        MigrationStarted { mig: word, plan: word, vm: word, disks: word }
        Chosen { mig: word, way: byte, at: long }
        SnapTaken { mig: word, snap: word, mark: long }
        VolumesMade { mig: word }
        CheckpointAdded { mig: word, previous: word, current: word, last: flag (?) }
        StageBegun { mig: word, disk: word }
        StageDone { mig: word, disk: word, written: long }
        Paused { mig: word, at: long }
        SnapRemoved { mig: word, snap: word }
        CutoverSet { plan: word, has: flag (?), at: long }
        PowerStored { mig: word, on: flag (?) }
        PoweredOff { mig: word }
        OffSeen { mig: word, off: flag (?) }
        FinalSnapTaken { mig: word, snap: word, mark: long, place: long }
        CancelAsked { mig: word }
        Ended { mig: word, how: byte, place: long }
    }
}

fn keeps_rule(r: &Record) -> bool
    ensures { result ≡ fixed_rule r.now }
{
    match r {
        Record::Chosen { way, .. } => *way <= MAX_WAY,
        Record::CutoverSet { has, at, .. } => *has || *at == 0,
        Record::FinalSnapTaken { mark, place, .. } => place < mark,
        Record::Ended { how, place, .. } => *how <= MAX_HOW && (*how == 0 || *place == 0),
        Record::PlanMade { .. }
        | Record::MigrationStarted { .. }
        | Record::SnapTaken { .. }
        | Record::IdsStored { .. }
        | Record::VolumesMade { .. }
        | Record::CheckpointAdded { .. }
        | Record::StageBegun { .. }
        | Record::StageDone { .. }
        | Record::Paused { .. }
        | Record::SnapRemoved { .. }
        | Record::PowerStored { .. }
        | Record::PoweredOff { .. }
        | Record::OffSeen { .. }
        | Record::CancelAsked { .. } => true,
    }
}
