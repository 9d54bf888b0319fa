//! What the journal keeps: the records of plans and of the steps of their migrations. The kind of a
//! record is the first byte of its spelling.
ghost use Rattle.std.specs.Prelude.{◌≡◌, ◌≢◌, IfOk, IfSome, IfNone};
ghost use Rattle.record_codec.specs.declared.record.Kind.{Kind};
ghost use Rattle.record_codec.specs.Record.{kind_of, kind_byte, migration_of};

use basics::{Name, NoMemory, NumberList};
use change_id::ChangeId;
use std::alloc::{AllocError, Global};
use std::marker::Model;

/// The highest way of a choice, the cutover.
pub const MAX_WAY: u8 = 2;

/// The highest end of a migration, failed at a full log.
pub const MAX_HOW: u8 = 3;

/// Change identifiers, one a disk, in order.
#[derive(Debug, Drop)]
pub struct IdList {
    ids: Vec<ChangeId>,
}

impl Model for IdList {
    ghost use Rattle.std.specs.Prelude.{List};
    ghost use Rattle.change_id.specs.declared.ChangeId.{ChangeId};

    ghost Value = { List ChangeId };

    ghost view = { λ list. list.ids.items };
}

impl IdList {
    /// A copy of the identifiers. It answers only want of memory.
    pub fn of(alloc: Global, ids: &[ChangeId]) -> Result<IdList, NoMemory>
        ensures { IfOk result (λ list. list ≡ ids.now) }
    {
        let ids = Vec::from_slice(alloc, ids)?;
        Ok(IdList { ids })
    }

    /// The list of these identifiers, in their memory.
    pub fn from_vec(ids: Vec<ChangeId>) -> IdList
        ensures { result ≡ ids.items }
    {
        IdList { ids }
    }

    /// The identifiers, in order.
    pub fn as_slice(&self) -> &[ChangeId]
        ensures { result.now ≡ self.now }
    {
        self.ids.as_slice()
    }
}

impl Clone for IdList {
    ghost use Rattle.std.specs.Prelude.{◌≡◌};

    ghost is_clone = { λ list copy. copy ≡ list };

    fn clone(&self) -> Result<IdList, AllocError> {
        let ids = self.ids.clone()?;
        Ok(IdList { ids })
    }
}

/// One record of the journal. `mig`, `plan` and `vm` are the numbers of a migration, a plan and a
/// machine; `snap`, `previous` and `current` those of snapshots, 0 for none; `mark` and `place`
/// count entries of a machine's log; `at` is a moment in seconds since 1970.
#[derive(Debug, Clone, Drop)]
pub enum Record {
    /// A plan of these machines was made, with this interval in minutes between copies, 1 to
    /// [`MAX_INTERVAL`](basics::MAX_INTERVAL).
    PlanMade {
        plan: u32,
        name: Name,
        interval: u32,
        vms: NumberList,
    },
    /// The migration of a machine of a plan was made.
    MigrationStarted {
        mig: u32,
        plan: u32,
        vm: u32,
        disks: u32,
    },
    /// What comes next was chosen: 0 the first copy, 1 a further copy, 2 the cutover
    /// ([`MAX_WAY`]).
    Chosen {
        mig: u32,
        way: u8,
        at: u64,
    },
    /// A snapshot was taken.
    SnapTaken {
        mig: u32,
        snap: u32,
        mark: u64,
    },
    /// The change identifiers of the disks at the snapshot.
    IdsStored {
        mig: u32,
        ids: IdList,
    },
    /// Each disk has its target volume.
    VolumesMade {
        mig: u32,
    },
    /// A checkpoint was added, the final one where `last`.
    CheckpointAdded {
        mig: u32,
        previous: u32,
        current: u32,
        last: bool,
    },
    /// The copy of a disk began.
    StageBegun {
        mig: u32,
        disk: u32,
    },
    /// The copy of a disk is done, with so many sectors written.
    StageDone {
        mig: u32,
        disk: u32,
        written: u64,
    },
    /// All disks of a checkpoint are copied; the migration waits.
    Paused {
        mig: u32,
        at: u64,
    },
    /// A snapshot was removed.
    SnapRemoved {
        mig: u32,
        snap: u32,
    },
    /// The cutover of a plan was set: for the moment `at` where `has`, else as soon as possible.
    CutoverSet {
        plan: u32,
        has: bool,
        at: u64,
    },
    /// Whether the machine was on before the cutover.
    PowerStored {
        mig: u32,
        on: bool,
    },
    /// The machine was powered off.
    PoweredOff {
        mig: u32,
    },
    /// The machine was seen off or on.
    OffSeen {
        mig: u32,
        off: bool,
    },
    /// The final snapshot was taken, of a machine that went off at `place`.
    FinalSnapTaken {
        mig: u32,
        snap: u32,
        mark: u64,
        place: u64,
    },
    /// The migration is to be cancelled.
    CancelAsked {
        mig: u32,
    },
    /// The migration ended: 0 completed, 1 cancelled, 2 failed at a volume, 3 failed at a full log
    /// ([`MAX_HOW`]). `place` is 0 unless it is completed.
    Ended {
        mig: u32,
        how: u8,
        place: u64,
    },
}

/// What a record is. Which fields it has follows from it.
#[derive(Clone, Copy, Debug, PartialEq, Eq)]
pub enum Kind {
    PlanMade,
    MigrationStarted,
    Chosen,
    SnapTaken,
    IdsStored,
    VolumesMade,
    CheckpointAdded,
    StageBegun,
    StageDone,
    Paused,
    SnapRemoved,
    CutoverSet,
    PowerStored,
    PoweredOff,
    OffSeen,
    FinalSnapTaken,
    CancelAsked,
    Ended,
}

/// All kinds, in the order of their bytes.
const KINDS: [Kind; 18] = [
    Kind::PlanMade,
    Kind::MigrationStarted,
    Kind::Chosen,
    Kind::SnapTaken,
    Kind::IdsStored,
    Kind::VolumesMade,
    Kind::CheckpointAdded,
    Kind::StageBegun,
    Kind::StageDone,
    Kind::Paused,
    Kind::SnapRemoved,
    Kind::CutoverSet,
    Kind::PowerStored,
    Kind::PoweredOff,
    Kind::OffSeen,
    Kind::FinalSnapTaken,
    Kind::CancelAsked,
    Kind::Ended,
];

impl Kind {
    /// The byte that a record of this kind begins with, from 1 on.
    pub fn byte(self) -> u8
        ensures { result ≡ kind_byte self }
    {
        1 + self as u8
    }

    /// The kind of this byte. None where no kind has it.
    pub fn of(byte: u8) -> Option<Kind>
        ensures found { IfSome result (λ kind. kind_byte kind ≡ byte) }
        ensures none { IfNone result ((kind : Kind) → kind_byte kind ≢ byte) }
    {
        for kind in &KINDS {
            if kind.byte() == byte {
                return Some(*kind);
            }
        }
        None
    }
}

impl Record {
    /// What the record is.
    pub fn kind(&self) -> Kind
        ensures { result ≡ kind_of self.now }
    {
        macro_rules! kinds {
            ($($kind:ident)*) => {
                match self {
                    $(Record::$kind { .. } => Kind::$kind,)*
                }
            };
        }
        kinds! {
            PlanMade MigrationStarted Chosen SnapTaken IdsStored VolumesMade CheckpointAdded
            StageBegun StageDone Paused SnapRemoved CutoverSet PowerStored PoweredOff OffSeen
            FinalSnapTaken CancelAsked Ended
        }
    }

    /// The number of the migration whose record it is. None for a plan's record.
    pub fn migration(&self) -> Option<u32>
        ensures { result ≡ migration_of self.now }
    {
        macro_rules! migrations {
            ($($kind:ident)*) => {
                match self {
                    Record::PlanMade { .. } | Record::CutoverSet { .. } => None,
                    $(Record::$kind { mig, .. } => Some(*mig),)*
                }
            };
        }
        migrations! {
            MigrationStarted Chosen SnapTaken IdsStored VolumesMade CheckpointAdded StageBegun
            StageDone Paused SnapRemoved PowerStored PoweredOff OffSeen FinalSnapTaken
            CancelAsked Ended
        }
    }
}
