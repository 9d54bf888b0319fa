//! What the program answers, each form as plain data.
use crate::{Sequence, Text};
use basics::SECTOR_BYTES;
use change_id::ChangeId;

/// A reply to one command. Each is one object with the member `ok`; the other members have the
/// names of the fields here unless it says otherwise.
#[derive(Debug, Drop)]
pub enum Reply {
    /// The command is done, and has nothing more to say.
    Done,
    /// A volume was written and is complete: the number of writes, and the sectors written.
    Moved {
        writes: u64,
        written: u64,
    },
    /// The number of a new machine, as `number`.
    Number(u32),
    /// A new snapshot's id, and each disk's change identifier where it has one.
    Snapshot {
        snapshot: u32,
        ids: Sequence<Option<ChangeId>>,
    },
    /// The changed areas of a disk, its change identifier where it has one, and where the answer
    /// begins and how long it is, in bytes.
    Query {
        areas: Sequence<Area>,
        id: Option<ChangeId>,
        start: u64,
        length: u64,
    },
    /// The contents of sectors, as `sectors`.
    Sectors(Sequence<[u8; SECTOR_BYTES]>),
    /// The hosts and the machines of the fleet.
    Inventory {
        hosts: Sequence<HostLine>,
        vms: Sequence<VmLine>,
    },
    /// The numbers of the migrations that began, as `migrations`.
    Started(Sequence<u32>),
    /// What a run did: for each disturbance its refusal or none, for each guest what it wrote, all
    /// migrations, and for each host the greatest number of disks in flight.
    Ran {
        disturbed: Sequence<Option<Text>>,
        guests: Sequence<GuestDone>,
        migrations: Sequence<MigLine>,
        peaks: Sequence<u64>,
    },
    /// All migrations, as `migrations`.
    Status(Sequence<MigLine>),
    /// The digits of a volume's digest, and its capacity in sectors.
    Digest {
        digest: [u8; 64],
        sectors: u64,
    },
    /// The number of records in the journal, as `records`.
    Records(u64),
    /// The command was refused.
    Refused {
        error: Text,
        carried: Carried,
    },
}

/// What a refusal carries besides its text.
#[derive(Debug, Drop)]
pub enum Carried {
    /// Nothing.
    Nothing,
    /// The name of a member of the line, as `name`.
    Name(Text),
    /// The name of a machine, as `vm`.
    Vm(Text),
    /// What is wrong with a change identifier, as `cause`.
    Cause(Text),
    /// A disk's change identifier where it has one, as `id`.
    Id(Option<ChangeId>),
}

/// An area of a disk, in bytes.
#[derive(Clone, Copy, Debug, PartialEq, Eq)]
pub struct Area {
    /// Its first byte.
    pub start: u64,
    /// How many bytes it has.
    pub length: u64,
}

/// A host of the fleet.
#[derive(Debug, Drop)]
pub struct HostLine {
    /// The most disks that may be in flight at once.
    pub limit: u32,
    /// Its name.
    pub name: Text,
}

/// A machine of the fleet.
#[derive(Debug, Drop)]
pub struct VmLine {
    /// The capacities of its disks, in sectors.
    pub disks: Sequence<u64>,
    /// The name of its host.
    pub host: Text,
    /// Its name.
    pub name: Text,
    /// Its number.
    pub number: u32,
    /// Whether it is on.
    pub on: bool,
    /// Whether its disks are tracked.
    pub tracking: bool,
}

/// What a guest did in a run.
#[derive(Debug, Drop)]
pub struct GuestDone {
    /// How many of its writes the machine accepted.
    pub accepted: u64,
    /// Why it stopped.
    pub stopped: Text,
    /// The name of its machine.
    pub vm: Text,
}

/// A checkpoint of a migration, by the ids of two snapshots; 0 is none.
#[derive(Clone, Copy, Debug, PartialEq, Eq)]
pub struct CheckLine {
    /// The snapshot of the checkpoint before.
    pub previous: u32,
    /// Its own snapshot.
    pub current: u32,
}

/// A migration.
#[derive(Debug, Drop)]
pub struct MigLine {
    /// Why it failed, where it did.
    pub cause: Option<Text>,
    /// Its checkpoints, an unfinished last one included.
    pub checkpoints: Sequence<CheckLine>,
    /// The phase of its data volume.
    pub dv: Text,
    /// The marks of the finished checkpoints.
    pub marks: Sequence<u64>,
    /// Its number.
    pub mig: u32,
    /// The name of its phase.
    pub phase: Text,
    /// The place of the last entry before its final snapshot that powered its machine off, once it
    /// is complete.
    pub place: Option<u64>,
    /// The name of its plan.
    pub plan: Text,
    /// What became of it so far.
    pub state: Text,
    /// The name of its machine.
    pub vm: Text,
    /// How many writes stand before that place, once it is complete.
    pub writes: Option<u64>,
    /// The sectors written for each finished checkpoint.
    pub written: Sequence<u64>,
}
