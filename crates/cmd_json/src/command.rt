//! What a client may ask for, each command as plain data.
use crate::{Sequence, Text};
use plan_model::{Moment, Name};

/// The most sectors that one command shows, so that its reply stays short.
pub const MAX_READ_SECTORS: u64 = 16;

/// The most workers of a run.
pub const MAX_WORKERS: u32 = 64;

/// A query starts at a byte whose place is a multiple of this, as a sector does.
pub const SECTOR_START_UNIT: u64 = 512;

/// A command, its members in the order in which they are tested. Disks and snapshots go by their
/// numbers, sectors by theirs; `count` is a number of sectors.
#[derive(Debug, Drop)]
pub enum Command {
    /// Apply the writes to a fresh disk of so many sectors, and copy it to a volume of that name.
    Move {
        name: Name,
        sectors: u64,
        writes: Sequence<MoveWrite>,
    },
    /// Add a host, with the most disks that may be in flight on it.
    Host {
        name: Name,
        limit: Option<u32>,
    },
    /// Add a machine on a host, with disks of so many sectors.
    Vm {
        name: Name,
        host: Name,
        disks: Sequence<u64>,
    },
    /// Track the changes of a machine.
    Enable {
        vm: Name,
    },
    /// Fill sectors of a disk with a byte.
    Write {
        vm: Name,
        disk: u32,
        first: u64,
        count: u64,
        fill: u8,
    },
    /// Take a snapshot.
    Snapshot {
        vm: Name,
    },
    /// Remove a snapshot.
    Remove {
        vm: Name,
        snapshot: u32,
    },
    /// Show what changed since a change identifier, from a byte on that begins a sector.
    Query {
        vm: Name,
        snapshot: u32,
        disk: u32,
        since: Text,
        start: u64,
    },
    /// Show sectors of a disk, at a snapshot or now.
    Read {
        vm: Name,
        disk: u32,
        first: u64,
        count: u64,
        snapshot: Option<u32>,
    },
    /// Turn a machine on or off.
    Power {
        vm: Name,
        on: bool,
    },
    /// Forget what is known of a disk's changes.
    Reset {
        vm: Name,
        disk: u32,
    },
    /// List the hosts and machines.
    Inventory,
    /// Plan to migrate machines together, with the minutes between copies.
    Plan {
        name: Name,
        vms: Sequence<Name>,
        interval: Option<u32>,
    },
    /// Start the migrations of a plan.
    Start {
        plan: Name,
    },
    /// Do what is due at a moment, with so many workers, beside guests and disturbances.
    Run {
        at: Moment,
        workers: u32,
        guests: Sequence<GuestLine>,
        disturb: Sequence<DisturbLine>,
    },
    /// Ask for the cutover of a plan, at a moment or at once.
    Cutover {
        plan: Name,
        at: Option<Moment>,
    },
    /// Cancel the migration of a machine.
    Cancel {
        vm: Name,
    },
    /// Show all migrations.
    Status,
    /// Show sectors of a volume.
    Target {
        volume: Text,
        first: u64,
        count: u64,
    },
    /// Show the digest of a volume.
    Digest {
        volume: Text,
    },
    /// Open the journal again.
    Restart,
    /// End the program.
    Quit,
}

/// A write of a move: `count` sectors from sector `first` on, all bytes of which are `fill`.
#[derive(Clone, Copy, Debug, PartialEq, Eq)]
pub struct MoveWrite {
    pub first: u64,
    pub count: u64,
    pub fill: u8,
}

/// A guest of a run: `count` writes to a machine, generated from `seed`.
#[derive(Debug, Drop)]
pub struct GuestLine {
    pub vm: Name,
    pub seed: u64,
    pub count: u64,
}

/// A disturbance of a run: what is done to a machine.
#[derive(Debug, Drop)]
pub struct DisturbLine {
    pub vm: Name,
    pub act: ActLine,
}

/// What a disturbance does to its machine.
#[derive(Clone, Copy, Debug, PartialEq, Eq)]
pub enum ActLine {
    /// Forget what is known of a disk's changes.
    Reset { disk: u32 },
    /// Take a snapshot.
    Snapshot,
    /// Turn it on.
    On,
    /// Turn it off.
    Off,
    /// Cancel its migration.
    Cancel,
}
