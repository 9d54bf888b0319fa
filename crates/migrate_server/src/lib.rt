//! The server of migrations: it reads commands, one JSON value a line, and writes a reply for each.
#![tactic(auto)]

ghost use Rattle.std.specs.Prelude.{◌≡◌, ◌<◌, ◌↔◌, length, IsTrue};
ghost use Rattle.fleet.specs.Sound.{AllAreIn};
ghost use Rattle.record_keeping.specs.Keeping.{keeping, IsReady};
ghost use Rattle.migrate_server.specs.World.{world_of, desk_of, server_of};
ghost use Rattle.migrate_server.specs.Serve.{status_served, AllWouldBeTaken};
ghost use Rattle.migrate_server.specs.EndsFor.{TellsUsage};
ghost use Rattle.migrate_server.specs.Runs.{Runs, Closes, status_unopened};

mod commands;
mod copy;
mod laws;
mod line;
mod line_buffer;
mod reader;
mod serve;
mod status;
mod written_disk;

use crate::serve::{Stop, serve};
use ctl_state::Controller;
use edge_traits::{Disk, Sink, Source};
pub use fleet::Fleet;
use journal::JournalRefused;
pub use laws::{runs_hold_together, sessions_agree, stores_answer_moves_alone};
use restart::{ReopenRefused, reopen};
pub use status::Status;
use std::alloc::Global;
use target_volume::VolumeStore;

/// The line that is written where the words are none that the program takes.
const USAGE: &str = "usage: warm_migrate [--limit N] [--rig N]\n";

/// What the migrations of a process stand on.
#[derive(Debug, Drop)]
pub struct Devices<D, T> {
    /// Where the journal is kept.
    pub disk: D,
    /// The store of the target volumes.
    pub volumes: T,
}

/// Where those who act for a machine wait for their turn. No command needs one yet.
pub trait Gate {}

/// How a run ended, and all that it was given.
#[derive(Debug, Drop)]
pub struct Outcome<D, T> {
    /// How it ended.
    pub status: Status,
    /// The disk of the devices.
    pub disk: D,
    /// The store of the devices.
    pub volumes: T,
    /// The fleet, with what the commands made of it.
    pub fleet: Fleet,
}

/// Opens the controller of a journal's disk, and serves the commands of an input until its end or
/// until one asks to quit: one reply for each line that isn't blank, which is put before the next
/// byte is read, and only once the records that the line adds are on the disk. What stands behind a
/// line that asks to quit has no reply and no effect, and isn't read, but for bytes that came with
/// that line.
///
/// A line has at most 2^20 bytes, and an input at most 2^28. There are no words that it takes: with
/// any it writes the usage line, and the status is [`Status::Usage`]. The journal is opened before
/// anything is read: [`Status::StrangeJournal`] comes exactly where the file is no journal, with 0,
/// or where a record of it is bad or strange to the fleet, with its number; the file is then left
/// as it was. [`Status::ReadFault`] comes only where the input failed, [`Status::WriteFault`] only
/// where `out` did, [`Status::JournalFault`] only where the disk did, [`Status::JournalFull`]
/// exactly where a line's next record has no room, and [`Status::InputLimit`] only where one byte
/// comes past the limit. With `JournalFault` and `JournalFull` the line at work has no reply, and
/// of its records those before the refused one are kept. With [`Status::NoMemory`] the line that
/// met it has no reply, and may have been carried out. A move is refused as `volume` only where the
/// store failed in it, which a sound store doesn't.
///
/// Whatever the status is, the outcome has the devices and the fleet, and a later call goes on with
/// them: whatever a crash leaves of the disk has the records of the lines that were answered, and
/// those of the line at work as far as they were kept, or one further where the disk failed. No
/// machine of the fleet may be out, and none is afterwards.
pub fn migrate<R, S: Source, K: Sink, D: Disk, T: VolumeStore, G: Gate>(
    _rt: &R,
    alloc: Global,
    words: &[String],
    input: &mut S,
    out: &mut K,
    devices: Devices<D, T>,
    fleet: Fleet,
    _gate: &G,
) -> Outcome<D, T>
    requires all_in { AllAreIn fleet }
    ensures usage { (result.status ≡ Status.Usage) ↔ (0 < length words.now) }
    ensures told { 0 < length words.now → TellsUsage (K.state out.old) (K.state out.new) }
    ensures untouched { 0 < length words.now → (input.new ≡ input.old)
        × (result.disk ≡ devices.disk) × (result.volumes ≡ devices.volumes)
        × (result.fleet ≡ fleet) }
    ensures runs { length words.now ≡ 0 → Runs
        (world_of (S.state input.old) (K.state out.old)
        (D.state devices.disk) (T.state devices.volumes) fleet)
        (world_of (S.state input.new) (K.state out.new)
        (D.state result.disk) (T.state result.volumes) result.fleet) result.status }
    ensures sound { IsTrue (T.state devices.volumes).sound
        → IsTrue (T.state result.volumes).sound
        × ((T.state result.volumes).faults ≡ (T.state devices.volumes).faults) }
    ensures all_in { AllAreIn result.fleet }
{
    let Devices { disk, volumes } = devices;
    if !words.is_empty() {
        return Outcome {
            status: refuse_words(out),
            disk,
            volumes,
            fleet,
        };
    }
    run(alloc, input, out, disk, volumes, fleet)
}

/// Opens the controller and serves lines over it.
fn run<S: Source, K: Sink, D: Disk, T: VolumeStore>(
    alloc: Global,
    input: &mut S,
    out: &mut K,
    disk: D,
    volumes: T,
    fleet: Fleet,
) -> Outcome<D, T>
    requires all_in { AllAreIn fleet }
    ensures runs { Runs
        (world_of (S.state input.old) (K.state out.old) (D.state disk) (T.state volumes) fleet)
        (world_of (S.state input.new) (K.state out.new)
        (D.state result.disk) (T.state result.volumes) result.fleet) result.status }
{
    let mut fleet = fleet;
    match reopen(alloc, disk, volumes, &mut fleet) {
        Ok(controller) => serve_over(alloc, input, out, controller, fleet),
        Err((disk, volumes, why)) => Outcome {
            status: status_unopened(why),
            disk,
            volumes,
            fleet,
        },
    }
}

/// Serves lines over a controller, and closes its journal.
fn serve_over<S: Source, K: Sink, D: Disk, T: VolumeStore>(
    alloc: Global,
    input: &mut S,
    out: &mut K,
    controller: Controller<D, T>,
    fleet: Fleet,
) -> Outcome<D, T>
    requires all_in { AllAreIn fleet }
    requires ready { IsReady (keeping controller.state controller.journal) }
    requires taken { AllWouldBeTaken fleet controller.journal }
    ensures closes { Closes
        (desk_of (S.state input.old) (K.state out.old)
        (server_of fleet controller.journal (T.state controller.store)))
        (world_of (S.state input.new) (K.state out.new)
        (D.state result.disk) (T.state result.volumes) result.fleet) result.status }
{
    let mut controller = controller;
    let mut fleet = fleet;
    let status = status_served(serve(alloc, input, out, &mut controller, &mut fleet));
    let Controller { journal, store, .. } = controller;
    Outcome {
        status,
        disk: journal.close(),
        volumes: store,
        fleet,
    }
}

/// The status of a run whose journal was refused so.
fn status_unopened(refused: ReopenRefused) -> Status
    ensures { result ≡ status_unopened refused }
{
    match refused {
        ReopenRefused::Journal(JournalRefused::DiskFault { .. }) => Status::JournalFault,
        ReopenRefused::Journal(JournalRefused::NotAJournal) => Status::StrangeJournal(0),
        ReopenRefused::Journal(JournalRefused::BadRecord(number)) => Status::StrangeJournal(number),
        ReopenRefused::Journal(JournalRefused::Full { .. }) => Status::JournalFull,
        ReopenRefused::Strange(number) => Status::StrangeJournal(number),
        ReopenRefused::Journal(JournalRefused::NoMemory) | ReopenRefused::NoMemory => {
            Status::NoMemory
        }
    }
}

/// The status of a run whose input was served so.
fn status_served(served: Result<(), Stop>) -> Status
    ensures { result ≡ status_served served }
{
    match served {
        Ok(()) => Status::Ok,
        Err(Stop::ReadFault) => Status::ReadFault,
        Err(Stop::JournalFault) => Status::JournalFault,
        Err(Stop::WriteFault) => Status::WriteFault,
        Err(Stop::InputLimit) => Status::InputLimit,
        Err(Stop::JournalFull) => Status::JournalFull,
        Err(Stop::NoMemory) => Status::NoMemory,
    }
}

/// Writes the usage line. The status is `Usage` also where that fails.
fn refuse_words<K: Sink>(out: &mut K) -> Status
    ensures status { result ≡ Status.Usage }
    ensures told { TellsUsage (K.state out.old) (K.state out.new) }
{
    let _ = out.put(USAGE.as_bytes());
    Status::Usage
}
