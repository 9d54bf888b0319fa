//! The program over its words, a source, a sink and the disk of its journal.
ghost use Rattle.std.specs.Prelude.{◌≡◌, length};
ghost use Rattle.migrate_main.specs.Run.{ExitsFor};

use edge_traits::{Disk, Sink, Source};
use fleet::machines_stay_in;
use migrate_server::{Devices, Fleet, Gate, Outcome, Status, migrate};
use std::alloc::Global;
use target_volume::MemVolumes;

/// A gate that never holds anybody up.
struct ReturnAtOnce;

impl Gate for ReturnAtOnce {}

/// How the program ended, and the disk of its journal.
#[derive(Debug, Drop)]
pub(crate) struct Exit<D> {
    /// Its exit status.
    pub code: u8,
    /// The disk that it was given.
    pub disk: D,
}

/// Serves the commands of a source over the journal of a disk, an empty fleet and an empty store in
/// memory, writes the replies to a sink, and gives the exit status of the program.
pub(crate) fn run<H, S: Source, K: Sink, D: Disk>(
    rt: &H,
    alloc: Global,
    words: &[String],
    input: &mut S,
    output: &mut K,
    disk: D,
) -> Exit<D>
    ensures { ExitsFor (length words.now) (S.state input.old) (S.state input.new)
        (K.state output.old) (K.state output.new) (D.state disk) (D.state result.disk)
        result.code }
{
    let Ok(volumes) = MemVolumes::new(alloc, 0, &[]) else {
        return Exit {
            code: Status::NoMemory.code(),
            disk,
        };
    };
    let fleet = Fleet::empty(alloc);
    machines_stay_in();
    let devices = Devices { disk, volumes };
    let Outcome { status, disk, .. } = migrate(
        rt,
        alloc,
        words,
        input,
        output,
        devices,
        fleet,
        &ReturnAtOnce,
    );
    Exit {
        code: status.code(),
        disk,
    }
}
