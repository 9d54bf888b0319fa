//! `migrate` over a source, a sink, a journal's disk and a store of volumes in memory: moves here,
//! machines and plans in the modules below.
ghost use Rattle.std.specs.Prelude.{IfOk};
ghost use Rattle.fleet.specs.Sound.{AllAreIn};

mod machines;
mod plans;

use self::machines::{lines_of, replies_of};
use basics::NoMemory;
use edge_traits::{Disk, Failed, MemDisk, MemSink, MemSource, Source};
use migrate_server::{Devices, Fleet, Gate, Outcome, Status, migrate};
use sector_model::Sector;
use std::alloc::Global;
use std::test::Fail;
use target_volume::{MemVolumes, Name, Volume, VolumeName, VolumeStore};

const MOVE: &str = "{\"cmd\":\"move\",\"name\":\"t\",\"sectors\":256,\"writes\":[[5,1,171]]}\n";

const MOVED: &str = "{\"ok\":true,\"state\":\"complete\",\"writes\":1,\"written\":256}\n";

const LONG: &str = "{\"error\":\"long\",\"ok\":false}\n";

const LOG_FULL: &str = "{\"error\":\"log-full\",\"ok\":false}\n";

const FAILED: &str = "{\"error\":\"volume\",\"ok\":false}\n";

/// Room for a journal of some records.
const DISK_ROOM: usize = 1 << 12;

struct Open;

impl Gate for Open {}

/// What the source, the sink and the store are to do.
#[derive(Drop)]
struct Setting<'a> {
    piece: usize,
    failing_reads: &'a [u64],
    failing_puts: &'a [u64],
    failing_calls: &'a [u64],
}

const SOUND: Setting<'static> = Setting {
    piece: 1 << 16,
    failing_reads: &[],
    failing_puts: &[],
    failing_calls: &[],
};

/// How a run ended, what is left of the input, what was written, the journal's disk, the store and
/// the fleet.
#[derive(Drop)]
struct EndedRun<D> {
    status: Status,
    source: MemSource,
    sink: MemSink,
    disk: D,
    volumes: MemVolumes,
    fleet: Fleet,
}

fn served_in(
    rt: &HostRuntime,
    setting: &Setting,
    words: &[String],
    lines: &[u8],
) -> Result<EndedRun<MemDisk>, Fail>
    ensures { IfOk result (λ run. AllAreIn run.fleet) }
{
    served_over(rt, setting, words, lines, Fleet::empty(rt.alloc()))
}

/// The same, over a fleet that another run has left.
fn served_over(
    rt: &HostRuntime,
    setting: &Setting,
    words: &[String],
    lines: &[u8],
    fleet: Fleet,
) -> Result<EndedRun<MemDisk>, Fail>
    requires { AllAreIn fleet }
    ensures { IfOk result (λ run. AllAreIn run.fleet) }
{
    let disk = MemDisk::new(rt.alloc(), &[], DISK_ROOM, &[])?;
    served_on(rt, setting, words, lines, disk, fleet)
}

/// The same, over the disk of a journal, too.
fn served_on<D: Disk + Drop>(
    rt: &HostRuntime,
    setting: &Setting,
    words: &[String],
    lines: &[u8],
    disk: D,
    fleet: Fleet,
) -> Result<EndedRun<D>, Fail>
    requires { AllAreIn fleet }
    ensures { IfOk result (λ run. AllAreIn run.fleet) }
{
    let alloc = rt.alloc();
    let piece = setting.piece.max(1);
    let mut source = MemSource::new(alloc, lines, piece, setting.failing_reads)?;
    let mut sink = MemSink::new(alloc, 1 << 12, setting.failing_puts)?;
    let devices = Devices {
        disk,
        volumes: MemVolumes::new(alloc, 90, setting.failing_calls)?,
    };
    let outcome = migrate(
        rt,
        alloc,
        words,
        &mut source,
        &mut sink,
        devices,
        fleet,
        &Open,
    );
    let Outcome {
        status,
        disk,
        volumes,
        fleet,
    } = outcome;
    Ok(EndedRun {
        status,
        source,
        sink,
        disk,
        volumes,
        fleet,
    })
}

fn served(rt: &HostRuntime, lines: &str) -> Result<EndedRun<MemDisk>, Fail>
    ensures { IfOk result (λ run. AllAreIn run.fleet) }
{
    served_in(rt, &SOUND, &[], lines.as_bytes())
}

fn held<D>(run: &EndedRun<D>) -> &[u8] {
    run.sink.held()
}

/// The sectors of the volume `t`, from the first on.
fn read_back(alloc: Global, mut store: MemVolumes) -> Result<[Sector; 256], Fail> {
    let name = VolumeName::Given(Name::of(alloc, "t")?);
    let mut volume = store.open(&name, 256)?;
    let mut sectors = [Sector::filled(1); 256];
    volume.read(0, &mut sectors)?;
    Ok(sectors)
}

#[test]
fn a_move_fills_its_volume(rt: HostRuntime) -> Result<(), Fail> {
    let run = served(&rt, MOVE)?;
    assert_eq!(rt; held(&run), MOVED.as_bytes());
    assert_eq!(rt; run.status, Status::Ok);
    let mut expected = [Sector::filled(0); 256];
    expected[5] = Sector::filled(171);
    assert!(rt; read_back(rt.alloc(), run.volumes)? == expected);
    Ok(())
}

#[test]
fn a_move_without_writes_gives_zeros_and_takes_its_name(rt: HostRuntime) -> Result<(), Fail> {
    let lines = "{\"cmd\":\"move\",\"name\":\"t\",\"sectors\":256,\"writes\":[]}\n\
                 {\"cmd\":\"move\",\"name\":\"t\",\"sectors\":256,\"writes\":[]}\n";
    let run = served(&rt, lines)?;
    let whole = "{\"ok\":true,\"state\":\"complete\",\"writes\":0,\"written\":256}\n\
                 {\"error\":\"name-taken\",\"ok\":false}\n";
    assert_eq!(rt; held(&run), whole.as_bytes());
    assert!(rt; read_back(rt.alloc(), run.volumes)? == [Sector::filled(0); 256]);
    Ok(())
}

#[test]
fn a_line_has_one_reply_and_a_blank_one_none(rt: HostRuntime) -> Result<(), Fail> {
    let run = served(&rt, "x\n\n{\"cmd\":\"fly\"}\n \t\r\n{\"cmd\":\"move\"}")?;
    let whole = "{\"error\":\"json\",\"ok\":false}\n\
                 {\"error\":\"command\",\"ok\":false}\n\
                 {\"error\":\"field\",\"name\":\"name\",\"ok\":false}\n";
    assert_eq!(rt; held(&run), whole.as_bytes());
    assert_eq!(rt; run.status, Status::Ok);
    Ok(())
}

#[test]
fn a_number_out_of_its_range_is_told_by_its_name(rt: HostRuntime) -> Result<(), Fail> {
    let line = "{\"cmd\":\"move\",\"name\":\"t\",\"sectors\":18446744073709551616,\"writes\":[]}";
    let run = served(&rt, line)?;
    let whole = "{\"error\":\"number\",\"name\":\"sectors\",\"ok\":false}\n";
    assert_eq!(rt; held(&run), whole.as_bytes());
    Ok(())
}

#[test]
fn nothing_is_answered_behind_a_line_that_asks_to_quit(rt: HostRuntime) -> Result<(), Fail> {
    let lines = "{\"cmd\":\"quit\",\"x\":1}\n{\"cmd\":\"quit\"}\nx\n";
    let run = served(&rt, lines)?;
    let whole = "{\"error\":\"field\",\"name\":\"x\",\"ok\":false}\n{\"ok\":true}\n";
    assert_eq!(rt; held(&run), whole.as_bytes());
    assert_eq!(rt; run.status, Status::Ok);
    Ok(())
}

#[test]
fn nothing_is_read_behind_a_line_that_asks_to_quit(rt: HostRuntime) -> Result<(), Fail> {
    let setting = Setting {
        piece: 15,
        failing_reads: &[2],
        ..SOUND
    };
    let run = served_in(
        &rt,
        &setting,
        &[],
        b"{\"cmd\":\"quit\"}\n{\"cmd\":\"quit\"}",
    )?;
    assert_eq!(rt; held(&run), b"{\"ok\":true}\n".as_slice());
    assert_eq!(rt; run.status, Status::Ok);
    assert_eq!(rt; run.source.faults(), 0);
    Ok(())
}

#[test]
fn a_write_behind_the_end_is_refused_before_its_sum(rt: HostRuntime) -> Result<(), Fail> {
    let line = "{\"cmd\":\"move\",\"name\":\"t\",\"sectors\":256,\"writes\":[[200,57,9]]}";
    let run = served(&rt, line)?;
    assert_eq!(rt;
        held(&run),
        b"{\"error\":\"range\",\"ok\":false}\n".as_slice()
    );
    Ok(())
}

#[test]
fn a_failing_store_is_told_and_the_next_line_answered(rt: HostRuntime) -> Result<(), Fail> {
    let setting = Setting {
        failing_calls: &[1],
        ..SOUND
    };
    let exchanges = [
        (MOVE.trim_end(), FAILED.trim_end()),
        ("x", r#"{"error":"json","ok":false}"#),
    ];
    let lines = lines_of(rt.alloc(), &exchanges)?;
    let run = served_in(&rt, &setting, &[], lines.as_bytes())?;
    assert_eq!(rt; held(&run), replies_of(rt.alloc(), &exchanges)?.as_bytes());
    assert_eq!(rt; run.status, Status::Ok);
    assert_eq!(rt; run.volumes.faults(), 1);
    Ok(())
}

#[test]
fn an_input_in_pieces_is_the_same_input(rt: HostRuntime) -> Result<(), Fail> {
    let setting = Setting { piece: 5, ..SOUND };
    let run = served_in(&rt, &setting, &[], MOVE.trim_end().as_bytes())?;
    assert_eq!(rt; held(&run), MOVED.as_bytes());
    assert_eq!(rt; run.status, Status::Ok);
    Ok(())
}

#[test]
fn a_line_that_a_fault_cuts_has_no_reply(rt: HostRuntime) -> Result<(), Fail> {
    let setting = Setting {
        piece: 5,
        failing_reads: &[3],
        ..SOUND
    };
    let run = served_in(&rt, &setting, &[], MOVE.as_bytes())?;
    assert_eq!(rt; held(&run), b"".as_slice());
    assert_eq!(rt; run.status, Status::ReadFault);
    assert_eq!(rt; run.status.code(), 2);
    Ok(())
}

#[test]
fn the_replies_to_lines_before_a_fault_are_written(rt: HostRuntime) -> Result<(), Fail> {
    let setting = Setting {
        piece: 5,
        failing_reads: &[2],
        ..SOUND
    };
    let run = served_in(&rt, &setting, &[], b"a\nb\nc\n")?;
    let two = "{\"error\":\"json\",\"ok\":false}\n{\"error\":\"json\",\"ok\":false}\n";
    assert_eq!(rt; held(&run), two.as_bytes());
    assert_eq!(rt; run.status, Status::ReadFault);
    Ok(())
}

#[test]
fn no_byte_is_read_behind_a_line_that_has_no_reply_yet(rt: HostRuntime) -> Result<(), Fail> {
    let setting = Setting {
        piece: 2,
        failing_reads: &[2],
        failing_puts: &[1],
        ..SOUND
    };
    let mut run = served_in(&rt, &setting, &[], b"a\nb\n")?;
    assert_eq!(rt; run.status, Status::WriteFault);
    assert_eq!(rt; run.source.faults(), 0);
    let mut rest = [0; 4];
    assert_eq!(rt; run.source.read(&mut rest), Err(Failed));
    assert_eq!(rt; run.source.read(&mut rest), Ok(2));
    assert_eq!(rt; rest, *b"b\n\0\0");
    Ok(())
}

#[test]
fn a_failing_put_ends_the_run(rt: HostRuntime) -> Result<(), Fail> {
    let setting = Setting {
        failing_puts: &[2],
        ..SOUND
    };
    let run = served_in(&rt, &setting, &[], b"a\nb\nc\n")?;
    assert_eq!(rt;
        held(&run),
        b"{\"error\":\"json\",\"ok\":false}\n{\"error\":\"json".as_slice()
    );
    assert_eq!(rt; run.status, Status::WriteFault);
    assert_eq!(rt; run.status.code(), 4);
    Ok(())
}

#[test]
fn a_word_is_refused_before_any_line_is_read(rt: HostRuntime) -> Result<(), Fail> {
    let option = String::from_str(rt.alloc(), "--limit")?;
    let value = String::from_str(rt.alloc(), "0")?;
    let words = vec![in rt.alloc(); option, value]?;
    let run = served_in(&rt, &SOUND, &words, MOVE.as_bytes())?;
    assert_eq!(rt;
        held(&run),
        b"usage: warm_migrate [--limit N] [--rig N]\n".as_slice()
    );
    assert_eq!(rt; run.status, Status::Usage);
    assert_eq!(rt; run.status.code(), 1);
    Ok(())
}

/// A move, with spaces behind it up to a length.
fn padded(alloc: Global, length: usize) -> Result<Vec<u8>, NoMemory> {
    let mut line = MOVE.trim_end().as_bytes().to_vec(alloc)?;
    line.resize(length, b' ')?;
    Ok(line)
}

#[test]
fn a_line_may_have_two_to_the_twentieth_bytes(rt: HostRuntime) -> Result<(), Fail> {
    let longest = padded(rt.alloc(), 1 << 20)?;
    let run = served_in(&rt, &SOUND, &[], &longest)?;
    assert_eq!(rt; held(&run), MOVED.as_bytes());
    let too_long = padded(rt.alloc(), (1 << 20) + 1)?;
    let run = served_in(&rt, &SOUND, &[], &too_long)?;
    assert_eq!(rt; held(&run), LONG.as_bytes());
    Ok(())
}

/// The line of a move of 256 sectors to `u`, with so many writes of the most sectors.
fn long_move(alloc: Global, count: u64) -> Result<String, NoMemory> {
    let head = "{\"cmd\":\"move\",\"name\":\"u\",\"sectors\":256,\"writes\":[";
    let mut line = String::from_str(alloc, head)?;
    let mut comma = "";
    for _ in 0..count {
        line.push_str(comma)?;
        line.push_str("[0,128,1]")?;
        comma = ",";
    }
    line.push_str("]}\n")?;
    Ok(line)
}

#[test]
fn a_move_has_at_most_two_to_the_sixteenth_sectors_written(rt: HostRuntime) -> Result<(), Fail> {
    let most = long_move(rt.alloc(), 512)?;
    let run = served(&rt, most.as_str())?;
    let moved = "{\"ok\":true,\"state\":\"complete\",\"writes\":512,\"written\":256}\n";
    assert_eq!(rt; held(&run), moved.as_bytes());
    let more = long_move(rt.alloc(), 513)?;
    let run = served(&rt, more.as_str())?;
    assert_eq!(rt; held(&run), LOG_FULL.as_bytes());
    Ok(())
}

/// Each range of sectors of a disk that has three, and one that is none.
const RANGES: [(u64, u64); 7] = [(0, 1), (0, 2), (0, 3), (1, 1), (1, 2), (2, 1), (0, 0)];

/// The ranges that are some, filled with 1, 2 and so on.
fn writes_over(alloc: Global, ranges: &[(u64, u64)]) -> Result<Vec<(u64, u64, u8)>, NoMemory> {
    let mut writes = Vec::new(alloc);
    let mut fill = 0u8;
    for (first, count) in ranges {
        if *count > 0 {
            fill = fill.saturating_add(1);
            writes.push((*first, *count, fill))?;
        }
    }
    Ok(writes)
}

/// The line of a move of three sectors.
fn line_of(alloc: Global, writes: &[(u64, u64, u8)]) -> Result<String, Fail> {
    let mut line = String::from_str(
        alloc,
        "{\"cmd\":\"move\",\"name\":\"t\",\"sectors\":3,\"writes\":[",
    )?;
    let mut comma = "";
    for (first, count, fill) in writes {
        let write = format!(in alloc; "{comma}[{first},{count},{fill}]")?;
        line.push_str(write.as_str())?;
        comma = ",";
    }
    line.push_str("]}\n")?;
    Ok(line)
}

/// What the writes leave of a sector: the byte of the last one that has it.
fn byte_at(writes: &[(u64, u64, u8)], sector: u64) -> u8 {
    let mut byte = 0;
    for (first, count, fill) in writes {
        if *first <= sector && sector < first.saturating_add(*count) {
            byte = *fill;
        }
    }
    byte
}

fn moved(rt: &HostRuntime, writes: &[(u64, u64, u8)]) -> Result<[Sector; 3], Fail> {
    let alloc = rt.alloc();
    let line = line_of(alloc, writes)?;
    let run = served(rt, line.as_str())?;
    let mut store = run.volumes;
    let name = VolumeName::Given(Name::of(alloc, "t")?);
    let mut volume = store.open(&name, 3)?;
    let mut sectors = [Sector::filled(1); 3];
    volume.read(0, &mut sectors)?;
    Ok(sectors)
}

#[test]
fn every_few_writes_of_a_small_disk_are_moved(rt: HostRuntime) -> Result<(), Fail> {
    for a in RANGES {
        for b in RANGES {
            for c in RANGES {
                let writes = writes_over(rt.alloc(), &[a, b, c])?;
                let expected = [
                    Sector::filled(byte_at(&writes, 0)),
                    Sector::filled(byte_at(&writes, 1)),
                    Sector::filled(byte_at(&writes, 2)),
                ];
                assert!(rt; moved(&rt, &writes)? == expected);
            }
        }
    }
    Ok(())
}
