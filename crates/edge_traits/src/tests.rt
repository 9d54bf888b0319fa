//! Sources, sinks and disks in memory: what they hold, which calls fail, and what a crash may
//! leave.
ghost use Rattle.std.specs.Prelude.{◌≡◌, ◌<◌, length, OnOk, OnErr};
ghost use Rattle.std.specs.Io.KnownBytes.{Appends};
ghost use Rattle.basics.specs.Faults.{HasCause};

use crate::{Disk, Failed, MemDisk, MemSink, MemSource, Pick, Sink, Source, StopDisk};
use std::alloc::Global;
use std::process::Abort;
use std::test::Fail;

fn first<S: Source>(source: &mut S, buf: &mut [u8]) -> Result<usize, Failed>
    requires { 0 < length buf.old }
    ensures { HasCause (S.state source.old).faults (S.state source.new).faults result }
{
    source.read(buf)
}

fn put_into<S: Sink>(sink: &mut S, bytes: &[u8]) -> Result<(), Failed>
    ensures whole { OnOk result
        (Appends (S.state sink.old).held (S.state sink.new).held bytes.now) }
    ensures cause { HasCause (S.state sink.old).faults (S.state sink.new).faults result }
{
    sink.put(bytes)
}

fn sync_it<D: Disk>(disk: &mut D) -> Result<(), Failed>
    ensures kept { OnErr result ((D.state disk.new).contents ≡ (D.state disk.old).contents) }
    ensures cause { HasCause (D.state disk.old).faults (D.state disk.new).faults result }
{
    disk.sync()
}

fn faults_of<D: Disk>(disk: &D) -> u64
    ensures { result ≡ (D.state disk.now).faults }
{
    disk.faults()
}

/// What the disk holds, at most 16 bytes of it.
fn read_all(rt: &impl Abort, alloc: Global, disk: MemDisk) -> Result<Vec<u8>, Fail> {
    let mut disk = disk;
    let length = disk.length().or(Err("no length"))? as usize;
    assert!(rt; length <= 16);
    let mut bytes = vec![in alloc; 0; length]?;
    disk.read(0, &mut bytes).or(Err("not read"))?;
    Ok(bytes)
}

#[test]
fn a_source_gives_pieces_and_goes_on_after_a_failure(rt: HostRuntime) -> Result<(), Fail> {
    let mut source = MemSource::new(rt.alloc(), b"Hello, world", 5, &[3])?;
    let mut buf = [b'.'; 8];
    assert_eq!(rt; first(&mut source, &mut buf), Ok(5));
    assert_eq!(rt; &buf, b"Hello...");
    assert_eq!(rt; source.read(&mut buf[..3]), Ok(3));
    assert_eq!(rt; &buf, b", wlo...");
    assert_eq!(rt; source.read(&mut buf), Err(Failed));
    assert_eq!(rt; &buf, b", wlo...");
    assert_eq!(rt; source.faults(), 1);
    assert_eq!(rt; source.read(&mut buf), Ok(4));
    assert_eq!(rt; &buf, b"orldo...");
    assert_eq!(rt; source.read(&mut buf), Ok(0));
    assert_eq!(rt; source.faults(), 1);
    Ok(())
}

#[test]
fn a_sink_keeps_half_of_a_failed_put_and_none_past_its_room(rt: HostRuntime) -> Result<(), Fail> {
    let mut sink = MemSink::new(rt.alloc(), 10, &[2, 3])?;
    assert_eq!(rt; put_into(&mut sink, b"abcd"), Ok(()));
    assert_eq!(rt; sink.put(b"efghi"), Err(Failed));
    assert_eq!(rt; sink.held(), b"abcdef".as_slice());
    assert_eq!(rt; sink.faults(), 1);
    assert_eq!(rt; sink.put(b"vwxyz"), Err(Failed));
    assert_eq!(rt; sink.held(), b"abcdef".as_slice());
    assert_eq!(rt; sink.faults(), 2);
    assert_eq!(rt; sink.put(b"wxyz"), Ok(()));
    assert_eq!(rt; sink.held(), b"abcdefwxyz".as_slice());
    assert_eq!(rt; sink.faults(), 2);
    Ok(())
}

#[test]
fn a_disk_keeps_what_is_written_and_cut(rt: HostRuntime) -> Result<(), Fail> {
    let mut disk = MemDisk::new(rt.alloc(), b"abcdef", 200, &[])?;
    assert_eq!(rt; disk.write_at(4, b"XYZ"), Ok(()));
    assert_eq!(rt; disk.cut(5), Ok(()));
    assert_eq!(rt; disk.length(), Ok(5));
    let bytes = read_all(&rt, rt.alloc(), disk)?;
    assert_eq!(rt; bytes.as_slice(), b"abcdX".as_slice());
    Ok(())
}

#[test]
fn calls_that_were_named_fail_and_change_nothing(rt: HostRuntime) -> Result<(), Fail> {
    let mut disk = MemDisk::new(rt.alloc(), b"abcd", 200, &[1, 3])?;
    assert_eq!(rt; disk.write_at(0, b"X"), Err(Failed));
    assert_eq!(rt; sync_it(&mut disk), Ok(()));
    assert_eq!(rt; sync_it(&mut disk), Err(Failed));
    assert_eq!(rt; faults_of(&disk), 2);
    let bytes = read_all(&rt, rt.alloc(), disk)?;
    assert_eq!(rt; bytes.as_slice(), b"abcd".as_slice());
    Ok(())
}

#[test]
fn a_call_past_the_room_fails(rt: HostRuntime) -> Result<(), Fail> {
    let mut disk = MemDisk::new(rt.alloc(), b"abcd", 70, &[])?;
    assert_eq!(rt; disk.write_at(4, b"ef"), Ok(()));
    assert_eq!(rt; disk.write_at(6, b"g"), Err(Failed));
    assert_eq!(rt; disk.cut(0), Ok(()));
    assert_eq!(rt; disk.sync(), Err(Failed));
    assert_eq!(rt; disk.faults(), 2);
    assert_eq!(rt; disk.length(), Ok(0));
    Ok(())
}

#[test]
fn images_are_old_new_or_mixed(rt: HostRuntime) -> Result<(), Fail> {
    let mut disk = MemDisk::new(rt.alloc(), b"abcd", 200, &[])?;
    assert_eq!(rt; disk.write_at(2, b"XYZ"), Ok(()));
    let old = read_all(&rt, rt.alloc(), disk.image(Pick::Old)?)?;
    assert_eq!(rt; old.as_slice(), b"abcd".as_slice());
    let new = read_all(&rt, rt.alloc(), disk.image(Pick::New)?)?;
    assert_eq!(rt; new.as_slice(), b"abXYZ".as_slice());
    let mixed = read_all(&rt, rt.alloc(), disk.image(Pick::Mixed(0))?)?;
    assert_eq!(rt; mixed.as_slice(), b"ab\x66\x62\x8f".as_slice());
    Ok(())
}

#[test]
fn a_sync_leaves_one_image(rt: HostRuntime) -> Result<(), Fail> {
    let mut disk = MemDisk::new(rt.alloc(), b"abcd", 200, &[])?;
    assert_eq!(rt; disk.write_at(1, b"XY"), Ok(()));
    assert_eq!(rt; disk.cut(3), Ok(()));
    assert_eq!(rt; disk.sync(), Ok(()));
    let old = read_all(&rt, rt.alloc(), disk.image(Pick::Old)?)?;
    assert_eq!(rt; old.as_slice(), b"aXY".as_slice());
    let mixed = read_all(&rt, rt.alloc(), disk.image(Pick::Mixed(7))?)?;
    assert_eq!(rt; mixed.as_slice(), b"aXY".as_slice());
    Ok(())
}

#[test]
fn a_stop_leaves_half_of_a_write(rt: HostRuntime) -> Result<(), Fail> {
    let inner = MemDisk::new(rt.alloc(), b"abcd", 200, &[])?;
    let mut disk = StopDisk::new(inner, 2);
    assert_eq!(rt; sync_it(&mut disk), Ok(()));
    assert_eq!(rt; disk.write_at(0, b"WXYZ"), Err(Failed));
    assert_eq!(rt; disk.length(), Err(Failed));
    assert_eq!(rt; sync_it(&mut disk), Err(Failed));
    assert_eq!(rt; faults_of(&disk), 3);
    let new = read_all(&rt, rt.alloc(), disk.into_inner())?;
    assert_eq!(rt; new.as_slice(), b"WXcd".as_slice());
    Ok(())
}

#[test]
fn a_cut_at_the_stop_does_nothing(rt: HostRuntime) -> Result<(), Fail> {
    let inner = MemDisk::new(rt.alloc(), b"abcd", 200, &[])?;
    let mut disk = StopDisk::new(inner, 1);
    assert_eq!(rt; disk.length(), Ok(4));
    assert_eq!(rt; disk.cut(1), Err(Failed));
    let left = read_all(&rt, rt.alloc(), disk.into_inner())?;
    assert_eq!(rt; left.as_slice(), b"abcd".as_slice());
    Ok(())
}
