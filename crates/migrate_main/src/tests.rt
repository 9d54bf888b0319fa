//! The streams as source and sink, the exit statuses 0 to 6, and the limit of an input.
ghost use Rattle.std.specs.Prelude.{◌≡◌};

use crate::input::StandardInput;
use crate::output::StandardOutput;
use crate::run::run;
use edge_traits::{Failed, MemDisk, Sink, Source};
use std::io::{self, Error, ErrorKind, Read, Write};
use std::test::Fail;

/// A reader and writer that refuses each call.
#[derive(Drop)]
struct Broken;

impl Read for Broken {
    fn read(&mut self, _buf: &mut [u8]) -> io::Result<usize> {
        Err(Error::from(ErrorKind::Other))
    }
}

impl Write for Broken {
    fn write(&mut self, _buf: &[u8]) -> io::Result<usize> {
        Err(Error::from(ErrorKind::Other))
    }

    fn flush(&mut self) -> io::Result<()> {
        Ok(())
    }
}

/// A writer that takes at most three bytes a call, and none once it took ten.
#[derive(Drop)]
struct Narrow {
    taken: usize,
}

impl Write for Narrow {
    fn write(&mut self, buf: &[u8]) -> io::Result<usize> {
        let count = buf.len().min(3).min(10usize.saturating_sub(self.taken));
        self.taken = self.taken.saturating_add(count);
        Ok(count)
    }

    fn flush(&mut self) -> io::Result<()> {
        Ok(())
    }
}

/// A writer that keeps what it was given, and refuses to flush it.
#[derive(Drop)]
struct Unflushed<'a> {
    held: &'a mut Vec<u8>,
}

impl Write for Unflushed<'_> {
    fn write(&mut self, buf: &[u8]) -> io::Result<usize> {
        self.held.write(buf)
    }

    fn flush(&mut self) -> io::Result<()> {
        Err(Error::from(ErrorKind::Other))
    }
}

/// A reader of one line without an LF, which has so many bytes, each of them 0.
#[derive(Drop)]
struct Zeros {
    left: u64,
}

impl Read for Zeros {
    /// The buffer of the server begins with zeros, and nothing else is ever read into it.
    fn read(&mut self, buf: &mut [u8]) -> io::Result<usize> {
        let count = (buf.len() as u64).min(self.left) as usize;
        self.left = self.left.saturating_sub(count as u64);
        Ok(count)
    }
}

fn first<S: Source>(source: &mut S) -> (Result<usize, Failed>, [u8; 8]) {
    let mut buf = [b'.'; 8];
    (source.read(&mut buf), buf)
}

fn put_twice<K: Sink>(sink: &mut K) -> (Result<(), Failed>, Result<(), Failed>) {
    (sink.put(b"abcdefgh"), sink.put(b"ijklm"))
}

/// The exit status of the program without words, for a reader, a writer and a disk without a byte.
fn exit_of<R: Read + Drop, W: Write + Drop>(
    rt: &HostRuntime,
    reader: R,
    writer: W,
) -> Result<u8, Fail> {
    let disk = MemDisk::new(rt.alloc(), &[], 1000, &[])?;
    Ok(exit_over(rt, reader, writer, disk))
}

/// The same, over the disk of a journal.
fn exit_over<R: Read + Drop, W: Write + Drop>(
    rt: &HostRuntime,
    reader: R,
    writer: W,
    disk: MemDisk,
) -> u8 {
    let mut input = StandardInput::new(reader);
    let mut output = StandardOutput::new(writer);
    run(rt, rt.alloc(), &[], &mut input, &mut output, disk).code
}

#[test]
fn a_reader_is_read_to_its_end(rt: HostRuntime) {
    let mut input = StandardInput::new(b"Hello, world".as_slice());
    assert_eq!(rt; first(&mut input), (Ok(8), *b"Hello, w"));
    assert_eq!(rt; first(&mut input), (Ok(4), *b"orld...."));
    assert_eq!(rt; first(&mut input).0, Ok(0));
    assert_eq!(rt; input.faults(), 0);
}

#[test]
fn a_refusal_of_the_reader_is_a_fault(rt: HostRuntime) {
    let mut input = StandardInput::new(Broken);
    assert_eq!(rt; first(&mut input).0, Err(Failed));
    assert_eq!(rt; first(&mut input).0, Err(Failed));
    assert_eq!(rt; input.faults(), 2);
}

#[test]
fn all_is_written_in_order(rt: HostRuntime) -> Result<(), Fail> {
    let mut held = Vec::new(rt.alloc());
    let mut output = StandardOutput::new(&mut held);
    assert_eq!(rt; put_twice(&mut output), (Ok(()), Ok(())));
    assert_eq!(rt; output.faults(), 0);
    assert_eq!(rt; held.as_slice(), b"abcdefghijklm".as_slice());
    Ok(())
}

#[test]
fn a_writer_that_takes_no_more_is_a_fault(rt: HostRuntime) {
    let mut output = StandardOutput::new(Narrow { taken: 0 });
    assert_eq!(rt; put_twice(&mut output), (Ok(()), Err(Failed)));
    assert_eq!(rt; output.faults(), 1);
}

#[test]
fn a_refusal_of_the_writer_is_a_fault(rt: HostRuntime) {
    let mut output = StandardOutput::new(Broken);
    assert_eq!(rt; put_twice(&mut output), (Err(Failed), Err(Failed)));
    assert_eq!(rt; output.faults(), 2);
}

#[test]
fn a_put_flushes_what_it_wrote(rt: HostRuntime) -> Result<(), Fail> {
    let mut held = Vec::new(rt.alloc());
    let mut output = StandardOutput::new(Unflushed { held: &mut held });
    assert_eq!(rt; output.put(b"abc"), Err(Failed));
    assert_eq!(rt; output.faults(), 1);
    assert_eq!(rt; held.as_slice(), b"abc".as_slice());
    Ok(())
}

#[test]
fn a_word_is_refused_by_the_usage_line(rt: HostRuntime) -> Result<(), Fail> {
    let words = vec![in rt.alloc(); String::from_str(rt.alloc(), "--help")?]?;
    let mut held = Vec::new(rt.alloc());
    let mut input = StandardInput::new(b"{\"cmd\":\"fly\"}\n".as_slice());
    let mut output = StandardOutput::new(&mut held);
    let disk = MemDisk::new(rt.alloc(), &[], 1000, &[])?;
    let exit = run(&rt, rt.alloc(), &words, &mut input, &mut output, disk);
    assert_eq!(rt; exit.code, 1);
    assert_eq!(rt;
        held.as_slice(),
        b"usage: warm_migrate [--limit N] [--rig N]\n".as_slice()
    );
    Ok(())
}

#[test]
fn streams_that_end_or_fail_have_their_exit_status(rt: HostRuntime) -> Result<(), Fail> {
    assert_eq!(rt; exit_of(&rt, b"".as_slice(), Broken)?, 0);
    assert_eq!(rt; exit_of(&rt, Broken, Broken)?, 2);
    assert_eq!(rt; exit_of(&rt, b"{\"cmd\":\"fly\"}\n".as_slice(), Broken)?, 4);
    Ok(())
}

#[test]
fn a_journal_that_cannot_be_opened_ends_the_program(rt: HostRuntime) -> Result<(), Fail> {
    let strange = MemDisk::new(rt.alloc(), b"0123456789", 1000, &[])?;
    assert_eq!(rt; exit_over(&rt, Broken, Broken, strange), 5);
    let failing = MemDisk::new(rt.alloc(), &[], 1000, &[1])?;
    assert_eq!(rt; exit_over(&rt, Broken, Broken, failing), 3);
    Ok(())
}

#[test]
fn an_input_may_have_two_to_the_twenty_eighth_bytes(rt: HostRuntime) -> Result<(), Fail> {
    let mut held = Vec::new(rt.alloc());
    assert_eq!(rt; exit_of(&rt, Zeros { left: 1 << 28 }, &mut held)?, 0);
    assert_eq!(rt;
        held.as_slice(),
        b"{\"error\":\"long\",\"ok\":false}\n".as_slice()
    );
    Ok(())
}

#[test]
fn one_byte_more_ends_the_program(rt: HostRuntime) -> Result<(), Fail> {
    let left = (1 << 28) + 1;
    assert_eq!(rt; exit_of(&rt, Zeros { left }, Broken)?, 6);
    Ok(())
}
