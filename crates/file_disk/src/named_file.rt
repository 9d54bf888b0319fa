//! A file of the current folder.
ghost use Rattle.std.specs.Prelude.{◌≡◌, None};

use crate::FileCalls;
use std::fs::{File, Files, OpenOptions};
use std::io;
use std::marker::Model;
use std::os::fd::AsRawFd;
use std::os::unix::fs::FileExt;

/// Descriptors up to this one are the standard streams of a process.
const LAST_STREAM: i32 = 2;

/// The file of this name in the current folder. The first call opens it, and makes it where it is
/// missing. A call that can't open it answers why, and the next one tries again.
///
/// It stands for its name. It tells nothing of what it holds, since that is up to the system.
#[derive(Drop)]
pub struct NamedFile<'a, R: Files<File = File>> {
    files: &'a R,
    name: &'a str,
    open: Option<File>,
}

impl<'a, R: Files<File = File>> Model for NamedFile<'a, R> {
    ghost use Rattle.std.specs.Prelude.{ℕ, List};

    ghost Value = { List ℕ };

    ghost view = { λ file. file.name.now };
}

impl<'a, R: Files<File = File>> NamedFile<'a, R> {
    /// The file of this name. Nothing is opened yet.
    pub fn new(files: &'a R, name: &'a str) -> NamedFile<'a, R>
        ensures { result ≡ name.now }
    {
        NamedFile {
            files,
            name,
            open: None,
        }
    }

    /// The file, opened once.
    fn opened(&mut self) -> io::Result<&File> {
        if self.open.is_none() {
            self.open = Some(open_or_make(self.files, self.name)?);
        }
        self.open.as_ref().ok_or(io::ErrorKind::NotFound.into())
    }
}

/// Opens a file of the current folder to read and write it, makes it where it is missing, and syncs
/// the folder. It does that also where the file was there: the process that made it may have been
/// stopped before its sync.
fn open_or_make<R: Files<File = File>>(files: &R, name: &str) -> io::Result<File> {
    let file = OpenOptions::new()
        .read(true)
        .write(true)
        .create(true)
        .open(files, name)?;
    let file = above_streams(file)?;
    File::open(files, ".")?.sync_all()?;
    Ok(file)
}

/// The same file under a descriptor that is none of a standard stream's. Where one of these was
/// closed when the program began, the file may have got its number, and with it what is meant for
/// that stream.
fn above_streams(file: File) -> io::Result<File> {
    if file.as_raw_fd() <= LAST_STREAM {
        return file.try_clone();
    }
    Ok(file)
}

impl<'a, R: Files<File = File>> FileCalls for NamedFile<'a, R> {
    ghost contents = { λ file. None };

    fn length(&mut self) -> io::Result<u64> {
        Ok(self.opened()?.metadata()?.len())
    }

    fn read_whole(&mut self, at: u64, buf: &mut [u8]) -> io::Result<()> {
        self.opened()?.read_exact_at(buf, at)
    }

    fn write_whole(&mut self, at: u64, bytes: &[u8]) -> io::Result<()> {
        self.opened()?.write_all_at(bytes, at)
    }

    fn cut(&mut self, len: u64) -> io::Result<()> {
        self.opened()?.set_len(len)
    }

    fn sync(&mut self) -> io::Result<()> {
        self.opened()?.sync_data()
    }
}
