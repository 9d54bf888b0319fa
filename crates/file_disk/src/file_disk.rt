//! A disk over the calls on a file.
ghost use Rattle.std.specs.Prelude.{◌≡◌, IsErr, MatchResult};
ghost use Rattle.basics.specs.Faults.{HasCause, counted_by};

use crate::FileCalls;
use edge_traits::{Disk, Failed};
use std::io;
use std::marker::Model;

/// A disk that is a file. It tells what the file tells. Each error of the file is a fault, and
/// nothing else is.
#[derive(Drop)]
pub struct FileDisk<F> {
    file: F,
    faults: u64,
}

impl<F> Model for FileDisk<F> {
    ghost use Rattle.file_disk.specs.FileDisk.{FileDiskState};

    ghost Value = { FileDiskState F };

    ghost view = { λ d. record { file = d.file; faults = d.faults } };
}

impl<F> FileDisk<F> {
    /// The disk that is this file. It hasn't failed yet, and nothing is asked of the file.
    pub fn new(file: F) -> FileDisk<F>
        ensures file { result.file ≡ file }
        ensures faults { result.faults ≡ 0 }
    {
        FileDisk { file, faults: 0 }
    }

    /// What a call answers where its file answered this: an error is one fault.
    fn counted<T: Drop>(&mut self, answer: io::Result<T>) -> Result<T, Failed>
        ensures file { self.new.file ≡ self.old.file }
        ensures result { MatchResult answer (λ value. result ≡ Ok value)
            (λ error. IsErr result) }
        ensures faults { MatchResult answer (λ value. self.new.faults ≡ self.old.faults)
            (λ error. self.new.faults ≡ counted_by 1 self.old.faults) }
        ensures cause { HasCause self.old.faults self.new.faults result }
    {
        match answer {
            Ok(value) => Ok(value),
            Err(_) => {
                self.faults = self.faults.saturating_add(1);
                Err(Failed)
            }
        }
    }
}

impl<F: FileCalls> Disk for FileDisk<F> {
    ghost state = { λ d. record { contents = F.contents d.file; faults = d.faults } };

    fn length(&mut self) -> Result<u64, Failed> {
        let answer = self.file.length();
        self.counted(answer)
    }

    fn read(&mut self, at: u64, buf: &mut [u8]) -> Result<(), Failed> {
        let answer = self.file.read_whole(at, buf);
        self.counted(answer)
    }

    fn write_at(&mut self, at: u64, bytes: &[u8]) -> Result<(), Failed> {
        let answer = self.file.write_whole(at, bytes);
        self.counted(answer)
    }

    fn cut(&mut self, len: u64) -> Result<(), Failed> {
        let answer = self.file.cut(len);
        self.counted(answer)
    }

    fn sync(&mut self) -> Result<(), Failed> {
        let answer = self.file.sync();
        self.counted(answer)
    }

    fn faults(&self) -> u64 {
        self.faults
    }
}
