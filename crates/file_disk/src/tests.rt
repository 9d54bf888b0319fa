//! A file as a disk: it is made by the first call, keeps its bytes, and an error is a fault.
use crate::{Disk, Failed, FileDisk, NamedFile};
use std::fs;
use std::test::Fail;

const NAME: &str = "file_disk_test.journal";

/// Writes to a disk, cuts it and syncs it, and reads it from the second byte on.
fn use_once<D: Disk>(disk: &mut D) -> Result<[u8; 4], Failed> {
    let mut bytes = [b'.'; 4];
    disk.write_at(0, b"abcdefgh")?;
    disk.write_at(2, b"XY")?;
    disk.cut(5)?;
    disk.sync()?;
    disk.read(1, &mut bytes)?;
    Ok(bytes)
}

#[test]
fn a_file_is_made_by_the_first_call_and_keeps_its_bytes(rt: HostRuntime) -> Result<(), Fail> {
    let _ = fs::remove_file(&rt, NAME);
    let mut disk = FileDisk::new(NamedFile::new(&rt, NAME));
    assert!(rt; fs::metadata(&rt, NAME).is_err());
    assert_eq!(rt; disk.length(), Ok(0));
    assert_eq!(rt; use_once(&mut disk), Ok(*b"bXYe"));
    let mut again = FileDisk::new(NamedFile::new(&rt, NAME));
    assert_eq!(rt; again.length(), Ok(5));
    assert_eq!(rt; disk.faults(), 0);
    // Only one byte is there.
    assert_eq!(rt; disk.read(4, &mut [0; 2]), Err(Failed));
    assert_eq!(rt; disk.faults(), 1);
    fs::remove_file(&rt, NAME)?;
    Ok(())
}

#[test]
fn each_call_on_a_folder_is_a_fault(rt: HostRuntime) {
    let mut disk = FileDisk::new(NamedFile::new(&rt, "."));
    assert_eq!(rt; disk.length(), Err(Failed));
    assert_eq!(rt; disk.read(0, &mut [0]), Err(Failed));
    assert_eq!(rt; disk.write_at(0, b"a"), Err(Failed));
    assert_eq!(rt; disk.cut(0), Err(Failed));
    assert_eq!(rt; disk.sync(), Err(Failed));
    assert_eq!(rt; disk.faults(), 5);
}
