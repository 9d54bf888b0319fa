//! Volumes and stores in memory: what they hold, which calls fail, that a name is taken once and a
//! volume lent once.
ghost use Rattle.std.specs.Prelude.{◌≤◌, length};

use crate::{MemVolumes, Name, StoreRefused, Volume, VolumeFailed, VolumeName, VolumeStore};
use basics::MAX_NAME_BYTES;
use sector_model::{NoMemory, Sector};
use std::alloc::Global;
use std::test::Fail;

fn given(alloc: Global, text: &str) -> Result<VolumeName, NoMemory>
    requires some { 1 ≤ length text.now }
    requires few { length text.now ≤ MAX_NAME_BYTES }
{
    let name = Name::of(alloc, text).map_err(|_| NoMemory)?;
    Ok(VolumeName::Given(name))
}

#[test]
fn a_new_volume_is_full_of_the_junk_byte(rt: HostRuntime) -> Result<(), Fail> {
    let mut store = MemVolumes::new(rt.alloc(), 90, &[])?;
    let name = given(rt.alloc(), "t")?;
    let mut volume = store.create(&name, 2)?;
    let mut sectors = [Sector::filled(1); 2];
    volume.read(0, &mut sectors)?;
    assert_eq!(rt; sectors, [Sector::filled(90); 2]);
    Ok(())
}

#[test]
fn what_is_written_and_zeroed_is_read(rt: HostRuntime) -> Result<(), Fail> {
    let mut store = MemVolumes::new(rt.alloc(), 90, &[])?;
    let name = given(rt.alloc(), "t")?;
    let mut volume = store.create(&name, 2)?;
    volume.write(0, &[Sector::filled(7)])?;
    volume.zero(1, 1)?;
    volume.flush()?;
    let mut sectors = [Sector::filled(1); 2];
    volume.read(0, &mut sectors)?;
    assert_eq!(rt; sectors, [Sector::filled(7), Sector::filled(0)]);
    Ok(())
}

#[test]
fn a_name_is_taken_once(rt: HostRuntime) -> Result<(), Fail> {
    let mut store = MemVolumes::new(rt.alloc(), 0, &[])?;
    let name = given(rt.alloc(), "t")?;
    assert_eq!(rt; store.size(&name)?, None);
    let volume = store.create(&name, 3)?;
    assert_eq!(rt; volume.capacity(), 3);
    assert_eq!(rt; store.size(&name)?, Some(3));
    assert_eq!(rt; store.create(&name, 3).err(), Some(StoreRefused::Exists));
    Ok(())
}

#[test]
fn a_volume_is_lent_once(rt: HostRuntime) -> Result<(), Fail> {
    let mut store = MemVolumes::new(rt.alloc(), 0, &[])?;
    let name = VolumeName::Disk { mig: 1, disk: 0 };
    assert_eq!(rt; store.open(&name, 0).err(), Some(StoreRefused::Failed));
    let _volume = store.create(&name, 0)?;
    assert_eq!(rt; store.open(&name, 0).err(), Some(StoreRefused::Failed));
    assert_eq!(rt; store.faults(), 2);
    assert_eq!(rt; StoreRefused::Failed.number(), Some(2));
    Ok(())
}

/// Call k of the first volume has the number 2^32 + k.
#[test]
fn the_calls_that_were_named_fail(rt: HostRuntime) -> Result<(), Fail> {
    let mut store = MemVolumes::new(rt.alloc(), 0, &[2, (1 << 32) + 2])?;
    let name = given(rt.alloc(), "t")?;
    let mut volume = store.create(&name, 1)?;
    volume.flush()?;
    assert_eq!(rt; volume.flush(), Err(VolumeFailed));
    assert_eq!(rt; volume.faults(), 1);
    assert_eq!(rt; store.size(&name), Err(VolumeFailed));
    assert_eq!(rt; store.faults(), 1);
    Ok(())
}
