//! The definitions on small disks and volumes, and runs, areas, pages and lists of sectors.
ghost use Rattle.std.specs.Prelude.{◌≡◌, ◌≤◌, ◌*◌, ◌<◌, List, [], ◌∷◌, ℕ, All, Some, None, true, false};
ghost use Rattle.std.specs.List.Sorted.{IsStrictlyIncreasing};
ghost use Rattle.sector_model.specs.Sector.{filled, zero_sector};
ghost use Rattle.sector_model.specs.Disk.{fold_writes};
ghost use Rattle.sector_model.specs.Run.{touched_blocks, met_blocks, areas_of, complement_of, next_run, end_of};
ghost use Rattle.sector_model.specs.Page.{page_from};
ghost use Rattle.sector_model.specs.VolumeContents.{volume_written, volume_zeroed, volume_flushed, volume_stopped};

use crate::{
    Page, Run, Runs, Sector, SectorList, broken_volumes, folds_join, loose_sectors_after,
    pages_join, pages_lie_within, runs_are_exact, touched_blocks_are_met, volume_stops,
    volumes_keep_their_size,
};
use basics::SECTOR_BYTES;
use std::process::Abort;
use std::test::Fail;

/// The definitions on small disks. The proof computes them.
fn definitions_on_small_disks()
    // The later of two writes stands, up to the last sector.
    ensures fold { fold_writes 3 (record { first = 0; sectors = filled 1 ∷ filled 2 ∷ [] }
        ∷ record { first = 1; sectors = filled 3 ∷ filled 4 ∷ [] } ∷ [])
        ≡ filled 1 ∷ filled 3 ∷ filled 4 ∷ [] }
    ensures fold_none { fold_writes 2 [] ≡ zero_sector ∷ zero_sector ∷ [] }
    // A write across two blocks, one up to the last sector, and none.
    ensures across { touched_blocks 129
        (record { first = 127; sectors = filled 1 ∷ filled 1 ∷ [] } ∷ []) ≡ 0 ∷ 1 ∷ [] }
    ensures last { touched_blocks 129
        (record { first = 128; sectors = filled 1 ∷ [] } ∷ []) ≡ 1 ∷ [] }
    ensures one { touched_blocks 1 (record { first = 0; sectors = filled 1 ∷ [] } ∷ []) ≡ 0 ∷ [] }
    ensures none { touched_blocks 128 [] ≡ [] }
    // Blocks that runs meet: the last sector of one, the first of the next, and no sector at all.
    ensures met { met_blocks 384 (record { first = 127; count = 2 }
        ∷ record { first = 300; count = 0 } ∷ []) ≡ 0 ∷ 1 ∷ [] }
    ensures met_once { met_blocks 256 (record { first = 130; count = 1 }
        ∷ record { first = 128; count = 128 } ∷ []) ≡ 1 ∷ [] }
    // Areas at capacities around one block, and their complements.
    ensures whole { areas_of 128 (0 ∷ []) ≡ record { first = 0; count = 128 } ∷ [] }
    ensures short { areas_of 127 (0 ∷ []) ≡ record { first = 0; count = 127 } ∷ [] }
    ensures smallest { areas_of 1 (0 ∷ []) ≡ record { first = 0; count = 1 } ∷ [] }
    ensures joined { areas_of 129 (0 ∷ 1 ∷ []) ≡ record { first = 0; count = 129 } ∷ [] }
    ensures apart { areas_of 300 (0 ∷ 2 ∷ [])
        ≡ record { first = 0; count = 128 } ∷ record { first = 256; count = 44 } ∷ [] }
    ensures rest { complement_of 129 (record { first = 0; count = 128 } ∷ [])
        ≡ record { first = 128; count = 1 } ∷ [] }
    ensures all { complement_of 2 [] ≡ record { first = 0; count = 2 } ∷ [] }
    // From inside a run, and behind all.
    ensures inside { next_run 5 (record { first = 0; count = 8 } ∷ [])
        ≡ Some (record { first = 5; count = 3 }) }
    ensures behind { next_run 8 (record { first = 0; count = 8 } ∷ []) ≡ None }
    // A page whose start lies within an area.
    ensures page { page_from 256
        (record { first = 0; count = 128 } ∷ record { first = 200; count = 8 } ∷ []) 100
        ≡ record {
          start = 100;
          length = 156;
          areas = record { first = 100; count = 28 } ∷ record { first = 200; count = 8 } ∷ [];
        } }
{}

/// What a volume of three sectors holds after a write, a flush, a zeroing and a stop.
fn contents_of_a_small_volume()
    ensures written { volume_written 1 (filled 2 ∷ [])
        (record {
          sectors = filled 1 ∷ filled 1 ∷ filled 1 ∷ [];
          loose = false ∷ false ∷ true ∷ [];
        })
        ≡ record {
          sectors = filled 1 ∷ filled 2 ∷ filled 1 ∷ [];
          loose = false ∷ true ∷ true ∷ [];
        } }
    ensures zeroed { volume_zeroed 0 2
        (record { sectors = filled 1 ∷ filled 1 ∷ []; loose = false ∷ false ∷ [] })
        ≡ record { sectors = filled 0 ∷ filled 0 ∷ []; loose = true ∷ true ∷ [] } }
    ensures flushed { volume_flushed
        (record { sectors = filled 1 ∷ filled 2 ∷ []; loose = false ∷ true ∷ [] })
        ≡ record { sectors = filled 1 ∷ filled 2 ∷ []; loose = false ∷ false ∷ [] } }
    ensures stopped { volume_stopped (filled 8 ∷ filled 9 ∷ [])
        (record { sectors = filled 1 ∷ filled 2 ∷ filled 3 ∷ []; loose = true ∷ false ∷ true ∷ [] })
        ≡ record {
          sectors = filled 8 ∷ filled 2 ∷ filled 9 ∷ [];
          loose = true ∷ false ∷ true ∷ [];
        } }
{}

fn run(first: u64, count: u64) -> Run
    ensures { result ≡ record { first = first; count = count } }
{
    Run { first, count }
}

#[test]
fn the_definitions_compute_on_small_disks() {
    definitions_on_small_disks();
    folds_join();
    touched_blocks_are_met();
    runs_are_exact();
    pages_join();
    pages_lie_within();
}

#[test]
fn the_contents_of_a_volume_compute_on_three_sectors() {
    contents_of_a_small_volume();
    volumes_keep_their_size();
    volume_stops();
    loose_sectors_after();
    broken_volumes();
}

#[test]
fn runs_that_are_apart_are_copied(rt: HostRuntime) -> Result<(), Fail> {
    let runs = Runs::of(rt.alloc(), &[run(0, 128), run(129, 1)])?;
    assert_eq!(rt; runs.as_slice(), [run(0, 128), run(129, 1)].as_slice());
    assert_eq!(rt; runs.count(), 129);
    Ok(())
}

#[test]
fn areas_join_neighbours_and_are_clipped(rt: HostRuntime) -> Result<(), Fail> {
    let alloc = rt.alloc();
    let areas = Runs::from_blocks(alloc, &[0, 1, 3], 400)?;
    assert_eq!(rt; areas.as_slice(), [run(0, 256), run(384, 16)].as_slice());
    assert_eq!(rt; areas.count(), 272);
    let none = Runs::from_blocks(alloc, &[], 400)?;
    assert_eq!(rt; none.as_slice().len(), 0);
    let gaps = none.complement(alloc, 400)?;
    assert_eq!(rt; gaps.as_slice(), [run(0, 400)].as_slice());
    Ok(())
}

#[test]
fn the_next_run_begins_at_the_place_asked_for(rt: HostRuntime) -> Result<(), Fail> {
    let areas = Runs::from_blocks(rt.alloc(), &[0, 3], 1000)?;
    for (at, next) in [
        (0, Some(run(0, 128))),
        (5, Some(run(5, 123))),
        (127, Some(run(127, 1))),
        (128, Some(run(384, 128))),
        (500, Some(run(500, 12))),
        (512, None),
    ] {
        assert_eq!(rt; areas.next_from(at), next, "at {at}");
    }
    Ok(())
}

#[test]
fn a_page_takes_areas_and_is_emptied(rt: HostRuntime) -> Result<(), Fail> {
    let mut page = Page::new(rt.alloc())?;
    page.clear(100);
    page.push(run(100, 28));
    page.push(run(200, 8));
    page.cover(156);
    assert_eq!(rt; (page.start(), page.length()), (100, 156));
    assert_eq!(rt; page.areas(), [run(100, 28), run(200, 8)].as_slice());
    page.clear(256);
    assert_eq!(rt;
        (page.start(), page.length(), page.areas().len()),
        (256, 0, 0)
    );
    Ok(())
}

#[test]
fn a_stamp_repeats_big_endian(rt: HostRuntime) -> Result<(), Fail> {
    let sector = Sector::stamped(1442695040888963407);
    let expected = [0x14, 0x05, 0x7b, 0x7e, 0xf7, 0x67, 0x81, 0x4f];
    for i in 0..SECTOR_BYTES {
        assert_eq!(rt; sector.0[i], expected[i % 8], "byte {i}");
    }
    let list = SectorList::of(rt.alloc(), &[sector, Sector::filled(7)])?;
    assert_eq!(rt;
        list.as_slice(),
        [sector, Sector([7; SECTOR_BYTES])].as_slice()
    );
    Ok(())
}

#[test]
fn a_list_has_the_sectors_that_it_was_made_of(rt: HostRuntime) -> Result<(), Fail> {
    let single = SectorList::of(rt.alloc(), &[Sector::filled(3)])?;
    assert_eq!(rt; single.as_slice(), [Sector::filled(3)].as_slice());
    let none = SectorList::of(rt.alloc(), &[])?;
    assert_eq!(rt; none.as_slice().len(), 0);
    Ok(())
}
