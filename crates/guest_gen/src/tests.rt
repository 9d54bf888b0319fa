//! The first numbers and writes of known seeds, and writes at the end of their disk.
ghost use Rattle.std.specs.Prelude.{◌≡◌, ◌∷◌, []};
ghost use Rattle.basics.specs.Generator.{advance};
ghost use Rattle.guest_gen.specs.Script.{offered};

use crate::{GuestScript, GuestWrite};
use std::test::Fail;

/// The first numbers from seed 0, and the first write on one disk of 256 sectors.
fn first_numbers_of_seed_zero()
    ensures one { advance 0 ≡ 1442695040888963407 }
    ensures two { advance 1442695040888963407 ≡ 1876011003808476466 }
    ensures three { advance 1876011003808476466 ≡ 11166244414315200793 }
    ensures write { offered 0 1 (256 ∷ [])
        ≡ record { disk = 0; first = 8; count = 2; stamp = 11166244414315200793 } ∷ [] }
{}

#[test]
fn seed_zero_gives_the_known_write(rt: HostRuntime) -> Result<(), Fail> {
    first_numbers_of_seed_zero();
    let mut script = GuestScript::new(rt.alloc(), 0, 1, &[256])?;
    let write = GuestWrite {
        disk: 0,
        first: 8,
        count: 2,
        stamp: 11166244414315200793,
    };
    assert_eq!(rt; script.next(), Some(write));
    assert_eq!(rt;
        write.stamp.to_be_bytes(),
        [0x9a, 0xf6, 0x78, 0x22, 0x2e, 0x72, 0x81, 0x19]
    );
    assert_eq!(rt; script.next(), None);
    assert_eq!(rt; script.next(), None);
    Ok(())
}

// What a program in another language computed: two small disks, of which the third write meets an
// end, and a large one beside one of a single sector.
#[test]
fn writes_are_clipped_at_the_end_of_their_disk(rt: HostRuntime) -> Result<(), Fail> {
    let mut script = GuestScript::new(rt.alloc(), 7, 4, &[5, 9])?;
    for (disk, first, count, stamp) in [
        (0, 1, 2, 16723372171710603212),
        (1, 1, 4, 2553420073753464661),
        (0, 4, 1, 18102185400360351090),
        (0, 0, 4, 10314390376128247603),
    ] {
        let write = GuestWrite {
            disk,
            first,
            count,
            stamp,
        };
        assert_eq!(rt; script.next(), Some(write));
    }
    assert_eq!(rt; script.next(), None);
    let mut script = GuestScript::new(rt.alloc(), u64::MAX, 3, &[1, 1 << 29])?;
    let _first_two = (script.next(), script.next());
    let third = GuestWrite {
        disk: 1,
        first: 314691223,
        count: 1,
        stamp: 2321725666317092618,
    };
    assert_eq!(rt; script.next(), Some(third));
    Ok(())
}
