//! Names, texts, numbers in their order, and the counts of calls and faults.
use crate::{Calls, Failed, Name, NumberList, Sequence, Text, is_name};
use std::test::Fail;

#[test]
fn the_calls_that_were_named_fail_and_are_counted(rt: HostRuntime) -> Result<(), Fail> {
    let mut calls = Calls::new(vec![in rt.alloc(); 2, 4]?);
    assert_eq!(rt; calls.next(), Ok(()));
    assert_eq!(rt; calls.next(), Err(Failed));
    assert_eq!(rt; calls.fail(), Failed);
    assert_eq!(rt; calls.next(), Err(Failed));
    assert_eq!(rt; calls.next(), Ok(()));
    calls.add_faults(5);
    assert_eq!(rt; calls.faults(), 8);
    Ok(())
}

#[test]
fn names_are_in_the_order_of_their_bytes(rt: HostRuntime) -> Result<(), Fail> {
    let short = Name::of(rt.alloc(), "a")?;
    let long = Name::of(rt.alloc(), "aa")?;
    let last = Name::of(rt.alloc(), "b")?;
    assert!(rt; short < long);
    assert!(rt; long < last);
    assert!(rt; short.clone()? == short);
    assert_eq!(rt; long.as_str(), "aa");
    Ok(())
}

#[test]
fn names_have_letters_digits_and_hyphens_alone(rt: HostRuntime) {
    let names = [
        "a",
        "z",
        "0",
        "9",
        "-",
        "vm-1",
        "abcdefghijklmnopqrstuvwxyz012345",
    ];
    for name in names {
        assert!(rt; is_name(name.as_bytes()), "{name}");
    }
    let others = [
        "",
        "A",
        "a b",
        "m1.d0",
        "ä",
        "{",
        "/",
        ":",
        "abcdefghijklmnopqrstuvwxyz0123456",
    ];
    for other in others {
        assert!(rt; !is_name(other.as_bytes()), "{other}");
    }
}

#[test]
fn a_list_of_numbers_keeps_them_in_order(rt: HostRuntime) -> Result<(), Fail> {
    let list = NumberList::of(rt.alloc(), &[3, 1, 3]).or(Err("no memory"))?;
    assert_eq!(rt; list.as_slice(), [3, 1, 3].as_slice());
    let same = NumberList::of(rt.alloc(), &[3, 1, 3]).or(Err("no memory"))?;
    assert!(rt; list == same);
    let other = NumberList::of(rt.alloc(), &[3, 3, 1]).or(Err("no memory"))?;
    assert!(rt; list != other);
    let list = NumberList::from_vec(vec![in rt.alloc(); 7]?);
    assert_eq!(rt; list.clone()?.as_slice(), [7].as_slice());
    Ok(())
}

#[test]
fn texts_and_sequences_are_what_they_were_made_of(rt: HostRuntime) -> Result<(), Fail> {
    let text = Text::of(rt.alloc(), "")?;
    assert_eq!(rt; text.as_str(), "");
    let text = Text::of(rt.alloc(), "a \"name\" that is none")?;
    assert_eq!(rt; text.as_str(), "a \"name\" that is none");
    let sequence = Sequence::from_vec(vec![in rt.alloc(); 2, 1, 2]?);
    assert_eq!(rt; sequence.as_slice(), [2, 1, 2].as_slice());
    Ok(())
}

#[test]
fn counts_end(rt: HostRuntime) -> Result<(), Fail> {
    let mut calls = Calls::new(vec![in rt.alloc(); 0, 1]?);
    calls.add_faults(u64::MAX);
    assert_eq!(rt; calls.next(), Err(Failed));
    assert_eq!(rt; calls.faults(), u64::MAX);
    let longest = Name::of(rt.alloc(), "abcdefghijklmnopqrstuvwxyz012345")?;
    assert_eq!(rt; longest.as_str().len(), 32);
    Ok(())
}
