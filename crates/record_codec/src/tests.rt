//! One record of each kind beside its bytes, and bodies that are no spelling.
use crate::{CodecRefused, IdList, Record, decode, encode, spelled_len};
use change_id::ChangeId;
use std::test::Fail;

/// One body of each kind. Those of a cancel, a pause, a cutover without a moment and a finished
/// copy are vectors of the format; the others were put together by hand from the table of kinds and
/// fields.
const BODIES: [&[u8]; 18] = [
    b"\x01\0\0\0\x01\x02p1\0\0\0\x3c\0\0\0\x02\0\0\0\x01\0\0\0\x02",
    b"\x02\0\0\0\x01\0\0\0\x02\0\0\0\x03\0\0\0\x04",
    b"\x03\0\0\0\x01\x02\0\0\0\0\x66\x32\x12\xa0",
    b"\x04\0\0\0\x01\0\0\0\x02\0\0\0\0\0\0\0\x03",
    b"\x05\0\0\0\x01\0\0\0\x01\0\0\0\x01\0\0\0\0\0\0\0\0\0\0\0\0\0\0\0\0\0\0\0\x07",
    b"\x06\0\0\0\x01",
    b"\x07\0\0\0\x01\0\0\0\0\0\0\0\x02\x01",
    b"\x08\0\0\0\x01\0\0\0\x0f",
    b"\x09\0\0\0\x01\0\0\0\0\0\0\0\0\0\0\x01\0",
    b"\x0a\0\0\0\x02\0\0\0\0\x66\x32\x12\xa0",
    b"\x0b\0\0\0\x01\0\0\0\x02",
    b"\x0c\0\0\0\x01\0\0\0\0\0\0\0\0\0",
    b"\x0d\0\0\0\x01\x01",
    b"\x0e\0\0\0\x01",
    b"\x0f\0\0\0\x01\0",
    b"\x10\0\0\0\x01\0\0\0\x03\0\0\0\0\0\0\0\x09\0\0\0\0\0\0\0\x08",
    b"\x11\0\0\0\x01",
    b"\x12\0\0\0\x01\0\0\0\0\0\0\0\0\x08",
];

/// The identifiers of two disks, put together by hand like the others.
const TWO_IDS: &[u8] = b"\x05\0\0\0\x01\0\0\0\x02\
    \0\0\0\0\0\0\0\0\0\0\0\0\0\0\0\x01\0\0\0\0\0\0\0\x07\
    \0\0\0\0\0\0\0\0\0\0\0\0\0\0\0\x02\0\0\0\0\0\0\0\x08";

/// Bodies that are the spelling of no record: no kind, an unknown one (0 and 19), a field that is
/// cut, a byte left over, a flag of 2, a rule that is broken (of a choice, a cutover, a final
/// snapshot, ends, a name, an interval), and a list that is cut.
const OTHERS: [&[u8]; 14] = [
    b"",
    b"\0",
    b"\x13\0\0\0\x01",
    b"\x11\0\0\x01",
    b"\x11\0\0\0\x01\0",
    b"\x0d\0\0\0\x01\x02",
    b"\x03\0\0\0\x01\x03\0\0\0\0\0\0\0\0",
    b"\x0c\0\0\0\x01\0\0\0\0\0\0\0\0\x01",
    b"\x10\0\0\0\x01\0\0\0\x03\0\0\0\0\0\0\0\x08\0\0\0\0\0\0\0\x08",
    b"\x12\0\0\0\x01\x01\0\0\0\0\0\0\0\x08",
    b"\x12\0\0\0\x01\x04\0\0\0\0\0\0\0\0",
    b"\x01\0\0\0\x01\x02P1\0\0\0\x3c\0\0\0\x01\0\0\0\x01",
    b"\x01\0\0\0\x01\x02p1\0\0\x27\x61\0\0\0\x01\0\0\0\x01",
    b"\x05\0\0\0\x01\0\0\0\x02\0\0\0\x01\0\0\0\0\0\0\0\0\0\0\0\0\0\0\0\0\0\0\0\x07",
];

#[test]
fn each_kind_is_read_and_written_back(rt: HostRuntime) -> Result<(), Fail> {
    for (at, body) in BODIES.iter().enumerate() {
        let kept = decode(rt.alloc(), body)?;
        assert_eq!(rt; kept.kind().byte() as usize, at + 1);
        assert_eq!(rt; spelled_len(&kept), body.len());
        let mut out = vec![in rt.alloc(); 0xff]?;
        encode(&kept, &mut out).or(Err("no memory"))?;
        assert_eq!(rt; &out[1..], *body, "{kept:?}");
    }
    Ok(())
}

#[test]
fn each_record_but_those_of_plans_is_of_a_migration(rt: HostRuntime) -> Result<(), Fail> {
    for (at, body) in BODIES.iter().enumerate() {
        let migration = match at + 1 {
            1 | 12 => None,
            10 => Some(2),
            _ => Some(1),
        };
        assert_eq!(rt;
            decode(rt.alloc(), body)?.migration(),
            migration,
            "{body:?}"
        );
    }
    Ok(())
}

#[test]
fn a_copy_has_the_same_bytes(rt: HostRuntime) -> Result<(), Fail> {
    for body in [BODIES[0], BODIES[4]] {
        let copy = decode(rt.alloc(), body)?.clone()?;
        let mut out = Vec::new(rt.alloc());
        encode(&copy, &mut out).or(Err("no memory"))?;
        assert_eq!(rt; out.as_slice(), body);
    }
    Ok(())
}

#[test]
fn a_list_of_identifiers_is_made_of_a_slice(rt: HostRuntime) -> Result<(), Fail> {
    let ids = [ChangeId { uuid: 1, seq: 7 }, ChangeId { uuid: 2, seq: 8 }];
    let stored = Record::IdsStored {
        mig: 1,
        ids: IdList::of(rt.alloc(), &ids).or(Err("no memory"))?,
    };
    let mut out = Vec::new(rt.alloc());
    encode(&stored, &mut out).or(Err("no memory"))?;
    assert_eq!(rt; out.as_slice(), TWO_IDS);
    Ok(())
}

#[test]
fn nothing_else_is_read(rt: HostRuntime) {
    for body in OTHERS {
        assert_eq!(rt;
            decode(rt.alloc(), body).err(),
            Some(CodecRefused::Bad),
            "{body:?}"
        );
    }
}

#[test]
fn refusals_have_numbers_and_texts(rt: HostRuntime) -> Result<(), Fail> {
    assert_eq!(rt; CodecRefused::Bad.number(), Some(1));
    assert_eq!(rt; CodecRefused::NoMemory.number(), None);
    let printed = format!(in rt.alloc(); "{}; {}", CodecRefused::Bad, CodecRefused::NoMemory)?;
    assert_eq!(rt;
        printed.as_str(),
        "the bytes are the spelling of no record; memory ran out"
    );
    Ok(())
}
