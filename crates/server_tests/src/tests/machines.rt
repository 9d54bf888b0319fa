//! The commands on hosts and machines, over `migrate`: each test is one input with its replies.
use super::{SOUND, Setting, held, served, served_in, served_over};
use basics::NoMemory;
use migrate_server::Status;
use std::alloc::Global;
use std::test::Fail;

/// A line of an input, and the line that answers it.
pub(crate) type Exchange = (&'static str, &'static str);

pub(crate) const HOST: Exchange = (r#"{"cmd":"host","name":"h"}"#, r#"{"ok":true}"#);

pub(crate) const SMALL: Exchange = (
    r#"{"cmd":"vm","name":"a","host":"h","disks":[256]}"#,
    r#"{"number":1,"ok":true}"#,
);

/// The lines of an input.
pub(crate) fn lines_of(alloc: Global, exchanges: &[Exchange]) -> Result<String, NoMemory> {
    let mut lines = String::new(alloc);
    for (line, _) in exchanges {
        lines.push_str(line)?;
        lines.push_str("\n")?;
    }
    Ok(lines)
}

/// Their replies.
pub(crate) fn replies_of(alloc: Global, exchanges: &[Exchange]) -> Result<String, NoMemory> {
    let mut replies = String::new(alloc);
    for (_, reply) in exchanges {
        replies.push_str(reply)?;
        replies.push_str("\n")?;
    }
    Ok(replies)
}

#[test]
fn a_last_short_block_is_an_area(rt: HostRuntime) -> Result<(), Fail> {
    let exchanges = [
        HOST,
        (
            r#"{"cmd":"vm","name":"a","host":"h","disks":[200]}"#,
            r#"{"number":1,"ok":true}"#,
        ),
        (
            r#"{"cmd":"write","vm":"a","disk":0,"first":199,"count":1,"fill":1}"#,
            r#"{"ok":true}"#,
        ),
        (
            r#"{"cmd":"snapshot","vm":"a"}"#,
            r#"{"ids":[null],"ok":true,"snapshot":1}"#,
        ),
        (
            r#"{"cmd":"query","vm":"a","snapshot":1,"disk":0,"since":"*","start":0}"#,
            r#"{"areas":[[65536,36864]],"id":null,"length":102400,"ok":true,"start":0}"#,
        ),
    ];
    let run = served(&rt, lines_of(rt.alloc(), &exchanges)?.as_str())?;
    assert_eq!(rt; held(&run), replies_of(rt.alloc(), &exchanges)?.as_bytes());
    assert_eq!(rt; run.status, Status::Ok);
    Ok(())
}

/// Two snapshots of a machine whose changes are tracked, with a write on each side of the border of
/// two blocks between them.
const TRACKED: [Exchange; 7] = [
    HOST,
    SMALL,
    (r#"{"cmd":"enable","vm":"a"}"#, r#"{"ok":true}"#),
    (
        r#"{"cmd":"snapshot","vm":"a"}"#,
        r#"{"ids":["00000001-0000-0000-0000-000000000000/1"],"ok":true,"snapshot":1}"#,
    ),
    (
        r#"{"cmd":"write","vm":"a","disk":0,"first":127,"count":1,"fill":1}"#,
        r#"{"ok":true}"#,
    ),
    (
        r#"{"cmd":"write","vm":"a","disk":0,"first":128,"count":1,"fill":1}"#,
        r#"{"ok":true}"#,
    ),
    (
        r#"{"cmd":"snapshot","vm":"a"}"#,
        r#"{"ids":["00000001-0000-0000-0000-000000000000/2"],"ok":true,"snapshot":2}"#,
    ),
];

/// Queries of what changed between them and later, and behind a reset.
const QUERIES: [Exchange; 10] = [
    (
        concat!(
            r#"{"cmd":"query","vm":"a","snapshot":2,"disk":0,"#,
            r#""since":"00000001-0000-0000-0000-000000000000/1","start":0}"#
        ),
        concat!(
            r#"{"areas":[[0,131072]],"id":"00000001-0000-0000-0000-000000000000/2","#,
            r#""length":131072,"ok":true,"start":0}"#
        ),
    ),
    (
        concat!(
            r#"{"cmd":"query","vm":"a","snapshot":2,"disk":0,"#,
            r#""since":"00000001-0000-0000-0000-000000000000/2","start":0}"#
        ),
        concat!(
            r#"{"areas":[],"id":"00000001-0000-0000-0000-000000000000/2","#,
            r#""length":131072,"ok":true,"start":0}"#
        ),
    ),
    (
        concat!(
            r#"{"cmd":"query","vm":"a","snapshot":2,"disk":0,"#,
            r#""since":"00000001-0000-0000-0000-000000000000/2","start":131072}"#
        ),
        r#"{"error":"range","ok":false}"#,
    ),
    (
        concat!(
            r#"{"cmd":"query","vm":"a","snapshot":2,"disk":0,"#,
            r#""since":"00000001-0000-0000-0000-000000000000/2","start":100}"#
        ),
        r#"{"error":"number","name":"start","ok":false}"#,
    ),
    (
        r#"{"cmd":"snapshot","vm":"a"}"#,
        r#"{"ids":["00000001-0000-0000-0000-000000000000/3"],"ok":true,"snapshot":3}"#,
    ),
    (
        concat!(
            r#"{"cmd":"query","vm":"a","snapshot":3,"disk":0,"#,
            r#""since":"00000001-0000-0000-0000-000000000000/7","start":0}"#
        ),
        r#"{"error":"strange","id":"00000001-0000-0000-0000-000000000000/3","ok":false}"#,
    ),
    (r#"{"cmd":"reset","vm":"a","disk":0}"#, r#"{"ok":true}"#),
    (
        concat!(
            r#"{"cmd":"query","vm":"a","snapshot":2,"disk":0,"#,
            r#""since":"00000001-0000-0000-0000-000000000000/1","start":0}"#
        ),
        r#"{"error":"strange","id":null,"ok":false}"#,
    ),
    (
        r#"{"cmd":"query","vm":"a","snapshot":2,"disk":0,"since":"*","start":0}"#,
        concat!(
            r#"{"areas":[[0,131072]],"id":"00000001-0000-0000-0000-000000000000/2","#,
            r#""length":131072,"ok":true,"start":0}"#
        ),
    ),
    (
        r#"{"cmd":"snapshot","vm":"a"}"#,
        r#"{"ids":["00000001-0000-0000-0000-000000000001/1"],"ok":true,"snapshot":4}"#,
    ),
];

#[test]
fn changes_are_told_since_an_identifier_until_a_reset(rt: HostRuntime) -> Result<(), Fail> {
    let alloc = rt.alloc();
    let mut lines = lines_of(alloc, &TRACKED)?;
    lines.push_str(lines_of(alloc, &QUERIES)?.as_str())?;
    let mut replies = replies_of(alloc, &TRACKED)?;
    replies.push_str(replies_of(alloc, &QUERIES)?.as_str())?;
    let run = served(&rt, lines.as_str())?;
    assert_eq!(rt; held(&run), replies.as_bytes());
    assert_eq!(rt; run.status, Status::Ok);
    Ok(())
}

/// The line of a query since a text.
fn query_since(alloc: Global, since: &str) -> Result<String, NoMemory> {
    let head = r#"{"cmd":"query","vm":"a","snapshot":1,"disk":0,"start":0,"since":""#;
    let mut line = String::from_str(alloc, head)?;
    line.push_str(since)?;
    line.push_str("\"}\n")?;
    Ok(line)
}

/// Texts that are no identifier, and what is wrong with each of them.
const NO_IDENTIFIERS: [(&str, &str); 8] = [
    ("", "form"),
    ("/1", "uuid"),
    ("0000000A-0000-0000-0000-000000000000/1", "uuid"),
    ("00000001-0000-0000-0000-000000000000/", "number"),
    ("00000001-0000-0000-0000-000000000000/01", "number"),
    ("00000001-0000-0000-0000-000000000000/0", "number"),
    (
        "00000001-0000-0000-0000-000000000000/18446744073709551616",
        "number",
    ),
    ("**", "form"),
];

#[test]
fn a_text_that_is_no_identifier_is_told_by_its_cause(rt: HostRuntime) -> Result<(), Fail> {
    let alloc = rt.alloc();
    let exchanges = [HOST, SMALL];
    let mut lines = lines_of(alloc, &exchanges)?;
    let mut replies = replies_of(alloc, &exchanges)?;
    for (since, cause) in NO_IDENTIFIERS {
        lines.push_str(query_since(alloc, since)?.as_str())?;
        replies.push_str(r#"{"cause":""#)?;
        replies.push_str(cause)?;
        replies.push_str(r#"","error":"since","ok":false}"#)?;
        replies.push_str("\n")?;
    }
    let last = "00000001-0000-0000-0000-000000000000/18446744073709551615";
    lines.push_str(query_since(alloc, last)?.as_str())?;
    replies.push_str("{\"error\":\"unknown-snapshot\",\"ok\":false}\n")?;
    let run = served(&rt, lines.as_str())?;
    assert_eq!(rt; held(&run), replies.as_bytes());
    Ok(())
}

#[test]
fn a_removed_snapshot_is_unknown_and_leaves_the_disk(rt: HostRuntime) -> Result<(), Fail> {
    let exchanges = [
        HOST,
        SMALL,
        (
            r#"{"cmd":"write","vm":"a","disk":0,"first":5,"count":1,"fill":1}"#,
            r#"{"ok":true}"#,
        ),
        (
            r#"{"cmd":"snapshot","vm":"a"}"#,
            r#"{"ids":[null],"ok":true,"snapshot":1}"#,
        ),
        (
            r#"{"cmd":"write","vm":"a","disk":0,"first":5,"count":1,"fill":2}"#,
            r#"{"ok":true}"#,
        ),
        (
            r#"{"cmd":"read","vm":"a","disk":0,"first":4,"count":2,"snapshot":1}"#,
            r#"{"ok":true,"sectors":[0,1]}"#,
        ),
        (
            r#"{"cmd":"remove","vm":"a","snapshot":1}"#,
            r#"{"ok":true}"#,
        ),
        (
            r#"{"cmd":"read","vm":"a","disk":0,"first":5,"count":1}"#,
            r#"{"ok":true,"sectors":[2]}"#,
        ),
        (
            r#"{"cmd":"remove","vm":"a","snapshot":1}"#,
            r#"{"error":"unknown-snapshot","ok":false}"#,
        ),
    ];
    let run = served(&rt, lines_of(rt.alloc(), &exchanges)?.as_str())?;
    assert_eq!(rt; held(&run), replies_of(rt.alloc(), &exchanges)?.as_bytes());
    Ok(())
}

/// A text with spaces behind it up to a length.
fn spaced(alloc: Global, text: &str, length: usize) -> Result<Vec<u8>, NoMemory> {
    let mut line = text.as_bytes().to_vec(alloc)?;
    line.resize(length, b' ')?;
    Ok(line)
}

#[test]
fn lines_are_refused_by_what_they_are(rt: HostRuntime) -> Result<(), Fail> {
    let alloc = rt.alloc();
    let exchanges = [
        ("x", r#"{"error":"json","ok":false}"#),
        (r#"{"cmd":"fly"}"#, r#"{"error":"command","ok":false}"#),
        (
            r#"{"cmd":"host"}"#,
            r#"{"error":"field","name":"name","ok":false}"#,
        ),
        (
            r#"{"cmd":"host","name":"h","limit":18446744073709551616}"#,
            r#"{"error":"number","name":"limit","ok":false}"#,
        ),
    ];
    let mut input = lines_of(alloc, &exchanges)?.as_bytes().to_vec(alloc)?;
    input.extend_from_slice(&spaced(alloc, "", (1 << 20) + 1)?)?;
    input.extend_from_slice(b"\n")?;
    input.extend_from_slice(&spaced(alloc, r#"{"cmd":"inventory"}"#, 1 << 20)?)?;
    input.extend_from_slice(b"\n\n{\"cmd\":\"quit\"}")?;
    let mut replies = replies_of(alloc, &exchanges)?;
    replies.push_str("{\"error\":\"long\",\"ok\":false}\n")?;
    replies.push_str("{\"hosts\":[],\"ok\":true,\"vms\":[]}\n{\"ok\":true}\n")?;
    let run = served_in(&rt, &SOUND, &[], &input)?;
    assert_eq!(rt; held(&run), replies.as_bytes());
    assert_eq!(rt; run.status, Status::Ok);
    Ok(())
}

#[test]
fn a_machine_that_is_off_is_not_written(rt: HostRuntime) -> Result<(), Fail> {
    let exchanges = [
        HOST,
        SMALL,
        (
            r#"{"cmd":"power","vm":"a","on":true}"#,
            r#"{"error":"already-on","ok":false}"#,
        ),
        (r#"{"cmd":"power","vm":"a","on":false}"#, r#"{"ok":true}"#),
        (
            r#"{"cmd":"power","vm":"a","on":false}"#,
            r#"{"error":"already-off","ok":false}"#,
        ),
        (
            r#"{"cmd":"write","vm":"a","disk":0,"first":5,"count":1,"fill":1}"#,
            r#"{"error":"off","ok":false}"#,
        ),
        (
            r#"{"cmd":"vm","name":"b","host":"h","disks":[]}"#,
            r#"{"error":"bad-size","ok":false}"#,
        ),
        (
            r#"{"cmd":"vm","name":"b","host":"g","disks":[]}"#,
            r#"{"error":"unknown-host","ok":false}"#,
        ),
        (
            r#"{"cmd":"enable","vm":"b"}"#,
            r#"{"error":"unknown-vm","ok":false}"#,
        ),
    ];
    let run = served(&rt, lines_of(rt.alloc(), &exchanges)?.as_str())?;
    assert_eq!(rt; held(&run), replies_of(rt.alloc(), &exchanges)?.as_bytes());
    Ok(())
}

#[test]
fn there_are_at_most_sixty_four_hosts(rt: HostRuntime) -> Result<(), Fail> {
    let alloc = rt.alloc();
    let mut lines = String::new(alloc);
    let mut replies = String::new(alloc);
    for place in 0..65u32 {
        let line = format!(in alloc; "{{\"cmd\":\"host\",\"name\":\"h{place}\"}}\n")?;
        lines.push_str(line.as_str())?;
        let reply = if place < 64 {
            r#"{"ok":true}"#
        } else {
            r#"{"error":"too-many","ok":false}"#
        };
        replies.push_str(reply)?;
        replies.push_str("\n")?;
    }
    let run = served(&rt, lines.as_str())?;
    assert_eq!(rt; held(&run), replies.as_bytes());
    Ok(())
}

#[test]
fn disks_of_many_gibibytes_are_sparse(rt: HostRuntime) -> Result<(), Fail> {
    let exchanges = [
        HOST,
        (
            r#"{"cmd":"vm","name":"a","host":"h","disks":[83886080,209715200]}"#,
            r#"{"number":1,"ok":true}"#,
        ),
        (
            r#"{"cmd":"write","vm":"a","disk":0,"first":2048,"count":8,"fill":1}"#,
            r#"{"ok":true}"#,
        ),
        (
            r#"{"cmd":"snapshot","vm":"a"}"#,
            r#"{"ids":[null,null],"ok":true,"snapshot":1}"#,
        ),
        (
            r#"{"cmd":"query","vm":"a","snapshot":1,"disk":0,"since":"*","start":0}"#,
            r#"{"areas":[[1048576,65536]],"id":null,"length":42949672960,"ok":true,"start":0}"#,
        ),
    ];
    let run = served(&rt, lines_of(rt.alloc(), &exchanges)?.as_str())?;
    assert_eq!(rt; held(&run), replies_of(rt.alloc(), &exchanges)?.as_bytes());
    Ok(())
}

#[test]
fn a_reply_is_cut_where_its_put_fails(rt: HostRuntime) -> Result<(), Fail> {
    let setting = Setting {
        failing_puts: &[2],
        ..SOUND
    };
    let lines = lines_of(rt.alloc(), &[HOST, HOST])?;
    let run = served_in(&rt, &setting, &[], lines.as_bytes())?;
    assert_eq!(rt;
        held(&run),
        b"{\"ok\":true}\n{\"error\":\"name-ta".as_slice()
    );
    assert_eq!(rt; run.status, Status::WriteFault);
    Ok(())
}

#[test]
fn a_second_call_goes_on_with_the_fleet(rt: HostRuntime) -> Result<(), Fail> {
    let alloc = rt.alloc();
    let first = [
        HOST,
        SMALL,
        (
            r#"{"cmd":"write","vm":"a","disk":0,"first":5,"count":1,"fill":1}"#,
            r#"{"ok":true}"#,
        ),
    ];
    let run = served(&rt, lines_of(alloc, &first)?.as_str())?;
    assert_eq!(rt; held(&run), replies_of(alloc, &first)?.as_bytes());
    let second = [
        (
            r#"{"cmd":"inventory"}"#,
            concat!(
                r#"{"hosts":[{"limit":20,"name":"h"}],"ok":true,"vms":[{"disks":[256],"#,
                r#""host":"h","name":"a","number":1,"on":true,"tracking":false}]}"#
            ),
        ),
        (
            r#"{"cmd":"read","vm":"a","disk":0,"first":5,"count":1}"#,
            r#"{"ok":true,"sectors":[1]}"#,
        ),
        (HOST.0, r#"{"error":"name-taken","ok":false}"#),
    ];
    let lines = lines_of(alloc, &second)?;
    let run = served_over(&rt, &SOUND, &[], lines.as_bytes(), run.fleet)?;
    assert_eq!(rt; held(&run), replies_of(alloc, &second)?.as_bytes());
    Ok(())
}
