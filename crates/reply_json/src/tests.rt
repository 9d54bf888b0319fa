//! Each reply as its line, byte for byte.
use crate::{
    Area, Carried, CheckLine, GuestDone, HostLine, MigLine, Reply, Sequence, Text, VmLine,
    reply_line,
};
use basics::SECTOR_BYTES;
use change_id::{ChangeId, pack};
use std::alloc::Global;
use std::process::Abort;
use std::test::Fail;

// The reply's line stands after what was there, and is this text and a line feed.
fn shows(rt: &impl Abort, alloc: Global, reply: &Reply, text: &str) -> Result<(), Fail> {
    let mut wanted = Vec::from_slice(alloc, b"before;")?;
    wanted.extend_from_slice(text.as_bytes())?;
    wanted.push(b'\n')?;
    let mut out = Vec::from_slice(alloc, b"before;")?;
    reply_line(reply, &mut out)?;
    assert_eq!(rt; out.as_slice(), wanted.as_slice(), "{text}");
    Ok(())
}

fn number(number: u32) -> Reply {
    Reply::Number(number)
}

fn records(records: u64) -> Reply {
    Reply::Records(records)
}

#[test]
fn a_reply_may_have_nothing_to_say(rt: HostRuntime) -> Result<(), Fail> {
    let reply = Reply::Done;
    shows(&rt, rt.alloc(), &reply, r#"{"ok":true}"#)
}

#[test]
fn numbers_have_their_names(rt: HostRuntime) -> Result<(), Fail> {
    shows(&rt, rt.alloc(), &number(1), r#"{"number":1,"ok":true}"#)?;
    shows(&rt, rt.alloc(), &records(29), r#"{"ok":true,"records":29}"#)
}

#[test]
fn a_moved_volume_is_complete(rt: HostRuntime) -> Result<(), Fail> {
    let reply = Reply::Moved {
        writes: 1,
        written: 256,
    };
    let text = r#"{"ok":true,"state":"complete","writes":1,"written":256}"#;
    shows(&rt, rt.alloc(), &reply, text)
}

fn started(alloc: Global) -> Result<Reply, Fail> {
    Ok(Reply::Started(Sequence::from_vec(vec![in alloc; 1, 2]?)))
}

#[test]
fn started_migrations_are_listed(rt: HostRuntime) -> Result<(), Fail> {
    let reply = started(rt.alloc())?;
    shows(&rt, rt.alloc(), &reply, r#"{"migrations":[1,2],"ok":true}"#)
}

#[test]
fn a_digest_has_its_digits(rt: HostRuntime) -> Result<(), Fail> {
    let reply = Reply::Digest {
        digest: *b"0123456789abcdef0123456789abcdef0123456789abcdef0123456789abcdef",
        sectors: u64::MAX,
    };
    let text = concat!(
        r#"{"digest":"0123456789abcdef0123456789abcdef0123456789abcdef0123456789abcdef","#,
        r#""ok":true,"sectors":18446744073709551615}"#,
    );
    shows(&rt, rt.alloc(), &reply, text)
}

fn refused(alloc: Global, error: &str, carried: Carried) -> Result<Reply, Fail> {
    let error = Text::of(alloc, error)?;
    Ok(Reply::Refused { error, carried })
}

#[test]
fn a_refusal_may_carry_nothing(rt: HostRuntime) -> Result<(), Fail> {
    let reply = refused(rt.alloc(), "name-taken", Carried::Nothing)?;
    let text = r#"{"error":"name-taken","ok":false}"#;
    shows(&rt, rt.alloc(), &reply, text)
}

#[test]
fn a_refusal_may_carry_a_name(rt: HostRuntime) -> Result<(), Fail> {
    let name = Text::of(rt.alloc(), "start")?;
    let reply = refused(rt.alloc(), "number", Carried::Name(name))?;
    let text = r#"{"error":"number","name":"start","ok":false}"#;
    shows(&rt, rt.alloc(), &reply, text)
}

#[test]
fn a_refusal_may_carry_a_machine(rt: HostRuntime) -> Result<(), Fail> {
    let vm = Text::of(rt.alloc(), "a")?;
    let reply = refused(rt.alloc(), "no-tracking", Carried::Vm(vm))?;
    let text = r#"{"error":"no-tracking","ok":false,"vm":"a"}"#;
    shows(&rt, rt.alloc(), &reply, text)
}

#[test]
fn a_refusal_may_carry_a_cause(rt: HostRuntime) -> Result<(), Fail> {
    let cause = Text::of(rt.alloc(), "uuid")?;
    let reply = refused(rt.alloc(), "since", Carried::Cause(cause))?;
    let text = r#"{"cause":"uuid","error":"since","ok":false}"#;
    shows(&rt, rt.alloc(), &reply, text)
}

fn id(resets: u64, seq: u64) -> ChangeId {
    ChangeId {
        uuid: pack(1, 0, resets),
        seq,
    }
}

#[test]
fn a_refusal_may_carry_an_identifier(rt: HostRuntime) -> Result<(), Fail> {
    let reply = refused(rt.alloc(), "strange", Carried::Id(Some(id(0, 3))))?;
    let text = r#"{"error":"strange","id":"00000001-0000-0000-0000-000000000000/3","ok":false}"#;
    shows(&rt, rt.alloc(), &reply, text)
}

#[test]
fn a_refusal_may_carry_no_identifier(rt: HostRuntime) -> Result<(), Fail> {
    let reply = refused(rt.alloc(), "strange", Carried::Id(None))?;
    let text = r#"{"error":"strange","id":null,"ok":false}"#;
    shows(&rt, rt.alloc(), &reply, text)
}

#[test]
fn texts_have_the_shortest_escapes(rt: HostRuntime) -> Result<(), Fail> {
    let name = "\"\\\u{8}\t\n\u{c}\r/\0\u{1}\u{b}\u{e}\u{1b}\u{1f} \u{7f}\u{80}ä\u{2028}😀";
    let name = Text::of(rt.alloc(), name)?;
    let reply = refused(rt.alloc(), "field", Carried::Name(name))?;
    let text = concat!(
        r#"{"error":"field","name":"\"\\\b\t\n\f\r/\u0000\u0001\u000b\u000e\u001b\u001f "#,
        "\u{7f}\u{80}ä\u{2028}😀",
        r#"","ok":false}"#,
    );
    shows(&rt, rt.alloc(), &reply, text)
}

fn snapshot(alloc: Global) -> Result<Reply, Fail> {
    let ids = Sequence::from_vec(vec![in alloc; None, Some(id(1, 1))]?);
    Ok(Reply::Snapshot { snapshot: 3, ids })
}

#[test]
fn a_snapshot_has_an_identifier_or_null_for_each_disk(rt: HostRuntime) -> Result<(), Fail> {
    let reply = snapshot(rt.alloc())?;
    let text = r#"{"ids":[null,"00000001-0000-0000-0000-000000000001/1"],"ok":true,"snapshot":3}"#;
    shows(&rt, rt.alloc(), &reply, text)
}

fn query(areas: Vec<Area>, id: Option<ChangeId>) -> Reply {
    Reply::Query {
        areas: Sequence::from_vec(areas),
        id,
        start: 0,
        length: 131072,
    }
}

fn area(alloc: Global) -> Result<Vec<Area>, Fail> {
    let area = Area {
        start: 65536,
        length: 36864,
    };
    Ok(vec![in alloc; area]?)
}

#[test]
fn an_area_is_its_start_and_length(rt: HostRuntime) -> Result<(), Fail> {
    let reply = query(area(rt.alloc())?, None);
    let text = r#"{"areas":[[65536,36864]],"id":null,"length":131072,"ok":true,"start":0}"#;
    shows(&rt, rt.alloc(), &reply, text)
}

#[test]
fn a_query_may_find_no_area(rt: HostRuntime) -> Result<(), Fail> {
    let reply = query(Vec::new(rt.alloc()), Some(id(0, 2)));
    let text = concat!(
        r#"{"areas":[],"id":"00000001-0000-0000-0000-000000000000/2","length":131072,"#,
        r#""ok":true,"start":0}"#,
    );
    shows(&rt, rt.alloc(), &reply, text)
}

fn filled(alloc: Global) -> Result<Reply, Fail> {
    let sectors = vec![in alloc; [0; SECTOR_BYTES], [171; SECTOR_BYTES]]?;
    Ok(Reply::Sectors(Sequence::from_vec(sectors)))
}

#[test]
fn a_filled_sector_is_one_number(rt: HostRuntime) -> Result<(), Fail> {
    let reply = filled(rt.alloc())?;
    shows(&rt, rt.alloc(), &reply, r#"{"ok":true,"sectors":[0,171]}"#)
}

fn mixed(alloc: Global) -> Result<Reply, Fail> {
    let mut sector = [90; SECTOR_BYTES];
    sector[1] = 0xAF;
    Ok(Reply::Sectors(Sequence::from_vec(vec![in alloc; sector]?)))
}

fn mixed_text(alloc: Global) -> Result<String, Fail> {
    let mut text = String::from_str(alloc, r#"{"ok":true,"sectors":["5aaf"#)?;
    for _ in 2..SECTOR_BYTES {
        text.push_str("5a")?;
    }
    text.push_str(r#""]}"#)?;
    Ok(text)
}

#[test]
fn a_mixed_sector_is_all_its_digits(rt: HostRuntime) -> Result<(), Fail> {
    let text = mixed_text(rt.alloc())?;
    let reply = mixed(rt.alloc())?;
    shows(&rt, rt.alloc(), &reply, text.as_str())
}

fn inventory(hosts: Vec<HostLine>, vms: Vec<VmLine>) -> Reply {
    Reply::Inventory {
        hosts: Sequence::from_vec(hosts),
        vms: Sequence::from_vec(vms),
    }
}

fn host(alloc: Global) -> Result<HostLine, Fail> {
    let name = Text::of(alloc, "h")?;
    Ok(HostLine { limit: 20, name })
}

fn vm(alloc: Global) -> Result<VmLine, Fail> {
    Ok(VmLine {
        disks: Sequence::from_vec(vec![in alloc; 83886080, 209715200]?),
        host: Text::of(alloc, "h")?,
        name: Text::of(alloc, "a")?,
        number: 1,
        on: true,
        tracking: false,
    })
}

fn fleet(alloc: Global) -> Result<Reply, Fail> {
    let hosts = vec![in alloc; host(alloc)?]?;
    let vms = vec![in alloc; vm(alloc)?]?;
    Ok(inventory(hosts, vms))
}

#[test]
fn a_fleet_may_be_empty(rt: HostRuntime) -> Result<(), Fail> {
    let reply = inventory(Vec::new(rt.alloc()), Vec::new(rt.alloc()));
    let text = r#"{"hosts":[],"ok":true,"vms":[]}"#;
    shows(&rt, rt.alloc(), &reply, text)
}

#[test]
fn hosts_and_machines_are_listed(rt: HostRuntime) -> Result<(), Fail> {
    let reply = fleet(rt.alloc())?;
    let text = concat!(
        r#"{"hosts":[{"limit":20,"name":"h"}],"ok":true,"#,
        r#""vms":[{"disks":[83886080,209715200],"host":"h","name":"a","number":1,"on":true,"#,
        r#""tracking":false}]}"#,
    );
    shows(&rt, rt.alloc(), &reply, text)
}

fn guest(alloc: Global) -> Result<GuestDone, Fail> {
    Ok(GuestDone {
        accepted: 1000,
        stopped: Text::of(alloc, "end")?,
        vm: Text::of(alloc, "a")?,
    })
}

fn disturbed(alloc: Global) -> Result<Vec<Option<Text>>, Fail> {
    let refusal = Text::of(alloc, "no-migration")?;
    Ok(vec![in alloc; None, Some(refusal)]?)
}

fn ran(alloc: Global) -> Result<Reply, Fail> {
    Ok(Reply::Ran {
        disturbed: Sequence::from_vec(disturbed(alloc)?),
        guests: Sequence::from_vec(vec![in alloc; guest(alloc)?]?),
        migrations: Sequence::from_vec(Vec::new(alloc)),
        peaks: Sequence::from_vec(vec![in alloc; 0, 4]?),
    })
}

#[test]
fn a_run_tells_guests_and_disturbances(rt: HostRuntime) -> Result<(), Fail> {
    let reply = ran(rt.alloc())?;
    let text = concat!(
        r#"{"disturbed":[true,"no-migration"],"#,
        r#""guests":[{"accepted":1000,"stopped":"end","vm":"a"}],"#,
        r#""migrations":[],"ok":true,"peaks":[0,4]}"#,
    );
    shows(&rt, rt.alloc(), &reply, text)
}

fn ran_quietly(migrations: Vec<MigLine>, alloc: Global) -> Reply {
    Reply::Ran {
        disturbed: Sequence::from_vec(Vec::new(alloc)),
        guests: Sequence::from_vec(Vec::new(alloc)),
        migrations: Sequence::from_vec(migrations),
        peaks: Sequence::from_vec(Vec::new(alloc)),
    }
}

fn first_checkpoint(alloc: Global) -> Result<Sequence<CheckLine>, Fail> {
    let first = CheckLine {
        previous: 0,
        current: 2,
    };
    Ok(Sequence::from_vec(vec![in alloc; first]?))
}

fn paused(alloc: Global) -> Result<MigLine, Fail> {
    Ok(MigLine {
        cause: None,
        checkpoints: first_checkpoint(alloc)?,
        dv: Text::of(alloc, "Paused")?,
        marks: Sequence::from_vec(vec![in alloc; 4]?),
        mig: 1,
        phase: Text::of(alloc, "CopyingPaused")?,
        place: None,
        plan: Text::of(alloc, "p")?,
        state: Text::of(alloc, "paused")?,
        vm: Text::of(alloc, "a")?,
        writes: None,
        written: Sequence::from_vec(vec![in alloc; 256]?),
    })
}

#[test]
fn a_run_tells_migrations(rt: HostRuntime) -> Result<(), Fail> {
    let migrations = vec![in rt.alloc(); paused(rt.alloc())?]?;
    let reply = ran_quietly(migrations, rt.alloc());
    let text = concat!(
        r#"{"disturbed":[],"guests":[],"migrations":[{"cause":null,"#,
        r#""checkpoints":[["","snapshot-2"]],"dv":"Paused","marks":[4],"mig":1,"#,
        r#""phase":"CopyingPaused","place":null,"plan":"p","state":"paused","vm":"a","#,
        r#""writes":null,"written":[256]}],"ok":true,"peaks":[]}"#,
    );
    shows(&rt, rt.alloc(), &reply, text)
}

fn checkpoint(previous: u32, current: u32) -> CheckLine {
    CheckLine { previous, current }
}

fn all_checkpoints(alloc: Global) -> Result<Sequence<CheckLine>, Fail> {
    let checks = vec![in alloc; checkpoint(0, 2), checkpoint(2, 3), checkpoint(3, 4)]?;
    Ok(Sequence::from_vec(checks))
}

fn completed(alloc: Global) -> Result<MigLine, Fail> {
    let mut line = paused(alloc)?;
    line.checkpoints = all_checkpoints(alloc)?;
    line.dv = Text::of(alloc, "Succeeded")?;
    line.marks = Sequence::from_vec(vec![in alloc; 4, 7, 11]?);
    line.phase = Text::of(alloc, "Completed")?;
    line.place = Some(9);
    line.state = Text::of(alloc, "complete")?;
    line.writes = Some(3);
    line.written = Sequence::from_vec(vec![in alloc; 256, 128, 128]?);
    Ok(line)
}

fn failed(alloc: Global) -> Result<MigLine, Fail> {
    let mut line = paused(alloc)?;
    line.cause = Some(Text::of(alloc, "volume")?);
    line.phase = Text::of(alloc, "Failed")?;
    line.state = Text::of(alloc, "failed")?;
    Ok(line)
}

fn status(alloc: Global, line: MigLine) -> Result<Reply, Fail> {
    Ok(Reply::Status(Sequence::from_vec(vec![in alloc; line]?)))
}

#[test]
fn a_completed_migration_has_a_place_and_no_cause(rt: HostRuntime) -> Result<(), Fail> {
    let reply = status(rt.alloc(), completed(rt.alloc())?)?;
    let text = concat!(
        r#"{"migrations":[{"cause":null,"checkpoints":["#,
        r#"["","snapshot-2"],["snapshot-2","snapshot-3"],["snapshot-3","snapshot-4"]],"#,
        r#""dv":"Succeeded","marks":[4,7,11],"mig":1,"phase":"Completed","place":9,"plan":"p","#,
        r#""state":"complete","vm":"a","writes":3,"written":[256,128,128]}],"ok":true}"#,
    );
    shows(&rt, rt.alloc(), &reply, text)
}

#[test]
fn a_failed_migration_has_a_cause_and_no_place(rt: HostRuntime) -> Result<(), Fail> {
    let reply = status(rt.alloc(), failed(rt.alloc())?)?;
    let text = concat!(
        r#"{"migrations":[{"cause":"volume","checkpoints":[["","snapshot-2"]],"dv":"Paused","#,
        r#""marks":[4],"mig":1,"phase":"Failed","place":null,"plan":"p","state":"failed","#,
        r#""vm":"a","writes":null,"written":[256]}],"ok":true}"#,
    );
    shows(&rt, rt.alloc(), &reply, text)
}
