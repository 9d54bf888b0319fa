//! The members of replies and of the objects in them, in ascending order of their names.
ghost use Rattle.std.specs.Prelude.{◌∷◌, OnOk, true, codes};
ghost use Rattle.json.specs.Token.{key};
ghost use Rattle.json.specs.Tree.{members_tokens};
ghost use Rattle.serde_json.specs.Data.{boolean, no_members};
ghost use Rattle.serde_json.specs.Data as Members;
ghost use Rattle.serde_json.specs.Written.{members_outline};
ghost use Rattle.reply_json.specs.declared.reply.Reply.TheVariants.{Done, Moved, Snapshot, Query, Inventory, Ran, Digest};
ghost use Rattle.reply_json.specs.Fits.{NumbersFit, MembersFit};
ghost use Rattle.reply_json.specs.Reply.{members_of, refused_members};
ghost use Rattle.reply_json.specs.ToJson.{Puts, tokens_of};

use crate::lists::Disturbed;
use crate::reply::{Area, Carried, GuestDone, HostLine, MigLine, Reply, VmLine};
use crate::to_json::ToJson;
use crate::values::Digits;
use crate::{Sequence, Text};
use basics::NoMemory;
use change_id::ChangeId;
use json::Writer;
use std::alloc::Global;

impl ToJson for HostLine {
    ghost use Rattle.reply_json.specs.Reply.{host_data};

    ghost json = { host_data };

    fn put(&self, alloc: Global, writer: &mut Writer) -> Result<(), NoMemory> {
        writer.begin_object()?;
        member(alloc, writer, "limit", &self.limit)?;
        member(alloc, writer, "name", &self.name)?;
        writer.end_object()?;
        Ok(())
    }
}

impl ToJson for VmLine {
    ghost use Rattle.reply_json.specs.Reply.{vm_data};

    ghost json = { vm_data };

    fn put(&self, alloc: Global, writer: &mut Writer) -> Result<(), NoMemory> {
        writer.begin_object()?;
        member(alloc, writer, "disks", &self.disks)?;
        member(alloc, writer, "host", &self.host)?;
        member(alloc, writer, "name", &self.name)?;
        member(alloc, writer, "number", &self.number)?;
        member(alloc, writer, "on", &self.on)?;
        member(alloc, writer, "tracking", &self.tracking)?;
        writer.end_object()?;
        Ok(())
    }
}

impl ToJson for GuestDone {
    ghost use Rattle.reply_json.specs.Reply.{guest_data};

    ghost json = { guest_data };

    fn put(&self, alloc: Global, writer: &mut Writer) -> Result<(), NoMemory> {
        writer.begin_object()?;
        member(alloc, writer, "accepted", &self.accepted)?;
        member(alloc, writer, "stopped", &self.stopped)?;
        member(alloc, writer, "vm", &self.vm)?;
        writer.end_object()?;
        Ok(())
    }
}

impl ToJson for MigLine {
    ghost use Rattle.reply_json.specs.Reply.{migration_data};

    ghost json = { migration_data };

    fn put(&self, alloc: Global, writer: &mut Writer) -> Result<(), NoMemory> {
        writer.begin_object()?;
        member(alloc, writer, "cause", &self.cause)?;
        member(alloc, writer, "checkpoints", &self.checkpoints)?;
        member(alloc, writer, "dv", &self.dv)?;
        member(alloc, writer, "marks", &self.marks)?;
        member(alloc, writer, "mig", &self.mig)?;
        member(alloc, writer, "phase", &self.phase)?;
        member(alloc, writer, "place", &self.place)?;
        member(alloc, writer, "plan", &self.plan)?;
        member(alloc, writer, "state", &self.state)?;
        member(alloc, writer, "vm", &self.vm)?;
        member(alloc, writer, "writes", &self.writes)?;
        member(alloc, writer, "written", &self.written)?;
        writer.end_object()?;
        Ok(())
    }
}

impl ToJson for Reply {
    ghost use Rattle.reply_json.specs.Reply.{reply_data};

    ghost json = { reply_data };

    fn put(&self, alloc: Global, writer: &mut Writer) -> Result<(), NoMemory> {
        writer.begin_object()?;
        put_members(alloc, writer, self)
    }
}

// The members of a reply, and the end of its object.
fn put_members(alloc: Global, writer: &mut Writer, reply: &Reply) -> Result<(), NoMemory>
    ensures puts { Puts result writer.old writer.new
        (members_tokens (members_outline (members_of reply.now))) }
    ensures fits { OnOk result (MembersFit (members_of reply.now)) }
{
    match reply {
        Reply::Done => put_done(alloc, writer),
        Reply::Moved { writes, written } => put_moved(alloc, writer, *writes, *written),
        Reply::Number(number) => put_and_ok(alloc, writer, "number", number),
        Reply::Snapshot { snapshot, ids } => put_snapshot(alloc, writer, *snapshot, ids),
        Reply::Query {
            areas,
            id,
            start,
            length,
        } => put_query(alloc, writer, areas, id, *start, *length),
        Reply::Sectors(sectors) => put_ok_and(alloc, writer, "sectors", sectors),
        Reply::Inventory { hosts, vms } => put_inventory(alloc, writer, hosts, vms),
        Reply::Started(migrations) => put_and_ok(alloc, writer, "migrations", migrations),
        Reply::Ran {
            disturbed,
            guests,
            migrations,
            peaks,
        } => put_ran(alloc, writer, disturbed, guests, migrations, peaks),
        Reply::Status(migrations) => put_and_ok(alloc, writer, "migrations", migrations),
        Reply::Digest { digest, sectors } => put_digest(alloc, writer, digest, *sectors),
        Reply::Records(records) => put_ok_and(alloc, writer, "records", records),
        Reply::Refused { error, carried } => put_refused(alloc, writer, error, carried),
    }
}

fn put_done(alloc: Global, writer: &mut Writer) -> Result<(), NoMemory>
    ensures puts { Puts result writer.old writer.new
        (members_tokens (members_outline (members_of Done))) }
    ensures fits { OnOk result (MembersFit (members_of Done)) }
{
    member(alloc, writer, "ok", &true)?;
    writer.end_object()?;
    Ok(())
}

// One member whose name comes before that of `ok`.
fn put_and_ok<T: ToJson>(
    alloc: Global,
    writer: &mut Writer,
    name: &str,
    value: &T,
) -> Result<(), NoMemory>
    ensures puts { Puts result writer.old writer.new (members_tokens (members_outline (
        Members.member name.now (T.json value.now) (
        Members.member (codes "ok") (boolean true) no_members)))) }
    ensures fits { OnOk result (NumbersFit (T.json value.now)) }
{
    member(alloc, writer, name, value)?;
    member(alloc, writer, "ok", &true)?;
    writer.end_object()?;
    Ok(())
}

// One member whose name comes after that of `ok`.
fn put_ok_and<T: ToJson>(
    alloc: Global,
    writer: &mut Writer,
    name: &str,
    value: &T,
) -> Result<(), NoMemory>
    ensures puts { Puts result writer.old writer.new (members_tokens (members_outline (
        Members.member (codes "ok") (boolean true) (
        Members.member name.now (T.json value.now) no_members)))) }
    ensures fits { OnOk result (NumbersFit (T.json value.now)) }
{
    member(alloc, writer, "ok", &true)?;
    member(alloc, writer, name, value)?;
    writer.end_object()?;
    Ok(())
}

fn put_moved(alloc: Global, writer: &mut Writer, writes: u64, written: u64) -> Result<(), NoMemory>
    ensures puts { Puts result writer.old writer.new
        (members_tokens (members_outline (members_of (Moved writes written)))) }
    ensures fits { OnOk result (MembersFit (members_of (Moved writes written))) }
{
    member(alloc, writer, "ok", &true)?;
    member(alloc, writer, "state", &"complete")?;
    member(alloc, writer, "writes", &writes)?;
    member(alloc, writer, "written", &written)?;
    writer.end_object()?;
    Ok(())
}

fn put_snapshot(
    alloc: Global,
    writer: &mut Writer,
    snapshot: u32,
    ids: &Sequence<Option<ChangeId>>,
) -> Result<(), NoMemory>
    ensures puts { Puts result writer.old writer.new
        (members_tokens (members_outline (members_of (Snapshot snapshot ids.now)))) }
    ensures fits { OnOk result (MembersFit (members_of (Snapshot snapshot ids.now))) }
{
    member(alloc, writer, "ids", ids)?;
    member(alloc, writer, "ok", &true)?;
    member(alloc, writer, "snapshot", &snapshot)?;
    writer.end_object()?;
    Ok(())
}

fn put_query(
    alloc: Global,
    writer: &mut Writer,
    areas: &Sequence<Area>,
    id: &Option<ChangeId>,
    start: u64,
    length: u64,
) -> Result<(), NoMemory>
    ensures puts { Puts result writer.old writer.new
        (members_tokens (members_outline (members_of (Query areas.now id.now start length)))) }
    ensures fits { OnOk result (MembersFit (members_of (Query areas.now id.now start length))) }
{
    member(alloc, writer, "areas", areas)?;
    member(alloc, writer, "id", id)?;
    member(alloc, writer, "length", &length)?;
    member(alloc, writer, "ok", &true)?;
    member(alloc, writer, "start", &start)?;
    writer.end_object()?;
    Ok(())
}

fn put_inventory(
    alloc: Global,
    writer: &mut Writer,
    hosts: &Sequence<HostLine>,
    vms: &Sequence<VmLine>,
) -> Result<(), NoMemory>
    ensures puts { Puts result writer.old writer.new
        (members_tokens (members_outline (members_of (Inventory hosts.now vms.now)))) }
    ensures fits { OnOk result (MembersFit (members_of (Inventory hosts.now vms.now))) }
{
    member(alloc, writer, "hosts", hosts)?;
    member(alloc, writer, "ok", &true)?;
    member(alloc, writer, "vms", vms)?;
    writer.end_object()?;
    Ok(())
}

fn put_ran(
    alloc: Global,
    writer: &mut Writer,
    disturbed: &Sequence<Option<Text>>,
    guests: &Sequence<GuestDone>,
    migrations: &Sequence<MigLine>,
    peaks: &Sequence<u64>,
) -> Result<(), NoMemory>
    ensures puts { Puts result writer.old writer.new (members_tokens (members_outline
        (members_of (Ran disturbed.now guests.now migrations.now peaks.now)))) }
    ensures fits { OnOk result (MembersFit
        (members_of (Ran disturbed.now guests.now migrations.now peaks.now))) }
{
    member(alloc, writer, "disturbed", &Disturbed(disturbed))?;
    member(alloc, writer, "guests", guests)?;
    member(alloc, writer, "migrations", migrations)?;
    member(alloc, writer, "ok", &true)?;
    member(alloc, writer, "peaks", peaks)?;
    writer.end_object()?;
    Ok(())
}

fn put_digest(
    alloc: Global,
    writer: &mut Writer,
    digest: &[u8; 64],
    sectors: u64,
) -> Result<(), NoMemory>
    ensures puts { Puts result writer.old writer.new
        (members_tokens (members_outline (members_of (Digest digest.now sectors)))) }
    ensures fits { OnOk result (MembersFit (members_of (Digest digest.now sectors))) }
{
    member(alloc, writer, "digest", &Digits(digest))?;
    member(alloc, writer, "ok", &true)?;
    member(alloc, writer, "sectors", &sectors)?;
    writer.end_object()?;
    Ok(())
}

fn put_refused(
    alloc: Global,
    writer: &mut Writer,
    error: &Text,
    carried: &Carried,
) -> Result<(), NoMemory>
    ensures puts { Puts result writer.old writer.new
        (members_tokens (members_outline (refused_members error.now carried.now))) }
    ensures fits { OnOk result (MembersFit (refused_members error.now carried.now)) }
{
    match carried {
        Carried::Nothing => {
            member(alloc, writer, "error", error)?;
            member(alloc, writer, "ok", &false)?;
        }
        Carried::Name(name) => {
            member(alloc, writer, "error", error)?;
            member(alloc, writer, "name", name)?;
            member(alloc, writer, "ok", &false)?;
        }
        Carried::Vm(vm) => {
            member(alloc, writer, "error", error)?;
            member(alloc, writer, "ok", &false)?;
            member(alloc, writer, "vm", vm)?;
        }
        Carried::Cause(cause) => {
            member(alloc, writer, "cause", cause)?;
            member(alloc, writer, "error", error)?;
            member(alloc, writer, "ok", &false)?;
        }
        Carried::Id(id) => {
            member(alloc, writer, "error", error)?;
            member(alloc, writer, "id", id)?;
            member(alloc, writer, "ok", &false)?;
        }
    }
    writer.end_object()?;
    Ok(())
}

// One member: its name and its value.
fn member<T: ToJson>(
    alloc: Global,
    writer: &mut Writer,
    name: &str,
    value: &T,
) -> Result<(), NoMemory>
    ensures puts { Puts result writer.old writer.new (key name.now ∷ tokens_of (T.json value.now)) }
    ensures fits { OnOk result (NumbersFit (T.json value.now)) }
{
    writer.key(name)?;
    value.put(alloc, writer)
}
