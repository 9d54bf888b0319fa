//! The command `query`: it reads the identifier, asks the machine for one page, and tells that in
//! bytes, as machines count in sectors.
ghost use Rattle.std.specs.Prelude.{◌≡◌, ◌+◌, ◌≤◌, All, IfOk, OnErr, map, true};
ghost use Rattle.basics.specs.declared.limits.TheConstants.{MAX_DISK_SECTORS};
ghost use Rattle.sector_model.specs.Run.{end_of};
ghost use Rattle.fleet_commands.specs.commands.Query.{AsksSince, QueryAnswers, PageAnswers, area_of, page_reply};

use crate::machines::take_out;
use crate::refusals::link_told;
use answers::{Answer, Refusal};
use basics::{Name, NoMemory, SECTOR_BYTES, Sequence};
use change_id::{ChangeId, IdRefused, Since, parse};
use fleet::Fleet;
use log_model::Link;
use reply_json::{Area, Reply};
use sector_model::{Page, Run};
use source_vm::PlainLink;
use std::alloc::Global;

/// What a line asks of a machine: the page of what changed on a disk up to a snapshot, from the
/// byte `start` on, since the identifier of this text or, for a star, since the beginning.
#[derive(Clone, Copy, Debug)]
pub struct QueryLine<'a> {
    pub snapshot: u32,
    pub disk: u32,
    pub since: &'a str,
    pub start: u64,
}

/// Shows a page of what changed on a disk of the machine of a name. In this order:
/// [`Refusal::UnknownVm`], [`Refusal::Since`] where the text is neither a star nor an identifier,
/// [`Refusal::UnknownSnapshot`], [`Refusal::Range`] where the disk is unknown or the page would
/// not start before its end, [`Refusal::Strange`] where the identifier can't be answered. It
/// answers want of memory too. Nothing changes.
pub fn run_query(
    alloc: Global,
    fleet: &mut Fleet,
    vm: &Name,
    line: QueryLine,
) -> Result<Answer, NoMemory>
    ensures answer { IfOk result (λ answer. QueryAnswers vm.now line.entry.snapshot
        line.entry.disk line.entry.since.now line.entry.start answer fleet.old fleet.new) }
    ensures err { OnErr result (fleet.new ≡ fleet.old) }
{
    let asked = since_of(line.since);
    let Ok(mut page) = Page::new(alloc) else {
        return Err(NoMemory);
    };
    let Some(machine) = take_out(fleet, vm) else {
        return Ok(Err(Refusal::UnknownVm));
    };
    let mut link = PlainLink::of(machine);
    let found = ask(&mut link, line, asked, &mut page);
    fleet.lower(link);
    match found? {
        Ok(id) => Ok(Ok(page_reply(alloc, id, &page)?)),
        Err(why) => Ok(Err(why)),
    }
}

/// Fills the page with what a line asks a machine for, and gives the disk's identifier at the
/// snapshot.
fn ask(
    link: &mut PlainLink,
    line: QueryLine,
    asked: Result<Since, IdRefused>,
    page: &mut Page,
) -> Result<Result<Option<ChangeId>, Refusal>, NoMemory>
    requires { link.old.unshared ≡ true }
    ensures answer { IfOk result (λ answer. PageAnswers line.entry.snapshot line.entry.disk asked
        line.entry.start link.old answer page.new) }
    ensures same { link.new ≡ link.old }
{
    let since = match asked {
        Ok(since) => since,
        Err(why) => return Ok(Err(Refusal::Since(why))),
    };
    let start = line.start / SECTOR_BYTES as u64;
    match link.query(line.snapshot, line.disk, since, start, page) {
        Ok(()) => Ok(Ok(link.change_id(line.snapshot, line.disk).unwrap())),
        Err(why) => Ok(Err(link_told(why).ok_or(NoMemory)?)),
    }
}

/// A page in bytes, with the identifier of its disk.
fn page_reply(alloc: Global, id: Option<ChangeId>, page: &Page) -> Result<Reply, NoMemory>
    requires within { page.now.start + page.now.length ≤ MAX_DISK_SECTORS }
    requires areas { All (λ run. end_of run ≤ MAX_DISK_SECTORS) page.now.areas }
    ensures { IfOk result (λ reply. reply ≡ page_reply id page.now) }
{
    Ok(Reply::Query {
        areas: areas_of(alloc, page.areas())?,
        id,
        start: page.start() * SECTOR_BYTES as u64,
        length: page.length() * SECTOR_BYTES as u64,
    })
}

/// Areas in bytes.
fn areas_of(alloc: Global, runs: &[Run]) -> Result<Sequence<Area>, NoMemory>
    requires { All (λ run. end_of run ≤ MAX_DISK_SECTORS) runs.now }
    ensures { IfOk result (λ areas. areas ≡ map area_of runs.now) }
{
    let mut areas = Vec::with_capacity(alloc, runs.len())?;
    for run in runs {
        areas.push(area_of(*run))?;
    }
    Ok(Sequence::from_vec(areas))
}

fn area_of(run: Run) -> Area
    requires { end_of run ≤ MAX_DISK_SECTORS }
    ensures { result ≡ area_of run }
{
    Area {
        start: run.first * SECTOR_BYTES as u64,
        length: run.count * SECTOR_BYTES as u64,
    }
}

/// What a text asks for, or why it is no identifier.
fn since_of(text: &str) -> Result<Since, IdRefused>
    ensures { AsksSince text.now result }
{
    if text == "*" {
        return Ok(Since::All);
    }
    Ok(Since::From(parse(text.as_bytes())?))
}
