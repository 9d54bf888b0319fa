//! The records whose fields have no fixed size: plans, with a name and a list of machines, and the
//! identifiers of a snapshot. Their parts are looked at first, and copied once.
ghost use Rattle.std.specs.Prelude.{◌≡◌, ◌*◌, MatchOption, IfOk, length};
ghost use Rattle.record_codec.specs.Parse.{PlanNeeds, IdsNeed, Reads, word_at, plan_name, plan_interval, plan_count, plan_vms, plan_at, ids_at, ids_count, ids_row, words_in, ids_in};

use crate::fields::Fields;
use crate::{CodecRefused, IdList, Record};
use basics::{MAX_INTERVAL, Name, NumberList, is_name};
use change_id::ChangeId;
use std::alloc::{AllocError, Global};

/// What stands in the fields of a plan, the machines as they are spelled.
#[derive(Drop)]
struct PlanParts<'a> {
    plan: u32,
    name: &'a str,
    interval: u32,
    count: u32,
    vms: &'a [u8],
}

/// The plan of these fields.
pub(crate) fn plan_made(alloc: Global, bytes: &[u8]) -> Result<Record, CodecRefused>
    ensures { Reads (PlanNeeds bytes.now) (plan_at bytes.now) result }
{
    let Some(parts) = plan_parts(bytes) else {
        return Err(CodecRefused::Bad);
    };
    let name = Name::of(alloc, parts.name)?;
    let vms = words(alloc, parts.count, parts.vms)?;
    Ok(Record::PlanMade {
        plan: parts.plan,
        name,
        interval: parts.interval,
        vms: NumberList::from_vec(vms),
    })
}

#[tactic(auto, using(crate::proofs::NameText::name_is_text))]
fn plan_parts(bytes: &[u8]) -> Option<PlanParts<'_>>
    ensures { MatchOption result (¬ (PlanNeeds bytes.now)) (λ parts. PlanNeeds bytes.now
        × (parts.plan ≡ word_at bytes.now) × (parts.name.now ≡ plan_name bytes.now)
        × (parts.interval ≡ plan_interval bytes.now) × (parts.count ≡ plan_count bytes.now)
        × (parts.vms.now ≡ plan_vms bytes.now)) }
{
    if bytes.len() < 5 {
        return None;
    }
    let mut fields = Fields::of(bytes);
    let plan = fields.word();
    let len = usize::from(fields.byte());
    if fields.len() < len + 8 {
        return None;
    }
    let name = fields.bytes(len);
    let interval = fields.word();
    let count = fields.word();
    let vms = fields.rest();
    if !is_name(name)
        || interval < 1
        || interval > MAX_INTERVAL
        || vms.len() != 4 * count as usize
    {
        return None;
    }
    let Ok(name) = std::str::from_utf8(name) else {
        return None;
    };
    Some(PlanParts {
        plan,
        name,
        interval,
        count,
        vms,
    })
}

/// The identifiers of these fields.
pub(crate) fn ids_stored(alloc: Global, bytes: &[u8]) -> Result<Record, CodecRefused>
    ensures { Reads (IdsNeed bytes.now) (ids_at bytes.now) result }
{
    if bytes.len() < 8 {
        return Err(CodecRefused::Bad);
    }
    let mut fields = Fields::of(bytes);
    let mig = fields.word();
    let count = fields.word();
    let row = fields.rest();
    if row.len() != 24 * count as usize {
        return Err(CodecRefused::Bad);
    }
    let ids = identifiers(alloc, count, row)?;
    Ok(Record::IdsStored {
        mig,
        ids: IdList::from_vec(ids),
    })
}

/// The numbers that stand in a row of bytes.
fn words(alloc: Global, count: u32, bytes: &[u8]) -> Result<Vec<u32>, AllocError>
    requires { length bytes.now ≡ 4 * count }
    ensures { IfOk result (λ words. words.items ≡ words_in count bytes.now) }
{
    let mut words = Vec::with_capacity(alloc, count as usize)?;
    let mut fields = Fields::of(bytes);
    for _ in 0..count {
        words.push(fields.word())?;
    }
    Ok(words)
}

/// The identifiers that stand in a row of bytes.
fn identifiers(alloc: Global, count: u32, bytes: &[u8]) -> Result<Vec<ChangeId>, AllocError>
    requires { length bytes.now ≡ 24 * count }
    ensures { IfOk result (λ ids. ids.items ≡ ids_in count bytes.now) }
{
    let mut ids = Vec::with_capacity(alloc, count as usize)?;
    let mut fields = Fields::of(bytes);
    for _ in 0..count {
        ids.push(fields.id())?;
    }
    Ok(ids)
}
