//! A text as the tree of its values, which borrow from it. `json` takes numbers of any size, so
//! they are tested once the tree stands.
ghost use Rattle.std.specs.Prelude.{◌≡◌, ◌≢◌, Some, None, IfOk, IfErr};
ghost use Rattle.json.specs.Value.{value_view, items_view, members_view};
ghost use Rattle.serde_json.specs.Read.{read};
ghost use Rattle.cmd_json.specs.Tree.{value_data, is_in_range, are_in_range, members_in_range};
ghost use Rattle.cmd_json.specs.declared.refusal.CmdRefused.TheVariants as refused;

use crate::numbers::is_number;
use crate::refusal::CmdRefused;
use json::{Error, Reader, Scratch, Value};
use std::alloc::Global;

/// How deep arrays and objects may nest.
const MAX_DEPTH: usize = 127;

/// The tree of a text.
pub(crate) fn tree_of<'a>(
    alloc: Global,
    text: &'a str,
    scratch: &'a mut Scratch,
) -> Result<Value<'a>, CmdRefused>
    ensures read { IfOk result (λ value. read text.now ≡ Some (value_data value)) }
    ensures unread { IfErr result
        (λ e. e ≢ refused.NoMemory → (e ≡ refused.Json) × (read text.now ≡ None)) }
{
    let Ok(mut reader) = Reader::new(text, scratch) else {
        return Err(CmdRefused::NoMemory);
    };
    let value = match Value::read(alloc, &mut reader, MAX_DEPTH) {
        Ok(value) => value,
        Err(Error::OutOfMemory) => return Err(CmdRefused::NoMemory),
        Err(_) => return Err(CmdRefused::Json),
    };
    if reader.next().is_some() {
        return Err(CmdRefused::Json);
    }
    if !is_in_range(&value) {
        return Err(CmdRefused::Json);
    }
    Ok(value)
}

// Whether each number in it is one.
#[cycle(in_range)]
fn is_in_range(value: &Value<'_>) -> bool
    ensures { result ≡ is_in_range (value_view value.now) }
{
    match value {
        Value::Number(text) => is_number(text),
        Value::Array(items) => are_in_range(items),
        Value::Object(members) => members_in_range(members),
        Value::Null | Value::Bool(_) | Value::String(_) => true,
    }
}

#[cycle(in_range)]
fn are_in_range(items: &Vec<Value<'_>>) -> bool
    ensures { result ≡ are_in_range (items_view items.now.items) }
{
    for item in items {
        if !is_in_range(item) {
            return false;
        }
    }
    true
}

#[cycle(in_range)]
fn members_in_range(members: &Vec<(&str, Value<'_>)>) -> bool
    ensures { result ≡ members_in_range (members_view members.now.items) }
{
    for member in members {
        if !is_in_range(&member.1) {
            return false;
        }
    }
    true
}
