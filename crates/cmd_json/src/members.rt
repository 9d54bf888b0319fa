//! The members of an object, which are taken out as they are read.
ghost use Rattle.std.specs.Prelude.{◌≡◌, ◌≢◌, [], All, IfOk, IfNone, IfSome, IsSomeAnd, None, Some, filter, option_map, slice_get, vec_len, ◌<◌};
ghost use Rattle.json.specs.Find as json;
ghost use Rattle.json.specs.Value.{value_view, members_view};
ghost use Rattle.serde_json.specs.Find.{get_member};
ghost use Rattle.cmd_json.specs.Kinds.{a_list};
ghost use Rattle.cmd_json.specs.Left.{left_in, object_of, first_name, lesser, has_other_name};
ghost use Rattle.cmd_json.specs.Members.{Reads, Gives, without, said, required, optional, defaulted, refusal_of, if_none_left};
ghost use Rattle.cmd_json.specs.Tree.{value_data};
ghost use Rattle.cmd_json.specs.declared.refusal.CmdRefused.TheVariants as refused;

use crate::kind::{Kind, Misfit};
use crate::lists::ListKind;
use crate::refusal::CmdRefused;
use crate::{Sequence, Text};
use json::Value;
use std::alloc::Global;
use std::cmp::Ordering;

/// The members of an object that aren't read yet.
#[derive(Drop)]
pub(crate) struct Members<'a> {
    alloc: Global,
    list: Vec<(&'a str, Value<'a>)>,
}

impl<'a> Members<'a> {
    /// The members of an object.
    pub(crate) fn of(alloc: Global, list: Vec<(&'a str, Value<'a>)>) -> Members<'a>
        ensures { left_in result ≡ object_of list.entry.items }
    {
        Members { alloc, list }
    }

    /// Takes a member out, if it stands, and all others of its name with it.
    pub(crate) fn take(&mut self, name: &str) -> Option<Value<'a>>
        ensures value { option_map value_data result ≡ get_member name.now (left_in self.old) }
        ensures left { left_in self.new ≡ without name.now (left_in self.old) }
    {
        let place = last_named(&self.list, name)?;
        let (_, value) = self.list.remove(place);
        keep_others(&mut self.list, name);
        Some(value)
    }

    /// Reads a member that has to be there.
    pub(crate) fn required<K: Kind>(&mut self, name: &str, kind: K) -> Result<K::Said, CmdRefused>
        ensures reads { Reads (required name.now (K.says kind) (left_in self.old))
            (left_in self.new) result }
        ensures known { IfOk result (K.known kind) }
    {
        match self.take(name) {
            Some(value) => said(self.alloc, name, &kind, value),
            None => Err(self.refusal_of(name)),
        }
    }

    /// Reads a member that may be left out.
    pub(crate) fn optional<K: Kind>(
        &mut self,
        name: &str,
        kind: K,
    ) -> Result<Option<K::Said>, CmdRefused>
        ensures reads { Reads (optional name.now (K.says kind) (left_in self.old))
            (left_in self.new) result }
        ensures known { IfOk result (λ said. IfSome said (K.known kind)) }
    {
        match self.take(name) {
            Some(value) => Ok(Some(said(self.alloc, name, &kind, value)?)),
            None => Ok(None),
        }
    }

    /// Reads a list that may be left out, and has no items then.
    pub(crate) fn list<K: Kind>(
        &mut self,
        name: &str,
        kind: K,
    ) -> Result<Sequence<K::Said>, CmdRefused>
        ensures reads { Reads (defaulted [] name.now (a_list (K.says kind)) (left_in self.old))
            (left_in self.new) result }
        ensures known { IfOk result (All (K.known kind)) }
    {
        match self.take(name) {
            Some(value) => said(self.alloc, name, &ListKind(kind), value),
            None => Ok(Sequence::from_vec(Vec::new(self.alloc))),
        }
    }

    /// The refusal of a member that isn't as it should be. It may be want of memory.
    pub(crate) fn refusal_of(&self, name: &str) -> CmdRefused
        ensures { result ≢ refused.NoMemory → result ≡ refused.Field name.now }
    {
        refusal_of(self.alloc, name, Misfit::Field)
    }

    /// What was read, if no member is left. Else the least of those that are left is told.
    pub(crate) fn finish<T: Drop>(self, read: T) -> Result<T, CmdRefused>
        ensures read { Gives refused.NoMemory (if_none_left read (left_in self.entry))
            result }
        ensures same { IfOk result (λ given. given ≡ read) }
    {
        match least_name(&self.list) {
            Some(name) => Err(self.refusal_of(name)),
            None => Ok(read),
        }
    }
}

// What the value of a member says.
fn said<K: Kind>(
    alloc: Global,
    name: &str,
    kind: &K,
    value: Value<'_>,
) -> Result<K::Said, CmdRefused>
    ensures said { Gives refused.NoMemory (said name.now (K.says kind.now) (value_data value.entry))
        result }
    ensures known { IfOk result (K.known kind.now) }
{
    match kind.read(alloc, value) {
        Ok(said) => Ok(said),
        Err(misfit) => Err(refusal_of(alloc, name, misfit)),
    }
}

// The refusal that tells of a member what is wrong with its value. It may answer want of memory.
fn refusal_of(alloc: Global, name: &str, misfit: Misfit) -> CmdRefused
    ensures { result ≢ refused.NoMemory → result ≡ refusal_of name.now misfit }
{
    let Ok(name) = Text::of(alloc, name) else {
        return CmdRefused::NoMemory;
    };
    match misfit {
        Misfit::Field => CmdRefused::Field(name),
        Misfit::Number => CmdRefused::Number(name),
        Misfit::NoMemory => CmdRefused::NoMemory,
    }
}

// The place of the last member of that name, which is looked for from the end.
fn last_named(list: &Vec<(&str, Value<'_>)>, name: &str) -> Option<usize>
    ensures within { IfSome result (λ place. place < vec_len list.now) }
    ensures none { IfNone result (json.get_member name.now (members_view list.now.items) ≡ None) }
    ensures some { IfSome result (λ place. IsSomeAnd (slice_get list.now.items place)
        (λ m. (m.0.now ≡ name.now) × (json.get_member name.now (members_view list.now.items)
        ≡ Some (value_view m.1)))) }
{
    let mut left = list.len();
    while left > 0 {
        left -= 1;
        if list[left].0 == name {
            return Some(left);
        }
    }
    None
}

// Takes out all members of that name.
fn keep_others(list: &mut Vec<(&str, Value<'_>)>, name: &str)
    ensures { list.new.items ≡ filter (has_other_name name.now) list.old.items }
{
    list.retain(|member| member.0 != name);
}

// The least of the names.
fn least_name<'a>(list: &Vec<(&'a str, Value<'a>)>) -> Option<&'a str>
    ensures { option_map (λ name. name.now) result ≡ first_name (object_of list.now.items) }
{
    let mut least = None;
    for member in list {
        least = Some(lesser(member.0, least));
    }
    least
}

// The name, or the other one where that is less.
fn lesser<'a>(name: &'a str, other: Option<&'a str>) -> &'a str
    ensures { result.now ≡ lesser name.now (option_map (λ name. name.now) other.entry) }
{
    match other {
        Some(other) => match name.cmp(other) {
            Ordering::Less => name,
            Ordering::Equal | Ordering::Greater => other,
        },
        None => name,
    }
}
