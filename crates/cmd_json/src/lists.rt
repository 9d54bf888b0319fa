//! Lists, and what stands in them.
ghost use Rattle.std.specs.Prelude.{◌≡◌, IfOk, option_map};
ghost use Rattle.serde_json.specs.Find.{at};
ghost use Rattle.cmd_json.specs.Kinds.{a_number, the_item, a_move_write};
ghost use Rattle.cmd_json.specs.Range.{IsWithin};
ghost use Rattle.cmd_json.specs.Tree.{value_data};

use crate::Sequence;
use crate::command::MoveWrite;
use crate::kind::{Kind, Misfit};
use crate::kinds::number_of;
use basics::MAX_WRITE_SECTORS;
use json::Value;
use std::alloc::Global;

/// A list of values of one kind.
#[derive(Drop)]
pub(crate) struct ListKind<K>(pub(crate) K);

impl<K: Kind> Kind for ListKind<K> {
    ghost use Rattle.std.specs.Prelude.{All};
    ghost use Rattle.cmd_json.specs.Kinds.{a_list};

    type Said = Sequence<K::Said>;

    ghost says = { λ list. a_list (K.says list.0) };

    ghost known = { λ list. All (K.known list.0) };

    fn read(&self, alloc: Global, value: Value<'_>) -> Result<Sequence<K::Said>, Misfit> {
        let Value::Array(values) = value else {
            return Err(Misfit::Field);
        };
        let mut items = Vec::new(alloc);
        for value in values {
            items.push(self.0.read(alloc, value)?)?;
        }
        Ok(Sequence::from_vec(items))
    }
}

/// A write of a move: a list of its first sector, its count of sectors, and the byte that fills
/// them.
#[derive(Drop)]
pub(crate) struct MoveWriteKind;

impl Kind for MoveWriteKind {
    ghost use Rattle.basics.specs.declared.limits.TheConstants.{MAX_WRITE_SECTORS};
    ghost use Rattle.cmd_json.specs.Kinds.{a_move_write};
    ghost use Rattle.cmd_json.specs.Range.{IsWithin};

    type Said = MoveWrite;

    ghost says = { λ _. a_move_write };

    ghost known = { λ _ write. IsWithin 1 MAX_WRITE_SECTORS write.count };

    fn read(&self, _alloc: Global, value: Value<'_>) -> Result<MoveWrite, Misfit> {
        move_write_of(&value)
    }
}

fn move_write_of(value: &Value<'_>) -> Result<MoveWrite, Misfit>
    ensures value { result ≡ a_move_write (value_data value.now) }
    ensures within { IfOk result (λ write. IsWithin 1 MAX_WRITE_SECTORS write.count) }
{
    let first = number_at(value, 0, 0, u64::MAX)?;
    let count = number_at(value, 1, 1, MAX_WRITE_SECTORS)?;
    let fill = number_at(value, 2, 0, 255)?;
    if item_at(value, 3).is_some() {
        return Err(Misfit::Field);
    }
    Ok(MoveWrite {
        first,
        count,
        fill: fill as u8,
    })
}

fn number_at(value: &Value<'_>, place: usize, low: u64, high: u64) -> Result<u64, Misfit>
    ensures value { result ≡ the_item place (a_number low high) (value_data value.now) }
    ensures within { IfOk result (IsWithin low high) }
{
    let item = item_at(value, place).ok_or(Misfit::Field)?;
    number_of(item, low, high)
}

// The item at a place, where the value is a list that has one there.
fn item_at<'v, 'a>(value: &'v Value<'a>, place: usize) -> Option<&'v Value<'a>>
    ensures { option_map (λ item. value_data item.now) result ≡ at place (value_data value.now) }
{
    value.at(place)
}
