//! The writing of one field. Each call needs the room that it takes, so none of them fails.
ghost use Rattle.std.specs.Prelude.{◌≡◌, ◌≤◌, ◌<◌, ◌+◌, ◌*◌, ◌++◌, ◌∷◌, [], ◌^◌, length, vec_len, vec_capacity};
ghost use Rattle.std.specs.List.{AllByRecursion};
ghost use Rattle.change_id.specs.ChangeId.{IdHasRange};
ghost use Rattle.record_codec.specs.Record.{word_bytes, long_bytes, uuid_bytes, id_bytes, flag_byte, all_word_bytes, all_id_bytes};

use crate::{IdList, Name, NumberList};
use byteorder::{BigEndian, ByteOrder};
use change_id::ChangeId;

/// Appends bytes for which there is room.
fn put(out: &mut Vec<u8>, bytes: &[u8])
    requires { vec_len out.old + length bytes.now ≤ vec_capacity out.old }
    ensures items { out.new.items ≡ out.old.items ++ bytes.now }
    ensures len { vec_len out.new ≡ vec_len out.old + length bytes.now }
    ensures capacity { vec_capacity out.old ≤ vec_capacity out.new }
{
    let _has_room = out.extend_from_slice(bytes);
}

pub(crate) fn put_byte(out: &mut Vec<u8>, byte: &u8)
    requires { vec_len out.old + 1 ≤ vec_capacity out.old }
    ensures items { out.new.items ≡ out.old.items ++ byte.now ∷ [] }
    ensures fits { byte.now < 2 ^ 8 }
    ensures len { vec_len out.new ≡ vec_len out.old + 1 }
    ensures capacity { vec_capacity out.old ≤ vec_capacity out.new }
{
    put(out, &[*byte]);
}

pub(crate) fn put_flag(out: &mut Vec<u8>, flag: &bool)
    requires { vec_len out.old + 1 ≤ vec_capacity out.old }
    ensures items { out.new.items ≡ out.old.items ++ flag_byte flag.now ∷ [] }
    ensures len { vec_len out.new ≡ vec_len out.old + 1 }
    ensures capacity { vec_capacity out.old ≤ vec_capacity out.new }
{
    put_byte(out, &u8::from(*flag));
}

#[tactic(auto, unfolding(crate::specs::Record::word_bytes))]
pub(crate) fn put_word(out: &mut Vec<u8>, number: &u32)
    requires { vec_len out.old + 4 ≤ vec_capacity out.old }
    ensures items { out.new.items ≡ out.old.items ++ word_bytes number.now }
    ensures fits { number.now < 2 ^ 32 }
    ensures len { vec_len out.new ≡ vec_len out.old + 4 }
    ensures capacity { vec_capacity out.old ≤ vec_capacity out.new }
{
    let mut bytes = [0; 4];
    BigEndian::write_u32(&mut bytes, *number);
    put(out, &bytes);
}

#[tactic(auto, unfolding(crate::specs::Record::long_bytes))]
pub(crate) fn put_long(out: &mut Vec<u8>, number: &u64)
    requires { vec_len out.old + 8 ≤ vec_capacity out.old }
    ensures items { out.new.items ≡ out.old.items ++ long_bytes number.now }
    ensures fits { number.now < 2 ^ 64 }
    ensures len { vec_len out.new ≡ vec_len out.old + 8 }
    ensures capacity { vec_capacity out.old ≤ vec_capacity out.new }
{
    let mut bytes = [0; 8];
    BigEndian::write_u64(&mut bytes, *number);
    put(out, &bytes);
}

#[tactic(auto, unfolding(crate::specs::Record::uuid_bytes))]
fn put_uuid(out: &mut Vec<u8>, uuid: u128)
    requires { vec_len out.old + 16 ≤ vec_capacity out.old }
    ensures items { out.new.items ≡ out.old.items ++ uuid_bytes uuid }
    ensures len { vec_len out.new ≡ vec_len out.old + 16 }
    ensures capacity { vec_capacity out.old ≤ vec_capacity out.new }
{
    let mut bytes = [0; 16];
    BigEndian::write_u128(&mut bytes, uuid);
    put(out, &bytes);
}

fn put_id(out: &mut Vec<u8>, id: &ChangeId)
    requires { vec_len out.old + 24 ≤ vec_capacity out.old }
    ensures items { out.new.items ≡ out.old.items ++ id_bytes id.now }
    ensures fits { IdHasRange id.now }
    ensures len { vec_len out.new ≡ vec_len out.old + 24 }
    ensures capacity { vec_capacity out.old ≤ vec_capacity out.new }
{
    put_uuid(out, id.uuid);
    put_long(out, &id.seq);
}

pub(crate) fn put_name(out: &mut Vec<u8>, name: &Name)
    requires { vec_len out.old + 1 + length name.now ≤ vec_capacity out.old }
    ensures items { out.new.items ≡ out.old.items ++ length name.now ∷ name.now }
    ensures len { vec_len out.new ≡ vec_len out.old + 1 + length name.now }
    ensures capacity { vec_capacity out.old ≤ vec_capacity out.new }
{
    let text = name.as_str();
    put_byte(out, &(text.len() as u8));
    put(out, text.as_bytes());
}

pub(crate) fn put_words(out: &mut Vec<u8>, numbers: &NumberList)
    requires room { vec_len out.old + 4 + 4 * length numbers.now ≤ vec_capacity out.old }
    requires few { length numbers.now < 2 ^ 32 }
    ensures items { out.new.items
        ≡ out.old.items ++ word_bytes (length numbers.now) ++ all_word_bytes numbers.now }
    ensures fit { AllByRecursion (λ number. number < 2 ^ 32) numbers.now }
    ensures len { vec_len out.new ≡ vec_len out.old + 4 + 4 * length numbers.now }
    ensures capacity { vec_capacity out.old ≤ vec_capacity out.new }
{
    let numbers = numbers.as_slice();
    put_word(out, &(numbers.len() as u32));
    put_each_word(out, numbers);
}

fn put_each_word(out: &mut Vec<u8>, numbers: &[u32])
    requires { vec_len out.old + 4 * length numbers.now ≤ vec_capacity out.old }
    ensures items { out.new.items ≡ out.old.items ++ all_word_bytes numbers.now }
    ensures len { vec_len out.new ≡ vec_len out.old + 4 * length numbers.now }
    ensures capacity { vec_capacity out.old ≤ vec_capacity out.new }
{
    for number in numbers {
        put_word(out, number);
    }
}

pub(crate) fn put_ids(out: &mut Vec<u8>, ids: &IdList)
    requires room { vec_len out.old + 4 + 24 * length ids.now ≤ vec_capacity out.old }
    requires few { length ids.now < 2 ^ 32 }
    ensures items { out.new.items
        ≡ out.old.items ++ word_bytes (length ids.now) ++ all_id_bytes ids.now }
    ensures fit { AllByRecursion IdHasRange ids.now }
    ensures len { vec_len out.new ≡ vec_len out.old + 4 + 24 * length ids.now }
    ensures capacity { vec_capacity out.old ≤ vec_capacity out.new }
{
    let ids = ids.as_slice();
    put_word(out, &(ids.len() as u32));
    put_each_id(out, ids);
}

fn put_each_id(out: &mut Vec<u8>, ids: &[ChangeId])
    requires { vec_len out.old + 24 * length ids.now ≤ vec_capacity out.old }
    ensures items { out.new.items ≡ out.old.items ++ all_id_bytes ids.now }
    ensures fit { AllByRecursion IdHasRange ids.now }
    ensures len { vec_len out.new ≡ vec_len out.old + 24 * length ids.now }
    ensures capacity { vec_capacity out.old ≤ vec_capacity out.new }
{
    for id in ids {
        put_id(out, id);
    }
}
