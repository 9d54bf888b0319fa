//! Numbers, truth values, texts, sectors, and values that may be missing.
ghost use Rattle.std.specs.Prelude.{◌≡◌, ◌==◌, ◌++◌, IfOk, OnOk, string_bytes, decimal, encode_utf8_all};
ghost use Rattle.std.specs.List.{list_all};
ghost use Rattle.reply_json.specs.Values.{snapshot_text as text_of_snapshot};

use crate::Text;
use crate::to_json::ToJson;
use basics::{NoMemory, SECTOR_BYTES};
use change_id::{ChangeId, MAX_ID_BYTES, write_to};
use json::Writer;
use std::alloc::Global;

impl ToJson for u64 {
    ghost use Rattle.reply_json.specs.Values.{number_of};

    ghost json = { number_of };

    fn put(&self, _alloc: Global, writer: &mut Writer) -> Result<(), NoMemory> {
        writer.u64(*self)?;
        Ok(())
    }
}

impl ToJson for u32 {
    ghost use Rattle.reply_json.specs.Values.{number_of};

    ghost json = { number_of };

    fn put(&self, _alloc: Global, writer: &mut Writer) -> Result<(), NoMemory> {
        writer.u64(u64::from(*self))?;
        Ok(())
    }
}

impl ToJson for bool {
    ghost use Rattle.serde_json.specs.Data.{boolean};

    ghost json = { boolean };

    fn put(&self, _alloc: Global, writer: &mut Writer) -> Result<(), NoMemory> {
        writer.boolean(*self)?;
        Ok(())
    }
}

impl ToJson for &str {
    ghost use Rattle.serde_json.specs.Data.{string};

    ghost json = { λ text. string text.now };

    fn put(&self, _alloc: Global, writer: &mut Writer) -> Result<(), NoMemory> {
        writer.string(self)?;
        Ok(())
    }
}

impl ToJson for Text {
    ghost use Rattle.serde_json.specs.Data.{string};

    ghost json = { string };

    fn put(&self, _alloc: Global, writer: &mut Writer) -> Result<(), NoMemory> {
        writer.string(self.as_str())?;
        Ok(())
    }
}

impl<T: ToJson> ToJson for Option<T> {
    ghost use Rattle.reply_json.specs.Values.{or_null};

    ghost json = { or_null T.json };

    fn put(&self, alloc: Global, writer: &mut Writer) -> Result<(), NoMemory> {
        match self {
            Some(value) => value.put(alloc, writer),
            None => {
                writer.null()?;
                Ok(())
            }
        }
    }
}

impl ToJson for ChangeId {
    ghost use Rattle.reply_json.specs.Values.{id_data};

    ghost json = { id_data };

    fn put(&self, _alloc: Global, writer: &mut Writer) -> Result<(), NoMemory> {
        let mut spelled = [0; MAX_ID_BYTES];
        let len = write_to(self, &mut spelled);
        let Ok(text) = std::str::from_utf8(&spelled[..len]) else {
            unreachable!()
        };
        writer.string(text)?;
        Ok(())
    }
}

/// The text of a snapshot by its id.
pub(crate) fn snapshot_text(alloc: Global, id: u32) -> Result<String, NoMemory>
    ensures { IfOk result (λ text. string_bytes text ≡ text_of_snapshot id) }
{
    let mut text = String::new(alloc);
    if id != 0 {
        text.push_str("snapshot-")?;
        push_number(&mut text, u64::from(id))?;
    }
    Ok(text)
}

fn push_number(text: &mut String, number: u64) -> Result<(), NoMemory>
    ensures { OnOk result (string_bytes text.new ≡ string_bytes text.old ++ decimal number) }
{
    let mut digits = itoa::Buffer::new();
    text.push_str(digits.format(number))?;
    Ok(())
}

impl ToJson for [u8; SECTOR_BYTES] {
    ghost use Rattle.reply_json.specs.Values.{sector_data};

    ghost json = { sector_data };

    fn put(&self, alloc: Global, writer: &mut Writer) -> Result<(), NoMemory> {
        let first = self[0];
        if is_filled_with(self, first) {
            writer.u64(u64::from(first))?;
        } else {
            let digits = hex::encode(alloc, self.as_slice())?;
            writer.string(digits.as_str())?;
        }
        Ok(())
    }
}

fn is_filled_with(bytes: &[u8], byte: u8) -> bool
    ensures { result ≡ list_all (λ b. b == byte) bytes.now }
{
    bytes.iter().all(|b| *b == byte)
}

// The digits of a digest.
#[derive(Drop)]
pub(crate) struct Digits<'a>(pub(crate) &'a [u8; 64]);

impl ToJson for Digits<'_> {
    ghost use Rattle.reply_json.specs.Values.{digits_data};

    ghost json = { λ digits. digits_data digits.0.now };

    fn put(&self, alloc: Global, writer: &mut Writer) -> Result<(), NoMemory> {
        let text = digits_text(alloc, self.0)?;
        writer.string(text.as_str())?;
        Ok(())
    }
}

fn digits_text(alloc: Global, digits: &[u8; 64]) -> Result<String, NoMemory>
    ensures { IfOk result (λ text. string_bytes text ≡ encode_utf8_all digits.now) }
{
    let mut text = String::with_capacity(alloc, 64)?;
    for digit in digits {
        text.push(char::from(*digit))?;
    }
    Ok(text)
}
