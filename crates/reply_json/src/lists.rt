//! Lists, whose items are written one after another.
ghost use Rattle.std.specs.Prelude.{OnOk};
ghost use Rattle.reply_json.specs.Fits.{NumbersFit};
ghost use Rattle.reply_json.specs.ToJson.{Puts, tokens_of};
ghost use Rattle.reply_json.specs.Values.{disturbed_data};

use crate::reply::{Area, CheckLine};
use crate::to_json::ToJson;
use crate::values::snapshot_text;
use crate::{Sequence, Text};
use basics::NoMemory;
use json::Writer;
use std::alloc::Global;

impl<T: ToJson> ToJson for Sequence<T> {
    ghost use Rattle.reply_json.specs.Values.{array_of};

    ghost json = { array_of T.json };

    fn put(&self, alloc: Global, writer: &mut Writer) -> Result<(), NoMemory> {
        writer.begin_array()?;
        for item in self.as_slice() {
            item.put(alloc, writer)?;
        }
        writer.end_array()?;
        Ok(())
    }
}

// What became of each disturbance of a run.
#[derive(Drop)]
pub(crate) struct Disturbed<'a>(pub(crate) &'a Sequence<Option<Text>>);

impl ToJson for Disturbed<'_> {
    ghost use Rattle.reply_json.specs.Values.{array_of, disturbed_data};

    ghost json = { λ list. array_of disturbed_data list.0.now };

    fn put(&self, alloc: Global, writer: &mut Writer) -> Result<(), NoMemory> {
        writer.begin_array()?;
        for refusal in self.0.as_slice() {
            put_disturbed(alloc, writer, refusal)?;
        }
        writer.end_array()?;
        Ok(())
    }
}

fn put_disturbed(alloc: Global, writer: &mut Writer, refusal: &Option<Text>) -> Result<(), NoMemory>
    ensures puts { Puts result writer.old writer.new (tokens_of (disturbed_data refusal.now)) }
    ensures fits { OnOk result (NumbersFit (disturbed_data refusal.now)) }
{
    match refusal {
        None => true.put(alloc, writer),
        Some(text) => text.put(alloc, writer),
    }
}

impl ToJson for Area {
    ghost use Rattle.reply_json.specs.Reply.{area_data};

    ghost json = { area_data };

    fn put(&self, alloc: Global, writer: &mut Writer) -> Result<(), NoMemory> {
        writer.begin_array()?;
        self.start.put(alloc, writer)?;
        self.length.put(alloc, writer)?;
        writer.end_array()?;
        Ok(())
    }
}

impl ToJson for CheckLine {
    ghost use Rattle.reply_json.specs.Reply.{check_data};

    ghost json = { check_data };

    fn put(&self, alloc: Global, writer: &mut Writer) -> Result<(), NoMemory> {
        writer.begin_array()?;
        let previous = snapshot_text(alloc, self.previous)?;
        writer.string(previous.as_str())?;
        let current = snapshot_text(alloc, self.current)?;
        writer.string(current.as_str())?;
        writer.end_array()?;
        Ok(())
    }
}
