//! The line of a reply, written in one pass into the caller's buffer.
ghost use Rattle.std.specs.Prelude.{◌≡◌, ◌++◌, Contains, OnOk, OnErr, Some};
ghost use Rattle.basics.specs.Prefix.{IsPrefix};
ghost use Rattle.serde_json.specs.Read.{read};
ghost use Rattle.serde_json.specs.Written.{compact_text};
ghost use Rattle.reply_json.specs.Fits.{NumbersFit};
ghost use Rattle.reply_json.specs.Laws.{ReadsBack, OneLine, DigitsAreText};
ghost use Rattle.reply_json.specs.Reply.{line_of, reply_data};

use crate::Reply;
use crate::to_json::ToJson;
use basics::NoMemory;
use json::Writer;
use std::mem;

/// Writes the line of a reply after what `out` has, its line feed included. A reader of JSON has
/// the reply back from it, and no line feed stands before its end. It answers only want of memory,
/// and then `out` has what it had.
pub fn reply_line(reply: &Reply, out: &mut Vec<u8>) -> Result<(), NoMemory>
    ensures line { OnOk result (out.new.items ≡ out.old.items ++ line_of reply.now) }
    ensures reads { OnOk result
        (read (compact_text (reply_data reply.now)) ≡ Some (reply_data reply.now)) }
    ensures one_line { OnOk result (¬ (Contains (compact_text (reply_data reply.now)) 10)) }
    ensures unchanged { OnErr result (out.new.items ≡ out.old.items) }
{
    let start = out.len();
    let ended = append_line(reply, out);
    if ended.is_err() {
        out.truncate(start);
    }
    ended
}

// The same, but that a front of the line may stand where memory ran out.
fn append_line(reply: &Reply, out: &mut Vec<u8>) -> Result<(), NoMemory>
    ensures line { OnOk result (out.new.items ≡ out.old.items ++ line_of reply.now) }
    ensures fits { OnOk result (NumbersFit (reply_data reply.now)) }
    ensures kept { IsPrefix out.old.items out.new.items }
{
    let alloc = *out.allocator();
    let mut writer = Writer::new(mem::replace(out, Vec::new(alloc)));
    let written = reply.put(alloc, &mut writer);
    *out = writer.into_inner();
    written?;
    out.push(b'\n')?;
    Ok(())
}

/// What a reader of JSON makes of the text of a reply is the object that the reply means, with each
/// of its members once.
pub fn reads_back()
    ensures { ReadsBack }
{}

/// The text of a reply has no line feed, so lines that follow one another can be told apart.
pub fn one_line()
    ensures { OneLine }
{}

/// The digits of a digest, as those of any ASCII, are the text that stands in the line.
pub fn digits_are_text()
    ensures { DigitsAreText }
{}
