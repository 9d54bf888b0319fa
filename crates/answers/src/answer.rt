//! What a line is answered, and the bytes that tell it.
ghost use Rattle.std.specs.Prelude.{◌≡◌, IfOk};
ghost use Rattle.answers.specs.Answer.{reply_for, answer_line};

use crate::refusal::Refusal;
use basics::NoMemory;
use reply_json::{Reply, reply_line};
use std::alloc::Global;

/// A reply to what a line asked for, or a refusal.
pub type Answer = Result<Reply, Refusal>;

/// The line that tells an answer, with its LF. It answers only want of memory.
#[tactic(auto, unfolding(crate::specs::Answer::answer_line))]
pub fn line_for(alloc: Global, answer: Answer) -> Result<Vec<u8>, NoMemory>
    ensures { IfOk result (λ line. line.items ≡ answer_line answer) }
{
    let reply = reply_for(alloc, answer)?;
    let mut line = Vec::new(alloc);
    reply_line(&reply, &mut line)?;
    Ok(line)
}

fn reply_for(alloc: Global, answer: Answer) -> Result<Reply, NoMemory>
    ensures { IfOk result (λ reply. reply ≡ reply_for answer) }
{
    match answer {
        Ok(reply) => Ok(reply),
        Err(why) => why.reply(alloc),
    }
}
