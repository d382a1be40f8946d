//! What a command answers and writes.
ghost use Rattle.std.specs.Prelude.{◌≡◌, IfOk};
ghost use Rattle.doors_top.specs.Outcomes.{outcome_of_bad, outcome_with, usage};

use crate::status::Status;
use dk_base::error::NoMemory;
use dk_base::list::Bytes;
use script_lang::bad::Bad;
use script_lang::bad_text::bad_text;
use std::alloc::Global;

const USAGE: &[u8] = b"usage: doors play|run|show|check|load N\n";

/// A status with the text that goes with it.
#[derive(Drop)]
pub struct Reply {
    pub status: Status,
    pub text: Bytes,
}

/// The reply to words that are no command.
pub fn usage_reply(alloc: Global) -> Result<Reply, NoMemory>
    ensures status { IfOk result (λ reply. reply.status ≡ Status.Usage) }
    ensures made { IfOk result (λ reply. outcome_with reply.status reply.text ≡ usage) }
{
    let text = Bytes::from_slice(alloc, USAGE)?;
    Ok(Reply {
        status: Status::Usage,
        text,
    })
}

/// The reply that tells what is bad of an input.
pub fn reply_for_bad(alloc: Global, bad: Bad) -> Result<Reply, NoMemory>
    ensures status { IfOk result (λ reply. reply.status ≡ Status.Script) }
    ensures text { IfOk result (λ reply. reply.text ≡ (outcome_of_bad bad).text) }
{
    Ok(Reply {
        status: Status::Script,
        text: bad_text(alloc, bad)?,
    })
}
