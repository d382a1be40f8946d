//! What `show` answers and writes for what was read.
ghost use Rattle.std.specs.Prelude.{IfOk};
ghost use Rattle.doors_top.specs.declared.script_in.TheConstants.{SCRIPT_LIMIT};
ghost use Rattle.dk_base.specs.Input.{IsWithinLimit};
ghost use Rattle.doors_top.specs.Outcomes.{outcome_with};
ghost use Rattle.doors_top.specs.Top.{IsAnswer, IsShown};

use crate::reply::{Reply, reply_for_bad};
use crate::script_in::script_in;
use crate::status::Status;
use dk_base::error::NoMemory;
use dk_base::reading::ReadText;
use script_lang::print::print;
use std::alloc::Global;

/// What `show` answers and writes: the canonical text of the script, or what is bad of it.
pub fn show(alloc: Global, read: &ReadText) -> Result<Reply, NoMemory>
    requires { IsWithinLimit SCRIPT_LIMIT read.now }
    ensures answer { IfOk result (λ reply. IsAnswer reply.status) }
    ensures said { IfOk result (λ reply. IsShown read.now (outcome_with reply.status reply.text)) }
{
    match script_in(alloc, read)? {
        Ok(script) => Ok(Reply {
            status: Status::Complete,
            text: print(alloc, &script)?,
        }),
        Err(bad) => {
            let reply = reply_for_bad(alloc, bad)?;
            Ok(reply)
        }
    }
}
