//! What is made of a call before the kernel is asked.
ghost use Rattle.std.specs.Prelude.{◌≡◌, ◌≤◌, IfOk};
ghost use Rattle.spec_kernel.specs.Small.{count_sent};
ghost use Rattle.spec_histories.specs.Replies.{request_of};

use crate::call::SeatAct;
use crate::room::AnswerRoom;
use dk_base::error::NoMemory;
use dk_base::request::Request;
use std::alloc::Global;

/// What is made of a call before the kernel is asked: a copy of it, and room for a copy of its answer.
#[derive(Drop)]
pub struct Asked {
    pub act: SeatAct,
    pub room: AnswerRoom,
}

impl Asked {
    pub fn new(alloc: Global, act: &SeatAct) -> Result<Self, NoMemory>
        ensures act { IfOk result (λ asked. asked.act ≡ act.now) }
        ensures room { IfOk result (λ asked. count_sent (request_of act.now) ≤ asked.room) }
    {
        let copy = act.copy(alloc)?;
        let room = AnswerRoom::new(alloc, ports_of(act))?;
        Ok(Asked { act: copy, room })
    }
}

/// How many ports an event is sent to.
fn ports_of(act: &SeatAct) -> usize
    ensures { result ≡ count_sent (request_of act.now) }
{
    match act {
        SeatAct::Enter(Request::SendN { ports, .. }) => ports.len(),
        _ => 0,
    }
}
