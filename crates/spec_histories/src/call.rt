//! Calls of seats, and their replies.
ghost use Rattle.std.specs.Prelude.{◌≡◌, IfOk};
ghost use Rattle.spec_histories.specs.Replies.{request_of};

use dk_base::answer::Answer;
use dk_base::error::NoMemory;
use dk_base::request::Request;
use spec_records::record::ThreadState;
use std::alloc::Global;

/// What a call of a seat asks for its thread.
pub enum SeatAct {
    /// To enter the kernel with a request.
    Enter(Request),
    /// To go on from a wait.
    GoOn,
}

/// By hand, so that dropping it is one call for its holder.
impl Drop for SeatAct {
    fn drop(self) {
        match self {
            SeatAct::Enter(request) => drop(request),
            SeatAct::GoOn => {}
        }
    }
}

impl SeatAct {
    pub fn copy(&self, alloc: Global) -> Result<Self, NoMemory>
        ensures { IfOk result (λ copy. copy ≡ self.now) }
    {
        match self {
            SeatAct::Enter(request) => Ok(SeatAct::Enter(request.copy(alloc)?)),
            SeatAct::GoOn => Ok(SeatAct::GoOn),
        }
    }

    /// What it asks of the kernel: a request, or the end of a wait.
    pub fn into_request(self) -> Option<Request>
        ensures { result ≡ request_of self }
    {
        match self {
            SeatAct::Enter(request) => Some(request),
            SeatAct::GoOn => None,
        }
    }
}

/// What a call of a seat is answered.
#[derive(Drop)]
pub enum SeatReply {
    /// The kernel's answer.
    Answer(Answer),
    /// The thread is at this and does not run, so it cannot enter the kernel.
    NotRunning(ThreadState),
    /// The thread runs, or is at no wait that can end.
    NotReady,
}
