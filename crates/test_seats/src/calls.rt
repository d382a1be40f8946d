//! What a seat asks for, and what it is replied.
ghost use Rattle.std.specs.Prelude.{ℕ, ◌≡◌, IfOk, true};
ghost use Rattle.spec_kernel.specs.Words.{IsFit, State};
ghost use Rattle.seat_api.specs.History.{is_allowed};

use dk_base::answer::Answer;
use dk_base::error::NoMemory;
use dk_base::list::{Bytes, PassList};
use dk_base::number::{Fd, PathId};
use dk_base::request::Request;
use dk_base::set::Attrs;
use seat_api::entry::SeatReply;
use spec_records::record::ThreadState;
use std::alloc::Global;

/// A call of a seat.
#[derive(Clone, Copy)]
pub enum Asks {
    Create,
    /// The descriptor 0 is attached to this path.
    Attach(u32),
    Open(u32),
    Cred,
    /// A call of this descriptor with the byte `q`.
    Call(u32),
    /// A return with nothing, before the first call.
    Serve,
    /// A return with the byte `a`.
    Answer,
    GoOn,
}

/// A reply.
#[derive(Clone, Copy)]
pub enum Gives {
    NewFd(u32),
    Done,
    Wait,
    /// The first call of all.
    WaitFirstCall,
    WaitCall,
    /// With the byte `q`.
    Entered,
    /// With the byte `a`.
    Results,
    Failure,
    NotRunningInFirstCall,
    NotReady,
}

/// What came of a call.
#[derive(Clone, Copy)]
pub enum Came {
    AsWritten,
    Otherwise,
    NoMemory,
    /// There was no memory for the request, so it was not entered.
    NotAsked,
}

fn is_answer(answer: &Answer, gives: Gives) -> bool {
    match (answer, gives) {
        (Answer::NewFd { fd }, Gives::NewFd(number)) => fd.0 == number,
        (Answer::Done, Gives::Done) => true,
        (Answer::Wait, Gives::Wait) => true,
        (Answer::WaitCall { call }, Gives::WaitFirstCall) => *call == 1,
        (Answer::WaitCall { .. }, Gives::WaitCall) => true,
        (Answer::Entered { bytes, .. }, Gives::Entered) => bytes.slice() == b"q".as_slice(),
        (Answer::Results { bytes, .. }, Gives::Results) => bytes.slice() == b"a".as_slice(),
        (Answer::Failure(_), Gives::Failure) => true,
        _ => false,
    }
}

pub fn what_came(reply: &Result<SeatReply, NoMemory>, gives: Gives) -> Came {
    let is_written = match reply {
        Ok(SeatReply::Answer(answer)) => is_answer(answer, gives),
        Ok(SeatReply::NotRunning(ThreadState::Calling { call: 1 })) => {
            matches!(gives, Gives::NotRunningInFirstCall)
        }
        Ok(SeatReply::NotReady) => matches!(gives, Gives::NotReady),
        Ok(_) => false,
        Err(_) => return Came::NoMemory,
    };
    if is_written {
        Came::AsWritten
    } else {
        Came::Otherwise
    }
}

pub fn request(alloc: Global, asks: Asks) -> Result<Request, NoMemory>
    ensures fit { IfOk result (λ r. (m : State) (t : ℕ) → IsFit m t r) }
    ensures allowed { IfOk result (λ r. is_allowed r ≡ true) }
{
    match asks {
        Asks::Create => Ok(Request::Create {
            entry: 1,
            cookie: 0,
            attrs: Attrs(0),
        }),
        Asks::Attach(path) => Ok(Request::Attach {
            fd: Fd(0),
            path: PathId(path),
        }),
        Asks::Open(path) => Ok(Request::Open { path: PathId(path) }),
        Asks::Call(door) => Ok(Request::Call {
            door: Fd(door),
            bytes: Bytes::from_slice(alloc, b"q")?,
            pass: PassList::new(alloc),
            rsize: 16,
        }),
        Asks::Serve => Ok(Request::Return {
            bytes: Bytes::new(alloc),
            pass: PassList::new(alloc),
        }),
        Asks::Answer => Ok(Request::Return {
            bytes: Bytes::from_slice(alloc, b"a")?,
            pass: PassList::new(alloc),
        }),
        _ => Ok(Request::Cred),
    }
}
