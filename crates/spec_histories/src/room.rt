//! Room for an answer, which is taken before the kernel is called.
ghost use Rattle.std.specs.Prelude.{◌≡◌, ◌≤◌, [], length, IfOk};
ghost use Rattle.dk_base.specs.declared.limits.TheConstants.{ANSWER_ITEMS_MAX, DATA_MAX, PASS_MAX};
ghost use Rattle.spec_histories.specs.Rooms.{IsNoLarger};

use dk_base::answer::Answer;
use dk_base::error::{Errno, NoMemory};
use dk_base::limits::{ANSWER_ITEMS_MAX, DATA_MAX, PASS_MAX};
use dk_base::list::{Bytes, ErrList, EventList, FdList, Room, Sequence};
use dk_base::number::Fd;
use dk_base::object::EventRec;
use std::alloc::Global;
use std::marker::Model;

/// Room for one answer: 4,096 bytes, 16 descriptors and 64 events, and as many errors as contracts see.
pub struct AnswerRoom {
    bytes: Room<u8>,
    fds: Room<Fd>,
    events: Room<EventRec>,
    errors: Room<Option<Errno>>,
}

/// By hand, so that dropping the room is one call where an answer needs none.
impl Drop for AnswerRoom {
    fn drop(self) {
        let AnswerRoom {
            bytes: _,
            fds: _,
            events: _,
            errors: _,
        } = self;
    }
}

impl Model for AnswerRoom {
    ghost use Rattle.std.specs.Prelude.{ℕ};
    ghost use Rattle.spec_histories.specs.Rooms.{IsRoom};

    ghost Value = { ℕ };

    ghost view = { λ r. r.errors.spare };

    ghost invariant = { λ r. IsRoom r.bytes r.fds r.events r.errors };
}

impl AnswerRoom {
    /// Room for the largest answer of an event that is sent to so many ports.
    pub fn new(alloc: Global, ports: usize) -> Result<Self, NoMemory>
        ensures { IfOk result (λ room. ports ≤ room) }
    {
        let bytes = Room::with_room(alloc, DATA_MAX)?;
        let fds = Room::with_room(alloc, PASS_MAX)?;
        let events = Room::with_room(alloc, ANSWER_ITEMS_MAX as usize)?;
        let errors = Room::with_room(alloc, ports)?;
        Ok(AnswerRoom {
            bytes,
            fds,
            events,
            errors,
        })
    }

    /// An answer equal to this one. It takes no memory.
    pub fn fill(self, answer: &Answer) -> Answer
        requires { IsNoLarger self answer.now }
        ensures { result ≡ answer.now }
    {
        match answer {
            Answer::Wait => Answer::Wait,
            Answer::WaitCall { call } => Answer::WaitCall { call: *call },
            Answer::Done => Answer::Done,
            Answer::NewFd { fd } => Answer::NewFd { fd: *fd },
            Answer::TwoFds { read, write } => Answer::TwoFds {
                read: *read,
                write: *write,
            },
            Answer::Count { n } => Answer::Count { n: *n },
            Answer::Available { n } => Answer::Available { n: *n },
            Answer::Param { value } => Answer::Param { value: *value },
            Answer::Info(info) => Answer::Info(*info),
            Answer::Client { process } => Answer::Client { process: *process },
            Answer::Child { process } => Answer::Child { process: *process },
            Answer::Cancel { yes } => Answer::Cancel { yes: *yes },
            Answer::Data { bytes } => Answer::Data {
                bytes: self.into_bytes(bytes.slice()),
            },
            Answer::Entered {
                call,
                entry,
                cookie,
                bytes,
                fds,
            } => {
                let (bytes, fds) = self.into_both(bytes.slice(), fds.slice());
                Answer::Entered {
                    call: *call,
                    entry: *entry,
                    cookie: *cookie,
                    bytes,
                    fds,
                }
            }
            Answer::EnteredNotice {
                notice,
                entry,
                cookie,
            } => Answer::EnteredNotice {
                notice: *notice,
                entry: *entry,
                cookie: *cookie,
            },
            Answer::EnterFailed { call } => Answer::EnterFailed { call: *call },
            Answer::Results { bytes, fds, grown } => {
                let (bytes, fds) = self.into_both(bytes.slice(), fds.slice());
                Answer::Results {
                    bytes,
                    fds,
                    grown: *grown,
                }
            }
            Answer::OneEvent(event) => Answer::OneEvent(*event),
            Answer::Events(events) => Answer::Events(self.into_events(events.slice())),
            Answer::Errors(errors) => Answer::Errors(self.into_errors(errors.slice())),
            Answer::Failure(errno) => Answer::Failure(*errno),
        }
    }

    // Copies in one kind of the room, or in two.

    fn into_bytes(self, bytes: &[u8]) -> Bytes
        requires { length bytes.now ≤ DATA_MAX }
        ensures { result ≡ bytes.now }
    {
        let AnswerRoom {
            bytes: room,
            fds: _,
            events: _,
            errors: _,
        } = self;
        filled(room, bytes)
    }

    fn into_both(self, bytes: &[u8], fds: &[Fd]) -> (Bytes, FdList)
        requires { (length bytes.now ≤ DATA_MAX) × (length fds.now ≤ PASS_MAX) }
        ensures { (result.0 ≡ bytes.now) × (result.1 ≡ fds.now) }
    {
        let AnswerRoom {
            bytes: for_bytes,
            fds: for_fds,
            events: _,
            errors: _,
        } = self;
        (filled(for_bytes, bytes), filled(for_fds, fds))
    }

    fn into_events(self, events: &[EventRec]) -> EventList
        requires { length events.now ≤ ANSWER_ITEMS_MAX }
        ensures { result ≡ events.now }
    {
        let AnswerRoom {
            bytes: _,
            fds: _,
            events: room,
            errors: _,
        } = self;
        filled(room, events)
    }

    fn into_errors(self, errors: &[Option<Errno>]) -> ErrList
        requires { length errors.now ≤ self }
        ensures { result ≡ errors.now }
    {
        let AnswerRoom {
            bytes: _,
            fds: _,
            events: _,
            errors: room,
        } = self;
        filled(room, errors)
    }
}

fn filled<T: Copy + Drop>(mut room: Room<T>, items: &[T]) -> Sequence<T>
    requires empty { room.items ≡ [] }
    requires fits { length items.now ≤ room.spare }
    ensures { result ≡ items.now }
{
    room.append(items);
    room.into_list()
}
