//! Why a thread cannot take a turn.

use crate::acts::Act;
use crate::lines::Lines;
use crate::run::{Run, Thread};
use crate::shown::Shown;
use crate::words::word_at;
use dk_base::event::What;
use std::fmt;

/// For which calls a thread waits.
#[derive(Clone, Copy)]
pub(crate) enum Pool<'a> {
    /// It is not known which.
    Untold,
    /// Those of the private door that it is bound to.
    PrivateDoor,
    /// Those of the doors of its process that are not private.
    Process(&'a [u8]),
}

/// Who took a call.
#[derive(Clone, Copy)]
pub(crate) struct Server<'a> {
    name: &'a [u8],
    event: u64,
}

/// Why nothing is found at a path.
#[derive(Clone, Copy)]
pub(crate) enum PathState {
    Attached,
    Detached { event: u64 },
    AttachFailed { event: u64, error: &'static str },
    /// A line attaches it, and no thread has come there.
    AttachToCome { line: u64 },
    NotAttached,
}

/// A path that a thread waits for.
#[derive(Clone, Copy)]
pub(crate) struct AwaitedPath<'a> {
    name: &'a [u8],
    state: PathState,
}

/// How a thread stands after its last act, or after that of another that ended it; the events are those of these acts.
#[derive(Clone, Copy)]
pub(crate) enum Standing<'a> {
    /// It is a spare.
    NotStarted,
    /// It is a thread of a child.
    NotForked,
    Exited {
        event: u64,
    },
    KilledItself {
        event: u64,
    },
    Killed {
        event: u64,
    },
    InCall {
        event: u64,
        call: u64,
        server: Option<Server<'a>>,
    },
    ForCalls {
        event: u64,
        pool: Pool<'a>,
    },
    ForPath {
        event: u64,
        path: Option<AwaitedPath<'a>>,
    },
    AtPort {
        event: u64,
        descriptor: u64,
        wanted: u64,
    },
    Waits {
        event: u64,
    },
}

impl<'a> Standing<'a> {
    /// After another thread took the call in which it is.
    fn accepted(self, by: Server<'a>) -> Self {
        match self {
            Standing::InCall {
                event,
                call,
                server: None,
            } => {
                Standing::InCall {
                    event,
                    call,
                    server: Some(by),
                }
            }
            other => other,
        }
    }

    /// Whether it takes no turn any more, or none yet.
    pub fn is_over(&self) -> bool {
        matches!(
            self,
            Standing::NotStarted
                | Standing::NotForked
                | Standing::Exited { .. }
                | Standing::KilledItself { .. }
                | Standing::Killed { .. }
        )
    }

    pub fn is_for_calls(&self) -> bool {
        matches!(self, Standing::ForCalls { .. })
    }
}

/// A thread's name, and how it stands: a line.
#[derive(Clone, Copy)]
pub(crate) struct ThreadTold<'a> {
    pub name: &'a [u8],
    pub standing: Standing<'a>,
}

impl fmt::Display for ThreadTold<'_> {
    fn fmt<W: fmt::Write>(&self, f: &mut fmt::Formatter<W>) -> fmt::Result {
        let name = Shown(self.name);
        write!(f, "'{name}' ")?;
        match &self.standing {
            Standing::NotStarted => writeln!(f, "is a spare that has not started"),
            Standing::NotForked => writeln!(f, "is a thread of a child that no 'fork' has begun"),
            Standing::Exited { event } => writeln!(f, "exited at event {event}"),
            Standing::KilledItself { event } => {
                writeln!(f, "was ended by its own 'kill' of event {event}")
            }
            Standing::Killed { event } => writeln!(f, "was ended by the 'kill' of event {event}"),
            Standing::InCall {
                event,
                call,
                server,
            } => {
                write!(f, "waits in call c{call} since event {event}; ")?;
                match server {
                    None => writeln!(f, "no thread has accepted it"),
                    Some(Server { name, event }) => {
                        let name = Shown(name);
                        writeln!(f, "'{name}' accepted it at event {event}")
                    }
                }
            }
            Standing::ForCalls { event, pool } => writeln!(
                f,
                "waits since event {event} for calls{pool}"
            ),
            Standing::ForPath { event, path: None } => writeln!(
                f,
                "waits for a path since event {event}"
            ),
            Standing::ForPath {
                event,
                path: Some(AwaitedPath { name, state }),
            } => {
                let name = Shown(name);
                writeln!(f, "waits for path '{name}' since event {event}{state}")
            }
            Standing::AtPort {
                event,
                descriptor,
                wanted,
            } => {
                write!(f, "waits since event {event} ")?;
                if *wanted > 1 {
                    write!(f, "for {wanted} events ")?;
                }
                writeln!(f, "at the port that was descriptor {descriptor} then")
            }
            Standing::Waits { event } => writeln!(f, "waits since event {event}"),
        }
    }
}

impl fmt::Display for Pool<'_> {
    fn fmt<W: fmt::Write>(&self, f: &mut fmt::Formatter<W>) -> fmt::Result {
        match self {
            Pool::Untold => Ok(()),
            Pool::PrivateDoor => f.write_str(" of the private door that it is bound to"),
            Pool::Process(name) => {
                let name = Shown(name);
                write!(f, " of the doors of process '{name}' that are not private")
            }
        }
    }
}

impl fmt::Display for PathState {
    fn fmt<W: fmt::Write>(&self, f: &mut fmt::Formatter<W>) -> fmt::Result {
        match self {
            PathState::Attached => Ok(()),
            PathState::Detached { event } => write!(
                f,
                "; the 'detach' of event {event} took it away"
            ),
            PathState::AttachFailed { event, error } => {
                write!(f, "; the 'attach' of event {event} answered {error}")
            }
            PathState::AttachToCome { line } => {
                write!(f, "; line {line} attaches it, and no thread has come there")
            }
            PathState::NotAttached => f.write_str("; no line attaches it"),
        }
    }
}

/// Why nothing is found at a path: by its first detach, or else by its first attach, or else by the last line that attaches it.
fn state_of(run: &Run<'_>, name: &[u8], number: u64) -> PathState {
    let mut state = PathState::NotAttached;
    for act in run.acts() {
        if act.number != number {
            continue;
        }
        let event = act.event;
        match act.what {
            What::Detach if act.is_done() => return PathState::Detached { event },
            What::Attach if matches!(state, PathState::NotAttached) => {
                state = match act.error {
                    None => PathState::Attached,
                    Some(error) => PathState::AttachFailed { event, error },
                };
            }
            _ => {}
        }
    }
    if let PathState::NotAttached = state {
        for line in Lines::new(run.text()) {
            if word_at(line.text, 0) == b"attach".as_slice() && word_at(line.text, 2) == name {
                state = PathState::AttachToCome { line: line.number };
            }
        }
    }
    state
}

/// The path of this number, as far as it is known.
fn path_of<'a>(run: &Run<'a>, number: u64) -> Option<AwaitedPath<'a>> {
    let name = *run.paths().get(number as usize)?;
    Some(AwaitedPath {
        name,
        state: state_of(run, name, number),
    })
}

/// How a thread stands after an act of its own. `pool` tells for which calls it waits where it waits for some.
fn standing_after<'a>(act: &Act, thread: &Thread<'a>, pool: &mut Pool<'a>) -> Standing<'a> {
    let Act { event, number, .. } = *act;
    match act.what {
        What::Bind if act.is_done() => *pool = Pool::PrivateDoor,
        What::Unbind if act.is_done() => *pool = Pool::Process(thread.process_name),
        What::Woken if !act.is_done() => *pool = Pool::Process(thread.process_name),
        What::Return | What::Accept => {
            // its descriptors were wrong, or its door was valid no more
            if !act.is_done() && matches!(*pool, Pool::PrivateDoor) {
                *pool = Pool::Untold;
            }
            return Standing::ForCalls { event, pool: *pool };
        }
        What::Call => return Standing::InCall {
            event,
            call: number,
            server: None,
        },
        What::Await => return Standing::ForPath { event, path: None },
        What::Get | What::GetN => {
            return Standing::AtPort {
                event,
                descriptor: number,
                wanted: act.wanted,
            };
        }
        What::Exit => return Standing::Exited { event },
        What::Kill if number == thread.process => return Standing::KilledItself { event },
        _ => {}
    }
    Standing::Waits { event }
}

/// How a thread stands after its acts, and those of others that let it begin, ended it or took its call.
pub(crate) fn standing_of<'a>(run: &Run<'a>, thread: &Thread<'a>) -> Standing<'a> {
    let mut standing = if thread.is_spare {
        Standing::NotStarted
    } else {
        Standing::NotForked
    };
    let mut pool = Pool::Process(thread.process_name);
    let mut number = 0;
    let mut has_begun = !thread.is_in_child;
    for act in run.acts() {
        let event = act.event;
        if act.thread == thread.number {
            number = act.number;
            standing = standing_after(act, thread, &mut pool);
            if standing.is_over() {
                break;
            }
            continue;
        }
        match act.what {
            What::Fork if act.number == thread.process => has_begun = true,
            What::Kill if has_begun && act.number == thread.process => {
                standing = Standing::Killed { event };
                break;
            }
            What::Accept if act.number == number => {
                let name = run.name_of(act.thread);
                standing = standing.accepted(Server { name, event });
            }
            _ => {}
        }
    }
    match standing {
        Standing::ForPath { event, .. } => Standing::ForPath {
            event,
            path: path_of(run, number),
        },
        standing => standing,
    }
}
