//! The request that C asks for.
ghost use Rattle.std.specs.Prelude.{◌≡◌, IfOk};
ghost use Rattle.kernel_chronicle.specs.Asks.{are_below, asked_request, descriptor_request_asked, door_request_asked, fds_of, flag_asked, has_message, message_asked, mode_asked, param_asked, passes_of, plain_asked, port_request_asked, process_request_asked};

use crate::asked::Asked;
use dk_base::error::NoMemory;
use dk_base::list::{Bytes, FdList, PassList};
use dk_base::number::{Fd, PathId, Pid, Tid};
use dk_base::object::Pass;
use dk_base::request::{AlertMode, Param, Request};
use dk_base::set::{Attrs, PollSet};
use std::alloc::Global;

/// What is released has this bit besides its number.
const RELEASE: u64 = 1 << 32;

/// One more than the greatest number of 32 bits.
const NUMBERS: u64 = 1 << 32;

fn are_below(items: &[u64], limit: u64) -> bool
    ensures { result ≡ are_below limit items.now }
{
    items.iter().all(|item| *item < limit)
}

fn passes(alloc: Global, items: &[u64]) -> Result<PassList, NoMemory>
    ensures { IfOk result (λ list. list ≡ passes_of items.now) }
{
    let mut list = PassList::new(alloc);
    for item in items {
        list.push(Pass {
            fd: Fd((*item % NUMBERS) as u32),
            release: *item / RELEASE != 0,
        })?;
    }
    Ok(list)
}

fn fds(alloc: Global, items: &[u64]) -> Result<FdList, NoMemory>
    ensures { IfOk result (λ list. list ≡ fds_of items.now) }
{
    let mut list = FdList::new(alloc);
    for item in items {
        list.push(Fd((*item % NUMBERS) as u32))?;
    }
    Ok(list)
}

fn flag(number: u64) -> Option<bool>
    ensures { result ≡ flag_asked number }
{
    match number {
        0 => Some(false),
        1 => Some(true),
        _ => None,
    }
}

fn param(number: u32) -> Option<Param>
    ensures { result ≡ param_asked number }
{
    match number {
        0 => Some(Param::DataMax),
        1 => Some(Param::DataMin),
        2 => Some(Param::DescMax),
        _ => None,
    }
}

fn mode(number: u64) -> Option<AlertMode>
    ensures { result ≡ mode_asked number }
{
    match number {
        0 => Some(AlertMode::Set),
        1 => Some(AlertMode::Update),
        2 => Some(AlertMode::Nothing),
        _ => None,
    }
}

/// Whether an operation hands over data or items.
fn has_message(op: u32) -> bool
    ensures { result ≡ has_message op }
{
    op == 2 || op == 3 || op == 20 || op == 28
}

/// Of the operations that do.
#[tactic(auto, unfolding(crate::specs::Asks::message_asked))]
fn message(
    alloc: Global,
    asked: &Asked,
    data: &[u8],
    items: &[u64],
) -> Result<Option<Request>, NoMemory>
    ensures { IfOk result (λ r. r ≡ message_asked asked.now «data».now items.now) }
{
    if asked.op == 28 {
        if !are_below(items, NUMBERS) {
            return Ok(None);
        }
        return Ok(Some(Request::SendN {
            ports: fds(alloc, items)?,
            events: asked.b,
            user: asked.c,
        }));
    }
    let bytes = Bytes::from_slice(alloc, data)?;
    if asked.op == 20 {
        return Ok(Some(Request::Write {
            fd: Fd(asked.a),
            bytes,
        }));
    }
    if !are_below(items, 2 * RELEASE) {
        return Ok(None);
    }
    let pass = passes(alloc, items)?;
    match asked.op {
        2 => Ok(Some(Request::Call {
            door: Fd(asked.a),
            bytes,
            pass,
            rsize: asked.c,
        })),
        3 => Ok(Some(Request::Return { bytes, pass })),
        _ => Ok(None),
    }
}

#[tactic(auto, unfolding(crate::specs::Asks::door_request_asked))]
fn door_request(asked: &Asked) -> Option<Request>
    ensures { result ≡ door_request_asked asked.now }
{
    let fd = Fd(asked.a);
    Some(match asked.op {
        1 => Request::Create {
            entry: asked.a,
            cookie: asked.c,
            attrs: Attrs(asked.b),
        },
        4 => Request::Revoke { fd },
        5 => Request::Bind { fd },
        6 => Request::Unbind,
        7 => Request::Info { fd },
        8 => Request::InfoQuery,
        9 => Request::GetParam {
            fd,
            param: param(asked.b)?,
        },
        10 => Request::SetParam {
            fd,
            param: param(asked.b)?,
            value: asked.c,
        },
        11 => Request::Cred,
        12 => Request::TestCancel,
        _ => return None,
    })
}

#[tactic(auto, unfolding(crate::specs::Asks::descriptor_request_asked))]
fn descriptor_request(asked: &Asked) -> Option<Request>
    ensures { result ≡ descriptor_request_asked asked.now }
{
    let fd = Fd(asked.a);
    let path = PathId(asked.b);
    Some(match asked.op {
        13 => Request::Close { fd },
        14 => Request::Dup { fd },
        15 => Request::Attach { fd, path },
        16 => Request::Detach { path },
        17 => Request::Open { path },
        18 => Request::Await { path },
        19 => Request::Pipe,
        21 => Request::Read { fd, max: asked.b },
        _ => return None,
    })
}

#[tactic(auto, unfolding(crate::specs::Asks::port_request_asked))]
fn port_request(asked: &Asked) -> Option<Request>
    ensures { result ≡ port_request_asked asked.now }
{
    let port = Fd(asked.a);
    Some(match asked.op {
        22 => Request::PortCreate,
        23 => {
            if asked.c >= NUMBERS {
                return None;
            }
            Request::Associate {
                port,
                object: Fd(asked.b),
                events: PollSet(asked.c as u32),
                user: asked.d,
            }
        }
        24 => Request::Dissociate {
            port,
            object: Fd(asked.b),
        },
        25 => Request::Get {
            port,
            wait: flag(u64::from(asked.b))?,
        },
        26 => {
            if asked.c >= NUMBERS {
                return None;
            }
            Request::GetN {
                port,
                max: asked.b,
                nget: asked.c as u32,
                wait: flag(asked.d)?,
            }
        }
        27 => Request::Send {
            port,
            events: asked.b,
            user: asked.c,
        },
        29 => Request::Alert {
            port,
            mode: mode(asked.d)?,
            events: asked.b,
            user: asked.c,
        },
        _ => return None,
    })
}

#[tactic(auto, unfolding(crate::specs::Asks::process_request_asked))]
fn process_request(asked: &Asked) -> Option<Request>
    ensures { result ≡ process_request_asked asked.now }
{
    Some(match asked.op {
        30 => Request::Interrupt {
            thread: Tid(asked.a),
        },
        31 => Request::Kill {
            process: Pid(asked.a),
        },
        32 => Request::Exit,
        33 => Request::Fork {
            child: Pid(asked.a),
        },
        34 => Request::TimerCreate {
            port: Fd(asked.a),
            user: asked.c,
        },
        35 => Request::TimerSet {
            timer: asked.a,
            first: asked.c,
            interval: asked.d,
        },
        36 => Request::TimerDelete { timer: asked.a },
        37 => Request::Advance { by: asked.c },
        _ => return None,
    })
}

/// Of the operations that hand over neither data nor items.
#[tactic(auto, unfolding(crate::specs::Asks::plain_asked))]
fn plain(asked: &Asked) -> Option<Request>
    ensures { result ≡ plain_asked asked.now }
{
    if asked.op <= 12 {
        door_request(asked)
    } else if asked.op <= 21 {
        descriptor_request(asked)
    } else if asked.op <= 29 {
        port_request(asked)
    } else {
        process_request(asked)
    }
}

/// The request that is asked for, where there is one.
pub fn request(
    alloc: Global,
    asked: &Asked,
    data: &[u8],
    items: &[u64],
) -> Result<Option<Request>, NoMemory>
    ensures { IfOk result (λ r. r ≡ asked_request asked.now «data».now items.now) }
{
    if has_message(asked.op) {
        message(alloc, asked, data, items)
    } else {
        Ok(plain(asked))
    }
}
