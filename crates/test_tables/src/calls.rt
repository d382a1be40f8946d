//! Door calls: two through their stages, a chain of all threads that is cut in the middle, callers and servers that leave.
use call_tree::calls::Calls;
use call_tree::parts::{Args, Leave, Outcome};
use dk_base::error::Errno;
use dk_base::list::{Bytes, ObjList};
use dk_base::number::Tid;
use dk_base::object::Obj;
use std::alloc::Global;
use std::process::Abort;

/// The door that all calls are of.
const DOOR: u32 = 3;

/// What is asked of the calls, and what they answer.
enum Act {
    /// A thread calls, with two objects.
    Open(Tid),
    Give(u32, Tid),
    /// A thread's call goes to another, which enters it.
    Serve(Tid, Tid),
    /// Each thread but the last calls the next one.
    ServeAll,
    Return(Tid, &'static [u8]),
    /// The results that a thread collects, and whether they are longer than its room.
    Collect(Tid, &'static [u8], bool),
    /// The error that a thread collects.
    CollectError(Tid, Errno),
    Refuse(u32, Errno),
    /// The caller of a thread is interrupted.
    Interrupt(Tid, Tid),
    /// A caller ends whose call was given to a thread, with so many objects.
    End(Tid, Tid, usize),
    /// A server ends to which a call was given, with so many objects.
    EndServer(Tid, usize),
    /// The least thread that may collect.
    Collecting(Option<Tid>),
    Ready(u32),
    /// One thread is the root of both, and the other the lead.
    Chain(Tid, Tid),
    /// A thread's root and its lead.
    Between(Tid, Tid, Tid),
    ServesNone(Tid),
    IsGone(u32),
    /// How many calls there are, and how many were made.
    Count(usize, u32),
}

/// Another call of a thread, with two objects and room for two bytes.
fn opens(alloc: Global, calls: &mut Calls, caller: Tid) -> bool {
    if calls.reserve().is_err() || calls.made() > 1000 {
        return false;
    }
    if caller.0 == 0 || caller.0 > 64 || calls.called_by(caller).is_some() {
        return false;
    }
    let Ok(objects) = ObjList::from_slice(alloc, &[Obj::Door(1), Obj::Port(2)]) else {
        return false;
    };
    let bytes = Bytes::new(alloc);
    let made = calls.made();
    calls.open_call(caller, DOOR, Args { bytes, objects }, 2, false, 1) == made + 1
}

/// Whether a waiting call is given to a thread.
fn is_given_to(calls: &mut Calls, c: u32, u: Tid) -> bool {
    if !calls.is_queued(c) || u.0 == 0 || u.0 > 64 {
        return false;
    }
    if calls.served_by(u).is_some() || calls.called_by(u).is_some() {
        return false;
    }
    calls.give(c, u);
    calls.given(c, u).is_some() && calls.is_waiting(c) && calls.objects_of(c) == 2
}

/// Whether a thread enters the call that it was given.
fn enters(calls: &mut Calls, c: u32, u: Tid) -> bool {
    if !calls.is_given(c) {
        return false;
    }
    let args = calls.enter_inv(c);
    args.objects.len() == 2 && calls.client(u).is_some()
}

/// Whether a thread returns these results to its client, with an object.
fn returns(alloc: Global, calls: &mut Calls, u: Tid, results: &[u8]) -> bool {
    if calls.client(u).is_none() {
        return false;
    }
    let Ok(bytes) = Bytes::from_slice(alloc, results) else {
        return false;
    };
    let Ok(objects) = ObjList::from_slice(alloc, &[Obj::Door(4)]) else {
        return false;
    };
    calls.finish(u, bytes, objects);
    calls.served_by(u).is_none()
}

/// Whether a caller collects these results.
fn collects(calls: &mut Calls, caller: Tid, expected: &[u8], longer: bool) -> bool {
    if !calls.ready(caller) {
        return false;
    }
    match calls.collect(caller) {
        Outcome::Results { bytes, grown, .. } => bytes.slice() == expected && grown == longer,
        Outcome::Ended(_) => false,
    }
}

/// Whether a caller collects this error.
fn is_told(calls: &mut Calls, caller: Tid, expected: Errno) -> bool {
    if !calls.ready(caller) {
        return false;
    }
    match calls.collect(caller) {
        Outcome::Results { .. } => false,
        Outcome::Ended(error) => error == expected,
    }
}

/// Whether a thread's call goes to another, which enters it.
fn is_served(alloc: Global, calls: &mut Calls, caller: Tid, u: Tid) -> bool {
    if !opens(alloc, calls, caller) {
        return false;
    }
    let c = calls.made();
    is_given_to(calls, c, u) && enters(calls, c, u) && calls.caller_of(u) == Some(caller)
}

/// Whether one thread is the root of both, and the other the lead.
fn is_chain(calls: &Calls, root: Tid, lead: Tid) -> bool {
    calls.root_of(root) == root
        && calls.root_of(lead) == root
        && calls.lead_of(root) == lead
        && calls.lead_of(lead) == lead
}

/// Whether each thread but the last calls the next one.
fn are_chained(alloc: Global, calls: &mut Calls) -> bool {
    for t in 1..64 {
        if !is_served(alloc, calls, Tid(t), Tid(t + 1)) {
            return false;
        }
    }
    true
}

/// Whether the caller of a thread is interrupted, and the thread is told so.
fn is_cut_off(calls: &mut Calls, caller: Tid, u: Tid) -> bool {
    if calls.called_by(caller).is_none() {
        return false;
    }
    calls.abandon(caller, Leave::Interrupted).cancelled == Some(u) && calls.ready(caller)
}

/// Whether a waiting call is refused with this error, and its objects are handed out.
fn is_refused(calls: &mut Calls, c: u32, error: Errno) -> bool {
    calls.is_waiting(c) && calls.refuse(c, error).len() == 2
}

/// Whether a caller ends whose call was given to a thread, with so many objects.
fn is_forgotten(calls: &mut Calls, caller: Tid, u: Tid, objects: usize) -> bool {
    if calls.called_by(caller).is_none() {
        return false;
    }
    let left = calls.abandon(caller, Leave::Finished);
    left.parked == Some(u) && left.dropped.len() == objects && calls.called_by(caller).is_none()
}

/// What is asked without a change.
fn tells(calls: &Calls, act: &Act) -> bool {
    match act {
        Act::Collecting(gives) => calls.collecting().least() == *gives,
        Act::Ready(c) => calls.ready_call(*c).is_some(),
        Act::Chain(root, lead) => is_chain(calls, *root, *lead),
        Act::Between(t, root, lead) => calls.root_of(*t) == *root && calls.lead_of(*t) == *lead,
        Act::ServesNone(t) => calls.served_by(*t).is_none(),
        Act::IsGone(c) => calls.call(*c).is_none(),
        Act::Count(here, made) => calls.len() == *here && calls.made() == *made,
        _ => false,
    }
}

fn does(alloc: Global, calls: &mut Calls, act: &Act) -> bool {
    match act {
        Act::Open(t) => opens(alloc, calls, *t),
        Act::Give(c, t) => is_given_to(calls, *c, *t),
        Act::Serve(t, u) => is_served(alloc, calls, *t, *u),
        Act::ServeAll => are_chained(alloc, calls),
        Act::Return(u, results) => returns(alloc, calls, *u, results),
        Act::Collect(t, results, longer) => collects(calls, *t, results, *longer),
        Act::CollectError(t, error) => is_told(calls, *t, *error),
        Act::Refuse(c, error) => is_refused(calls, *c, *error),
        Act::Interrupt(t, u) => is_cut_off(calls, *t, *u),
        Act::End(t, u, objects) => is_forgotten(calls, *t, *u, *objects),
        Act::EndServer(u, objects) => calls.server_left(*u).len() == *objects,
        _ => tells(calls, act),
    }
}

/// How many acts are answered as they are written.
fn right_acts(alloc: Global, calls: &mut Calls, acts: &[Act]) -> usize {
    for (i, act) in acts.iter().enumerate() {
        if !does(alloc, calls, act) {
            return i;
        }
    }
    acts.len()
}

/// The same of new calls.
fn right_acts_of_new(alloc: Global, acts: &[Act]) -> usize {
    let mut calls = Calls::new(alloc);
    right_acts(alloc, &mut calls, acts)
}

fn are_right<R: Abort>(rt: &R, alloc: Global, acts: &[Act]) {
    let right = right_acts_of_new(alloc, acts);
    assert!(rt; right == acts.len(), "act {right}");
}

/// Two nested calls are made, entered, returned and collected.
static STAGES: [Act; 13] = [
    Act::Serve(Tid(1), Tid(2)),
    Act::Serve(Tid(2), Tid(3)),
    Act::Chain(Tid(1), Tid(3)),
    Act::Return(Tid(3), b"yes"),
    Act::Chain(Tid(1), Tid(2)),
    Act::Collecting(Some(Tid(2))),
    Act::Ready(2),
    Act::Collect(Tid(2), b"yes", true),
    Act::Collecting(None),
    Act::Return(Tid(2), b"no"),
    Act::Collect(Tid(1), b"no", false),
    Act::Count(0, 2),
    Act::IsGone(1),
];

#[test]
fn calls_go_through_their_stages(rt: HostRuntime) {
    are_right(&rt, rt.alloc(), &STAGES);
}

/// A chain of all threads falls into two where its thread 32 is interrupted.
static CUT: [Act; 10] = [
    Act::ServeAll,
    Act::Chain(Tid(1), Tid(64)),
    Act::Between(Tid(40), Tid(1), Tid(64)),
    Act::Interrupt(Tid(32), Tid(33)),
    Act::Chain(Tid(1), Tid(32)),
    Act::Chain(Tid(33), Tid(64)),
    Act::Return(Tid(64), b""),
    Act::Chain(Tid(33), Tid(63)),
    Act::ServesNone(Tid(33)),
    Act::CollectError(Tid(32), Errno::EINTR),
];

#[test]
fn a_chain_is_cut_in_the_middle(rt: HostRuntime) {
    are_right(&rt, rt.alloc(), &CUT);
}

/// A call is refused, another loses its server, and the caller of a third ends.
static LEAVING: [Act; 11] = [
    Act::Open(Tid(1)),
    Act::Refuse(1, Errno::EBADF),
    Act::CollectError(Tid(1), Errno::EBADF),
    Act::Open(Tid(1)),
    Act::Give(2, Tid(2)),
    Act::EndServer(Tid(2), 2),
    Act::CollectError(Tid(1), Errno::EINTR),
    Act::Open(Tid(1)),
    Act::Give(3, Tid(2)),
    Act::End(Tid(1), Tid(2), 2),
    Act::Count(0, 3),
];

#[test]
fn callers_and_servers_leave(rt: HostRuntime) {
    are_right(&rt, rt.alloc(), &LEAVING);
}
