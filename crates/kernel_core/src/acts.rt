//! The act of a turn: an entry, unless it is refused, or the end of a wait.
ghost use Rattle.std.specs.Prelude.{◌≡◌, ◌&&◌, if◌then◌else◌, not, Some, None, false, length, true, IfOk, OnErr, OnOk};
ghost use Rattle.std.specs.Option.{option_map};
ghost use Rattle.spec_records.specs.Words.{has_common_door, is_private};
ghost use Rattle.law_states.specs.Coherent.{is_unfit};
ghost use Rattle.law_states.specs.Events.{is_leaving};
ghost use Rattle.kernel_core.specs.Entries.{made_first, may_make_first, touched_by};
ghost use Rattle.spec_kernel.specs.Words.{IsFit, StandsFor, act, enter, is_runnable, is_running, process_of, state_of};
ghost use Rattle.kernel_core.specs.Finding.{HasRoomToFind};
ghost use Rattle.kernel_core.specs.Forking.{MayFork};
ghost use Rattle.kernel_core.specs.Handed.{count_passed, ending_of, events_at_end, objects_at_end};
ghost use Rattle.kernel_core.specs.Kept.{HasNothingPast};
ghost use Rattle.kernel_core.specs.Numbers.{HasNumbersLeft};
ghost use Rattle.law_pools.specs.Words.{own_pool};
ghost use Rattle.kernel_store.specs.Words.{AreHeld, CanAct, CanLeave, FillsNoPool, FillsOnePool, HasWholeStep, IsRoomFor, KeepsForNotices, ParksAgain, stored_state};

use crate::descriptors::{self, door_named};
use crate::doors::{self, accept, collect};
use crate::leaving::{self, wake};
use crate::ports::{self, Found, end_getting};
use crate::tasks::{self, end_work};
use crate::{associations, binding, information, pipes, timers};
use bitflags::Flags;
use dk_base::answer::Answer;
use dk_base::error::NoMemory;
use dk_base::list::Room;
use dk_base::number::{Fd, Pid, Tid};
use dk_base::object::{Item, Obj};
use dk_base::request::Request;
use dk_base::set::Attrs;
use dk_base::thread_set::ThreadSet;
use kernel_store::store::Store;
use spec_records::pool::Pool;
use spec_records::record::ThreadState;
use std::alloc::Global;

/// What is asked of an entry before its act.
#[derive(Clone, Copy)]
pub struct Needs {
    /// The pool that the act touches.
    pub touched: Pool,
    /// How many descriptors are passed.
    pub passed: usize,
    /// The process of which the act makes the first door that its common pool serves, if the entry is not refused.
    pub first: Option<Pid>,
}

/// The process of a Create, where it has no door yet that its common pool serves and the new one is not private.
fn may_make_first(store: &Store, p: Pid, attrs: Attrs) -> Option<Pid>
    ensures { option_map (λ p. p.0) result ≡ (if not (is_private attrs) && not (has_common_door (stored_state store.now).doors p.0) then Some p.0 else None) }
{
    if attrs.contains(Attrs::PRIVATE) || store.doors().has_common(p) {
        None
    } else {
        Some(p)
    }
}

/// What is asked of an entry of thread `t` of process `p` before its act.
pub fn needs_of(store: &Store, t: Tid, p: Pid, request: &Request) -> Needs
    requires { p.0 ≡ process_of (stored_state store.now) t.0 }
    ensures touched { result.touched ≡ touched_by (stored_state store.now) t.0 request.now }
    ensures passed { result.passed ≡ count_passed request.now }
    ensures first { option_map (λ p. p.0) result.first ≡ may_make_first (stored_state store.now) p.0 request.now }
{
    let plain = Needs {
        touched: store.own_pool(t),
        passed: 0,
        first: None,
    };
    match request {
        Request::Create { attrs, .. } => Needs {
            first: may_make_first(store, p, *attrs),
            ..plain
        },
        Request::Call { door, pass, .. } => Needs {
            touched: store.pool_of(door_named(store, p, *door)),
            passed: pass.len(),
            ..plain
        },
        Request::Return { pass, .. } => Needs {
            passed: pass.len(),
            ..plain
        },
        Request::Revoke { fd } => Needs {
            touched: Pool::Private(door_named(store, p, *fd)),
            ..plain
        },
        _ => plain,
    }
}

/// The process of which an entry made the first door that its common pool serves, by its answer.
pub fn made_first(answer: &Answer, first: Option<Pid>) -> Option<Pid>
    ensures { option_map (λ p. p.0) result ≡ made_first answer.now (option_map (λ p. p.0) first) }
{
    match answer {
        Answer::Failure(_) => None,
        _ => first,
    }
}

/// A kernel entry of thread `t` of process `p`, which runs, in the file of its subject. What it passes goes into `objects`. Where callers,
/// threads or doors leave by it, `parked` is told which threads park again.
#[tactic(auto, using(crate::proofs::Live::entry_kept, crate::proofs::Live::live_state))]
pub fn enter(
    store: &mut Store,
    alloc: Global,
    t: Tid,
    p: Pid,
    request: Request,
    objects: Room<Obj>,
    parked: &mut ThreadSet,
) -> Result<Answer, NoMemory>
    requires references { HasWholeStep store.old }
    requires numbers { HasNumbersLeft (stored_state store.old) }
    requires can_act { CanAct (touched_by (stored_state store.old) t.0 request) store.old }
    requires can_leave { is_leaving request ≡ true → CanLeave store.old }
    requires none_past { HasNothingPast (stored_state store.old) }
    requires running { is_running (stored_state store.old) t.0 ≡ true }
    requires held { AreHeld (stored_state store.old) }
    requires own { p.0 ≡ process_of (stored_state store.old) t.0 }
    requires fit { IsFit (stored_state store.old) t.0 request }
    requires may_fork { MayFork (stored_state store.old) t.0 request }
    requires room { IsRoomFor (count_passed request) objects }
    ensures state { OnOk result (StandsFor (stored_state store.new) (enter (stored_state store.old) t.0 p.0 request).state) }
    ensures answer { IfOk result (λ answer. answer ≡ (enter (stored_state store.old) t.0 p.0 request).answer) }
    ensures keeps { OnOk result (KeepsForNotices store.old store.new) }
    ensures others { is_leaving request ≡ false → OnOk result (FillsOnePool (touched_by (stored_state store.old) t.0 request) store.old store.new) }
    ensures parked { is_leaving request ≡ true → OnOk result (ParksAgain parked.new store.old store.new) }
    ensures parked_as_before { OnErr result (parked.new ≡ parked.old) }
    ensures as_before { OnErr result (stored_state store.new ≡ stored_state store.old) }
    ensures fills { OnErr result (FillsNoPool store.old store.new) }
{
    match request {
        Request::Create { .. } | Request::Call { .. } | Request::Return { .. } => {
            Ok(doors::enter(store, t, p, request, objects))
        }
        Request::Bind { .. } | Request::Unbind | Request::InfoQuery => {
            Ok(binding::enter(store, t, p, request))
        }
        Request::Info { .. }
        | Request::GetParam { .. }
        | Request::SetParam { .. }
        | Request::Cred => Ok(information::enter(store, t, p, request)),
        Request::Close { .. }
        | Request::Dup { .. }
        | Request::Attach { .. }
        | Request::Detach { .. }
        | Request::Open { .. }
        | Request::Await { .. } => Ok(descriptors::enter(store, t, p, request)),
        Request::Revoke { .. }
        | Request::Interrupt { .. }
        | Request::Kill { .. }
        | Request::Exit
        | Request::Fork { .. }
        | Request::TestCancel => leaving::enter(store, alloc, t, p, request, parked),
        Request::Pipe | Request::Write { .. } | Request::Read { .. } => {
            pipes::enter(store, alloc, t, p, request)
        }
        Request::PortCreate
        | Request::Get { .. }
        | Request::GetN { .. }
        | Request::Send { .. }
        | Request::SendN { .. }
        | Request::Alert { .. } => ports::enter(store, alloc, t, p, request),
        Request::Associate { .. } | Request::Dissociate { .. } => {
            associations::enter(store, alloc, t, p, request)
        }
        Request::TimerCreate { .. }
        | Request::TimerSet { .. }
        | Request::TimerDelete { .. }
        | Request::Advance { .. } => timers::enter(store, alloc, t, p, request),
        Request::Work { .. } | Request::Ncd { .. } => {
            Ok(tasks::enter(store, alloc, t, p, request))
        }
    }
}

/// Which end the wait of a thread has.
#[derive(Clone, Copy)]
pub enum Ending {
    Accept(Item),
    Collect(u32),
    Got {
        port: u32,
        max: u32,
        one: bool,
        interrupted: bool,
    },
    Find,
    EndWork,
    Wake,
    Nothing,
}

/// Which end a wait has in this state.
pub fn ending_of(state: &ThreadState) -> Ending
    ensures { result ≡ ending_of state.now }
{
    match state {
        ThreadState::Given { item } => Ending::Accept(*item),
        ThreadState::Calling { call } => Ending::Collect(*call),
        ThreadState::Getting {
            port,
            max,
            one,
            interrupted,
            ..
        } => Ending::Got {
            port: *port,
            max: *max,
            one: *one,
            interrupted: *interrupted,
        },
        ThreadState::Awaiting { .. } => Ending::Find,
        ThreadState::Working { .. } => Ending::EndWork,
        ThreadState::FailedReturn => Ending::Wake,
        _ => Ending::Nothing,
    }
}

/// The end of the wait of thread `t` of process `p`. The descriptors that objects get go into `fds`, and the events of a port into `found`.
#[tactic(auto, using(crate::proofs::Endings::ending_active, crate::proofs::Endings::ending_given, crate::proofs::Endings::ending_calling))]
pub fn go_on(
    store: &mut Store,
    alloc: Global,
    t: Tid,
    p: Pid,
    ending: Ending,
    fds: Room<Fd>,
    found: Found,
) -> Answer
    requires references { HasWholeStep store.old }
    requires can_act { CanAct (own_pool (stored_state store.old) t.0) store.old }
    requires none_past { HasNothingPast (stored_state store.old) }
    requires own { p.0 ≡ process_of (stored_state store.old) t.0 }
    requires at { ending ≡ ending_of (state_of (stored_state store.old) t.0) }
    requires runnable { is_runnable (stored_state store.old) t.0 ≡ true }
    requires fit { is_unfit (state_of (stored_state store.old) t.0) ≡ false }
    requires room { IsRoomFor (length (objects_at_end (stored_state store.old) t.0 ending)) fds }
    requires found { HasRoomToFind (length (events_at_end (stored_state store.old) ending)) found }
    ensures state { StandsFor (stored_state store.new) (act (stored_state store.old) t.0 None).state }
    ensures answer { result ≡ (act (stored_state store.old) t.0 None).answer }
    ensures keeps { FillsOnePool (own_pool (stored_state store.old) t.0) store.old store.new }
{
    match ending {
        Ending::Accept(item) => accept(store, t, p, item, fds),
        Ending::Collect(call) => collect(store, t, p, call, fds),
        Ending::Got {
            port,
            max,
            one,
            interrupted,
        } => end_getting(store, t, port, max, one, interrupted, found),
        Ending::Find => descriptors::found(store, t),
        Ending::EndWork => end_work(store, alloc, t),
        Ending::Wake => wake(store, t),
        Ending::Nothing => Answer::Done,
    }
}
