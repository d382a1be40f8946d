//! The acts of doors, of calls of them, and of their invocations.
ghost use Rattle.std.specs.Prelude.{◌≡◌, ◌++◌, None, Option, Some, false, length, nat_lt, true};
ghost use Rattle.dk_base.specs.declared.object.Item.TheVariants as item;
ghost use Rattle.spec_records.specs.declared.record.ThreadState.TheVariants as is;
ghost use Rattle.spec_records.specs.Words.{cookie_of, entry_of, first_refusal, is_given_as, is_given_notice_as, limit_tests, no_cancel_of};
ghost use Rattle.spec_kernel.specs.Types.{Call};
ghost use Rattle.spec_kernel.specs.Words.{StandsFor, Subject, accept, accept_call, accept_notice, call, call_tests, collect, collect_answer_in, create, create_tests, door_named, door_of, find_call, find_notice, has_answer, has_room, is_running, object_at, pass_tests, pool_of, pool_tests, process_of, results_answer, return, return_tests, state_of, tables_after_collect};
ghost use Rattle.kernel_core.specs.Handed.{count_passed, objects_at_end, objects_given, objects_to_collect, objects_with};
ghost use Rattle.kernel_core.specs.Kept.{HasNothingPast};
ghost use Rattle.kernel_core.specs.Numbers.{HasNumbersLeft};
ghost use Rattle.law_pools.specs.Words.{own_pool, pool_of_request};
ghost use Rattle.call_tree.specs.Words.{outcome_in};
ghost use Rattle.kernel_core.specs.Entries.{entry_about};
ghost use Rattle.kernel_store.specs.Words.{AllIsGivenOut, AreHeld, ArePlaced, CanAct, CanHold, FillsOnePool, HasRoomForDoor, HasRoomForReferences, HasWholeStep, IsRoomFor, KeepsForNotices, KeepsPools, NothingAfter, results_in, stored_state};

use crate::acts::Ending;
use crate::descriptors::{add_row, door_named};
use bitflags::Flags;
use call_tree::parts::{Args, Outcome};
use dk_base::answer::Answer;
use dk_base::error::Errno;
use dk_base::limits::{DATA_MAX, PASS_MAX, QUEUE_MAX};
use dk_base::list::{Bytes, ObjList, PassList, Room};
use dk_base::number::{Fd, Pid, Tid};
use dk_base::object::{Item, Obj};
use dk_base::request::Request;
use dk_base::set::Attrs;
use door_object::doors::Doors;
use kernel_store::store::Store;
use spec_records::record::{Call, CallStage};

/// door_create(3C): EINVAL for attributes that only door_info(3C) tells, EMFILE.
pub fn create_refusal(store: &Store, p: Pid, attrs: Attrs) -> Option<Errno>
    ensures { result ≡ first_refusal (create_tests (stored_state store.now) p.0 attrs) }
{
    if Doors::check_create(attrs).is_some() {
        return Some(Errno::EINVAL);
    }
    if store.is_full(p) {
        return Some(Errno::EMFILE);
    }
    None
}

/// door_create(3C): a door of the process at its lowest descriptor that is free.
pub fn create(store: &mut Store, p: Pid, entry: u32, cookie: u64, attrs: Attrs) -> Answer
    requires numbers { HasNumbersLeft (stored_state store.old) }
    requires room { HasRoomForDoor store.old }
    requires references { HasRoomForReferences store.old }
    requires placed { ArePlaced (stored_state store.old) }
    requires latest { NothingAfter store.old.events store.old }
    requires allowed { first_refusal (create_tests (stored_state store.old) p.0 attrs) ≡ None }
    ensures state { stored_state store.new ≡ (create (stored_state store.old) p.0 entry cookie attrs).state }
    ensures answer { result ≡ (create (stored_state store.old) p.0 entry cookie attrs).answer }
    ensures given_out { AllIsGivenOut store.old → AllIsGivenOut store.new }
    ensures keeps { KeepsForNotices store.old store.new }
{
    let number = store.add_door(p, entry, cookie, attrs);
    add_row(store, p, Obj::Door(number))
}

/// EAGAIN where as many calls as may wait in a door's pool.
fn pool_refusal(store: &Store, d: u32) -> Option<Errno>
    ensures { result ≡ first_refusal (pool_tests (stored_state store.now) d) }
{
    if store.calls_waiting(store.pool_of(d)) >= QUEUE_MAX {
        return Some(Errno::EAGAIN);
    }
    None
}

/// What the limits of a door refuse: EBADF for no door or one that is not valid, ENOBUFS, ENOTSUP, ENFILE, E2BIG.
fn limit_refusal(store: &Store, d: u32, bytes: &Bytes, pass: &PassList) -> Option<Errno>
    ensures { result ≡ first_refusal (limit_tests (door_of (stored_state store.now) d) (length bytes.now) (length pass.now)) }
{
    store
        .doors()
        .limit_refusal(d, bytes.len() as u64, pass.len() as u64)
}

/// EINVAL for descriptors that cannot be passed, then EAGAIN.
fn pass_refusal(store: &Store, p: Pid, pass: &PassList, d: u32) -> Option<Errno>
    ensures { result ≡ first_refusal (pass_tests (stored_state store.now) p.0 pass.now ++ pool_tests (stored_state store.now) d) }
{
    if store.is_bad_pass(p, pass) {
        return Some(Errno::EINVAL);
    }
    pool_refusal(store, d)
}

/// door_call(3C): what the door's limits refuse, then EINVAL of descriptors, then EAGAIN.
pub fn call_refusal(store: &Store, p: Pid, fd: Fd, bytes: &Bytes, pass: &PassList) -> Option<Errno>
    ensures { result ≡ first_refusal (call_tests (stored_state store.now) p.0 fd bytes.now pass.now) }
{
    let door = door_named(store, p, fd);
    match limit_refusal(store, door, bytes, pass) {
        Some(error) => Some(error),
        None => pass_refusal(store, p, pass, door),
    }
}

fn has_no_cancel(store: &Store, d: u32) -> bool
    ensures { result ≡ no_cancel_of (door_of (stored_state store.now) d) }
{
    match store.door(d) {
        Some(door) => door.attrs.contains(Attrs::NO_CANCEL),
        None => false,
    }
}

/// door_call(3C): a call that waits for a server thread, by a thread that runs. What is passed goes with it.
pub fn call(
    store: &mut Store,
    t: Tid,
    p: Pid,
    fd: Fd,
    bytes: Bytes,
    pass: &PassList,
    rsize: u64,
    mut objects: Room<Obj>,
) -> Answer
    requires references { HasWholeStep store.old }
    requires numbers { HasNumbersLeft (stored_state store.old) }
    requires can_act { CanAct (pool_of (stored_state store.old) (door_named (object_at (stored_state store.old) p.0 fd))) store.old }
    requires running { is_running (stored_state store.old) t.0 ≡ true }
    requires allowed { first_refusal (call_tests (stored_state store.old) p.0 fd bytes pass.now) ≡ None }
    requires room { IsRoomFor (length pass.now) objects }
    ensures state { stored_state store.new ≡ (call (stored_state store.old) t.0 p.0 fd bytes pass.now rsize).state }
    ensures answer { result ≡ (call (stored_state store.old) t.0 p.0 fd bytes pass.now rsize).answer }
    ensures keeps { FillsOnePool (pool_of (stored_state store.old) (door_named (object_at (stored_state store.old) p.0 fd))) store.old store.new }
{
    let door = door_named(store, p, fd);
    let no_cancel = has_no_cancel(store, door);
    store.take_out(p, pass, &mut objects);
    let args = Args {
        bytes,
        objects: objects.into_list(),
    };
    Answer::WaitCall {
        call: store.open_call(t, door, args, rsize, no_cancel),
    }
}

/// door_return(3C): E2BIG where the thread has a client, then EINVAL of descriptors.
pub fn return_refusal(
    store: &Store,
    t: Tid,
    p: Pid,
    bytes: &Bytes,
    pass: &PassList,
) -> Option<Errno>
    ensures { result ≡ first_refusal (return_tests (stored_state store.now) t.0 p.0 bytes.now pass.now) }
{
    if store.calls().client(t).is_some() && (bytes.len() > DATA_MAX || pass.len() > PASS_MAX) {
        return Some(Errno::E2BIG);
    }
    if store.is_bad_pass(p, pass) {
        return Some(Errno::EINVAL);
    }
    None
}

/// door_return(3C): the results and what is passed go to the client, or are dropped where there is none; the notice that the thread
/// serves, if it serves one, is over; and the thread, which runs, is parked.
pub fn return_from(
    store: &mut Store,
    t: Tid,
    p: Pid,
    bytes: Bytes,
    pass: &PassList,
    mut objects: Room<Obj>,
) -> Answer
    requires references { HasWholeStep store.old }
    requires can_act { CanAct (own_pool (stored_state store.old) t.0) store.old }
    requires none_past { HasNothingPast (stored_state store.old) }
    requires running { is_running (stored_state store.old) t.0 ≡ true }
    requires held { AreHeld (stored_state store.old) }
    requires allowed { first_refusal (return_tests (stored_state store.old) t.0 p.0 bytes pass.now) ≡ None }
    requires room { IsRoomFor (length pass.now) objects }
    ensures state { StandsFor (stored_state store.new) (return (stored_state store.old) t.0 p.0 bytes pass.now).state }
    ensures answer { result ≡ (return (stored_state store.old) t.0 p.0 bytes pass.now).answer }
    ensures keeps { FillsOnePool (own_pool (stored_state store.old) t.0) store.old store.new }
{
    store.take_out(p, pass, &mut objects);
    let objects = objects.into_list();
    if store.has_invalid_door(t) {
        store.return_unbound(t, bytes, objects);
        return Answer::Failure(Errno::EINVAL);
    }
    store.return_call(t, bytes, objects);
    Answer::Wait
}

/// An entry about doors, by a thread that runs. What it passes goes into `objects`.
#[tactic(auto, using(crate::proofs::Live::entry_kept, crate::proofs::Live::live_state))]
pub fn enter(store: &mut Store, t: Tid, p: Pid, request: Request, objects: Room<Obj>) -> Answer
    requires references { HasWholeStep store.old }
    requires numbers { HasNumbersLeft (stored_state store.old) }
    requires can_act { CanAct (pool_of_request (stored_state store.old) t.0 request) store.old }
    requires none_past { HasNothingPast (stored_state store.old) }
    requires running { is_running (stored_state store.old) t.0 ≡ true }
    requires held { AreHeld (stored_state store.old) }
    requires own { p.0 ≡ process_of (stored_state store.old) t.0 }
    requires room { IsRoomFor (count_passed request) objects }
    ensures state { StandsFor (stored_state store.new) (entry_about Subject.doors (stored_state store.old) t.0 p.0 request).state }
    ensures answer { result ≡ (entry_about Subject.doors (stored_state store.old) t.0 p.0 request).answer }
    ensures keeps { FillsOnePool (pool_of_request (stored_state store.old) t.0 request) store.old store.new }
{
    match request {
        Request::Create {
            entry,
            cookie,
            attrs,
        } => match create_refusal(store, p, attrs) {
            Some(error) => Answer::Failure(error),
            None => create(store, p, entry, cookie, attrs),
        },
        Request::Call {
            door,
            bytes,
            pass,
            rsize,
        } => match call_refusal(store, p, door, &bytes, &pass) {
            Some(error) => Answer::Failure(error),
            None => call(store, t, p, door, bytes, &pass, rsize, objects),
        },
        Request::Return { bytes, pass } => match return_refusal(store, t, p, &bytes, &pass) {
            Some(error) => Answer::Failure(error),
            None => return_from(store, t, p, bytes, &pass, objects),
        },
        _ => Answer::Done,
    }
}

/// The entry number and the cookie of a door.
fn entry_point(store: &Store, d: u32) -> (u32, u64)
    ensures entry { result.0 ≡ entry_of (door_of (stored_state store.now) d) }
    ensures cookie { result.1 ≡ cookie_of (door_of (stored_state store.now) d) }
{
    match store.door(d) {
        Some(door) => (door.entry, door.cookie),
        None => (0, 0),
    }
}

/// How many objects come with the call that a thread was given.
fn count_given(store: &Store, t: Tid, c: u32) -> usize
    ensures { result ≡ length (objects_given (stored_state store.now) t.0 c) }
{
    match store.calls().given(c, t) {
        Some(call) => call.objects.len(),
        None => 0,
    }
}

/// How many objects come with the results of a call, where it is returned.
fn count_to_collect(store: &Store, c: u32) -> usize
    ensures { result ≡ length (objects_to_collect (stored_state store.now) c) }
{
    match store.calls().ready_call(c) {
        Some(
            Call {
                stage: CallStage::Returned { objects, .. },
                ..
            },
        ) => objects.len(),
        _ => 0,
    }
}

/// Whether a process has a descriptor for each object of the call that a thread was given.
fn has_room_given(store: &Store, t: Tid, p: Pid, c: u32) -> bool
    ensures { result ≡ has_room (stored_state store.now) p.0 (objects_given (stored_state store.now) t.0 c) }
{
    match store.calls().given(c, t) {
        Some(call) => store.has_room(p, &call.objects),
        None => true,
    }
}

/// The invocation of a call begins, of a thread that was given it. Its objects get descriptors.
fn begin_call(store: &mut Store, t: Tid, p: Pid, c: u32, fds: Room<Fd>) -> Answer
    requires given { state_of (stored_state store.old) t.0 ≡ is.Given (item.Call c) }
    requires fds { IsRoomFor (length (objects_given (stored_state store.old) t.0 c)) fds }
    requires room { has_room (stored_state store.old) p.0 (objects_given (stored_state store.old) t.0 c) ≡ true }
    requires references { HasWholeStep store.old }
    ensures state { stored_state store.new ≡ (accept_call (stored_state store.old) t.0 p.0 c (find_call (stored_state store.old) (is_given_as c t.0))).state }
    ensures answer { result ≡ (accept_call (stored_state store.old) t.0 p.0 c (find_call (stored_state store.old) (is_given_as c t.0))).answer }
    ensures keeps { KeepsPools store.old store.new }
{
    let Some(call) = store.calls().given(c, t) else {
        return Answer::Done;
    };
    let number = call.number;
    let (entry, cookie) = entry_point(store, call.door);
    let Args { bytes, objects } = store.enter_call(c, t);
    Answer::Entered {
        call: number,
        entry,
        cookie,
        bytes,
        fds: store.install(p, &objects, fds),
    }
}

/// The call that a thread was given ends EMFILE, and the thread is parked again.
fn fail_begin(store: &mut Store, t: Tid, p: Pid, c: u32) -> Answer
    requires references { HasRoomForReferences store.old }
    requires given { state_of (stored_state store.old) t.0 ≡ is.Given (item.Call c) }
    requires can_act { CanAct (own_pool (stored_state store.old) t.0) store.old }
    requires full { has_room (stored_state store.old) p.0 (objects_given (stored_state store.old) t.0 c) ≡ false }
    ensures state { stored_state store.new ≡ (accept_call (stored_state store.old) t.0 p.0 c (find_call (stored_state store.old) (is_given_as c t.0))).state }
    ensures answer { result ≡ (accept_call (stored_state store.old) t.0 p.0 c (find_call (stored_state store.old) (is_given_as c t.0))).answer }
    ensures keeps { FillsOnePool (own_pool (stored_state store.old) t.0) store.old store.new }
{
    let Some(call) = store.calls().given(c, t) else {
        return Answer::Done;
    };
    let number = call.number;
    store.fail_call(c, t);
    Answer::EnterFailed { call: number }
}

/// The end of the wait of a thread that was given a call: its invocation begins where its process has a descriptor for each
/// object of the call, else the call ends EMFILE.
fn accept_call(store: &mut Store, t: Tid, p: Pid, c: u32, fds: Room<Fd>) -> Answer
    requires references { HasWholeStep store.old }
    requires given { state_of (stored_state store.old) t.0 ≡ is.Given (item.Call c) }
    requires can_act { CanAct (own_pool (stored_state store.old) t.0) store.old }
    requires room { IsRoomFor (length (objects_given (stored_state store.old) t.0 c)) fds }
    ensures state { stored_state store.new ≡ (accept_call (stored_state store.old) t.0 p.0 c (find_call (stored_state store.old) (is_given_as c t.0))).state }
    ensures answer { result ≡ (accept_call (stored_state store.old) t.0 p.0 c (find_call (stored_state store.old) (is_given_as c t.0))).answer }
    ensures keeps { FillsOnePool (own_pool (stored_state store.old) t.0) store.old store.new }
{
    if has_room_given(store, t, p, c) {
        begin_call(store, t, p, c, fds)
    } else {
        fail_begin(store, t, p, c)
    }
}

/// The end of the wait of a thread that was given a notice: its invocation begins, with the number of the notice and without
/// arguments.
fn accept_notice(store: &mut Store, t: Tid, n: u32) -> Answer
    requires { state_of (stored_state store.old) t.0 ≡ is.Given (item.Notice n) }
    ensures state { stored_state store.new ≡ (accept_notice (stored_state store.old) t.0 n (find_notice (stored_state store.old) (is_given_notice_as n t.0))).state }
    ensures answer { result ≡ (accept_notice (stored_state store.old) t.0 n (find_notice (stored_state store.old) (is_given_notice_as n t.0))).answer }
    ensures keeps { KeepsPools store.old store.new }
{
    let Some(notice) = store.enter_notice(n, t) else {
        return Answer::Done;
    };
    let (entry, cookie) = entry_point(store, notice.door);
    Answer::EnteredNotice {
        notice: notice.number,
        entry,
        cookie,
    }
}

/// The end of the wait of a thread that was given an item: its invocation begins, or the item cannot be entered.
pub fn accept(store: &mut Store, t: Tid, p: Pid, item: Item, fds: Room<Fd>) -> Answer
    requires references { HasWholeStep store.old }
    requires given { state_of (stored_state store.old) t.0 ≡ is.Given item }
    requires can_act { CanAct (own_pool (stored_state store.old) t.0) store.old }
    requires room { IsRoomFor (length (objects_with (stored_state store.old) t.0 item)) fds }
    ensures state { stored_state store.new ≡ (accept (stored_state store.old) t.0 p.0 item).state }
    ensures answer { result ≡ (accept (stored_state store.old) t.0 p.0 item).answer }
    ensures keeps { FillsOnePool (own_pool (stored_state store.old) t.0) store.old store.new }
{
    match item {
        Item::Call(c) => accept_call(store, t, p, c, fds),
        Item::Notice(n) => accept_notice(store, t, n),
    }
}

/// Results go to a caller: their objects get descriptors of its process, or EMFILE.
fn hand_results(
    store: &mut Store,
    p: Pid,
    bytes: Bytes,
    objects: &ObjList,
    grown: bool,
    fds: Room<Fd>,
) -> Answer
    requires room { IsRoomFor (length objects.now) fds }
    requires can_hold { CanHold store.old objects.now }
    ensures state { stored_state store.new ≡ record (stored_state store.old) { tables = tables_after_collect (stored_state store.old) p.0 objects.now } }
    ensures answer { (r : Call) → nat_lt r.rsize (length bytes) ≡ grown → result ≡ results_answer (stored_state store.old) p.0 r bytes objects.now }
    ensures keeps { KeepsPools store.old store.new }
{
    if !store.has_room(p, objects) {
        return Answer::Failure(Errno::EMFILE);
    }
    Answer::Results {
        grown,
        bytes,
        fds: store.install(p, objects, fds),
    }
}

/// What a caller is told of the call that it collects.
fn tell(store: &mut Store, p: Pid, outcome: Outcome, fds: Room<Fd>) -> Answer
    requires room { IsRoomFor (length (results_in outcome)) fds }
    requires can_hold { CanHold store.old (results_in outcome) }
    ensures state { stored_state store.new ≡ record (stored_state store.old) { tables = tables_after_collect (stored_state store.old) p.0 (results_in outcome) } }
    ensures answer { (call : Option Call) → outcome_in call ≡ Some outcome → result ≡ collect_answer_in (stored_state store.old) p.0 call }
    ensures keeps { KeepsPools store.old store.new }
{
    match outcome {
        Outcome::Results {
            bytes,
            objects,
            grown,
        } => hand_results(store, p, bytes, &objects, grown, fds),
        Outcome::Ended(error) => Answer::Failure(error),
    }
}

/// The end of the wait of a caller: the results, or the error that its call ended with. The call is forgotten.
pub fn collect(store: &mut Store, t: Tid, p: Pid, c: u32, fds: Room<Fd>) -> Answer
    requires none_past { HasNothingPast (stored_state store.old) }
    requires calling { state_of (stored_state store.old) t.0 ≡ is.Calling c }
    requires ready { has_answer (stored_state store.old) c ≡ true }
    requires room { IsRoomFor (length (objects_to_collect (stored_state store.old) c)) fds }
    requires references { HasWholeStep store.old }
    ensures state { StandsFor (stored_state store.new) (collect (stored_state store.old) t.0 p.0 c).state }
    ensures answer { result ≡ (collect (stored_state store.old) t.0 p.0 c).answer }
    ensures keeps { KeepsPools store.old store.new }
{
    let outcome = store.collect_call(c, t);
    tell(store, p, outcome, fds)
}

/// How many objects the end of a thread's wait hands over.
pub fn count_at_end(store: &Store, t: Tid, ending: Ending) -> usize
    ensures { result ≡ length (objects_at_end (stored_state store.now) t.0 ending) }
{
    match ending {
        Ending::Accept(Item::Call(c)) => count_given(store, t, c),
        Ending::Collect(call) => count_to_collect(store, call),
        _ => 0,
    }
}
