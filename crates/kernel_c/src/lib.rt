//! The kernel for C, which holds it with its history by a handle: the functions that C calls. What they do is in `kernel_chronicle`.
#![tactic(auto)]

ghost use Rattle.std.specs.Prelude.{◌≡◌, ◌<◌, ◌≤◌, ◌++◌, ◌∷◌, [], None, Some, length, take};
ghost use Rattle.spec_kernel.specs.Words.{is_runnable, state_of};
ghost use Rattle.spec_histories.specs.Histories.{IsHistory, end};
ghost use Rattle.history_text.specs.HeadText.{head_text};
ghost use Rattle.kernel_chronicle.specs.Declarations.{IsBadDeclaration, IsDeclared};
ghost use Rattle.kernel_chronicle.specs.Endings.{end_line_text};
ghost use Rattle.kernel_chronicle.specs.Handles.{held};
ghost use Rattle.kernel_chronicle.specs.Openings.{HasNoHeadRoom, IsNoStart, names_of, opened, shapes_of};
ghost use Rattle.kernel_chronicle.specs.Replies.{flag_number};
ghost use Rattle.kernel_chronicle.specs.Statuses.{state_number};
ghost use Rattle.kernel_chronicle.specs.Written.{HasNoRoom, IsAnswered, IsEntered, IsReasonOfEnter, IsReasonOfGoOn, Written};

use kernel_chronicle::asked::{Asked, Declared};
use kernel_chronicle::chronicle::Chronicle;
use kernel_chronicle::handle::Handle;
use kernel_chronicle::rooms::{BYTES_ROOM, REPLY_ROOM, TEXT_ROOM};
use kernel_chronicle::status::{NO_MEMORY, number_of_unopened};
use std::alloc::Global;
use std::mem;

/// The words that a reply's buffer has at least.
#[unsafe(no_mangle)]
pub extern "C" fn kernel_c_reply_room() -> usize
    ensures { result ≡ REPLY_ROOM }
{
    REPLY_ROOM
}

/// The bytes that the buffer for an answer's bytes has at least.
#[unsafe(no_mangle)]
pub extern "C" fn kernel_c_bytes_room() -> usize
    ensures { result ≡ BYTES_ROOM }
{
    BYTES_ROOM
}

/// The bytes that a text's buffer has at least.
#[unsafe(no_mangle)]
pub extern "C" fn kernel_c_text_room() -> usize
    ensures { result ≡ TEXT_ROOM }
{
    TEXT_ROOM
}

/// A kernel of these processes. 0 where there is one, and the head of its history stands in `text`; else the handle, which is to be empty,
/// stays so.
#[unsafe(no_mangle)]
#[tactic(auto, using(kernel_chronicle::proofs::Unopenings::no_start, kernel_chronicle::proofs::Unopenings::no_head_room, kernel_chronicle::proofs::Unopenings::never_done))]
pub extern "C" fn kernel_c_new(
    out: &mut Handle,
    alloc: Global,
    processes: &[Declared],
    text: &mut [u8],
    written: &mut usize,
) -> u32
    requires empty { out.old.value ≡ None }
    ensures done { result ≡ 0 → out.new.value ≡ Some (opened (shapes_of processes.now)) }
    ensures legal { result ≡ 0 → IsHistory (opened (shapes_of processes.now)).history }
    ensures head { result ≡ 0 → take written.new text.new ≡ head_text (names_of (shapes_of processes.now)) }
    ensures none { (result ≡ 0 → ⊥) → out.new.value ≡ None }
    ensures room { result ≡ 6 → HasNoHeadRoom (shapes_of processes.now) (length text.old) }
    ensures opening { result ≡ 7 → IsNoStart (shapes_of processes.now) }
{
    let chronicle = match Chronicle::open(alloc, processes, text, written) {
        Ok(chronicle) => chronicle,
        Err(why) => return number_of_unopened(why),
    };
    match Box::new(alloc, chronicle) {
        Ok(chronicle) => {
            *out = Handle::of(chronicle);
            0
        }
        Err(_) => NO_MEMORY,
    }
}

/// A line `name`, `proc` or `path`, without its line feed, is taken (0), or nothing was done: 16 and a reason's number, or memory lacks (5).
#[unsafe(no_mangle)]
pub extern "C" fn kernel_c_declare(handle: &mut Handle, alloc: Global, line: &[u8]) -> u32
    ghost was: { Written }
    requires full { handle.old.value ≡ Some was }
    ensures full { handle.new.value ≡ Some (held handle.new.value) }
    ensures done { result ≡ 0 → IsDeclared was (held handle.new.value) line.now }
    ensures same { (result ≡ 0 → ⊥) → handle.new.value ≡ handle.old.value }
    ensures bad { 16 ≤ result → IsBadDeclaration was line.now result }
{
    let mut chronicle = mem::replace(handle, Handle::empty(alloc)).into_box();
    let status = chronicle.declare(alloc, line);
    *handle = Handle::of(chronicle);
    status
}

/// A thread enters the kernel with what is asked for. 0 where it did: its reply stands in `reply` and `bytes`, its line in `text`; else
/// nothing was done.
#[unsafe(no_mangle)]
pub extern "C" fn kernel_c_enter(
    handle: &mut Handle,
    alloc: Global,
    asked: &Asked,
    data: &[u8],
    items: &[u64],
    reply: &mut [u64],
    bytes: &mut [u8],
    text: &mut [u8],
    written: &mut usize,
) -> u32
    ghost was: { Written }
    requires full { handle.old.value ≡ Some was }
    ensures full { handle.new.value ≡ Some (held handle.new.value) }
    ensures legal { IsHistory (held handle.new.value).history }
    ensures done { result ≡ 0 → IsAnswered was (held handle.new.value) asked.now «data».now items.now reply.new bytes.new (take written.new text.new) }
    ensures same { (result ≡ 0 → ⊥) → handle.new.value ≡ handle.old.value }
    ensures why { IsReasonOfEnter was asked.now «data».now items.now result }
    ensures room { result ≡ 6 → HasNoRoom (length reply.old) (length bytes.old) (length text.old) }
{
    let mut chronicle = mem::replace(handle, Handle::empty(alloc)).into_box();
    let status = chronicle.enter(alloc, asked, data, items, reply, bytes, text, written);
    *handle = Handle::of(chronicle);
    status
}

/// The wait of a thread ends. The answer is as of `kernel_c_enter`.
#[unsafe(no_mangle)]
pub extern "C" fn kernel_c_go_on(
    handle: &mut Handle,
    alloc: Global,
    thread: u32,
    reply: &mut [u64],
    bytes: &mut [u8],
    text: &mut [u8],
    written: &mut usize,
) -> u32
    ghost was: { Written }
    requires full { handle.old.value ≡ Some was }
    ensures full { handle.new.value ≡ Some (held handle.new.value) }
    ensures legal { IsHistory (held handle.new.value).history }
    ensures done { result ≡ 0 → IsEntered was (held handle.new.value) thread None reply.new bytes.new (take written.new text.new) }
    ensures same { (result ≡ 0 → ⊥) → handle.new.value ≡ handle.old.value }
    ensures why { IsReasonOfGoOn was thread result }
    ensures room { result ≡ 6 → HasNoRoom (length reply.old) (length bytes.old) (length text.old) }
{
    let mut chronicle = mem::replace(handle, Handle::empty(alloc)).into_box();
    let status = chronicle.go_on(alloc, thread, reply, bytes, text, written);
    *handle = Handle::of(chronicle);
    status
}

/// Whether a thread runs, or its wait can end: 1, or 0.
#[unsafe(no_mangle)]
pub extern "C" fn kernel_c_runnable(handle: &mut Handle, alloc: Global, thread: u32) -> u32
    ghost was: { Written }
    requires full { handle.old.value ≡ Some was }
    ensures runnable { result ≡ flag_number (is_runnable (end was.history) thread) }
    ensures same { handle.new.value ≡ handle.old.value }
{
    let chronicle = mem::replace(handle, Handle::empty(alloc)).into_box();
    let runnable = if chronicle.runnable(thread) { 1u32 } else { 0 };
    *handle = Handle::of(chronicle);
    runnable
}

/// The number of what a thread is at.
#[unsafe(no_mangle)]
pub extern "C" fn kernel_c_state(handle: &mut Handle, alloc: Global, thread: u32) -> u32
    ghost was: { Written }
    requires full { handle.old.value ≡ Some was }
    ensures state { result ≡ state_number (state_of (end was.history) thread) }
    ensures same { handle.new.value ≡ handle.old.value }
{
    let chronicle = mem::replace(handle, Handle::empty(alloc)).into_box();
    let state = chronicle.state(thread);
    *handle = Handle::of(chronicle);
    state
}

/// How many events there were.
#[unsafe(no_mangle)]
pub extern "C" fn kernel_c_events(handle: &mut Handle, alloc: Global) -> u64
    ghost was: { Written }
    requires full { handle.old.value ≡ Some was }
    ensures events { result ≡ (end was.history).events }
    ensures same { handle.new.value ≡ handle.old.value }
{
    let chronicle = mem::replace(handle, Handle::empty(alloc)).into_box();
    let events = chronicle.events();
    *handle = Handle::of(chronicle);
    events
}

/// The end line of the history as it stands. 0 where it stands in `text`; else there is no room (6) or no memory (5).
#[unsafe(no_mangle)]
pub extern "C" fn kernel_c_end(
    handle: &mut Handle,
    alloc: Global,
    text: &mut [u8],
    written: &mut usize,
) -> u32
    ghost was: { Written }
    requires full { handle.old.value ≡ Some was }
    ensures done { result ≡ 0 → take written.new text.new ≡ end_line_text was.names (end was.history) ++ 10 ∷ [] }
    ensures same { handle.new.value ≡ handle.old.value }
    ensures room { result ≡ 6 → length text.old < TEXT_ROOM }
{
    let chronicle = mem::replace(handle, Handle::empty(alloc)).into_box();
    let status = chronicle.end(alloc, text, written);
    *handle = Handle::of(chronicle);
    status
}

/// The kernel is freed, and the handle is empty.
#[unsafe(no_mangle)]
pub extern "C" fn kernel_c_close(handle: &mut Handle, alloc: Global)
    ghost was: { Written }
    requires full { handle.old.value ≡ Some was }
    ensures { handle.new.value ≡ None }
{
    let chronicle = mem::replace(handle, Handle::empty(alloc)).into_box();
    mem::drop(chronicle);
}
