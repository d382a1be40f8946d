//! The turns that C asks for. All that can fail or be wrong is tested before a turn.
ghost use Rattle.std.specs.Prelude.{◌≡◌, true, ◌<◌, ◌≤◌, ◌+◌, ◌++◌, ◌∷◌, [], IfErr, IfOk, None, OnErr, OnOk, Some, length, take};
ghost use Rattle.dk_base.specs.declared.limits.TheConstants.{EVENTS_MAX, THREADS_MAX};
ghost use Rattle.spec_kernel.specs.Words.{is_running};
ghost use Rattle.spec_kernel.specs.Small.{IsSmall};
ghost use Rattle.spec_histories.specs.Histories.{IsHistory, end};
ghost use Rattle.history_text.specs.declared.write_event.TheConstants.{ANSWER_MAX, LEFT_MAX};
ghost use Rattle.kernel_chronicle.specs.declared.rooms.TheConstants.{BYTES_ROOM, ITEMS_ASKED_MAX, REPLY_ROOM, TEXT_ROOM};
ghost use Rattle.kernel_chronicle.specs.Asks.{asked_request};
ghost use Rattle.spec_requests.specs.Words.{answer_text};
ghost use Rattle.trace_text.specs.AnswerRoom.{count_listed};
ghost use Rattle.dk_base.specs.declared.limits.TheConstants.{ANSWER_ITEMS_MAX};
ghost use Rattle.history_text.specs.declared.limits.TheConstants.{REQUEST_DATA_MAX};
ghost use Rattle.history_text.specs.Changes.{with_mention};
ghost use Rattle.history_text.specs.Lookups.{procedure_word, process_of};
ghost use Rattle.history_text.specs.ShortNames.{AreShort};
ghost use Rattle.history_text.specs.Writable.{is_writable};
ghost use Rattle.kernel_chronicle.specs.Replies.{answer_bytes, answer_items, words_of};
ghost use Rattle.kernel_chronicle.specs.Written.{BeginsWith, IsAnswered, IsCauseOfEnter, IsCauseOfGoOn, IsEntered, refusal_for};

use crate::asked::Asked;
use crate::asking::request;
use crate::refusal::Refusal;
use crate::reply::{bytes_of, push_reply};
use crate::rooms::{ITEMS_ASKED_MAX, TurnRoom, put_bytes, put_words, room_for_turn};
use dk_base::limits::EVENTS_MAX;
use dk_base::number::Tid;
use dk_base::request::Request;
use history_text::limits::REQUEST_DATA_MAX;
use history_text::names::Names;
use history_text::write_event::{push_answer, push_left, push_left_of_wait};
use kernel_handle::held::Held;
use kernel_handle::recorder::{Refused, Told};
use spec_kernel::what::of_wait;
use std::alloc::Global;

/// The request that C asks for, where it may be entered but for what only the kernel can tell.
fn asked_for(
    alloc: Global,
    held: &Held,
    names: &Names,
    asked: &Asked,
    data: &[u8],
    items: &[u64],
) -> Result<Request, Refusal>
    ensures asked { IfOk result (λ r. asked_request asked.now «data».now items.now ≡ Some r) }
    ensures writable { IfOk result (λ r. is_writable names.now (process_of names.now (record { 0 = asked.now.thread })) r ≡ true) }
    ensures few { OnOk result ((end held.now).events < EVENTS_MAX) }
    ensures why { IfErr result (λ why. IsCauseOfEnter (record { history = held.now; names = names.now }) asked.now «data».now items.now why) }
{
    let thread = Tid(asked.thread);
    if held.events() >= EVENTS_MAX {
        return Err(Refusal::Full);
    }
    if !held.is_running(thread) {
        return Err(Refusal::NotRunning);
    }
    if data.len() > REQUEST_DATA_MAX || items.len() > ITEMS_ASKED_MAX {
        return Err(Refusal::NotFit);
    }
    let Ok(found) = request(alloc, asked, data, items) else {
        return Err(Refusal::NoMemory);
    };
    let Some(request) = found else {
        return Err(Refusal::NotFit);
    };
    if !names.may_write(thread, &request) {
        return Err(Refusal::NotFit);
    }
    Ok(request)
}

/// What was told goes to C, and its line has what the turn mentions. It takes no memory.
fn hand_over(
    names: &mut Names,
    room: TurnRoom,
    told: &Told,
    thread: Tid,
    mentioned: u32,
    reply: &mut [u64],
    bytes: &mut [u8],
    text: &mut [u8],
    written: &mut usize,
)
    requires empty { room.words.items ≡ [] }
    requires words { REPLY_ROOM ≤ room.words.spare }
    requires line { ANSWER_MAX + 1 ≤ room.line.spare }
    requires short { length room.line.items ≤ LEFT_MAX }
    requires names { AreShort names.old }
    requires listed { count_listed told.now.stepped.answer ≤ ANSWER_ITEMS_MAX }
    requires items { length (answer_items told.now.stepped.answer) ≤ 256 }
    requires bytes { length (answer_bytes told.now.stepped.answer) ≤ BYTES_ROOM }
    requires woken { length told.now.stepped.woken ≤ THREADS_MAX }
    requires reply_room { REPLY_ROOM ≤ length reply.old }
    requires bytes_room { BYTES_ROOM ≤ length bytes.old }
    requires text_room { TEXT_ROOM ≤ length text.old }
    ensures reply { BeginsWith (words_of told.now.number told.now.root.0 told.now.stepped.answer told.now.stepped.woken) reply.new }
    ensures bytes { BeginsWith (answer_bytes told.now.stepped.answer) bytes.new }
    ensures text { take written.new text.new ≡ room.line.items ++ (answer_text (procedure_word names.old) told.now.stepped.answer ++ 10 ∷ []) }
    ensures mentions { names.new ≡ with_mention (with_mention (with_mention names.old (process_of names.old thread)) (process_of names.old told.now.root)) mentioned }
{
    let TurnRoom {
        mut words,
        mut line,
    } = room;
    let answer = &told.stepped.answer;
    push_answer(&mut line, names, answer);
    line.push(b'\n');
    push_reply(
        &mut words,
        told.number,
        told.root,
        answer,
        told.stepped.woken.slice(),
    );
    put_words(reply, words.slice());
    put_bytes(bytes, bytes_of(answer));
    put_bytes(text, line.slice());
    *written = line.len();
    let process = names.process_of(thread);
    let root_process = names.process_of(told.root);
    names.mention(process);
    names.mention(root_process);
    names.mention(mentioned);
}

fn refusal_of(refused: Refused) -> Refusal
    ensures { result ≡ refusal_for refused }
{
    match refused {
        Refused::Full => Refusal::Full,
        Refused::NotRunning => Refusal::NotRunning,
        Refused::NotReady => Refusal::NotReady,
        Refused::NotFit => Refusal::NotFit,
        Refused::NoMemory => Refusal::NoMemory,
    }
}

/// A thread enters the kernel with what C asks for. Where it is refused, nothing was done.
pub fn enter(
    alloc: Global,
    held: &mut Held,
    names: &mut Names,
    asked: &Asked,
    data: &[u8],
    items: &[u64],
    reply: &mut [u64],
    bytes: &mut [u8],
    text: &mut [u8],
    written: &mut usize,
) -> Result<(), Refusal>
    requires reply_room { REPLY_ROOM ≤ length reply.old }
    requires bytes_room { BYTES_ROOM ≤ length bytes.old }
    requires text_room { TEXT_ROOM ≤ length text.old }
    ensures done { OnOk result (IsAnswered (record { history = held.old; names = names.old }) (record { history = held.new; names = names.new }) asked.now «data».now items.now reply.new bytes.new (take written.new text.new)) }
    ensures legal { IsHistory held.new }
    ensures same { OnErr result (held.new ≡ held.old) }
    ensures same_names { OnErr result (names.new ≡ names.old) }
    ensures why { IfErr result (λ why. IsCauseOfEnter (record { history = held.old; names = names.old }) asked.now «data».now items.now why) }
{
    held.legal();
    let request = match asked_for(alloc, held, names, asked, data, items) {
        Ok(request) => request,
        Err(refusal) => return Err(refusal),
    };
    names.short();
    let Ok(mut room) = room_for_turn(alloc) else {
        return Err(Refusal::NoMemory);
    };
    let thread = Tid(asked.thread);
    push_left(
        &mut room.line,
        names,
        held.number(),
        thread,
        held.root(thread),
        &request,
    );
    let mentioned = names.mentioned_by(&request);
    match held.enter(thread, request) {
        Ok(told) => {
            hand_over(
                names, room, &told, thread, mentioned, reply, bytes, text, written,
            );
            Ok(())
        }
        Err(refused) => Err(refusal_of(refused)),
    }
}

/// The wait of a thread ends. Where it is refused, nothing was done.
pub fn go_on(
    alloc: Global,
    held: &mut Held,
    names: &mut Names,
    thread: Tid,
    reply: &mut [u64],
    bytes: &mut [u8],
    text: &mut [u8],
    written: &mut usize,
) -> Result<(), Refusal>
    requires reply_room { REPLY_ROOM ≤ length reply.old }
    requires bytes_room { BYTES_ROOM ≤ length bytes.old }
    requires text_room { TEXT_ROOM ≤ length text.old }
    ensures done { OnOk result (IsEntered (record { history = held.old; names = names.old }) (record { history = held.new; names = names.new }) thread.0 None reply.new bytes.new (take written.new text.new)) }
    ensures legal { IsHistory held.new }
    ensures same { OnErr result (held.new ≡ held.old) }
    ensures same_names { OnErr result (names.new ≡ names.old) }
    ensures why { IfErr result (λ why. IsCauseOfGoOn (record { history = held.old; names = names.old }) thread.0 why) }
{
    names.short();
    held.legal();
    let Ok(mut room) = room_for_turn(alloc) else {
        return Err(Refusal::NoMemory);
    };
    if held.events() >= EVENTS_MAX {
        return Err(Refusal::Full);
    }
    push_left_of_wait(
        &mut room.line,
        names,
        held.number(),
        thread,
        held.root(thread),
        of_wait(held.state(thread)),
    );
    match held.go_on(thread) {
        Ok(told) => {
            hand_over(names, room, &told, thread, 0, reply, bytes, text, written);
            Ok(())
        }
        Err(refused) => Err(refusal_of(refused)),
    }
}
