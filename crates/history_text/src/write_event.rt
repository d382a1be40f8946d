//! What stands in an event's line before its answer, and an answer. They are written in room that was taken before.

ghost use Rattle.std.specs.Prelude.{◌≡◌, ◌≤◌, ◌+◌, [], ◌∷◌, ◌++◌, decimal, length};
ghost use Rattle.line_text.specs.Words.{spaced_words};
ghost use Rattle.spec_requests.specs.Words.{answer_text};
ghost use Rattle.trace_text.specs.AnswerRoom.{count_listed};
ghost use Rattle.trace_text.specs.Taken.{TakesAtMost};
ghost use Rattle.history_text.specs.declared.line.Asked.TheVariants.{Enter, GoOn};
ghost use Rattle.spec_histories.specs.Histories.{Entry};
ghost use Rattle.history_text.specs.Entries.{asked_of, entry_text};
ghost use Rattle.history_text.specs.Names.{Names as Declared};
ghost use Rattle.history_text.specs.Lookups.{procedure_word, thread_word};
ghost use Rattle.history_text.specs.LeftText.{left_text};
ghost use Rattle.history_text.specs.RequestRoom.{request_room};
ghost use Rattle.history_text.specs.ShortNames.{AreShort};

use crate::names::Names;
use crate::write_names::name_of_thread;
use crate::write_request::push_request;
use dk_base::answer::Answer;
use dk_base::event::What;
use dk_base::limits::ANSWER_ITEMS_MAX;
use dk_base::list::Room;
use dk_base::number::Tid;
use dk_base::request::Request;
use trace_text::NamesProcedures;
use trace_text::answer::push_answer as push_answer_of;
use trace_text::append::{push_number, push_spaced, push_word};
use trace_text::what_word::push_what;

/// Room for the words of a request that a history may have.
pub const REQUEST_MAX: usize = 33_632;

/// Room for what stands before an event's answer.
pub const LEFT_MAX: usize = 33_700;

/// Room for an answer that a kernel gives.
pub const ANSWER_MAX: usize = 4816;

/// Which event of which thread for which root it is.
fn push_turn(text: &mut Room<u8>, names: &Names, number: u64, thread: Tid, root: Tid)
    requires names { AreShort names.now }
    requires room { 54 ≤ text.old.spare }
    ensures items { text.new.items ≡ text.old.items ++ decimal number ++ spaced_words (thread_word names.now thread ∷ thread_word names.now root ∷ []) }
    ensures room { TakesAtMost text.old text.new 54 }
{
    push_number(text, number);
    push_spaced(text, name_of_thread(names, thread));
    push_spaced(text, name_of_thread(names, root));
}

/// What stands before the answer of a request.
pub fn push_left(
    text: &mut Room<u8>,
    names: &Names,
    number: u64,
    thread: Tid,
    root: Tid,
    request: &Request,
)
    requires names { AreShort names.now }
    requires short { request_room request.now ≤ REQUEST_MAX }
    requires room { LEFT_MAX ≤ text.old.spare }
    ensures items { text.new.items ≡ text.old.items ++ left_text names.now number thread root (Enter request.now) }
    ensures room { TakesAtMost text.old text.new LEFT_MAX }
{
    push_turn(text, names, number, thread, root);
    push_request(text, names, request);
    push_word(text, " = ");
}

/// What stands before the answer at the end of a wait.
#[tactic(auto, using(crate::proofs::Spaced::joined_from))]
pub fn push_left_of_wait(
    text: &mut Room<u8>,
    names: &Names,
    number: u64,
    thread: Tid,
    root: Tid,
    what: What,
)
    requires names { AreShort names.now }
    requires room { LEFT_MAX ≤ text.old.spare }
    ensures items { text.new.items ≡ text.old.items ++ left_text names.now number thread root (GoOn what) }
    ensures room { TakesAtMost text.old text.new LEFT_MAX }
{
    push_turn(text, names, number, thread, root);
    push_word(text, " ");
    push_what(text, what);
    push_word(text, " = ");
}

/// The line of an entry is what stands before its answer, and the answer. It does nothing: callers have the law by it.
pub fn entry_in_parts()
    ensures { (names : Declared) (entry : Entry) → entry_text names entry ≡ left_text names entry.number (record { 0 = entry.turn.thread }) (record { 0 = entry.root }) (asked_of entry.turn.request entry.what) ++ answer_text (procedure_word names) entry.answer }
{}

/// An answer of a kernel.
pub fn push_answer(text: &mut Room<u8>, names: &Names, answer: &Answer)
    requires names { AreShort names.now }
    requires few { count_listed answer.now ≤ ANSWER_ITEMS_MAX }
    requires room { ANSWER_MAX ≤ text.old.spare }
    ensures items { text.new.items ≡ text.old.items ++ answer_text (procedure_word names.now) answer.now }
    ensures room { TakesAtMost text.old text.new ANSWER_MAX }
{
    push_answer_of(text, names, answer);
}
