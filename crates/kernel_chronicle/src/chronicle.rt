//! A kernel with its history, and what the history's text has declared.
use crate::asked::{Asked, Declared};
use crate::declaring::{declaration, number_of_reason};
use crate::opening::{held_of, names_of, put_head, shapes};
use crate::refusal::Unopened;
use crate::rooms::{BYTES_ROOM, REPLY_ROOM, TEXT_ROOM, put_bytes};
use crate::status::{BAD, NO_MEMORY, NO_ROOM, number_of_state, number_of_turn};
use crate::turns::{enter, go_on};
use dk_base::limits::PROCESSES_MAX;
use dk_base::list::{Room, TidList};
use dk_base::number::Tid;
use history_text::line::Ending;
use history_text::names::Names;
use history_text::write_end::push_end;
use kernel_handle::held::Held;
use line_reader::fault::Fault;
use std::alloc::Global;
use std::marker::Model;

/// Contracts see it as the history, which is legal and is not stored, and the names.
#[derive(Drop)]
pub struct Chronicle {
    held: Held,
    names: Names,
}

impl Model for Chronicle {
    ghost use Rattle.kernel_chronicle.specs.Written.{Written};

    ghost Value = { Written };

    ghost view = { λ c. record { history = c.held; names = c.names } };
}

fn has_room(reply: &[u64], bytes: &[u8], text: &[u8]) -> bool
    ensures full { result ≡ true → (REPLY_ROOM ≤ length reply.now) × (BYTES_ROOM ≤ length bytes.now) × (TEXT_ROOM ≤ length text.now) }
    ensures short { result ≡ false → HasNoRoom (length reply.now) (length bytes.now) (length text.now) }
{
    reply.len() >= REPLY_ROOM && bytes.len() >= BYTES_ROOM && text.len() >= TEXT_ROOM
}

ghost use Rattle.std.specs.Prelude.{if◌then◌else◌, IfErr, ◌≡◌, ◌<◌, ◌≤◌, ◌+◌, ◌*◌, ◌++◌, ◌∷◌, [], IfOk, OnOk, None, Some, false, length, take, true};
ghost use Rattle.spec_kernel.specs.Words.{is_runnable, least_runnable, state_of, waiting_threads};
ghost use Rattle.spec_histories.specs.Histories.{IsHistory, end};
ghost use Rattle.kernel_chronicle.specs.declared.rooms.TheConstants.{BYTES_ROOM, REPLY_ROOM, TEXT_ROOM};
ghost use Rattle.history_text.specs.declared.line.Ending.TheVariants.{Open};
ghost use Rattle.history_text.specs.declared.line.Line.TheVariants.{End};
ghost use Rattle.history_text.specs.ShortNames.{AreShort};
ghost use Rattle.history_text.specs.Words.{line_text};
ghost use Rattle.history_text.specs.HeadText.{head_text};
ghost use Rattle.kernel_chronicle.specs.Declarations.{IsBadDeclaration, IsDeclared};
ghost use Rattle.kernel_chronicle.specs.Openings.{IsCauseOfUnopened, names_of, opened, shapes_of};
ghost use Rattle.kernel_chronicle.specs.Endings.{end_line_text, ending_waiting, ending_with};
ghost use Rattle.kernel_chronicle.specs.Statuses.{state_number};
ghost use Rattle.kernel_chronicle.specs.Written.{HasNoRoom, IsAnswered, IsEntered, IsReasonOfEnter, IsReasonOfGoOn, Written};

fn ending_of(can_go_on: bool, waiting: &TidList) -> Ending
    ensures { result ≡ (if can_go_on then Open else ending_waiting waiting.now) }
{
    if can_go_on {
        Ending::Open
    } else if waiting.is_empty() {
        Ending::Complete
    } else {
        Ending::Stalled
    }
}

/// The end line, with its line feed.
fn push_end_line(line: &mut Room<u8>, names: &Names, can_go_on: bool, count: u64, waiting: &TidList)
    requires names { AreShort names.now }
    requires room { 34 + 17 * length waiting.now ≤ line.old.spare }
    ensures items { line.new.items ≡ line.old.items ++ (line_text names.now (End (if can_go_on then Open else ending_waiting waiting.now) count (if can_go_on then [] else waiting.now)) ++ 10 ∷ []) }
    ensures short { length line.new.items ≤ length line.old.items + (34 + 17 * length waiting.now) }
{
    let ending = ending_of(can_go_on, waiting);
    let threads: &[Tid] = if can_go_on { &[] } else { waiting.slice() };
    push_end(line, names, ending, count, threads);
    line.push(b'\n');
}

impl Chronicle {
    /// A kernel of these processes, and the head of its history in `text`.
    #[tactic(auto, using(crate::proofs::Unopenings::count_processes, crate::proofs::Unopenings::many_processes))]
    pub fn open(
        alloc: Global,
        declared: &[Declared],
        text: &mut [u8],
        written: &mut usize,
    ) -> Result<Chronicle, Unopened>
        ensures begins { IfOk result (λ c. c ≡ opened (shapes_of declared.now)) }
        ensures legal { IfOk result (λ c. IsHistory c.history) }
        ensures head { OnOk result (take written.new text.new ≡ head_text (names_of (shapes_of declared.now))) }
        ensures why { IfErr result (λ why. IsCauseOfUnopened (shapes_of declared.now) (length text.old) why) }
    {
        let Ok(shapes) = shapes(alloc, declared) else {
            return Err(Unopened::NoMemory);
        };
        let held = match held_of(alloc, &shapes) {
            Ok(held) => held,
            Err(why) => return Err(why),
        };
        if shapes.len() > PROCESSES_MAX as usize {
            return Err(Unopened::NoOpening);
        }
        let names = match names_of(alloc, &shapes) {
            Ok(names) => names,
            Err(why) => return Err(why),
        };
        match put_head(alloc, &names, text, written) {
            Ok(()) => Ok(Chronicle { held, names }),
            Err(why) => Err(why),
        }
    }

    /// A line `name`, `proc` or `path` is taken. 0 where it was; else nothing was done.
    pub fn declare(&mut self, alloc: Global, text: &[u8]) -> u32
        ensures done { result ≡ 0 → IsDeclared self.old self.new text.now }
        ensures same { (result ≡ 0 → ⊥) → self.new ≡ self.old }
        ensures bad { 16 ≤ result → IsBadDeclaration self.old text.now result }
    {
        match declaration(alloc, &self.names, text) {
            Ok(line) => {
                if self.names.with_line(alloc, &line).is_err() {
                    return NO_MEMORY;
                }
                0
            }
            Err(Fault::Bad(reason)) => BAD + number_of_reason(reason),
            Err(Fault::Memory) => NO_MEMORY,
        }
    }

    /// A thread enters the kernel with what C asks for. 0 where it did; else nothing was done.
    #[tactic(auto, using(crate::proofs::Reasons::reason_of_enter))]
    pub fn enter(
        &mut self,
        alloc: Global,
        asked: &Asked,
        data: &[u8],
        items: &[u64],
        reply: &mut [u64],
        bytes: &mut [u8],
        text: &mut [u8],
        written: &mut usize,
    ) -> u32
        ensures done { result ≡ 0 → IsAnswered self.old self.new asked.now «data».now items.now reply.new bytes.new (take written.new text.new) }
        ensures legal { IsHistory self.new.history }
        ensures same { (result ≡ 0 → ⊥) → self.new ≡ self.old }
        ensures why { IsReasonOfEnter self.old asked.now «data».now items.now result }
        ensures room { result ≡ 6 → HasNoRoom (length reply.old) (length bytes.old) (length text.old) }
    {
        self.held.legal();
        if !has_room(reply, bytes, text) {
            return NO_ROOM;
        }
        let turn = enter(
            alloc,
            &mut self.held,
            &mut self.names,
            asked,
            data,
            items,
            reply,
            bytes,
            text,
            written,
        );
        number_of_turn(turn)
    }

    /// The wait of a thread ends. 0 where it did; else nothing was done.
    #[tactic(auto, using(crate::proofs::Reasons::reason_of_go_on))]
    pub fn go_on(
        &mut self,
        alloc: Global,
        thread: u32,
        reply: &mut [u64],
        bytes: &mut [u8],
        text: &mut [u8],
        written: &mut usize,
    ) -> u32
        ensures done { result ≡ 0 → IsEntered self.old self.new thread None reply.new bytes.new (take written.new text.new) }
        ensures legal { IsHistory self.new.history }
        ensures same { (result ≡ 0 → ⊥) → self.new ≡ self.old }
        ensures why { IsReasonOfGoOn self.old thread result }
        ensures room { result ≡ 6 → HasNoRoom (length reply.old) (length bytes.old) (length text.old) }
    {
        self.held.legal();
        if !has_room(reply, bytes, text) {
            return NO_ROOM;
        }
        let turn = go_on(
            alloc,
            &mut self.held,
            &mut self.names,
            Tid(thread),
            reply,
            bytes,
            text,
            written,
        );
        number_of_turn(turn)
    }

    pub fn runnable(&self, thread: u32) -> bool
        ensures { result ≡ is_runnable (end self.now.history) thread }
    {
        self.held.runnable(Tid(thread))
    }

    pub fn state(&self, thread: u32) -> u32
        ensures { result ≡ state_number (state_of (end self.now.history) thread) }
    {
        number_of_state(self.held.state(Tid(thread)))
    }

    pub fn events(&self) -> u64
        ensures { result ≡ (end self.now.history).events }
    {
        self.held.events()
    }

    /// The end line, with its line feed. 0 where it was written; else there is no room (6) or no memory (5).
    #[tactic(auto, using(crate::proofs::Waiting::few_waiting))]
    pub fn end(&self, alloc: Global, text: &mut [u8], written: &mut usize) -> u32
        ensures done { result ≡ 0 → take written.new text.new ≡ end_line_text self.now.names (end self.now.history) ++ 10 ∷ [] }
        ensures room { result ≡ 6 → length text.old < TEXT_ROOM }
    {
        if text.len() < TEXT_ROOM {
            return NO_ROOM;
        }
        let Ok(waiting) = self.held.waiting(alloc) else {
            return NO_MEMORY;
        };
        // room for the names of all threads
        let room = 34 + 17 * self.held.threads() as usize;
        let Ok(mut line) = Room::with_room(alloc, room) else {
            return NO_MEMORY;
        };
        self.names.short();
        let can_go_on = self.held.least_runnable().is_some();
        push_end_line(
            &mut line,
            &self.names,
            can_go_on,
            self.held.events(),
            &waiting,
        );
        put_bytes(text, line.slice());
        *written = line.len();
        0
    }
}
