//! A thread at its place in a script: its next request, and what an answer changes.
ghost use Rattle.std.specs.Prelude.{◌≡◌, ◌<◌, ◌≤◌, length, IfOk, OnOk, [], Some};
ghost use Rattle.script_lang.specs.Words.{ScriptValue};
ghost use Rattle.spec_requests.specs.Words.{Frame, arguments, first_frame, frame_after_answer, request_of, set_each, steps_after, values_of, vars_ahead, with_both};
ghost use Rattle.thread_machine.specs.declared.known.LastAnswer.TheVariants.{Good};
ghost use Rattle.thread_machine.specs.Machines.{HasRoomForAnswer, IsMachine, IsPlaced, Stands, HasDeclaredEntry, IsEntryOrNone, Settles, Precedes, Begins, SetsArguments, StartsFrameOf, body_of, is_in_procedure as is_in_procedure_of, effect_of as effect_of_answer};

use crate::known::{LastAnswer, TestContext, last_answer};
use crate::place::Place;
use crate::stack::Stack;
use crate::variables::Variables;
use dk_base::answer::Answer;
use dk_base::error::NoMemory;
use dk_base::list::{Bytes, FdList, PassList};
use dk_base::number::{Fd, Tid};
use dk_base::request::Request;
use itoa::Buffer;
use line_forms::line::Line;
use script_lang::script::Script;
use std::alloc::Global;

/// Where a thread stands in its script: in which lines, at which of them, and what its variables hold.
#[derive(Drop)]
pub struct Machine {
    thread: Tid,
    /// The procedure of its frame; none for the thread's own lines.
    entry: Option<u32>,
    place: Place,
    known: TestContext,
    variables: Variables,
}

/// What an answer does to a frame.
#[derive(Clone, Copy, Debug, PartialEq, Eq)]
pub enum AnswerEffect {
    /// A procedure's frame begins.
    BeginsFrame,
    /// The thread waits, or an accept failed.
    KeepsFrame,
    /// The command ends.
    EndsCommand,
}

fn effect_of(answer: &Answer) -> AnswerEffect
    ensures { result ≡ effect_of_answer answer.now }
{
    match answer {
        Answer::Entered { .. } | Answer::EnteredNotice { .. } => AnswerEffect::BeginsFrame,
        Answer::Wait | Answer::WaitCall { .. } | Answer::EnterFailed { .. } =>
            AnswerEffect::KeepsFrame,
        _ => AnswerEffect::EndsCommand,
    }
}

/// The start of a frame, with the last answer `ok`.
fn start(notice: bool) -> TestContext
    ensures last { result.last ≡ Good }
    ensures notice { result.notice ≡ notice }
{
    TestContext {
        last: LastAnswer::Good,
        notice,
    }
}

fn machine_lines(script: &Script, thread: Tid, entry: Option<u32>) -> &[Line]
    requires first { 1 ≤ thread.0 }
    requires declared { thread.0 ≤ length script.now.threads }
    requires entry { IsEntryOrNone script.now entry }
    ensures { result.now ≡ body_of script.now thread.0 entry }
{
    match entry {
        Some(entry) => script.proc_body(entry).slice(),
        None => {
            if script.is_spare(thread) {
                &[]
            } else {
                script.thread_body(thread).slice()
            }
        }
    }
}

impl Machine {
    /// A machine at the first command of its thread. It has room for its first `take`.
    pub fn new(alloc: Global, script: &Script, thread: Tid) -> Result<Self, NoMemory>
        requires first { 1 ≤ thread.0 }
        requires declared { thread.0 ≤ length script.now.threads }
        ensures machine { IfOk result (λ machine. IsMachine script.now machine) }
        ensures stands { IfOk result (λ machine. Stands script.now machine (first_frame script.now thread.0)) }
        ensures thread { IfOk result (λ machine. machine.thread ≡ thread) }
        ensures room { IfOk result HasRoomForAnswer }
    {
        script.is_spelled();
        let mut variables = Variables::new(alloc);
        variables.make_room(alloc)?;
        let mut machine = Machine {
            thread,
            entry: None,
            place: Place::new(),
            known: start(false),
            variables,
        };
        machine.settle(script);
        Ok(machine)
    }

    /// On to the next command.
    fn settle(&mut self, script: &Script)
        requires { IsPlaced script.now self.old }
        ensures { Settles script.now self.old self.new }
    {
        let lines = machine_lines(script, self.thread, self.entry);
        self.place.settle(lines, self.known);
    }

    /// Whether its frame is a procedure's, as a spare's is.
    fn is_in_procedure(&self, script: &Script) -> bool
        requires { IsMachine script.now self.now }
        ensures { result ≡ is_in_procedure_of script.now self.now.thread.0 self.now.entry }
    {
        match self.entry {
            Some(_) => true,
            None => script.is_spare(self.thread),
        }
    }

    /// The request that the thread makes next. It changes nothing.
    pub fn next(&self, alloc: Global, script: &Script) -> Result<Request, NoMemory>
        requires { IsMachine script.now self.now }
        ensures { IfOk result (λ request. (f : Frame) → Stands script.now self.now f → request ≡ request_of f) }
    {
        script.is_spelled();
        let lines = machine_lines(script, self.thread, self.entry);
        if self.place.position < lines.len() {
            let request = self.variables.request(alloc, &lines[self.place.position])?;
            return Ok(request);
        }
        if self.is_in_procedure(script) {
            return Ok(Request::Return {
                bytes: Bytes::new(alloc),
                pass: PassList::new(alloc),
            });
        }
        Ok(Request::Exit)
    }

    /// Room for the next `take`. The machine stands where it stood, also after want of memory.
    pub fn make_room(&mut self, alloc: Global) -> Result<(), NoMemory>
        ensures machine { (script : ScriptValue) → IsMachine script self.old → IsMachine script self.new }
        ensures stands { (script : ScriptValue) (f : Frame) → Stands script self.old f → Stands script self.new f }
        ensures thread { self.new.thread ≡ self.old.thread }
        ensures room { OnOk result (HasRoomForAnswer self.new) }
    {
        self.variables.make_room(alloc)
    }

    /// Takes the answer of the thread's next event. It takes no memory.
    pub fn take(&mut self, script: &Script, answer: &Answer)
        requires machine { IsMachine script.now self.old }
        requires room { HasRoomForAnswer self.old }
        requires declared { HasDeclaredEntry script.now answer.now }
        ensures machine { IsMachine script.now self.new }
        ensures stands { (f : Frame) → Stands script.now self.old f → Stands script.now self.new (frame_after_answer script.now f answer.now) }
        ensures thread { self.new.thread ≡ self.old.thread }
    {
        script.is_spelled();
        match effect_of(answer) {
            AnswerEffect::BeginsFrame => {
                self.enter(answer);
                self.settle(script);
            }
            AnswerEffect::KeepsFrame => {}
            AnswerEffect::EndsCommand => {
                self.end(script, answer);
                self.settle(script);
            }
        }
    }

    /// Before the first line of the procedure that the answer enters.
    fn enter(&mut self, answer: &Answer)
        requires room { HasRoomForAnswer self.old }
        ensures thread { self.new.thread ≡ self.old.thread }
        ensures entered { StartsFrameOf answer.now self.new }
    {
        match answer {
            Answer::Entered {
                entry,
                cookie,
                bytes,
                fds,
                ..
            } => {
                self.begin(*entry, false);
                self.set_arguments(bytes.slice(), fds.slice(), *cookie);
            }
            Answer::EnteredNotice { entry, cookie, .. } => {
                self.begin(*entry, true);
                self.set_arguments(&[], &[], *cookie);
            }
            _ => {}
        }
    }

    /// Before the first line of a procedure.
    fn begin(&mut self, entry: u32, notice: bool)
        ensures { Begins self.old entry notice self.new }
    {
        self.entry = Some(entry);
        self.place = Place::new();
        self.known = start(notice);
        self.variables.clear();
    }

    /// What an accept that enters sets.
    fn set_arguments(&mut self, bytes: &[u8], fds: &[Fd], cookie: u64)
        requires none { self.old.variables.set ≡ [] }
        requires room { HasRoomForAnswer self.old }
        ensures { SetsArguments self.old (arguments (with_both bytes.now fds.now) cookie) self.new }
    {
        self.variables.set(b"arg", bytes, fds);
        let mut buffer = Buffer::new();
        let text = buffer.format(cookie);
        self.variables.set(b"cookie", text.as_bytes(), &[]);
    }

    /// After the command that the answer ends.
    fn end(&mut self, script: &Script, answer: &Answer)
        requires machine { IsMachine script.now self.old }
        requires room { HasRoomForAnswer self.old }
        ensures thread { self.new.thread ≡ self.old.thread }
        ensures ends { (f : Frame) → Stands script.now self.old f → Precedes script.now self.new (steps_after f.steps) (set_each f.variables (vars_ahead f.steps) (values_of answer.now)) answer.now f.notice f.procedure }
        ensures placed { IsPlaced script.now self.new }
    {
        script.is_spelled();
        let lines = machine_lines(script, self.thread, self.entry);
        self.known.last = last_answer(answer);
        if self.place.position >= lines.len() {
            return;
        }
        self.variables.answer(&lines[self.place.position], answer);
        self.place.position += 1;
    }
}
