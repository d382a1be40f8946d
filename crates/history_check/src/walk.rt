//! The walk over the lines of a history, with the names and the kernel that they have come to.

ghost use Rattle.std.specs.Prelude.{◌≡◌, ℕ, List, IfOk, IsSome, OnOk, false};
ghost use Rattle.spec_histories.specs.Histories.{IsHistory};
ghost use Rattle.history_text.specs.declared.line.Line.TheVariants.{Event};
ghost use Rattle.history_text.specs.Faults.{is_twice};
ghost use Rattle.history_text.specs.Words.{byte_fault as fault_of_bytes, with_line};
ghost use Rattle.history_check.specs.Findings.{Finds, IsFoundBy, history_of, reached};
ghost use Rattle.history_check.specs.Judging.{declared, found_at, found_at_end, found_at_event, found_at_skipped, found_at_value, is_head_line};
ghost use Rattle.history_check.specs.Places.{Reached, at_start, place_of as place_reached, state_of};

use crate::ends::find_end;
use crate::events::find_event;
use crate::finding::Finding;
use crate::opening::open;
use dk_base::error::NoMemory;
use dk_base::limits::EVENTS_MAX;
use dk_base::list::Room;
use dk_base::number::Tid;
use history_text::line::{Asked, Line};
use history_text::names::Names;
use history_text::place::{Place, Stage};
use history_text::reading::{byte_fault, is_skipped, read_line};
use line_reader::fault::Fault;
use spec_histories::recorded::RecordsHistory;
use std::alloc::Global;

/// What the lines so far have come to. There is a kernel from the first line on that is none of processes and children.
#[derive(Drop)]
pub(crate) struct Walk<K: RecordsHistory> {
    names: Names,
    stage: Stage,
    kernel: Option<K>,
    /// For the line that is wanted.
    room: Room<u8>,
}

impl<K: RecordsHistory> Walk<K> {
    /// No line was read.
    pub(crate) fn new(alloc: Global) -> Self
        ensures { reached result.names result.stage (history_of K.history result.names result.kernel) ≡ at_start }
    {
        Walk {
            names: Names::new(alloc),
            stage: Stage::Head,
            kernel: None,
            room: Room::new(alloc),
        }
    }

    /// How many events there were.
    pub(crate) fn events(&self) -> u64
        ensures { result ≡ (state_of (reached self.now.names self.now.stage (history_of K.history self.now.names self.now.kernel))).events }
    {
        match &self.kernel {
            Some(kernel) => kernel.events(),
            None => 0,
        }
    }

    fn is_late(&self) -> bool
        ensures { result ≡ (place_reached (reached self.now.names self.now.stage (history_of K.history self.now.names self.now.kernel))).late }
    {
        match &self.kernel {
            Some(kernel) => kernel.is_late(),
            None => false,
        }
    }

    /// Where the next line stands.
    fn place(&self) -> Place
        ensures { result ≡ place_reached (reached self.now.names self.now.stage (history_of K.history self.now.names self.now.kernel)) }
    {
        Place {
            stage: self.stage,
            late: self.is_late(),
            full: self.events() >= EVENTS_MAX,
        }
    }

    /// The kernel begins with the names, unless it has begun.
    fn begin(&mut self, alloc: Global) -> Result<(), NoMemory>
        ensures names { self.new.names ≡ self.old.names }
        ensures stage { self.new.stage ≡ self.old.stage }
        ensures history { OnOk result (history_of K.history self.new.names self.new.kernel ≡ history_of K.history self.old.names self.old.kernel) }
        ensures begun { OnOk result (IsSome self.new.kernel) }
    {
        if self.kernel.is_none() {
            self.kernel = Some(open(alloc, &self.names)?);
        }
        Ok(())
    }

    /// The history that was told is legal, from an opening.
    pub(crate) fn legal(&mut self, alloc: Global) -> Result<(), NoMemory>
        ensures same { OnOk result (reached self.new.names self.new.stage (history_of K.history self.new.names self.new.kernel) ≡ reached self.old.names self.old.stage (history_of K.history self.old.names self.old.kernel)) }
        ensures legal { OnOk result (IsHistory (history_of K.history self.new.names self.new.kernel)) }
    {
        self.begin(alloc)?;
        match &self.kernel {
            Some(kernel) => {
                kernel.legal();
                Ok(())
            }
            None => Err(NoMemory),
        }
    }

    /// A line that declares.
    fn declare(&mut self, alloc: Global, line: &Line) -> Result<Finding, NoMemory>
        requires { is_twice self.old.names line.now ≡ false }
        ensures found { IfOk result (λ found. found ≡ Finding.GoesOn) }
        ensures after { OnOk result (reached self.new.names self.new.stage (history_of K.history self.new.names self.new.kernel) ≡ declared (reached self.old.names self.old.stage (history_of K.history self.old.names self.old.kernel)) (with_line self.old.names line.now) (is_head_line line.now)) }
    {
        if is_head(line) {
            self.names.with_line(alloc, line)?;
            self.kernel = None;
            self.stage = Stage::Head;
        } else {
            self.begin(alloc)?;
            self.names.with_line(alloc, line)?;
            self.stage = Stage::Body;
        }
        Ok(Finding::GoesOn)
    }

    fn find_event(
        &mut self,
        alloc: Global,
        text: &[u8],
        thread: Tid,
        root: Tid,
        asked: Asked,
    ) -> Result<Finding, NoMemory>
        ensures { (number : ℕ) (answer : List ℕ) → IfOk result (λ found. Finds (found_at_event (reached self.old.names self.old.stage (history_of K.history self.old.names self.old.kernel)) text.now (with_line self.old.names (Event number thread root asked answer)) thread asked) (reached self.new.names self.new.stage (history_of K.history self.new.names self.new.kernel)) found) }
    {
        self.begin(alloc)?;
        self.stage = Stage::Body;
        match &mut self.kernel {
            Some(kernel) => find_event(
                alloc,
                kernel,
                &mut self.names,
                &mut self.room,
                text,
                thread,
                root,
                asked,
            ),
            None => Err(NoMemory),
        }
    }

    fn find_end(&mut self, alloc: Global, text: &[u8]) -> Result<Finding, NoMemory>
        ensures { IfOk result (λ found. Finds (found_at_end (reached self.old.names self.old.stage (history_of K.history self.old.names self.old.kernel)) text.now) (reached self.new.names self.new.stage (history_of K.history self.new.names self.new.kernel)) found) }
    {
        self.begin(alloc)?;
        self.stage = Stage::Ended;
        match &self.kernel {
            Some(kernel) => find_end(alloc, kernel, &self.names, &mut self.room, text),
            None => Err(NoMemory),
        }
    }

    /// What is found at a line that was read.
    fn find_line(&mut self, alloc: Global, text: &[u8], line: Line) -> Result<Finding, NoMemory>
        requires { is_twice self.old.names line ≡ false }
        ensures { IfOk result (λ found. Finds (found_at_value (reached self.old.names self.old.stage (history_of K.history self.old.names self.old.kernel)) text.now line) (reached self.new.names self.new.stage (history_of K.history self.new.names self.new.kernel)) found) }
    {
        match line {
            Line::Event {
                thread,
                root,
                asked,
                ..
            } => self.find_event(alloc, text, thread, root, asked),
            Line::End { .. } => self.find_end(alloc, text),
            line => self.declare(alloc, &line),
        }
    }

    /// What is found at a line. Where the text goes on, the walk has come to what is after it.
    pub(crate) fn find(&mut self, alloc: Global, text: &[u8]) -> Result<Finding, NoMemory>
        ensures { IfOk result (λ found. Finds (found_at (reached self.old.names self.old.stage (history_of K.history self.old.names self.old.kernel)) text.now) (reached self.new.names self.new.stage (history_of K.history self.new.names self.new.kernel)) found) }
    {
        if is_skipped(text) {
            return Ok(skipped(text));
        }
        match read_line(alloc, &self.names, self.place(), text) {
            Ok(line) => self.find_line(alloc, text, line),
            Err(fault) => found_by_fault(fault),
        }
    }
}

fn is_head(line: &Line) -> bool
    ensures { result ≡ is_head_line line.now }
{
    matches!(line, Line::Process { .. } | Line::Child { .. })
}

/// What is found where a line was not read.
fn found_by_fault(fault: Fault) -> Result<Finding, NoMemory>
    ensures { IsFoundBy fault result }
{
    match fault {
        Fault::Bad(reason) => Ok(Finding::Bad { reason }),
        Fault::Memory => Err(NoMemory),
    }
}

/// What is found at a line that is skipped.
fn skipped(text: &[u8]) -> Finding
    ensures { (r : Reached) → Finds (found_at_skipped r (fault_of_bytes text.now)) r result }
{
    match byte_fault(text) {
        Some(reason) => Finding::Bad { reason },
        None => Finding::GoesOn,
    }
}
