//! A run that is taken again, as plain values.

use crate::acts::{Act, Subject};
use crate::form::{Form, Role};
use crate::lines::{Line, Lines};
use crate::operand::Operand;
use crate::report::Report;
use crate::words::{begins_with_digit, word_at};
use dk_base::answer::Answer;
use dk_base::error::NoMemory;
use dk_base::event::{Event, What};
use dk_base::number::Tid;
use std::alloc::Global;

/// Paths of a greater number are not named.
const LAST_PATH: usize = 4095;

/// A thread of a script.
#[derive(Clone, Copy)]
pub struct Thread<'a> {
    pub number: Tid,
    pub(crate) name: &'a [u8],
    pub(crate) process: u64,
    pub(crate) process_name: &'a [u8],
    pub(crate) is_spare: bool,
    pub(crate) is_in_child: bool,
    /// It can take a turn.
    pub is_runnable: bool,
}

/// A trace, as far as its run is taken again.
#[derive(Clone, Copy)]
pub(crate) struct Trace<'a> {
    pub text: &'a [u8],
    /// The number of its first line that is not legal, past the last where all are.
    pub last: u64,
}

/// A run that is taken again by the lines of its trace: how many events it has, and what its threads did, where that is asked for.
#[derive(Drop)]
pub struct Run<'a> {
    /// The script.
    text: &'a [u8],
    /// What the script declares, in order.
    pub threads: Vec<Thread<'a>>,
    /// In the order of their first uses.
    paths: Vec<&'a [u8]>,
    acts: Vec<Act>,
    events: u64,
    /// The lines of the trace that are left.
    lines: Lines<'a>,
    /// The line of the trace that is not legal.
    last: u64,
    /// Whether the trace has that line.
    has_last: bool,
    keeps_acts: bool,
}

impl<'a> Run<'a> {
    /// Before the first event.
    pub(crate) fn new(
        alloc: Global,
        report: &mut Report,
        text: &'a [u8],
        trace: Trace<'a>,
        keeps_acts: bool,
    ) -> Self {
        let mut run = Run {
            text,
            threads: Vec::new(alloc),
            paths: Vec::new(alloc),
            acts: Vec::new(alloc),
            events: 0,
            lines: Lines::new(trace.text),
            last: trace.last,
            has_last: false,
            keeps_acts,
        };
        let mut thread = Thread {
            number: Tid(0),
            name: &[],
            process: 0,
            process_name: &[],
            is_spare: false,
            is_in_child: false,
            is_runnable: false,
        };
        for line in Lines::new(text) {
            if let Some(form) = line.form() {
                run.add_line(report, &mut thread, line, form);
            }
        }
        run
    }

    /// Adds what a line of the script declares, or the path that it names. `thread` is the last that is declared, in the last process.
    fn add_line(
        &mut self,
        report: &mut Report,
        thread: &mut Thread<'a>,
        line: Line<'a>,
        form: &Form,
    ) {
        match form.role {
            Role::Process | Role::Child => {
                thread.process = thread.process.saturating_add(1);
                thread.process_name = line.name();
                thread.is_in_child = matches!(form.role, Role::Child);
            }
            Role::Thread | Role::Spare => {
                thread.number = Tid(thread.number.0.saturating_add(1));
                thread.name = line.name();
                thread.is_spare = matches!(form.role, Role::Spare);
                if self.threads.push(*thread).is_err() {
                    report.lose();
                }
            }
            _ => match form.operands {
                [Operand::Path, ..] => self.add_path(report, word_at(line.text, 1)),
                [_, Operand::Path, ..] => self.add_path(report, word_at(line.text, 2)),
                _ => {}
            },
        }
    }

    fn add_path(&mut self, report: &mut Report, path: &'a [u8]) {
        if self.paths.len() > LAST_PATH || self.paths.contains(&path) {
            return;
        }
        if self.paths.push(path).is_err() {
            report.lose();
        }
    }

    /// The script.
    pub(crate) fn text(&self) -> &'a [u8] {
        self.text
    }

    /// The names of the script's paths, in the order of their numbers.
    pub(crate) fn paths(&self) -> &[&'a [u8]] {
        self.paths.as_slice()
    }

    pub(crate) fn acts(&self) -> &[Act] {
        self.acts.as_slice()
    }

    /// How many events it has.
    pub(crate) fn events(&self) -> u64 {
        self.events
    }

    /// Whether the trace has the line that is not legal.
    pub(crate) fn has_last(&self) -> bool {
        self.has_last
    }

    /// The name of the thread of this number.
    pub(crate) fn name_of(&self, number: Tid) -> &'a [u8] {
        match self.threads.iter().find(|thread| thread.number == number) {
            Some(thread) => thread.name,
            None => &[],
        }
    }

    /// The next line of the trace, where it is that of an event and stands before the one that is not legal; else no bytes.
    pub fn next_line(&mut self) -> &'a [u8] {
        if let Some(line) = self.lines.next() {
            self.has_last = line.number >= self.last;
            if !self.has_last && begins_with_digit(line.text) {
                return line.text;
            }
        }
        &[]
    }

    /// Adds what a thread did at an event, by the subject of its turn's request, or of the request whose wait its turn ended.
    pub fn add(&mut self, event: &Event, subject: Subject) -> Result<(), NoMemory> {
        self.events = u64::from(event.number);
        if !self.keeps_acts {
            return Ok(());
        }
        let mut what = event.what;
        let mut number = subject.number;
        let mut error = None;
        match event.answer {
            Answer::WaitCall { call } => number = call,
            Answer::Entered { call, .. } => {
                what = What::Accept;
                number = call;
            }
            Answer::Child { process } => number = process.0,
            Answer::Failure(errno) => error = Some(errno.name()),
            _ => {}
        }
        let act = Act {
            event: self.events,
            thread: event.thread,
            what,
            number: u64::from(number),
            wanted: u64::from(subject.wanted),
            error,
        };
        match self.acts.push(act) {
            Ok(()) => Ok(()),
            Err(_) => Err(NoMemory),
        }
    }
}
