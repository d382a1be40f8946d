//! What is open before each line of a script, by the first words of the lines before it.

use crate::form::Role;
use crate::lines::Line;
use crate::report::Report;
use crate::shown::Shown;
use crate::words::word_at;
use std::alloc::Global;
use std::fmt;

/// Where a line stands.
#[derive(Clone, Copy)]
pub(crate) enum Place {
    /// After the first line.
    Start,
    /// After the budget.
    Processes,
    /// In a process, between its members.
    Members,
    /// After a schedule.
    Schedule,
    /// In a thread or a procedure, before its first block.
    Body,
    /// In a block.
    Block,
    /// After a block of a body.
    AfterBlock,
}

/// A line that begins what an `end` closes.
#[derive(Clone, Copy)]
pub(crate) struct Opener<'a>(pub Line<'a>);

impl fmt::Display for Opener<'_> {
    fn fmt<W: fmt::Write>(&self, f: &mut fmt::Formatter<W>) -> fmt::Result {
        let Line { number, text } = self.0;
        let keyword = Shown(word_at(text, 0));
        let name = Shown(word_at(text, 1));
        write!(f, "'{keyword} {name}', which begins in line {number}")
    }
}

/// Where a walk over the lines of a script has come, where none of the lines so far is bad.
#[derive(Drop)]
pub(crate) struct Walk<'a> {
    place: Place,
    /// The line that begins the last process.
    process: Option<Line<'a>>,
    /// The lines that begin the open thread or procedure, and the blocks in it.
    open: Vec<Line<'a>>,
}

impl<'a> Walk<'a> {
    /// Before the first line.
    pub fn new(alloc: Global) -> Self {
        Walk {
            place: Place::Start,
            process: None,
            open: Vec::new(alloc),
        }
    }

    pub fn place(&self) -> Place {
        self.place
    }

    pub fn process(&self) -> Option<Line<'a>> {
        self.process
    }

    pub fn is_in_body(&self) -> bool {
        !self.open.is_empty()
    }

    /// How many blocks are open in the body.
    pub fn depth(&self) -> usize {
        self.open.len().saturating_sub(1)
    }

    /// What begins the open thread or procedure.
    pub fn body(&self) -> Option<Opener<'a>> {
        self.open.first().copied().map(Opener)
    }

    /// What begins the innermost that is open.
    pub fn innermost(&self) -> Option<Opener<'a>> {
        self.open.last().copied().map(Opener)
    }

    /// Goes on past a line that begins with a keyword.
    pub fn pass(&mut self, report: &mut Report, line: Line<'a>, role: Role) {
        if self.is_in_body() {
            return self.pass_in_body(report, line, role);
        }
        match role {
            Role::Budget => self.place = Place::Processes,
            Role::Process | Role::Child => {
                self.place = Place::Members;
                self.process = Some(line);
            }
            Role::Thread | Role::Proc => {
                self.place = Place::Body;
                self.open(report, line);
            }
            Role::Schedule => self.place = Place::Schedule,
            _ => {}
        }
    }

    fn pass_in_body(&mut self, report: &mut Report, line: Line<'a>, role: Role) {
        match role {
            Role::Block => {
                self.place = Place::Block;
                self.open(report, line);
            }
            Role::End => {
                self.open.pop();
                match self.open.len() {
                    0 => self.place = Place::Members,
                    1 => self.place = Place::AfterBlock,
                    _ => {}
                }
            }
            _ => {}
        }
    }

    fn open(&mut self, report: &mut Report, line: Line<'a>) {
        if self.open.push(line).is_err() {
            report.lose();
        }
    }
}
