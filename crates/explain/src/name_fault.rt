//! What is wrong where a line declares a name, or names what another declares.

use crate::form::Role;
use crate::lines::Line;
use crate::outline::{Kind, Names, Outline};
use crate::shown::{Marked, Shown};
use crate::words::{Words, found_at};
use std::fmt;

/// What there is too much of.
#[derive(Clone, Copy)]
enum Excess {
    Processes,
    Threads,
    Procedures,
    Blocks,
    Variables,
}

/// A limit on a count is exceeded.
#[derive(Clone, Copy)]
pub(crate) struct ManyFault<'a> {
    line: &'a [u8],
    excess: Excess,
}

impl<'a> ManyFault<'a> {
    pub fn of(line: Line<'a>) -> Self {
        let excess = match line.form().map(|form| form.role) {
            Some(Role::Process | Role::Child) => Excess::Processes,
            Some(Role::Thread | Role::Spare) => Excess::Threads,
            Some(Role::Proc) => Excess::Procedures,
            Some(Role::Block) => Excess::Blocks,
            _ => Excess::Variables,
        };
        ManyFault {
            line: line.text,
            excess,
        }
    }
}

impl fmt::Display for ManyFault<'_> {
    fn fmt<W: fmt::Write>(&self, f: &mut fmt::Formatter<W>) -> fmt::Result {
        let sentence = match self.excess {
            Excess::Processes => { "a 65th process; a script has at most 64, children with them" }
            Excess::Threads => "a 65th thread; a script has at most 64, spares with them",
            Excess::Procedures => "a 65th procedure of its process, which has at most 64",
            Excess::Blocks => { "this would be the 9th block inside one another; 8 is the most" }
            Excess::Variables => { "a 33rd name of a variable in its body, which has at most 32" }
        };
        let line = Shown(self.line);
        writeln!(f, "{sentence}\n    {line}")
    }
}

/// A line declares a name that an earlier line declares.
#[derive(Clone, Copy)]
pub(crate) struct TwiceFault<'a> {
    marked: Marked<'a>,
    kind: Kind,
    /// The number of the earlier line.
    first: u64,
}

impl<'a> TwiceFault<'a> {
    pub fn of(outline: &Outline<'a>) -> Option<Self> {
        let spot = outline.spot();
        let line = spot.line.text;
        let word = found_at(line, 1);
        let kind = Kind::of(spot.form?.role)?;
        Some(TwiceFault {
            marked: Marked { line, word },
            kind,
            first: outline.declaration(kind, word.text)?,
        })
    }
}

impl fmt::Display for TwiceFault<'_> {
    fn fmt<W: fmt::Write>(&self, f: &mut fmt::Formatter<W>) -> fmt::Result {
        let TwiceFault {
            marked,
            kind,
            first,
        } = self;
        let name = Shown(marked.word.text);
        let rule = match kind {
            Kind::Process => "names of processes and children are unique in the script",
            Kind::Thread => "names of threads and spares are unique in the script",
            Kind::Procedure => "names of procedures are unique in their process",
        };
        writeln!(
            f,
            "the name '{name}' stands in line {first} already\n{marked}    {rule}"
        )
    }
}

/// A line names what is not declared, or not so as it is to be.
#[derive(Drop)]
pub(crate) enum UnknownFault<'o, 'a> {
    Undeclared {
        marked: Marked<'a>,
        names: Names<'o, 'a>,
        /// The process of a procedure.
        process: &'a [u8],
    },
    /// The parent of a child is declared after it.
    LaterParent {
        marked: Marked<'a>,
        declared: u64,
    },
    /// It is a process that the process cannot begin by `fork`.
    NoChild {
        marked: Marked<'a>,
        process: &'a [u8],
        declared: u64,
    },
}

impl<'o, 'a> UnknownFault<'o, 'a> {
    pub fn of(outline: &'o Outline<'a>) -> Option<Self> {
        let spot = outline.spot();
        let line = spot.line.text;
        let process = match spot.process {
            Some(process) => process.name(),
            None => &[],
        };
        let role = spot.form?.role;
        let (kind, place) = match role {
            Role::Child => (Kind::Process, 3),
            Role::Kill => (Kind::Process, 1),
            Role::Create => (Kind::Procedure, 2),
            _ => (Kind::Thread, 1),
        };
        for word in Words::new(line).skip(place) {
            let marked = Marked { line, word };
            let Some(declared) = outline.declaration(kind, word.text) else {
                let names = Names { outline, kind };
                return Some(UnknownFault::Undeclared {
                    marked,
                    names,
                    process,
                });
            };
            match role {
                // each of its words is a name
                Role::Schedule => {}
                Role::Child => return Some(UnknownFault::LaterParent { marked, declared }),
                _ => return Some(UnknownFault::NoChild {
                    marked,
                    process,
                    declared,
                }),
            }
        }
        None
    }
}

impl fmt::Display for UnknownFault<'_, '_> {
    fn fmt<W: fmt::Write>(&self, f: &mut fmt::Formatter<W>) -> fmt::Result {
        match self {
            UnknownFault::Undeclared {
                marked,
                names,
                process,
            } => {
                let name = Shown(marked.word.text);
                let process = Shown(process);
                match names.kind {
                    Kind::Process => writeln!(f, "no process '{name}'")?,
                    Kind::Thread => writeln!(f, "no thread '{name}'")?,
                    Kind::Procedure => writeln!(f, "no procedure '{name}' in process '{process}'")?,
                }
                write!(f, "{marked}")?;
                match names.outline.kind_of(marked.word.text) {
                    Some(Kind::Process) => writeln!(f, "    '{name}' is a process")?,
                    Some(Kind::Thread) => writeln!(f, "    '{name}' is a thread")?,
                    Some(Kind::Procedure) => writeln!(f, "    '{name}' is a procedure")?,
                    None => {}
                }
                writeln!(f, "    declared:{names}")
            }
            UnknownFault::LaterParent { marked, declared } => {
                let name = Shown(marked.word.text);
                writeln!(
                    f,
                    "'{name}' is declared in line {declared}, and is to be in an earlier one\n{marked}    the form: child NAME of PARENT, in a line after that of PARENT"
                )
            }
            UnknownFault::NoChild {
                marked,
                process,
                declared,
            } => {
                let name = Shown(marked.word.text);
                let process = Shown(process);
                writeln!(
                    f,
                    "'{name}' is no child of process '{process}'\n{marked}    line {declared} declares it; what 'fork' begins is declared with 'child NAME of PARENT'"
                )
            }
        }
    }
}
