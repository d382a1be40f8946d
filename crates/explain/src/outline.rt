//! What the lines of a script declare, where one of them stands, and what there is to warn of, found in one walk.

use crate::form::{Form, Role};
use crate::lines::{Line, Lines, line_at};
use crate::report::Report;
use crate::shown::Shown;
use crate::walk::{Opener, Place, Walk};
use crate::warnings::Warner;
use crate::words::word_at;
use line_text::number::{Number, bounded_number};
use std::alloc::Global;
use std::fmt;

/// What has a name.
#[derive(Clone, Copy, PartialEq, Eq)]
pub(crate) enum Kind {
    /// A process or a child.
    Process,
    /// A thread or a spare.
    Thread,
    Procedure,
}

impl Kind {
    pub fn of(role: Role) -> Option<Kind> {
        match role {
            Role::Process | Role::Child => Some(Kind::Process),
            Role::Thread | Role::Spare => Some(Kind::Thread),
            Role::Proc => Some(Kind::Procedure),
            _ => None,
        }
    }
}

/// A name that a line declares.
#[derive(Clone, Copy)]
pub(crate) struct Declaration<'a> {
    kind: Kind,
    name: &'a [u8],
    /// The number of the line.
    line: u64,
    /// The number of the line that begins the last process before it.
    process: u64,
}

/// Where a line stands.
#[derive(Clone, Copy)]
pub(crate) struct Spot<'a> {
    pub line: Line<'a>,
    pub form: Option<&'static Form>,
    pub place: Place,
    /// The line that begins the last process before it.
    pub process: Option<Line<'a>>,
    /// What begins the thread or procedure in which it stands.
    pub body: Option<Opener<'a>>,
    /// What begins the innermost in which it stands.
    pub innermost: Option<Opener<'a>>,
    /// How many blocks are open there.
    pub depth: usize,
}

impl<'a> Spot<'a> {
    fn of(walk: &Walk<'a>, line: Line<'a>, form: Option<&'static Form>) -> Self {
        Spot {
            line,
            form,
            place: walk.place(),
            process: walk.process(),
            body: walk.body(),
            innermost: walk.innermost(),
            depth: walk.depth(),
        }
    }
}

/// What is found in the text of a script.
#[derive(Drop)]
pub(crate) struct Outline<'a> {
    text: &'a [u8],
    /// In the order of their lines.
    declarations: Vec<Declaration<'a>>,
    /// Of the line that is asked for, or of the text's end.
    spot: Spot<'a>,
    warner: Warner<'a>,
}

impl<'a> Outline<'a> {
    /// The outline of a text, and the spot of its line of this number.
    pub fn new(alloc: Global, report: &mut Report, text: &'a [u8], number: u64) -> Self {
        let mut walk = Walk::new(alloc);
        let end = Line { number, text: &[] };
        let mut outline = Outline {
            text,
            declarations: Vec::new(alloc),
            spot: Spot::of(&walk, end, None),
            warner: Warner::new(alloc),
        };
        let mut is_found = false;
        for line in Lines::new(text) {
            let form = line.form();
            if line.number == number {
                outline.spot = Spot::of(&walk, line, form);
                is_found = true;
            }
            if let Some(form) = form {
                outline.add(report, &walk, line, form);
                walk.pass(report, line, form.role);
            }
        }
        if !is_found {
            outline.spot = Spot::of(&walk, end, None);
        }
        outline
    }

    /// Adds what a line declares, and what there is to warn of in it.
    fn add(&mut self, report: &mut Report, walk: &Walk<'a>, line: Line<'a>, form: &'static Form) {
        if walk.is_in_body() {
            return self.warner.look_at_line(report, line, form, walk.depth());
        }
        self.warner.begin(report, form.role);
        if let Some(kind) = Kind::of(form.role) {
            let declaration = Declaration {
                kind,
                name: line.name(),
                line: line.number,
                process: number_of_line(walk.process()),
            };
            if self.declarations.push(declaration).is_err() {
                report.lose();
            }
        }
    }

    pub fn spot(&self) -> Spot<'a> {
        self.spot
    }

    pub fn warner(&self) -> &Warner<'a> {
        &self.warner
    }

    /// The version of the script.
    pub fn version(&self) -> u64 {
        match bounded_number(word_at(line_at(self.text, 1), 2), 1, 3) {
            Number::Found(version) => version,
            _ => 4,
        }
    }

    /// Whether it declares such a name for the line of the spot: of procedures those count that are of the same process.
    fn declares(&self, declaration: &Declaration<'a>, kind: Kind) -> bool {
        if declaration.kind != kind {
            return false;
        }
        match kind {
            Kind::Procedure => declaration.process == number_of_line(self.spot.process),
            _ => true,
        }
    }

    /// The number of the line that first declares such a name for the line of the spot.
    pub fn declaration(&self, kind: Kind, name: &[u8]) -> Option<u64> {
        for declaration in self.declarations.as_slice() {
            if self.declares(declaration, kind) && declaration.name == name {
                return Some(declaration.line);
            }
        }
        None
    }

    /// What has this name.
    pub fn kind_of(&self, name: &[u8]) -> Option<Kind> {
        [Kind::Process, Kind::Thread, Kind::Procedure]
            .iter()
            .copied()
            .find(|kind| self.declaration(*kind, name).is_some())
    }
}

/// As many declared names are shown at most.
const NAMES_MAX: usize = 16;

/// The names of one kind that a script declares for the line of the spot, each after a space.
#[derive(Drop)]
pub(crate) struct Names<'o, 'a> {
    pub outline: &'o Outline<'a>,
    pub kind: Kind,
}

impl fmt::Display for Names<'_, '_> {
    fn fmt<W: fmt::Write>(&self, f: &mut fmt::Formatter<W>) -> fmt::Result {
        let mut left = NAMES_MAX;
        for declaration in self.outline.declarations.as_slice() {
            if !self.outline.declares(declaration, self.kind) {
                continue;
            }
            if left == 0 {
                return f.write_str(" ..");
            }
            left -= 1;
            write!(f, " {}", Shown(declaration.name))?;
        }
        if left == NAMES_MAX {
            f.write_str(" none")?;
        }
        Ok(())
    }
}

/// The number of a line, 0 where there is none.
fn number_of_line(line: Option<Line<'_>>) -> u64 {
    line.map_or(0, |line| line.number)
}
