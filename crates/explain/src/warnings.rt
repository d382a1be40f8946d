//! Warnings on scripts: variables that nothing sets, and lines that are never reached.

use crate::form::{Form, Role};
use crate::lines::Line;
use crate::operand::Operand;
use crate::report::Report;
use crate::shown::{Marked, Shown};
use crate::words::{Word, Words};
use line_text::parts::{part_before_last, parts_at};
use std::alloc::Global;
use std::fmt;

/// As many warnings are written at most.
const WARNINGS_MAX: usize = 12;

/// A line of a body after which no other is reached.
#[derive(Clone, Copy)]
struct Ending {
    number: u64,
    /// It is a `serve`, and not an `exit`.
    serves: bool,
}

/// What there is to warn of.
#[derive(Clone, Copy)]
enum Warning<'a> {
    /// A line is never reached.
    Unreached {
        line: Line<'a>,
        ending: Ending,
    },
    /// A word of a line is a variable that no line of the body sets.
    Unset {
        line: Line<'a>,
        word: Word<'a>,
        variable: &'a [u8],
    },
}

impl fmt::Display for Warning<'_> {
    fn fmt<W: fmt::Write>(&self, f: &mut fmt::Formatter<W>) -> fmt::Result {
        match self {
            Warning::Unreached { line, ending } => {
                let Line { number, text } = line;
                let keyword = if ending.serves { "serve" } else { "exit" };
                let last = ending.number;
                let text = Shown(text);
                writeln!(
                    f,
                    "doors: warning: line {number}: this line is never reached: '{keyword}' stands in line {last}\n    {text}"
                )?;
                if ending.serves {
                    writeln!(
                        f,
                        "    a thread that serves runs procedures, and not the lines after 'serve'"
                    )?;
                }
                Ok(())
            }
            Warning::Unset {
                line,
                word,
                variable,
            } => {
                let Line { number, text } = line;
                let variable = Shown(variable);
                let marked = Marked {
                    line: text,
                    word: *word,
                };
                write!(
                    f,
                    "doors: warning: line {number}: no line of this body sets '{variable}'\n{marked}"
                )
            }
        }
    }
}

impl Warning<'_> {
    /// Whether it is of a line after a `serve`.
    fn is_after_serve(&self) -> bool {
        match self {
            Warning::Unreached { ending, .. } => ending.serves,
            Warning::Unset { .. } => false,
        }
    }

    /// Whether it is of a variable that is one of these.
    fn is_of_one_of(&self, variables: &[&[u8]]) -> bool {
        match self {
            Warning::Unreached { .. } => false,
            Warning::Unset { variable, .. } => variables.contains(variable),
        }
    }
}

/// What there is to warn of in the lines so far, and what the next warnings go by.
#[derive(Drop)]
pub(crate) struct Warner<'a> {
    /// In the bodies that are closed.
    warnings: Vec<Warning<'a>>,
    /// In the body that is open, as long as no later line sets the variables.
    pending: Vec<Warning<'a>>,
    /// The variables that lines of the body set.
    set: Vec<&'a [u8]>,
    /// Those of the pending warnings.
    unset: Vec<&'a [u8]>,
    /// The line before in the body, where no other is reached after it.
    ending: Option<Ending>,
    /// Some thread may be bound to a door, whose `serve` may then end.
    binds: bool,
}

impl<'a> Warner<'a> {
    pub fn new(alloc: Global) -> Self {
        Warner {
            warnings: Vec::new(alloc),
            pending: Vec::new(alloc),
            set: Vec::new(alloc),
            unset: Vec::new(alloc),
            ending: None,
            binds: false,
        }
    }

    /// Begins a body, if such a line does. A procedure has variables that its call sets.
    pub fn begin(&mut self, report: &mut Report, role: Role) {
        if let Role::Proc = role {
            self.add_set(report, b"arg");
            self.add_set(report, b"cookie");
        }
    }

    /// Looks at a line of a body, before which so many blocks are open.
    pub fn look_at_line(&mut self, report: &mut Report, line: Line<'a>, form: &Form, depth: usize) {
        let ending = self.ending;
        self.ending = None;
        if let Role::End = form.role {
            if depth == 0 {
                self.end(report);
            }
            return;
        }
        if let Some(ending) = ending {
            self.put_off(report, Warning::Unreached { line, ending });
        }
        let number = line.number;
        match form.role {
            Role::Bind => self.binds = true,
            Role::Exit if depth == 0 => self.ending = Some(Ending {
                number,
                serves: false,
            }),
            Role::Serve if depth == 0 => self.ending = Some(Ending {
                number,
                serves: true,
            }),
            _ => {}
        }
        if !form.sets_variables() && !line.text.contains(&b'$') {
            return;
        }
        let mut operands = form.operands.iter();
        for word in Words::new(line.text).skip(1) {
            if let Some(Operand::Var) = operands.next() {
                self.add_set(report, word.text);
            } else if let Some(variable) = variable_of(word.text) {
                let warning = Warning::Unset {
                    line,
                    word,
                    variable,
                };
                self.look_at_variable(report, variable, warning);
            }
        }
    }

    /// A line of the body sets a variable.
    fn add_set(&mut self, report: &mut Report, variable: &'a [u8]) {
        if !self.set.contains(&variable) && self.set.push(variable).is_err() {
            report.lose();
        }
    }

    /// A line of the body has a variable, of which is warned in this way unless it is known.
    fn look_at_variable(&mut self, report: &mut Report, variable: &'a [u8], warning: Warning<'a>) {
        if self.set.contains(&variable) || self.unset.contains(&variable) {
            return;
        }
        if self.unset.push(variable).is_err() {
            report.lose();
        }
        self.put_off(report, warning);
    }

    fn put_off(&mut self, report: &mut Report, warning: Warning<'a>) {
        if self.pending.push(warning).is_err() {
            report.lose();
        }
    }

    /// The body ends: it is known which variables it sets.
    fn end(&mut self, report: &mut Report) {
        for warning in self.pending.as_slice() {
            if !warning.is_of_one_of(self.set.as_slice()) && self.warnings.push(*warning).is_err() {
                report.lose();
            }
        }
        self.pending.clear();
        self.set.clear();
        self.unset.clear();
    }

    /// Tells the first of the warnings.
    pub fn tell(&self, report: &mut Report) {
        let mut left = WARNINGS_MAX;
        for warning in self.warnings.as_slice() {
            if left > 0 && !(self.binds && warning.is_after_serve()) {
                left -= 1;
                report.tell(warning);
            }
        }
    }
}

/// The variable that a word of a line is, or of which it is a part.
fn variable_of(word: &[u8]) -> Option<&[u8]> {
    let word = word.strip_prefix(b"$")?;
    let word = part_before_last(b'!', word).unwrap_or(word);
    match parts_at(b'.', word) {
        Some((variable, _)) => Some(variable),
        None => Some(word),
    }
}
