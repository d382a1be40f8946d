//! What a line says of its turns, its test and its variables.
ghost use Rattle.std.specs.Prelude.{◌≡◌, option_copied, slice_get};
ghost use Rattle.spec_requests.specs.Words.{tested_condition as tested_condition_of, times_of as times_of_line, vars_of};

use line_forms::line::{Cond, Line};

/// How often the block of a `repeat` is run.
pub fn times_of(line: &Line) -> u32
    ensures { result ≡ times_of_line line.now }
{
    match line {
        Line::Repeat { times } => *times,
        _ => 0,
    }
}

/// What an `if` tests.
pub fn tested_condition(line: &Line) -> Cond
    ensures { result ≡ tested_condition_of line.now }
{
    match line {
        Line::If { cond } => *cond,
        _ => Cond::Good,
    }
}

/// The variable that a command sets first.
pub fn first_var(line: &Line) -> Option<&[u8]>
    ensures { option_copied result ≡ slice_get (vars_of line.now) 0 }
{
    match line {
        Line::Create { var, .. }
        | Line::Call { var, .. }
        | Line::Dup { var, .. }
        | Line::Open { var, .. }
        | Line::Read { var, .. }
        | Line::PortCreate { var }
        | Line::Work { var, .. }
        | Line::Ncd { var, .. } => Some(var.slice()),
        Line::Pipe { reading, .. } => Some(reading.slice()),
        _ => None,
    }
}

/// The variable that a command sets second.
pub fn second_var(line: &Line) -> Option<&[u8]>
    ensures { option_copied result ≡ slice_get (vars_of line.now) 1 }
{
    match line {
        Line::Pipe { writing, .. } => Some(writing.slice()),
        _ => None,
    }
}
