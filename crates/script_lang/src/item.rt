//! The lines of a script after the first.
use dk_base::list::{Bytes, TidList};
use dk_base::number::Pid;
use line_forms::line::Line;

/// A line of a script after the first, with numbers in place of names.
#[derive(Drop)]
pub enum ScriptLine {
    /// `budget N`
    Budget { events: u32 },
    /// `process NAME`, `process NAME limit N`
    Process { name: Bytes, limit: u32 },
    /// `child NAME of PARENT`
    Child { name: Bytes, parent: Pid },
    /// `spare NAME`
    Spare { name: Bytes },
    /// `thread NAME`
    Thread { name: Bytes },
    /// `proc NAME`
    Procedure { name: Bytes },
    /// A line of a body, or the `end` of one.
    Do { line: Line },
    /// `schedule NAME ..`
    Schedule { threads: TidList },
}

/// A line as it was read, and whether each procedure, thread and process that it names is declared.
#[derive(Drop)]
pub struct ScriptLineRead {
    pub item: ScriptLine,
    pub known: bool,
}

/// Where a line stands.
#[derive(Clone, Copy, PartialEq, Eq)]
pub enum ScriptPlace {
    /// After the first line.
    Start,
    /// After the budget.
    Processes,
    /// In a process, between its members.
    Members,
    /// In a thread or a procedure.
    Body,
    /// After a schedule.
    Schedule,
}
