//! The name tables of processes.
ghost use Rattle.std.specs.Prelude.{◌≡◌, ◌≤◌, List, [], None, Some, length, IfOk, OnErr, OnOk};
ghost use Rattle.spec_events.specs.Words.{AskedLine, asked_with, line_in, reply_after};
ghost use Rattle.sys_run.specs.NameTables.{AllTablesStandFrom, CanReply};

use dk_base::error::NoMemory;
use dk_base::list::Bytes;
use dk_base::number::Pid;
use dk_base::request::Request;
use ncd_app::ncd::Ncd;
use std::alloc::Global;
use std::marker::Model;

/// A name table with its cache for each process. Clauses see them in order of process number, each with what it stands for.
#[derive(Drop)]
pub(crate) struct NameTables {
    tables: Vec<Ncd>,
}

impl Model for NameTables {
    ghost use Rattle.std.specs.Prelude.{List};
    ghost use Rattle.ncd_app.specs.Words.{NcdValue};

    ghost Value = { List NcdValue };

    ghost view = { λ x. x.tables.items };
}

impl NameTables {
    /// A table that replied to no line for each of so many processes.
    pub fn new(alloc: Global, processes: u32) -> Result<Self, NoMemory>
        ensures count { IfOk result (λ tables. length tables ≡ processes) }
        ensures stand { IfOk result (λ tables. AllTablesStandFrom [] 1 tables) }
    {
        let mut tables = Vec::new(alloc);
        for _ in 0..processes {
            let table = Ncd::new(alloc)?;
            match tables.push(table) {
                Ok(()) => {}
                Err(_) => return Err(NoMemory),
            }
        }
        Ok(NameTables { tables })
    }

    /// What the table of a process replies to a request, where this asks it a line. Want of memory leaves all as it was.
    pub fn reply(&mut self, process: Pid, request: &Request) -> Result<Option<Bytes>, NoMemory>
        requires process { (1 ≤ process.0) × (process.0 ≤ length self.old) }
        requires can { (asked : List AskedLine) × CanReply asked self.old }
        ensures reply { IfOk result (λ reply. (asked : List AskedLine) → AllTablesStandFrom asked 1 self.old → reply ≡ reply_after asked process.0 (line_in (Some request.now))) }
        ensures stand { OnOk result ((asked : List AskedLine) → AllTablesStandFrom asked 1 self.old → AllTablesStandFrom (asked_with asked process.0 (line_in (Some request.now))) 1 self.new) }
        ensures count { length self.new ≡ length self.old }
        ensures same { line_in (Some request.now) ≡ None → self.new ≡ self.old }
        ensures err { OnErr result (self.new ≡ self.old) }
    {
        match request {
            Request::Ncd { line } => {
                let table = &mut self.tables[process.0 as usize - 1];
                let text = table.reply(line.slice())?;
                Ok(Some(text))
            }
            _ => Ok(None),
        }
    }
}
