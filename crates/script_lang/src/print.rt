//! The canonical text of a script: no skipped lines, single spaces and no indentation.

ghost use Rattle.std.specs.Prelude.{◌≡◌, ◌∷◌, [], ◌++◌, map, codes, Ok, IfOk, OnOk, MatchOption};
ghost use Rattle.line_text.specs.Words.{joined_words, spaced_words};
ghost use Rattle.line_forms.specs.Words.{thread_word};
ghost use Rattle.script_lang.specs.declared.item.ScriptLine.TheVariants.{Budget, Do, Schedule};
ghost use Rattle.script_lang.specs.Canonical.{canonical_text};
ghost use Rattle.script_lang.specs.Printed.{items_text, PutsScriptLines, declared_items};
ghost use Rattle.script_lang.specs.Parsing.{parse_result};
ghost use Rattle.script_lang.specs.Spelled.{spells};
ghost use Rattle.script_lang.specs.Scripts.{body_items, process_item, thread_items, procedure_items, schedule_items, tables_of, items_of};

use crate::script::{Part, Procedure, Script, ScriptProcess, ScriptThread};
use dk_base::error::NoMemory;
use dk_base::list::Bytes;
use dk_base::number::Tid;
use line_forms::line::Line;
use line_forms::tables::Tables;
use line_text::writer::Writer;
use line_writer::put_line::put_line;
use std::alloc::Global;
use std::marker::Model;

/// `budget N`
fn put_budget(
    alloc: Global,
    tables: &Tables,
    text: &mut Writer,
    budget: u32,
) -> Result<(), NoMemory>
    ensures { PutsScriptLines tables.now (Budget budget ∷ []) text.old result text.new }
{
    text.first(b"budget")?;
    text.number(alloc, u64::from(budget))?;
    text.end_line()
}

/// A keyword and a name.
fn put_named(text: &mut Writer, keyword: &[u8], name: &Bytes) -> Result<(), NoMemory>
    ensures { OnOk result (text.new ≡ text.old ++ joined_words (keyword.now ∷ name.now ∷ []) ++ 10 ∷ []) }
{
    text.first(keyword)?;
    text.word(name.slice())?;
    text.end_line()
}

/// `process NAME limit N`, or `child NAME of PARENT`
fn put_process(
    alloc: Global,
    tables: &Tables,
    text: &mut Writer,
    process: &ScriptProcess,
) -> Result<(), NoMemory>
    ensures { PutsScriptLines tables.now (process_item process.now ∷ []) text.old result text.new }
{
    if let Some(parent) = process.parent {
        text.first(b"child")?;
        text.word(process.name.slice())?;
        text.word(b"of")?;
        text.word(tables.process_name(parent))?;
        return text.end_line();
    }
    text.first(b"process")?;
    text.word(process.name.slice())?;
    text.word(b"limit")?;
    text.number(alloc, u64::from(process.limit))?;
    text.end_line()
}

fn put_lines(
    alloc: Global,
    tables: &Tables,
    text: &mut Writer,
    lines: &[Line],
) -> Result<(), NoMemory>
    ensures { PutsScriptLines tables.now (map Do lines.now) text.old result text.new }
{
    for line in lines {
        put_line(alloc, tables, text, line)?;
        text.end_line()?;
    }
    Ok(())
}

/// A body with its end.
#[tactic(auto, using(crate::proofs::PrintSteps::body_ends))]
fn put_body(
    alloc: Global,
    tables: &Tables,
    text: &mut Writer,
    body: &[Line],
) -> Result<(), NoMemory>
    ensures { PutsScriptLines tables.now (body_items body.now) text.old result text.new }
{
    put_lines(alloc, tables, text, body)?;
    text.first(b"end")?;
    text.end_line()
}

fn put_thread(
    alloc: Global,
    tables: &Tables,
    text: &mut Writer,
    thread: &ScriptThread,
) -> Result<(), NoMemory>
    ensures { PutsScriptLines tables.now (thread_items thread.now thread.now.spare) text.old result text.new }
{
    if thread.spare {
        return put_named(text, b"spare", &thread.name);
    }
    put_named(text, b"thread", &thread.name)?;
    put_body(alloc, tables, text, thread.body.slice())
}

fn put_procedure(
    alloc: Global,
    tables: &Tables,
    text: &mut Writer,
    procedure: &Procedure,
) -> Result<(), NoMemory>
    ensures { PutsScriptLines tables.now (procedure_items procedure.now) text.old result text.new }
{
    put_named(text, b"proc", &procedure.name)?;
    put_body(alloc, tables, text, procedure.body.slice())
}

/// A part of a script.
#[derive(Clone, Copy)]
enum Declared<'a> {
    Process(&'a ScriptProcess),
    Thread(&'a ScriptThread),
    Procedure(&'a Procedure),
}

/// The parts of a script that are still to be printed. Clauses see their lines.
#[derive(Drop)]
struct Unprinted<'a> {
    order: &'a [Part],
    processes: &'a [ScriptProcess],
    threads: &'a [ScriptThread],
    procedures: &'a [Procedure],
}

impl<'a> Model for Unprinted<'a> {
    ghost use Rattle.std.specs.Prelude.{List};
    ghost use Rattle.script_lang.specs.declared.item.ScriptLine.{ScriptLine};
    ghost use Rattle.script_lang.specs.Scripts.{part_items};

    ghost Value = { List ScriptLine };

    ghost view = { λ parts. part_items parts.order.now parts.processes.now parts.threads.now parts.procedures.now };
}

impl<'a> Unprinted<'a> {
    /// The first of them.
    fn next(&mut self) -> Option<Declared<'a>>
        ensures { MatchOption result (self.old ≡ []) (λ part. self.old ≡ declared_items part ++ self.new) }
    {
        let (part, order) = self.order.split_first()?;
        match part {
            Part::Process => {
                let (process, processes) = self.processes.split_first()?;
                self.processes = processes;
                self.order = order;
                Some(Declared::Process(process))
            }
            Part::Thread => {
                let (thread, threads) = self.threads.split_first()?;
                self.threads = threads;
                self.order = order;
                Some(Declared::Thread(thread))
            }
            Part::Procedure => {
                let (procedure, procedures) = self.procedures.split_first()?;
                self.procedures = procedures;
                self.order = order;
                Some(Declared::Procedure(procedure))
            }
        }
    }
}

fn put_part(
    alloc: Global,
    tables: &Tables,
    text: &mut Writer,
    part: Declared,
) -> Result<(), NoMemory>
    ensures { PutsScriptLines tables.now (declared_items part.entry) text.old result text.new }
{
    match part {
        Declared::Process(process) => put_process(alloc, tables, text, process),
        Declared::Thread(thread) => put_thread(alloc, tables, text, thread),
        Declared::Procedure(procedure) => put_procedure(alloc, tables, text, procedure),
    }
}

fn put_parts(
    alloc: Global,
    tables: &Tables,
    text: &mut Writer,
    mut parts: Unprinted,
) -> Result<(), NoMemory>
    ensures { PutsScriptLines tables.now parts.entry text.old result text.new }
{
    while let Some(part) = parts.next() {
        put_part(alloc, tables, text, part)?;
    }
    Ok(())
}

/// The names of these threads.
fn put_threads(tables: &Tables, text: &mut Writer, threads: &[Tid]) -> Result<(), NoMemory>
    ensures { OnOk result (text.new ≡ text.old ++ spaced_words (map (thread_word tables.now) threads.now)) }
{
    for thread in threads {
        text.word(tables.thread_name(*thread))?;
    }
    Ok(())
}

/// `schedule NAME ..`
#[tactic(auto, using(crate::proofs::PrintSteps::schedule_ends))]
fn put_schedule(tables: &Tables, text: &mut Writer, threads: &[Tid]) -> Result<(), NoMemory>
    ensures { PutsScriptLines tables.now (Schedule threads.now ∷ []) text.old result text.new }
{
    text.first(b"schedule")?;
    put_threads(tables, text, threads)?;
    text.end_line()
}

/// Lines of 16 names, and a last with the rest.
fn put_schedules(tables: &Tables, text: &mut Writer, schedule: &[Tid]) -> Result<(), NoMemory>
    ensures { PutsScriptLines tables.now (schedule_items schedule.now) text.old result text.new }
{
    let mut rest = schedule;
    while !rest.is_empty() {
        let (row, others) = rest.split_at(rest.len().min(16));
        put_schedule(tables, text, row)?;
        rest = others;
    }
    Ok(())
}

fn put_script(alloc: Global, text: &mut Writer, script: &Script) -> Result<(), NoMemory>
    ensures { OnOk result (text.new ≡ text.old ++ items_text (tables_of script.now) (items_of script.now)) }
{
    put_budget(alloc, &script.tables, text, script.budget)?;
    let parts = Unprinted {
        order: script.order.slice(),
        processes: script.processes.slice(),
        threads: script.threads.slice(),
        procedures: script.procedures.slice(),
    };
    put_parts(alloc, &script.tables, text, parts)?;
    put_schedules(&script.tables, text, script.schedule.slice())
}

#[tactic(auto, unfolding(crate::specs::Canonical::canonical_text))]
fn text_of(alloc: Global, script: &Script) -> Result<Bytes, NoMemory>
    ensures { IfOk result (λ text. text ≡ canonical_text script.now) }
{
    let mut text = Writer::new(alloc)?;
    text.first(b"doors script")?;
    text.number(alloc, u64::from(script.version))?;
    text.end_line()?;
    put_script(alloc, &mut text, script)?;
    Ok(text.into_bytes())
}

/// The canonical text of a script. It spells the script, and is read as it.
pub fn print(alloc: Global, script: &Script) -> Result<Bytes, NoMemory>
    ensures canonical { IfOk result (λ text. text ≡ canonical_text script.now) }
    ensures spelled { IfOk result (λ text. spells text script.now) }
    ensures again { IfOk result (λ text. parse_result text ≡ Ok script.now) }
{
    script.is_spelled();
    let text = text_of(alloc, script)?;
    Ok(text)
}
