//! Lines outside of bodies, and the dispatch of all lines by their first words.

ghost use Rattle.std.specs.Prelude.{◌≡◌, bytes_eq, MatchResult, IfOk};
ghost use Rattle.line_reader.specs.Words.{ReadsOn};
ghost use Rattle.script_lang.specs.Items.{budget_item as budget_read, process_item as process_read, child_item as child_read, spare_item as spare_read, thread_item as thread_read, procedure_item as procedure_read, schedule_item as schedule_read, item_in_schedule as item_in_schedule_read, item_in_processes as item_in_processes_read, item_at_start as item_at_start_read, item_in_members as item_in_members_read};
ghost use Rattle.script_lang.specs.Dispatch.{item_reader};

use crate::item::ScriptLine;
use dk_base::limits::{BUDGET_MAX, DESCRIPTORS_MAX};
use line_forms::reason::Reason;
use line_forms::tables::Tables;
use line_reader::fault::Fault;
use line_reader::line_rest::LineRest;
use std::alloc::Global;

/// `budget N`
#[tactic(auto, unfolding(crate::specs::Items::budget_item))]
fn budget_item(rest: LineRest<'_>) -> Result<(ScriptLine, LineRest<'_>), Fault>
    ensures { ReadsOn budget_read rest.entry result }
{
    let (events, rest) = rest.small_number(1, BUDGET_MAX)?;
    rest.value_at_end(ScriptLine::Budget { events })
}

/// `process NAME`, `process NAME limit N`
#[tactic(auto, unfolding(crate::specs::Items::process_item))]
fn process_item(alloc: Global, rest: LineRest<'_>) -> Result<(ScriptLine, LineRest<'_>), Fault>
    ensures { ReadsOn process_read rest.entry result }
{
    let (name, mut rest) = rest.variable(alloc)?;
    let (limit, rest) = if rest.optional_word(b"limit") {
        rest.small_number(0, DESCRIPTORS_MAX)?
    } else {
        (DESCRIPTORS_MAX, rest)
    };
    rest.value_at_end(ScriptLine::Process { name, limit })
}

/// `child NAME of PARENT`, where so many processes stand before.
#[tactic(auto, unfolding(crate::specs::Items::child_item))]
fn child_item<'a>(
    alloc: Global,
    tables: &Tables,
    before: u32,
    rest: LineRest<'a>,
) -> Result<(ScriptLine, LineRest<'a>), Fault>
    ensures { ReadsOn (child_read tables.now before) rest.entry result }
{
    let (name, mut rest) = rest.variable(alloc)?;
    if !rest.optional_word(b"of") {
        return Err(Fault::Bad(Reason::Form));
    }
    let (parent, rest) = rest.parent(tables, before)?;
    rest.value_at_end(ScriptLine::Child { name, parent })
}

/// `spare NAME`
#[tactic(auto, unfolding(crate::specs::Items::spare_item))]
fn spare_item(alloc: Global, rest: LineRest<'_>) -> Result<(ScriptLine, LineRest<'_>), Fault>
    ensures { ReadsOn spare_read rest.entry result }
{
    let (name, rest) = rest.variable(alloc)?;
    rest.value_at_end(ScriptLine::Spare { name })
}

/// `thread NAME`
#[tactic(auto, unfolding(crate::specs::Items::thread_item))]
fn thread_item(alloc: Global, rest: LineRest<'_>) -> Result<(ScriptLine, LineRest<'_>), Fault>
    ensures { ReadsOn thread_read rest.entry result }
{
    let (name, rest) = rest.variable(alloc)?;
    rest.value_at_end(ScriptLine::Thread { name })
}

/// `proc NAME`
#[tactic(auto, unfolding(crate::specs::Items::procedure_item))]
fn procedure_item(alloc: Global, rest: LineRest<'_>) -> Result<(ScriptLine, LineRest<'_>), Fault>
    ensures { ReadsOn procedure_read rest.entry result }
{
    let (name, rest) = rest.variable(alloc)?;
    rest.value_at_end(ScriptLine::Procedure { name })
}

/// `schedule NAME ..`
#[tactic(auto, unfolding(crate::specs::Items::schedule_item))]
fn schedule_item<'a>(
    alloc: Global,
    rest: LineRest<'a>,
    tables: &Tables,
) -> Result<(ScriptLine, LineRest<'a>), Fault>
    ensures { ReadsOn (schedule_read tables.now) rest.entry result }
{
    let (threads, rest) = rest.threads(alloc, tables)?;
    if threads.is_empty() {
        return Err(Fault::Bad(Reason::Form));
    }
    rest.value_at_end(ScriptLine::Schedule { threads })
}

fn is_keyword(word: &[u8], keyword: &str) -> bool
    ensures { result ≡ bytes_eq word.now keyword.now }
{
    word == keyword.as_bytes()
}

pub fn item_in_schedule<'a>(
    alloc: Global,
    tables: &Tables,
    word: &[u8],
    rest: LineRest<'a>,
) -> Result<(ScriptLine, LineRest<'a>), Fault>
    ensures { ReadsOn (item_reader (item_in_schedule_read tables.now word.now)) rest.entry result }
{
    if is_keyword(word, "schedule") {
        schedule_item(alloc, rest, tables)
    } else {
        Err(Fault::Bad(Reason::Word))
    }
}

pub fn item_in_processes<'a>(
    alloc: Global,
    version: u32,
    tables: &Tables,
    process: u32,
    word: &[u8],
    rest: LineRest<'a>,
) -> Result<(ScriptLine, LineRest<'a>), Fault>
    ensures { ReadsOn (item_reader (item_in_processes_read version tables.now process word.now)) rest.entry result }
{
    if is_keyword(word, "process") {
        process_item(alloc, rest)
    } else if version >= 2 && is_keyword(word, "child") {
        child_item(alloc, tables, process, rest)
    } else {
        item_in_schedule(alloc, tables, word, rest)
    }
}

pub fn item_at_start<'a>(
    alloc: Global,
    version: u32,
    tables: &Tables,
    process: u32,
    word: &[u8],
    rest: LineRest<'a>,
) -> Result<(ScriptLine, LineRest<'a>), Fault>
    ensures { ReadsOn (item_reader (item_at_start_read version tables.now process word.now)) rest.entry result }
{
    if is_keyword(word, "budget") {
        budget_item(rest)
    } else {
        item_in_processes(alloc, version, tables, process, word, rest)
    }
}

pub fn item_in_members<'a>(
    alloc: Global,
    version: u32,
    tables: &Tables,
    process: u32,
    word: &[u8],
    rest: LineRest<'a>,
) -> Result<(ScriptLine, LineRest<'a>), Fault>
    ensures { ReadsOn (item_reader (item_in_members_read version tables.now process word.now)) rest.entry result }
{
    if is_keyword(word, "spare") {
        spare_item(alloc, rest)
    } else if is_keyword(word, "thread") {
        thread_item(alloc, rest)
    } else if is_keyword(word, "proc") {
        procedure_item(alloc, rest)
    } else {
        item_in_processes(alloc, version, tables, process, word, rest)
    }
}
