//! The names that a text declares and the paths that it uses, by the first words of its lines.

ghost use Rattle.std.specs.Prelude.{◌≡◌, ◌≤◌, ◌<◌, ◌+◌, ◌^◌, [], Some, IfOk, OnOk, option_copied, length};
ghost use Rattle.line_text.specs.Words.{lines_of, words_of};
ghost use Rattle.script_lang.specs.TextTables.{second_of as second_of_words, third_of as third_of_words, fourth_of as fourth_of_words, process_of_words, parent_of_words, thread_of_words, procedure_of_words, path_of_words, tables_of_lines};
ghost use Rattle.script_lang.specs.NamesThen.{names_with_process, names_with_thread, names_with_procedure, names_of_line};

use dk_base::error::NoMemory;
use dk_base::limits::{ALL_PROCEDURES_MAX, PROCESSES_MAX, THREADS_MAX};
use dk_base::number::Pid;
use line_forms::tables::Tables;
use line_text::lines::next_line;
use line_text::words::next_word;
use std::alloc::Global;

/// The second word of a line whose first is this one.
fn second_of<'a>(keyword: &str, line: &'a [u8]) -> Option<&'a [u8]>
    ensures { option_copied result ≡ second_of_words keyword.now (words_of line.now) }
{
    let (first, rest) = next_word(line)?;
    let (second, _) = next_word(rest)?;
    if first == keyword.as_bytes() {
        Some(second)
    } else {
        None
    }
}

/// The third.
fn third_of<'a>(keyword: &str, line: &'a [u8]) -> Option<&'a [u8]>
    ensures { option_copied result ≡ third_of_words keyword.now (words_of line.now) }
{
    let (first, rest) = next_word(line)?;
    let (_, rest) = next_word(rest)?;
    let (third, _) = next_word(rest)?;
    if first == keyword.as_bytes() {
        Some(third)
    } else {
        None
    }
}

/// The fourth.
fn fourth_of<'a>(keyword: &str, line: &'a [u8]) -> Option<&'a [u8]>
    ensures { option_copied result ≡ fourth_of_words keyword.now (words_of line.now) }
{
    let (first, rest) = next_word(line)?;
    let (_, rest) = next_word(rest)?;
    let (_, rest) = next_word(rest)?;
    let (fourth, _) = next_word(rest)?;
    if first == keyword.as_bytes() {
        Some(fourth)
    } else {
        None
    }
}

fn process_of_line(line: &[u8]) -> Option<&[u8]>
    ensures { option_copied result ≡ process_of_words (words_of line.now) }
{
    match second_of("process", line) {
        Some(name) => Some(name),
        None => second_of("child", line),
    }
}

/// The process that the one of a line is a child of, where those of these tables stand before.
fn parent_of_line(tables: &Tables, line: &[u8]) -> Option<Pid>
    ensures { result ≡ parent_of_words tables.now.processes (words_of line.now) }
{
    let name = fourth_of("child", line)?;
    Some(Pid(tables.process_number(name).unwrap_or(0)))
}

fn thread_of_line(line: &[u8]) -> Option<&[u8]>
    ensures { option_copied result ≡ thread_of_words (words_of line.now) }
{
    match second_of("spare", line) {
        Some(name) => Some(name),
        None => second_of("thread", line),
    }
}

fn procedure_of_line(line: &[u8]) -> Option<&[u8]>
    ensures { option_copied result ≡ procedure_of_words (words_of line.now) }
{
    second_of("proc", line)
}

fn path_of_line(line: &[u8]) -> Option<&[u8]>
    ensures { option_copied result ≡ path_of_words (words_of line.now) }
{
    if let Some(path) = third_of("attach", line) {
        return Some(path);
    }
    if let Some(path) = second_of("detach", line) {
        return Some(path);
    }
    match third_of("open", line) {
        Some(path) => Some(path),
        None => second_of("await", line),
    }
}

/// The names so far, and how many lines `process` and `child` have been.
#[derive(Drop)]
pub struct Names {
    pub tables: Tables,
    pub process: u32,
}

impl Names {
    fn add_process(
        &mut self,
        alloc: Global,
        name: &[u8],
        parent: Option<Pid>,
    ) -> Result<(), NoMemory>
        requires count { self.old.process + 1 < 2 ^ 32 }
        requires each { length self.old.tables.parents ≡ length self.old.tables.processes }
        ensures { OnOk result (self.new ≡ names_with_process self.old parent (Some name.now)) }
    {
        self.process += 1;
        if self.tables.process_count() >= PROCESSES_MAX {
            return Ok(());
        }
        self.tables.add_process(alloc, name, parent)
    }

    fn add_thread(&mut self, alloc: Global, name: &[u8]) -> Result<(), NoMemory>
        ensures { OnOk result (self.new ≡ names_with_thread self.old (Some name.now)) }
    {
        if self.tables.thread_count() >= THREADS_MAX {
            return Ok(());
        }
        self.tables.add_thread(alloc, name)
    }

    fn add_procedure(&mut self, alloc: Global, name: &[u8]) -> Result<(), NoMemory>
        ensures { OnOk result (self.new ≡ names_with_procedure self.old (Some name.now)) }
    {
        if self.tables.procedure_count() >= ALL_PROCEDURES_MAX as u32 {
            return Ok(());
        }
        let process = self.process;
        self.tables.add_procedure(alloc, process, name)
    }

    /// The names of a line.
    fn add(&mut self, alloc: Global, line: &[u8]) -> Result<(), NoMemory>
        requires process { self.old.process + 1 < 2 ^ 32 }
        requires paths { length self.old.tables.paths < 4294967294 }
        requires each { length self.old.tables.parents ≡ length self.old.tables.processes }
        ensures { OnOk result (self.new ≡ names_of_line self.old (words_of line.now)) }
    {
        if let Some(name) = procedure_of_line(line) {
            self.add_procedure(alloc, name)?;
        }
        if let Some(name) = thread_of_line(line) {
            self.add_thread(alloc, name)?;
        }
        if let Some(name) = process_of_line(line) {
            let parent = parent_of_line(&self.tables, line);
            self.add_process(alloc, name, parent)?;
        }
        if let Some(path) = path_of_line(line) {
            self.tables.add_path(alloc, path)?;
        }
        Ok(())
    }
}

/// The names of the lines of a text.
#[tactic(auto, using(crate::proofs::NamesSteps::names_process, crate::proofs::NamesSteps::names_paths, crate::proofs::NamesSteps::names_each))]
pub fn tables_of_text(alloc: Global, text: &[u8]) -> Result<Tables, NoMemory>
    requires { length text.now < 4000000000 }
    ensures { IfOk result (λ tables. tables ≡ tables_of_lines (lines_of text.now)) }
{
    let mut names = Names {
        tables: Tables::new(alloc),
        process: 0,
    };
    let mut rest = text;
    while let Some((line, later)) = next_line(rest) {
        names.add(alloc, line)?;
        rest = later;
    }
    let Names { tables, .. } = names;
    Ok(tables)
}
