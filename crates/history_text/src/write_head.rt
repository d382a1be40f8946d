//! The head of a history.
ghost use Rattle.std.specs.Prelude.{◌≡◌, ◌++◌, ◌+◌, IfOk, OnOk, flat_map};
ghost use Rattle.history_text.specs.HeadText.{head_line, head_lines, head_text, member_text, process_text};

use crate::named::{NamedProcess, NamedThread};
use crate::names::Names;
use dk_base::error::NoMemory;
use dk_base::list::Bytes;
use itoa::Buffer;
use std::alloc::Global;

fn push_members(text: &mut Bytes, process: u32, threads: &[NamedThread]) -> Result<(), NoMemory>
    ensures { OnOk result (text.new ≡ text.old ++ flat_map (member_text process) threads.now) }
{
    for thread in threads {
        if thread.process == process {
            text.append(if thread.spare {
                b" spare "
            } else {
                b" thread "
            })?;
            text.append(thread.name())?;
        }
    }
    Ok(())
}

fn push_process(text: &mut Bytes, names: &Names, process: &NamedProcess) -> Result<(), NoMemory>
    ensures { OnOk result (text.new ≡ text.old ++ process_text names.now process.now process.now.parent) }
{
    match process.parent {
        None => {
            text.append(b"process ")?;
            text.append(process.name())?;
            text.append(b" limit ")?;
            text.append(Buffer::new().format(process.limit).as_bytes())
        }
        Some(parent) => {
            text.append(b"child ")?;
            text.append(process.name())?;
            text.append(b" of ")?;
            text.append(names.process_name(parent))
        }
    }
}

fn push_line(
    text: &mut Bytes,
    names: &Names,
    number: u32,
    process: &NamedProcess,
) -> Result<(), NoMemory>
    ensures { OnOk result (text.new ≡ text.old ++ head_line names.now number process.now) }
{
    push_process(text, names, process)?;
    push_members(text, number, names.threads.as_slice())?;
    text.push(b'\n')
}

/// The first line, and a line for each process with its members, each with its line feed.
#[tactic(auto, using(crate::proofs::HeadLines::one_line))]
pub fn head(alloc: Global, names: &Names) -> Result<Bytes, NoMemory>
    ensures { IfOk result (λ text. text ≡ head_text names.now) }
{
    let mut text = Bytes::new(alloc);
    text.append(b"doors history 1\n")?;
    for (i, process) in names.processes.iter().enumerate() {
        push_line(&mut text, names, i as u32 + 1, process)?;
    }
    Ok(text)
}
