//! The names of an opening.
ghost use Rattle.std.specs.Prelude.{◌≡◌, ◌<◌, ◌^◌, IfOk, length};
ghost use Rattle.history_text.specs.DefaultNames.{default_name, default_names, default_processes, default_threads};

use crate::named::{NamedProcess, NamedThread};
use crate::names::Names;
use crate::table::Table;
use dk_base::error::NoMemory;
use dk_base::list::Bytes;
use itoa::Buffer;
use spec_histories::opening::{OpeningProcess, OpeningThread};
use std::alloc::Global;

fn default_name(alloc: Global, letter: u8, number: u32) -> Result<Bytes, NoMemory>
    ensures { IfOk result (λ name. name ≡ default_name letter number) }
{
    if number == 1 {
        return Bytes::from_slice(alloc, b"init");
    }
    let mut name = Bytes::new(alloc);
    name.push(letter)?;
    name.append(Buffer::new().format(number).as_bytes())?;
    Ok(name)
}

#[tactic(auto, using(crate::proofs::OneMore::one_process))]
fn processes_of(alloc: Global, opening: &[OpeningProcess]) -> Result<Vec<NamedProcess>, NoMemory>
    requires { length opening.now < 2 ^ 32 }
    ensures { IfOk result (λ processes. processes.items ≡ default_processes 0 opening.now) }
{
    let mut processes = Vec::new(alloc);
    for (i, process) in opening.iter().enumerate() {
        let number = i as u32 + 1;
        let named = NamedProcess {
            declared: default_name(alloc, b'p', number)?,
            given: None,
            limit: process.limit,
            parent: process.parent,
            mentioned: false,
        };
        if processes.push(named).is_err() {
            return Err(NoMemory);
        }
    }
    Ok(processes)
}

#[tactic(auto, using(crate::proofs::OneMore::one_thread))]
fn threads_of(alloc: Global, opening: &[OpeningThread]) -> Result<Vec<NamedThread>, NoMemory>
    requires { length opening.now < 2 ^ 32 }
    ensures { IfOk result (λ threads. threads.items ≡ default_threads 0 opening.now) }
{
    let mut threads = Vec::new(alloc);
    for (i, thread) in opening.iter().enumerate() {
        let number = i as u32 + 1;
        let named = NamedThread {
            declared: default_name(alloc, b't', number)?,
            given: None,
            process: thread.process.0,
            spare: thread.spare,
        };
        if threads.push(named).is_err() {
            return Err(NoMemory);
        }
    }
    Ok(threads)
}

impl Names {
    ghost use Rattle.std.specs.Prelude.{◌≡◌, ◌<◌, ◌^◌, IfOk, length};
    ghost use Rattle.history_text.specs.DefaultNames.{default_names};

    /// The names of an opening: `init` for the first process and the first thread, pN and tN for the others.
    #[tactic(auto, using(crate::proofs::OneMore::count_processes, crate::proofs::OneMore::count_threads))]
    pub fn of_opening(
        alloc: Global,
        processes: &[OpeningProcess],
        threads: &[OpeningThread],
    ) -> Result<Names, NoMemory>
        requires processes { length processes.now < 1000 }
        requires threads { length threads.now < 1000 }
        ensures { IfOk result (λ names. names ≡ default_names processes.now threads.now) }
    {
        Ok(Names {
            processes: processes_of(alloc, processes)?,
            threads: threads_of(alloc, threads)?,
            procedures: Vec::new(alloc),
            paths: Table::new(alloc),
            texts: Table::new(alloc),
        })
    }
}
