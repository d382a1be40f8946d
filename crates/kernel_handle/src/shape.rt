//! Processes with their threads by number, as one who begins a history counts them.
ghost use Rattle.std.specs.Prelude.{◌≡◌, ◌+◌, ◌≤◌, ◌++◌, IfErr, IfOk, OnOk, length, replicate};
ghost use Rattle.dk_base.specs.declared.limits.TheConstants.{PROCESSES_MAX, THREADS_MAX};
ghost use Rattle.kernel_handle.specs.declared.opening.NotOpening.TheVariants.{NoMemory};
ghost use Rattle.kernel_handle.specs.Shapes.{AreTooMany, limit_in, processes_of, threads_of};

use crate::opening::NotOpening;
use dk_base::limits::THREADS_MAX;
use dk_base::number::Pid;
use spec_histories::opening::{OpeningProcess, OpeningThread};
use spec_records::numbered::numbered_item;
use std::alloc::Global;

/// A process with as many threads and, after them, spares. Of a child the limit of its parent counts, where that stands before it.
#[derive(Clone, Copy)]
pub struct ProcessShape {
    pub limit: u32,
    pub parent: Option<Pid>,
    pub threads: u32,
    pub spares: u32,
}

fn limit_in(before: &[OpeningProcess], shape: &ProcessShape) -> u32
    ensures { result ≡ limit_in before.now shape.now }
{
    let Some(parent) = shape.parent else {
        return shape.limit;
    };
    match numbered_item(before, parent.0) {
        Some(process) => process.limit,
        None => shape.limit,
    }
}

/// The processes of these shapes.
pub fn processes_of(
    alloc: Global,
    shapes: &[ProcessShape],
) -> Result<Vec<OpeningProcess>, NotOpening>
    ensures processes { IfOk result (λ processes. processes.items ≡ processes_of shapes.now) }
    ensures refused { IfErr result (λ why. why ≡ NoMemory) }
{
    let mut processes: Vec<OpeningProcess> = Vec::new(alloc);
    for shape in shapes {
        let process = OpeningProcess {
            limit: limit_in(&processes, shape),
            parent: shape.parent,
        };
        if processes.push(process).is_err() {
            return Err(NotOpening::NoMemory);
        }
    }
    Ok(processes)
}

/// So many more threads of a process, all of them spares or none.
fn push_threads(
    threads: &mut Vec<OpeningThread>,
    thread: OpeningThread,
    count: u32,
) -> Result<(), NotOpening>
    requires { length threads.old.items ≤ THREADS_MAX }
    ensures pushed { OnOk result (threads.new.items ≡ threads.old.items ++ replicate count thread) }
    ensures few { OnOk result (length threads.new.items ≤ THREADS_MAX) }
    ensures refused { IfErr result (AreTooMany (length threads.old.items + count)) }
{
    if count as usize > THREADS_MAX as usize - threads.len() {
        return Err(NotOpening::ManyThreads);
    }
    for _made in 0..count {
        if threads.push(thread).is_err() {
            return Err(NotOpening::NoMemory);
        }
    }
    Ok(())
}

/// The threads of these shapes.
pub fn threads_of(alloc: Global, shapes: &[ProcessShape]) -> Result<Vec<OpeningThread>, NotOpening>
    requires { length shapes.now ≤ PROCESSES_MAX }
    ensures threads { IfOk result (λ threads. threads.items ≡ threads_of shapes.now) }
    ensures refused { IfErr result (AreTooMany (length (threads_of shapes.now))) }
{
    let mut threads: Vec<OpeningThread> = Vec::new(alloc);
    for place in 0..shapes.len() {
        let shape = shapes[place];
        let process = Pid(place as u32 + 1);
        push_threads(
            &mut threads,
            OpeningThread {
                process,
                spare: false,
            },
            shape.threads,
        )?;
        push_threads(
            &mut threads,
            OpeningThread {
                process,
                spare: true,
            },
            shape.spares,
        )?;
    }
    Ok(threads)
}
