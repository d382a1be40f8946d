//! A kernel in which a history can begin.
ghost use Rattle.std.specs.Prelude.{◌≡◌, ◌↔◌, ◌≤◌, [], IfErr, IfOk, List, OnOk, Some, length, map, true};
ghost use Rattle.std.specs.List.{AllByRecursion};
ghost use Rattle.std.specs.Option.{option_map};
ghost use Rattle.dk_base.specs.ByNumber.{at_number};
ghost use Rattle.dk_base.specs.declared.limits.TheConstants.{DESCRIPTORS_MAX, PROCESSES_MAX};
ghost use Rattle.spec_kernel.specs.Words.{opening};
ghost use Rattle.spec_histories.specs.declared.opening.OpeningProcess.{OpeningProcess};
ghost use Rattle.spec_histories.specs.declared.opening.OpeningThread.{OpeningThread};
ghost use Rattle.spec_histories.specs.Openings.{limit_of, opening_of, with_children, with_threads};
ghost use Rattle.kernel_handle.specs.Openings.{IsNoOpening};

use dk_base::error::ProcFault;
use dk_base::limits::{DESCRIPTORS_MAX, PROCESSES_MAX};
use dk_base::list::IdList;
use dk_base::number::Pid;
use kernel_core::kernel::Kernel;
use spec_histories::opening::{OpeningProcess, OpeningThread};
use spec_records::numbered::numbered_item;
use std::alloc::Global;

/// Why no history begins with such processes and threads.
#[derive(Clone, Copy, Debug, PartialEq, Eq)]
pub enum NotOpening {
    /// There are more than 64 processes.
    ManyProcesses,
    /// There are more than 64 threads.
    ManyThreads,
    /// A process is to have more than 256 descriptors.
    Limit,
    /// The parent of a child does not stand before it, or has another limit.
    Parent,
    /// A thread is of a process that is not there.
    Process,
    NoMemory,
}

fn limits_of(alloc: Global, processes: &[OpeningProcess]) -> Result<IdList, NotOpening>
    ensures limits { IfOk result (λ limits. limits ≡ map limit_of processes.now) }
    ensures narrow { IfOk result (λ limits. AllByRecursion (λ n. n ≤ DESCRIPTORS_MAX) limits) }
    ensures refused { IfErr result (λ why. (threads : List OpeningThread) → IsNoOpening processes.now threads why) }
{
    let mut limits = IdList::new(alloc);
    for process in processes {
        if process.limit > DESCRIPTORS_MAX {
            return Err(NotOpening::Limit);
        }
        if limits.push(process.limit).is_err() {
            return Err(NotOpening::NoMemory);
        }
    }
    Ok(limits)
}

/// Whether the process of this number is there, and has this limit.
fn has_limit(processes: &[OpeningProcess], number: Pid, limit: u32) -> bool
    ensures { (result ≡ true) ↔ (option_map limit_of (at_number processes.now number.0) ≡ Some limit) }
{
    match numbered_item(processes, number.0) {
        Some(process) => process.limit == limit,
        None => false,
    }
}

/// Which processes are children of which.
fn make_children(kernel: &mut Kernel, processes: &[OpeningProcess]) -> Result<(), NotOpening>
    requires few { length processes.now ≤ PROCESSES_MAX }
    requires fresh { kernel.old ≡ opening (map limit_of processes.now) }
    ensures made { OnOk result (kernel.new ≡ with_children kernel.old 0 processes.now) }
    ensures refused { IfErr result (λ why. (threads : List OpeningThread) → IsNoOpening processes.now threads why) }
{
    for place in 0..processes.len() {
        let process = processes[place];
        if let Some(parent) = process.parent {
            if !has_limit(&processes[..place], parent, process.limit) {
                return Err(NotOpening::Parent);
            }
            kernel.make_child(Pid(place as u32 + 1), parent);
        }
    }
    Ok(())
}

fn add_threads(
    kernel: &mut Kernel,
    processes: &[OpeningProcess],
    threads: &[OpeningThread],
) -> Result<(), NotOpening>
    requires opening { kernel.old.events ≡ 0 }
    requires few { length processes.now ≤ PROCESSES_MAX }
    requires processes { length kernel.old.process_table.processes ≡ length processes.now }
    requires no_thread { kernel.old.process_table.threads ≡ [] }
    ensures added { OnOk result (kernel.new ≡ with_threads kernel.old threads.now) }
    ensures refused { IfErr result (IsNoOpening processes.now threads.now) }
{
    let count = processes.len() as u32;
    for thread in threads {
        let process = thread.process;
        if process.0 == 0 || process.0 > count {
            return Err(NotOpening::Process);
        }
        match kernel.add_thread(process, thread.spare) {
            Ok(_) => {}
            Err(ProcFault::Full) => return Err(NotOpening::ManyThreads),
            Err(_) => return Err(NotOpening::NoMemory),
        }
    }
    Ok(())
}

/// A kernel with these processes and threads, which are numbered from 1 by their places.
pub fn open(
    alloc: Global,
    processes: &[OpeningProcess],
    threads: &[OpeningThread],
) -> Result<Kernel, NotOpening>
    ensures opens { IfOk result (λ kernel. kernel ≡ opening_of processes.now threads.now) }
    ensures no_event { IfOk result (λ kernel. kernel.events ≡ 0) }
    ensures refused { IfErr result (IsNoOpening processes.now threads.now) }
{
    if processes.len() > PROCESSES_MAX as usize {
        return Err(NotOpening::ManyProcesses);
    }
    let limits = limits_of(alloc, processes)?;
    let Ok(mut kernel) = Kernel::new(alloc, &limits) else {
        return Err(NotOpening::NoMemory);
    };
    make_children(&mut kernel, processes)?;
    add_threads(&mut kernel, processes, threads)?;
    Ok(kernel)
}
