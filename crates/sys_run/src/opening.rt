//! What a script opens with.
ghost use Rattle.std.specs.Prelude.{◌≡◌, ◌≤◌, [], length, map, IfOk, OnOk};
ghost use Rattle.dk_base.specs.declared.limits.TheConstants.{PROCESSES_MAX, THREADS_MAX};
ghost use Rattle.spec_requests.specs.Words.{IsSound};
ghost use Rattle.spec_kernel.specs.Words.{opening};
ghost use Rattle.spec_scripts.specs.Words.{limit_of, opening_of, with_children, with_script_threads};
ghost use Rattle.sys_run.specs.Sys.{AllStandFrom};

use dk_base::error::NoMemory;
use dk_base::list::IdList;
use dk_base::number::{Pid, Tid};
use kernel_core::kernel::Kernel;
use script_lang::script::Script;
use std::alloc::Global;
use thread_machine::machine::Machine;

pub(crate) fn limits_of(alloc: Global, script: &Script) -> Result<IdList, NoMemory>
    requires { length script.now.processes ≤ PROCESSES_MAX }
    ensures { IfOk result (λ limits. limits ≡ map limit_of script.now.processes) }
{
    let mut limits = IdList::new(alloc);
    for below in 0..script.processes() {
        limits.push(script.limit(Pid(below + 1)))?;
    }
    Ok(limits)
}

/// A machine at the first command of each thread.
pub(crate) fn first_machines(alloc: Global, script: &Script) -> Result<Vec<Machine>, NoMemory>
    requires { length script.now.threads ≤ THREADS_MAX }
    ensures stand { IfOk result (λ machines. AllStandFrom script.now [] 1 machines.items) }
    ensures count { IfOk result (λ machines. length machines.items ≡ length script.now.threads) }
{
    let mut machines = Vec::new(alloc);
    for below in 0..script.threads() {
        let machine = Machine::new(alloc, script, Tid(below + 1))?;
        match machines.push(machine) {
            Ok(()) => {}
            Err(_) => return Err(NoMemory),
        }
    }
    Ok(machines)
}

/// Which processes are children of which.
fn make_children(kernel: &mut Kernel, script: &Script)
    requires opening { kernel.old.events ≡ 0 }
    requires sound { IsSound script.now }
    requires fresh { kernel.old ≡ opening (map limit_of script.now.processes) }
    ensures { kernel.new ≡ with_children kernel.old 0 script.now.processes }
{
    for below in 0..script.processes() {
        let process = Pid(below + 1);
        if let Some(parent) = script.parent(process) {
            kernel.make_child(process, parent);
        }
    }
}

fn add_threads(kernel: &mut Kernel, script: &Script) -> Result<(), NoMemory>
    requires opening { kernel.old.events ≡ 0 }
    requires sound { IsSound script.now }
    requires processes { length kernel.old.process_table.processes ≡ length script.now.processes }
    ensures { OnOk result (kernel.new ≡ with_script_threads kernel.old script.now.threads) }
{
    for below in 0..script.threads() {
        let thread = Tid(below + 1);
        if kernel
            .add_thread(script.process_of(thread), script.is_spare(thread))
            .is_err()
        {
            return Err(NoMemory);
        }
    }
    Ok(())
}

/// A kernel in the opening state of a script.
pub(crate) fn open(alloc: Global, script: &Script) -> Result<Kernel, NoMemory>
    requires { IsSound script.now }
    ensures { IfOk result (λ kernel. kernel ≡ opening_of script.now) }
{
    let limits = limits_of(alloc, script)?;
    let mut kernel = Kernel::new(alloc, &limits)?;
    make_children(&mut kernel, script);
    add_threads(&mut kernel, script)?;
    Ok(kernel)
}
