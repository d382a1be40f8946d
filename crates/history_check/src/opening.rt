//! The kernel with which a history begins.

ghost use Rattle.std.specs.Prelude.{◌≡◌, IfOk};
ghost use Rattle.spec_histories.specs.Histories.{begun};
ghost use Rattle.history_check.specs.Openings.{opening_of_names, opening_processes as processes_of_names, opening_threads as threads_of_names};

use dk_base::error::NoMemory;
use dk_base::list::Sequence;
use dk_base::number::{Pid, Tid};
use history_text::names::Names;
use spec_histories::opening::{OpeningProcess, OpeningThread};
use spec_histories::recorded::RecordsHistory;
use std::alloc::Global;

/// The processes that are declared.
fn opening_processes(alloc: Global, names: &Names) -> Result<Sequence<OpeningProcess>, NoMemory>
    ensures { IfOk result (λ processes. processes ≡ processes_of_names names.now) }
{
    let mut processes = Sequence::new(alloc);
    for below in 0..names.count_processes() {
        let process = Pid(below + 1);
        processes.push(OpeningProcess {
            limit: names.limit_of(process),
            parent: names.parent_of(process.0),
        })?;
    }
    Ok(processes)
}

/// The threads that are declared.
fn opening_threads(alloc: Global, names: &Names) -> Result<Sequence<OpeningThread>, NoMemory>
    ensures { IfOk result (λ threads. threads ≡ threads_of_names names.now) }
{
    let mut threads = Sequence::new(alloc);
    for below in 0..names.count_threads() {
        let thread = Tid(below + 1);
        threads.push(OpeningThread {
            process: Pid(names.process_of(thread)),
            spare: names.is_spare(thread),
        })?;
    }
    Ok(threads)
}

/// A kernel of the processes and threads that are declared.
pub(crate) fn open<K: RecordsHistory>(alloc: Global, names: &Names) -> Result<K, NoMemory>
    ensures { IfOk result (λ kernel. K.history kernel ≡ begun (opening_of_names names.now)) }
{
    let processes = opening_processes(alloc, names)?;
    let threads = opening_threads(alloc, names)?;
    K::open(alloc, processes.slice(), threads.slice())
}
