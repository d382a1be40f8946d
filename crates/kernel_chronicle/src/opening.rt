//! The beginning of a history.
ghost use Rattle.std.specs.Prelude.{◌≡◌, ◌≤◌, ℕ, List, IfErr, IfOk, OnOk, length, take};
ghost use Rattle.spec_histories.specs.Histories.{IsHistory};
ghost use Rattle.history_text.specs.HeadText.{head_text};
ghost use Rattle.dk_base.specs.declared.limits.TheConstants.{PROCESSES_MAX};
ghost use Rattle.kernel_handle.specs.declared.shape.ProcessShape.{ProcessShape as ProcessShapeValue};
ghost use Rattle.kernel_chronicle.specs.Openings.{IsCauseOfUnopened, names_of, opened, parent_declared, shapes_of, unopened_for};

use crate::asked::Declared;
use crate::refusal::Unopened;
use crate::rooms::{TEXT_ROOM, put_bytes};
use dk_base::error::NoMemory;
use dk_base::limits::PROCESSES_MAX;
use dk_base::number::Pid;
use history_text::names::Names;
use history_text::write_head::head;
use kernel_handle::held::Held;
use kernel_handle::opening::NotOpening;
use kernel_handle::shape::{ProcessShape, processes_of, threads_of};
use std::alloc::Global;

fn parent(number: u32) -> Option<Pid>
    ensures { result ≡ parent_declared number }
{
    if number == 0 { None } else { Some(Pid(number)) }
}

/// The processes as a kernel takes them.
pub fn shapes(alloc: Global, declared: &[Declared]) -> Result<Vec<ProcessShape>, NoMemory>
    ensures { IfOk result (λ shapes. shapes.items ≡ shapes_of declared.now) }
{
    let mut shapes = Vec::new(alloc);
    for process in declared {
        let shape = ProcessShape {
            limit: process.limit,
            parent: parent(process.parent),
            threads: process.threads,
            spares: process.spares,
        };
        if shapes.push(shape).is_err() {
            return Err(NoMemory);
        }
    }
    Ok(shapes)
}

fn unopened(why: NotOpening) -> Unopened
    ensures { result ≡ unopened_for why }
{
    match why {
        NotOpening::NoMemory => Unopened::NoMemory,
        _ => Unopened::NoOpening,
    }
}

/// A kernel of these processes.
#[tactic(auto, using(crate::proofs::Unopenings::cause_of_held))]
pub fn held_of(alloc: Global, shapes: &[ProcessShape]) -> Result<Held, Unopened>
    ensures begins { IfOk result (λ held. held ≡ (opened shapes.now).history) }
    ensures legal { IfOk result (λ held. IsHistory held) }
    ensures why { (room : ℕ) → IfErr result (λ why. IsCauseOfUnopened shapes.now room why) }
{
    match Held::of_shapes(alloc, shapes) {
        Ok(held) => Ok(held),
        Err(why) => Err(unopened(why)),
    }
}

/// What these processes and their threads are called at first.
#[tactic(auto, using(crate::proofs::Unopenings::count_processes, crate::proofs::Unopenings::many_threads))]
pub fn names_of(alloc: Global, shapes: &[ProcessShape]) -> Result<Names, Unopened>
    requires { length shapes.now ≤ PROCESSES_MAX }
    ensures names { IfOk result (λ names. names ≡ names_of shapes.now) }
    ensures why { (room : ℕ) → IfErr result (λ why. IsCauseOfUnopened shapes.now room why) }
{
    let Ok(processes) = processes_of(alloc, shapes) else {
        return Err(Unopened::NoMemory);
    };
    let Ok(threads) = threads_of(alloc, shapes) else {
        return Err(Unopened::NoMemory);
    };
    if threads.len() >= 1000 {
        return Err(Unopened::NoOpening);
    }
    match Names::of_opening(alloc, &processes, &threads) {
        Ok(names) => Ok(names),
        Err(NoMemory) => Err(Unopened::NoMemory),
    }
}

/// The head of a history goes to C.
pub fn put_head(
    alloc: Global,
    names: &Names,
    text: &mut [u8],
    written: &mut usize,
) -> Result<(), Unopened>
    ensures done { OnOk result (take written.new text.new ≡ head_text names.now) }
    ensures why { IfErr result (λ why. (shapes : List ProcessShapeValue) → names.now ≡ names_of shapes → IsCauseOfUnopened shapes (length text.old) why) }
{
    if text.len() < TEXT_ROOM {
        return Err(Unopened::NoRoom);
    }
    let Ok(head) = head(alloc, names) else {
        return Err(Unopened::NoMemory);
    };
    if text.len() < head.len() {
        return Err(Unopened::NoRoom);
    }
    put_bytes(text, head.slice());
    *written = head.len();
    Ok(())
}
