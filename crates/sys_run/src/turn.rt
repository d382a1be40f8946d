//! One turn of a thread: its request or the end of its wait, the kernel's step, and the event.
ghost use Rattle.std.specs.Prelude.{◌≡◌, ◌<◌, List, Some, true, IfOk, OnOk, OnErr, vec_len, vec_capacity};
ghost use Rattle.spec_kernel.specs.Types.{Event as EventValue};
ghost use Rattle.spec_kernel.specs.Words.{IsStep, StandsFor, State, is_running, step, what_of, what_of_entry};
ghost use Rattle.spec_events.specs.Words.{with_output};
ghost use Rattle.spec_requests.specs.Words.{Frame, request_of};
ghost use Rattle.thread_machine.specs.Words.{HasRoomForAnswer, IsMachine, Stands};
ghost use Rattle.sys_run.specs.NameTables.{HasTables};
ghost use Rattle.sys_run.specs.Sys.{asked_in, with_journal, state_of_run, with_turn, threads_woken_by, MachineStands};
ghost use Rattle.sys_run.specs.TurnRequests.{HasReplied, MayReply, MayTake, RepliedTo, request_if_running};
ghost use Rattle.sys_run.specs.Turns.{CanTurn, HasTurned};

use crate::name_tables::NameTables;
use dk_base::answer::Answer;
use dk_base::error::NoMemory;
use dk_base::event::{Event, Stepped, What};
use dk_base::list::{Bytes, TidList};
use dk_base::number::Tid;
use kernel_core::kernel::Kernel;
use script_lang::script::Script;
use spec_kernel::what;
use std::alloc::Global;
use thread_machine::machine::Machine;

/// The kernel's step for the next request of a thread that runs, what it is, and what the table of its process replies, where this is
/// asked a line. The kernel comes last, and never wants memory for such a request: so want of memory leaves both as they were.
fn enter(
    alloc: Global,
    script: &Script,
    kernel: &mut Kernel,
    machine: &Machine,
    tables: &mut NameTables,
    t: Tid,
) -> Result<(What, Stepped, Option<Bytes>), NoMemory>
    requires running { is_running kernel.old t.0 ≡ true }
    requires machine { IsMachine script.now machine.now }
    requires may { MayTake script.now kernel.old machine.now t.0 }
    requires tables { MayReply script.now tables.old t.0 }
    ensures what { IfOk result (λ x. (f : Frame) → Stands script.now machine.now f → x.0 ≡ what_of_entry (request_of f)) }
    ensures step { IfOk result (λ x. (m : State) (f : Frame) → StandsFor kernel.old m → Stands script.now machine.now f → IsStep (step m t.0 (Some (request_of f))) kernel.new x.1) }
    ensures replied { IfOk result (λ x. (f : Frame) → Stands script.now machine.now f → RepliedTo script.now t.0 (request_of f) tables.old x.2 tables.new) }
    ensures kernel_err { OnErr result (kernel.new ≡ kernel.old) }
    ensures tables_err { OnErr result (tables.new ≡ tables.old) }
{
    let request = machine.next(alloc, script)?;
    let what = what::of_entry(&request);
    let reply = tables.reply(script.process_of(t), &request)?;
    let stepped = kernel.enter(t, request)?;
    Ok((what, stepped, reply))
}

/// The kernel's step for a turn, and what it is: an entry with the machine's next request where the thread runs, with what the table of
/// its process replies, else the end of its wait. Want of memory leaves kernel and tables as they were.
fn step(
    alloc: Global,
    script: &Script,
    kernel: &mut Kernel,
    machine: &Machine,
    tables: &mut NameTables,
    t: Tid,
) -> Result<(What, Stepped, Option<Bytes>), NoMemory>
    requires machine { IsMachine script.now machine.now }
    requires may { MayTake script.now kernel.old machine.now t.0 }
    requires tables { MayReply script.now tables.old t.0 }
    ensures what { IfOk result (λ x. (m : State) (f : Frame) → StandsFor kernel.old m → Stands script.now machine.now f → x.0 ≡ what_of m t.0 (request_if_running m t.0 f)) }
    ensures step { IfOk result (λ x. (m : State) (f : Frame) → StandsFor kernel.old m → Stands script.now machine.now f → IsStep (step m t.0 (request_if_running m t.0 f)) kernel.new x.1) }
    ensures replied { IfOk result (λ x. (m : State) (f : Frame) → StandsFor kernel.old m → Stands script.now machine.now f → HasReplied script.now t.0 (request_if_running m t.0 f) tables.old x.2 tables.new) }
    ensures kernel_err { OnErr result (kernel.new ≡ kernel.old) }
    ensures tables_err { OnErr result (tables.new ≡ tables.old) }
{
    if kernel.is_running(t) {
        enter(alloc, script, kernel, machine, tables, t)
    } else {
        let what = what::of_wait(kernel.state(t));
        let stepped = kernel.go_on(t)?;
        Ok((what, stepped, None))
    }
}

/// A step with these bytes, where there are some, as its answer: those of a task, or of a reply.
fn with_output(stepped: Stepped, output: Option<Bytes>) -> Stepped
    ensures answer { result.answer ≡ with_output output stepped.answer }
    ensures woken { result.woken ≡ stepped.woken }
{
    match output {
        Some(bytes) => Stepped {
            answer: Answer::Data { bytes },
            woken: stepped.woken,
        },
        None => stepped,
    }
}

/// What a turn gives: its event, and in order the threads that were not runnable before and are now.
#[derive(Drop)]
pub(crate) struct Turned {
    pub event: Event,
    pub woken: TidList,
}

/// One turn of a thread, with the bytes of its task where it ends one: its event, and the threads that it wakes. Want of memory leaves
/// kernel, machine and tables as they were.
pub(crate) fn turn(
    alloc: Global,
    script: &Script,
    kernel: &mut Kernel,
    machine: &mut Machine,
    tables: &mut NameTables,
    t: Tid,
    output: Option<Bytes>,
) -> Result<Turned, NoMemory>
    requires machine_room { HasRoomForAnswer machine.old }
    requires can { (es : List EventValue) × CanTurn script.now es kernel.old machine.old tables.old t.0 output }
    ensures turned { IfOk result (λ x. (es : List EventValue) → CanTurn script.now es kernel.old machine.old tables.old t.0 output → HasTurned script.now es t.0 x kernel.new machine.new tables.new) }
    ensures kernel_err { OnErr result (kernel.new ≡ kernel.old) }
    ensures machine_err { OnErr result (machine.new ≡ machine.old) }
    ensures tables_err { OnErr result (tables.new ≡ tables.old) }
{
    let root = kernel.root(t);
    let number = kernel.events() as u32 + 1;
    let (what, stepped, reply) = step(alloc, script, kernel, machine, tables, t)?;
    let done = with_output(stepped, output);
    let shown = with_output(done, reply);
    let Stepped { answer, woken } = shown;
    machine.take(script, &answer);
    Ok(Turned {
        event: Event {
            number,
            thread: t,
            root,
            what,
            answer,
        },
        woken,
    })
}

/// The same, for which the machine gets room first. Want of memory leaves the kernel and the tables as they were, and the machine where
/// it stood.
pub(crate) fn turn_with_room(
    alloc: Global,
    script: &Script,
    kernel: &mut Kernel,
    machine: &mut Machine,
    tables: &mut NameTables,
    t: Tid,
    output: Option<Bytes>,
) -> Result<Turned, NoMemory>
    requires { (es : List EventValue) × CanTurn script.now es kernel.old machine.old tables.old t.0 output }
    ensures turned { IfOk result (λ x. (es : List EventValue) → CanTurn script.now es kernel.old machine.old tables.old t.0 output → HasTurned script.now es t.0 x kernel.new machine.new tables.new) }
    ensures kernel_err { OnErr result (kernel.new ≡ kernel.old) }
    ensures tables_err { OnErr result (tables.new ≡ tables.old) }
    ensures machine_err { OnErr result ((es : List EventValue) → MachineStands script.now es t.0 machine.old → MachineStands script.now es t.0 machine.new) }
{
    machine.make_room(alloc)?;
    turn(alloc, script, kernel, machine, tables, t, output)
}

/// One turn of a thread, with the bytes of its task where it ends one. Exactly its event is appended; answers the threads that it wakes.
/// Want of memory leaves the kernel, the tables and the journal as they were, and the machine where it stood.
pub(crate) fn take_turn(
    alloc: Global,
    script: &Script,
    kernel: &mut Kernel,
    machine: &mut Machine,
    tables: &mut NameTables,
    journal: &mut Vec<Event>,
    t: Tid,
    output: Option<Bytes>,
) -> Result<TidList, NoMemory>
    requires { CanTurn script.now journal.old.items kernel.old machine.old tables.old t.0 output }
    ensures journal { OnOk result (with_journal script.now journal.new.items ≡ with_turn (with_journal script.now journal.old.items) t.0) }
    ensures kernel { OnOk result (StandsFor kernel.new (state_of_run (with_turn (with_journal script.now journal.old.items) t.0))) }
    ensures machine { MachineStands script.now journal.new.items t.0 machine.new }
    ensures tables { OnOk result (HasTables script.now (asked_in (with_turn (with_journal script.now journal.old.items) t.0)) tables.new) }
    ensures woken { IfOk result (λ woken. woken ≡ threads_woken_by (with_journal script.now journal.old.items) t.0) }
    ensures journal_err { OnErr result (journal.new.items ≡ journal.old.items) }
    ensures kernel_err { OnErr result (kernel.new ≡ kernel.old) }
    ensures tables_err { OnErr result (tables.new ≡ tables.old) }
{
    make_room(journal)?;
    let turned = turn_with_room(alloc, script, kernel, machine, tables, t, output)?;
    journal.push_reserved(turned.event);
    Ok(turned.woken)
}

fn make_room(journal: &mut Vec<Event>) -> Result<(), NoMemory>
    ensures items { journal.new.items ≡ journal.old.items }
    ensures room { OnOk result (vec_len journal.new < vec_capacity journal.new) }
{
    match journal.reserve(1) {
        Ok(()) => Ok(()),
        Err(_) => Err(NoMemory),
    }
}
