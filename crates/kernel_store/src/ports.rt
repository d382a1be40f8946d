//! Which threads wait at a port, so that their wait can end.
ghost use Rattle.std.specs.Prelude.{◌≡◌, ◌≢◌, ◌<◌, ◌≤◌, ℕ, List, false, true};
ghost use Rattle.std.specs.List.{list_any};
ghost use Rattle.std.specs.Option.{option_to_list};
ghost use Rattle.dk_base.specs.declared.limits.TheConstants.{THREADS_MAX};
ghost use Rattle.dk_base.specs.declared.object.Obj.TheVariants as obj;
ghost use Rattle.spec_records.specs.Words.{Port, object_named, state_in, table_in, thread_at};
ghost use Rattle.kernel_holdings.specs.Words.{HoldingsValue, references_of, results_in};
ghost use Rattle.dk_base.specs.Words.{has};
ghost use Rattle.kernel_store.specs.Turning.{IsSamePort, KnowsPorts, has_ended_at, is_port, waits_at};

use call_tree::parts::Outcome;
use dk_base::number::{Fd, Pid, Tid};
use dk_base::object::Obj;
use dk_base::thread_set::ThreadSet;
use kernel_holdings::holdings::Holdings;
use kernel_ports::ports::AssociatedPorts;
use proc_table::procs::Procs;
use spec_records::record::ThreadState;

/// Whether a thread at this waits at a port, was not interrupted, and its wait can end.
fn has_ended(held: &Holdings, ports: &AssociatedPorts, state: &ThreadState) -> bool
    ensures { result ≡ has_ended_at held.now ports.now.ports.ports state.now }
{
    match state {
        ThreadState::Getting {
            port,
            nget,
            interrupted,
            ..
        } => {
            !interrupted
                && (held.references_to(Obj::Port(*port)) == 0
                    || ports.ports().ready_for(*port, *nget))
        }
        _ => false,
    }
}

/// The threads that wait at a port, were not interrupted, and whose wait can end. Only the threads are asked that wait at ports.
pub fn find_ended(processes: &Procs, held: &Holdings, ports: &AssociatedPorts) -> ThreadSet
    ensures { (t : ℕ) → has result t ≡ has_ended_at held.now ports.now.ports.ports (state_in (thread_at processes.now t)) }
{
    let mut ended = ThreadSet::new();
    let mut rest = processes.getting();
    while let Some(t) = rest.least() {
        rest.put(t, false);
        ended.put(t, has_ended(held, ports, processes.state(t)));
    }
    ended
}

/// A thread turns to another state, and no port or reference changes.
pub fn note_wait(
    ended: &mut ThreadSet,
    held: &Holdings,
    ports: &AssociatedPorts,
    t: Tid,
    state: &ThreadState,
)
    requires { (0 < t.0) × (t.0 ≤ THREADS_MAX) }
    ensures here { has ended.new t.0 ≡ has_ended_at held.now ports.now.ports.ports state.now }
    ensures others { (u : ℕ) → u ≢ t.0 → has ended.new u ≡ has ended.old u }
{
    ended.put(t, has_ended(held, ports, state));
}

/// Whether a thread at this waits at this port, and was not interrupted.
fn waits_at(q: u32, state: &ThreadState) -> bool
    ensures { result ≡ waits_at q state.now }
{
    match state {
        ThreadState::Getting {
            port,
            interrupted,
            ..
        } => !interrupted && *port == q,
        _ => false,
    }
}

/// A thread is asked whether its wait can end, if it waits at this port.
fn ask_at(
    ended: &mut ThreadSet,
    q: u32,
    processes: &Procs,
    held: &Holdings,
    ports: &AssociatedPorts,
    t: Tid,
)
    requires { (0 < t.0) × (t.0 ≤ THREADS_MAX) }
    ensures asked { waits_at q (state_in (thread_at processes.now t.0)) ≡ true → has ended.new t.0 ≡ has_ended_at held.now ports.now.ports.ports (state_in (thread_at processes.now t.0)) }
    ensures not_asked { waits_at q (state_in (thread_at processes.now t.0)) ≡ false → has ended.new t.0 ≡ has ended.old t.0 }
    ensures others { (u : ℕ) → u ≢ t.0 → has ended.new u ≡ has ended.old u }
{
    let state = processes.state(t);
    if waits_at(q, state) {
        ended.put(t, has_ended(held, ports, state));
    }
}

/// A port changes, or what refers to it: of the threads that wait at it, those whose wait can end. No other thread is asked.
pub fn note_port(
    ended: &mut ThreadSet,
    q: u32,
    processes: &Procs,
    held: &Holdings,
    ports: &AssociatedPorts,
)
    ensures { (had : HoldingsValue) (before : List Port) → ((p : ℕ) → p ≢ q → IsSamePort p had before held.now ports.now.ports.ports) → KnowsPorts processes.now had before ended.old → KnowsPorts processes.now held.now ports.now.ports.ports ended.new }
{
    let mut rest = processes.getting();
    while let Some(t) = rest.least() {
        rest.put(t, false);
        ask_at(ended, q, processes, held, ports, t);
    }
}

// which references are of a port

pub fn is_port(object: Obj) -> bool
    ensures { result ≡ is_port object }
{
    matches!(object, Obj::Port(_))
}

/// Whether a port is among these objects.
pub fn has_port(objects: &[Obj]) -> bool
    ensures { result ≡ list_any is_port objects.now }
{
    objects.iter().any(|object| is_port(*object))
}

/// Whether a port is among the results of a call.
pub fn have_port(outcome: &Outcome) -> bool
    ensures { result ≡ list_any is_port (results_in outcome.now) }
{
    match outcome {
        Outcome::Results { objects, .. } => has_port(objects.slice()),
        Outcome::Ended(_) => false,
    }
}

/// Whether a descriptor of a process names a port.
pub fn names_port(held: &Holdings, p: Pid, fd: Fd) -> bool
    ensures { result ≡ list_any is_port (option_to_list (object_named (table_in held.now.tables p.0) fd)) }
{
    match held.object_at(p, fd) {
        Some(object) => is_port(object),
        None => false,
    }
}

/// References came or went, none of a port unless this says so. Then the threads are asked that wait at ports, and else none.
pub fn note_references(
    ended: &mut ThreadSet,
    of_port: bool,
    processes: &Procs,
    held: &Holdings,
    ports: &AssociatedPorts,
)
    ensures { (before : HoldingsValue) → (of_port ≡ false → (q : ℕ) → references_of held.now (obj.Port q) ≡ references_of before (obj.Port q)) → KnowsPorts processes.now before ports.now.ports.ports ended.old → KnowsPorts processes.now held.now ports.now.ports.ports ended.new }
{
    if of_port {
        *ended = find_ended(processes, held, ports);
    }
}

/// Ports were told: associations fired, or ended and had their events withdrawn. Where this says that none was, no port changed, and
/// no thread that waits at a port is asked.
pub fn note_told(
    ended: &mut ThreadSet,
    told: bool,
    processes: &Procs,
    held: &Holdings,
    ports: &AssociatedPorts,
)
    ensures { (before : List Port) → (told ≡ false → ports.now.ports.ports ≡ before) → KnowsPorts processes.now held.now before ended.old → KnowsPorts processes.now held.now ports.now.ports.ports ended.new }
{
    if told {
        *ended = find_ended(processes, held, ports);
    }
}
