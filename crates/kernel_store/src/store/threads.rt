//! Threads: what they wait for, the doors that they are bound to, and how they and their processes end.
ghost use Rattle.std.specs.Prelude.{◌≡◌, ◌+◌, ◌≤◌, false, true, is_some, IfOk, OnErr, OnOk};
ghost use Rattle.law_calls.specs.Words.{is_calling};
ghost use Rattle.law_states.specs.Core.{is_outside};
ghost use Rattle.spec_records.specs.Words.{bind_thread, close_table, end_owner, end_process, leaving_of, unbind_thread, with_table};
ghost use Rattle.spec_kernel.specs.Words.{bound_of, forget, is_running, leave, state_of, table_of, with_state};
ghost use Rattle.dk_base.specs.declared.limits.TheConstants.{DESCRIPTORS_MAX};
ghost use Rattle.kernel_holdings.specs.Words.{TRANSIT_MAX};
ghost use Rattle.kernel_store.specs.Forking.{KeepsDormant};
ghost use Rattle.kernel_store.specs.Frames.{AreItsDoors, CanLeave, IsDeclared, FillsNoPool, FillsNoQueue, IsActive, KeepsForNotices, KeepsPools, ParksAgain};
ghost use Rattle.kernel_store.specs.Stored.{stored_state};

use crate::leaving::{held_items, leave_notices};
use crate::paths::note_turn;
use crate::ports::{find_ended, has_port, note_references, note_wait};
use crate::sets::set_of;
use crate::store::Store;
use dk_base::error::NoMemory;
use dk_base::list::DoorList;
use dk_base::number::{Pid, Tid};
use dk_base::thread_set::ThreadSet;
use spec_records::leaving::Leaver;
use spec_records::record::ThreadState;
use std::alloc::Global;

impl Store {
    /// A thread turns to another state. In both it takes turns or waits, but for no item and for no call.
    pub fn turn(&mut self, t: Tid, state: ThreadState)
        requires active { IsActive (state_of (stored_state self.old) t.0) }
        requires to_inside { is_outside state ≡ false }
        requires to_not_calling { is_calling state ≡ false }
        ensures state { stored_state self.new ≡ with_state (stored_state self.old) t.0 state }
        ensures keeps { KeepsPools self.old self.new }
        ensures left { self.new.left ≡ self.old.left }
    {
        let _threads = self.processes.thread_count();
        note_turn(&mut self.named, self.held.names(), t, &state);
        note_wait(&mut self.ended, &self.held, &self.ports, t, &state);
        self.processes.turn(t, state)
    }

    /// A thread that runs is bound to a door, where door_bind(3C) is not refused.
    pub fn bind(&mut self, t: Tid, d: u32)
        requires { is_running (stored_state self.old) t.0 ≡ true }
        ensures state { stored_state self.new ≡ record (stored_state self.old) { bindings = bind_thread (stored_state self.old).bindings t.0 d } }
        ensures keeps { FillsNoPool self.old self.new }
    {
        self.pools.bind(t, d);
    }

    /// A thread that runs and is bound to a door is bound to none (door_unbind(3C)).
    pub fn unbind(&mut self, t: Tid)
        requires running { is_running (stored_state self.old) t.0 ≡ true }
        requires bound { is_some (bound_of (stored_state self.old) t.0) ≡ true }
        ensures state { stored_state self.new ≡ record (stored_state self.old) { bindings = unbind_thread (stored_state self.old).bindings t.0 } }
        ensures keeps { FillsNoPool self.old self.new }
    {
        self.pools.drop_binding(t);
    }

    // ends

    /// The doors of a process that ends at which something may wait.
    fn lost_doors(&self, alloc: Global, who: Leaver) -> Result<DoorList, NoMemory>
        ensures { IfOk result (AreItsDoors who (stored_state self.now)) }
    {
        match who {
            Leaver::EndedProcess { process } => self.doors.owned(alloc, process),
            _ => Ok(DoorList::new(alloc)),
        }
    }

    /// Callers are interrupted, threads end and doors are lost, of which it is told: the calls and notices that wait no longer leave
    /// their pools, threads end or are parked again, or learn that their callers have left, and calls and notices end. Answers which
    /// are parked again. Want of memory leaves all as it was.
    pub fn leave(&mut self, alloc: Global, who: Leaver) -> Result<ThreadSet, NoMemory>
        requires can { CanLeave self.old }
        requires declared { IsDeclared who (stored_state self.old) }
        ensures state { OnOk result (stored_state self.new ≡ forget (leave (stored_state self.old) (leaving_of (stored_state self.old).process_table (stored_state self.old).doors who))) }
        ensures keeps { OnOk result (KeepsForNotices self.old self.new) }
        ensures queues { FillsNoQueue self.old self.new }
        ensures parked { IfOk result (λ parked. ParksAgain parked self.old self.new) }
        ensures left { OnOk result (self.old.left ≤ self.new.left + TRANSIT_MAX) }
        ensures dormant { OnOk result (KeepsDormant (leaving_of (stored_state self.old).process_table (stored_state self.old).doors who) (stored_state self.old) (stored_state self.new)) }
        ensures as_before { OnErr result (stored_state self.new ≡ stored_state self.old) }
        ensures fills { OnErr result (FillsNoPool self.old self.new) }
    {
        let lost = self.lost_doors(alloc, who)?;
        let had = held_items(alloc, &self.processes, who)?;
        self.held.calls().are_sound();
        let left = self.held.leave(
            alloc,
            who,
            &mut self.processes,
            &mut self.pools,
            &self.doors,
            lost.slice(),
            self.events + 1,
        )?;
        self.latest = self.events + 1;
        leave_notices(
            &mut self.notices,
            who,
            left.untaken.slice(),
            had.slice(),
            &self.processes,
            &self.doors,
        );
        let _threads = self.processes.thread_count();
        note_references(
            &mut self.ended,
            has_port(left.dropped.slice()),
            &self.processes,
            &self.held,
            &self.ports,
        );
        Ok(set_of(left.parked.slice()))
    }

    /// A process that has no thread left has ended: its descriptors are closed, and its doors are invalid.
    pub fn end_process(&mut self, p: Pid)
        requires { DESCRIPTORS_MAX ≤ self.old.left }
        ensures state { stored_state self.new ≡ record (stored_state self.old) { process_table = end_process (stored_state self.old).process_table p.0; tables = with_table (stored_state self.old).tables p.0 (close_table (table_of (stored_state self.old) p.0)); doors = end_owner (stored_state self.old).doors p.0 } }
        ensures keeps { KeepsPools self.old self.new }
    {
        self.processes.end_process(p);
        self.held.close_all(p);
        self.doors.owner_ended(p);
        self.ended = find_ended(&self.processes, &self.held, &self.ports);
    }
}
