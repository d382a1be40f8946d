//! Child processes: their making, and how they begin (fork(2)).
ghost use Rattle.std.specs.Prelude.{◌≡◌, ◌<◌, ◌≤◌, ℕ, [], length, IfOk, OnErr, OnOk};
ghost use Rattle.dk_base.specs.declared.limits.TheConstants.{DESCRIPTORS_MAX};
ghost use Rattle.spec_records.specs.Words.{begin_process, objects_of, with_table};
ghost use Rattle.spec_kernel.specs.Words.{forget, fork, table_of, with_child};
ghost use Rattle.spec_kernel.specs.Leaving.{bindings_after_fork};
ghost use Rattle.kernel_store.specs.Forking.{AreDormant, HasSamePools, MayBegin};
ghost use Rattle.kernel_store.specs.Frames.{CanLeave, FillsNoPool, FillsNoQueue, IsAtRest, KeepsForNotices, KeepsPools, ParksAgain};
ghost use Rattle.kernel_store.specs.Stored.{stored_state};

use crate::beginning::withdraw_firsts;
use crate::ports::{has_port, note_references};
use crate::store::Store;
use dk_base::error::NoMemory;
use dk_base::limits::DESCRIPTORS_MAX;
use dk_base::list::Room;
use dk_base::number::{Pid, Tid};
use dk_base::object::Obj;
use dk_base::thread_set::ThreadSet;
use fork_step::forking::fork_binding;
use spec_records::leaving::Leaver;
use std::alloc::Global;

impl Store {
    /// A process is a child of another, and has not begun.
    pub fn make_child(&mut self, child: Pid, parent: Pid)
        ensures state { stored_state self.new ≡ with_child (stored_state self.old) child.0 parent.0 }
        ensures rest { (n : ℕ) → IsAtRest n self.old → IsAtRest n self.new }
    {
        self.processes.make_child(child, parent);
    }

    /// A child process begins: its threads run that are no spares, and are none in the pools. Where the thread that forks is bound to a
    /// door, the first of them is bound to the one that is lost.
    fn begin(&mut self, t: Tid, child: Pid)
        requires { AreDormant child.0 (stored_state self.old) }
        ensures state { stored_state self.new ≡ record (stored_state self.old) { process_table = begin_process (stored_state self.old).process_table child.0; bindings = bindings_after_fork (stored_state self.old) t.0 child.0 } }
        ensures pools { HasSamePools self.old self.new }
    {
        let first = self.processes.first_thread(child);
        fork_binding(&mut self.pools, t, first);
        withdraw_firsts(&mut self.pools, &self.processes, child);
        self.processes.begin(child);
    }

    /// A process, which has no descriptor, gets those of one below it, under the same numbers. What they name is handed out. It takes no
    /// memory.
    fn copy_rows(&mut self, parent: Pid, child: Pid, added: &mut Room<Obj>)
        requires order { (1 ≤ parent.0) × (parent.0 < child.0) × (child.0 ≤ length self.old.tables) }
        requires none { objects_of (table_of (stored_state self.old) child.0) ≡ [] }
        requires limits { length (table_of (stored_state self.old) child.0) ≡ length (table_of (stored_state self.old) parent.0) }
        requires empty { added.old.items ≡ [] }
        requires room { DESCRIPTORS_MAX ≤ added.old.spare }
        requires left { DESCRIPTORS_MAX ≤ self.old.left }
        ensures state { stored_state self.new ≡ record (stored_state self.old) { tables = with_table (stored_state self.old).tables child.0 (table_of (stored_state self.old) parent.0) } }
        ensures keeps { KeepsPools self.old self.new }
    {
        self.held.copy_rows(parent, child, added);
        note_references(
            &mut self.ended,
            has_port(added.slice()),
            &self.processes,
            &self.held,
            &self.ports,
        );
    }

    /// A child of a process begins: the calls of the other threads of the thread's process are interrupted, and the child has the
    /// descriptors of its parent. Answers which threads are parked again. Want of memory leaves all as it was.
    pub fn fork(&mut self, alloc: Global, t: Tid, p: Pid, child: Pid) -> Result<ThreadSet, NoMemory>
        requires can { CanLeave self.old }
        requires may { MayBegin p.0 child.0 (stored_state self.old) }
        ensures state { OnOk result (stored_state self.new ≡ forget (fork (stored_state self.old) t.0 p.0 child.0).state) }
        ensures keeps { OnOk result (KeepsForNotices self.old self.new) }
        ensures queues { FillsNoQueue self.old self.new }
        ensures parked { IfOk result (λ parked. ParksAgain parked self.old self.new) }
        ensures as_before { OnErr result (stored_state self.new ≡ stored_state self.old) }
        ensures fills { OnErr result (FillsNoPool self.old self.new) }
    {
        let mut added = Room::with_room(alloc, DESCRIPTORS_MAX as usize)?;
        let parked = self.leave(alloc, Leaver::Forked { thread: t })?;
        self.begin(t, child);
        self.copy_rows(p, child, &mut added);
        Ok(parked)
    }
}
