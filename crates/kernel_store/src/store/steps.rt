//! The processes and threads of the opening, the memory that an event can need, and where its step begins and ends.
ghost use Rattle.std.specs.Prelude.{◌≡◌, ◌||◌, ℕ, ◌+◌, ◌<◌, ◌≤◌, ◌++◌, ◌∷◌, [], Bool, List, filter, length, true, IfOk, OnOk, OnErr};
ghost use Rattle.dk_base.specs.declared.limits.TheConstants.{DESCRIPTORS_MAX, PROCESSES_MAX, THREADS_MAX, EVENTS_MAX};
ghost use Rattle.dk_base.specs.declared.object.Obj.{Obj};
ghost use Rattle.spec_kernel.specs.Types.{Pool};
ghost use Rattle.spec_records.specs.declared.pool.Pool.TheVariants as pool;
ghost use Rattle.spec_records.specs.Words.{empty_table, new_process, notice_doors, pid};
ghost use Rattle.spec_kernel.specs.Words.{is_live_process, is_unborn_process, with_event_counted, with_new_process, with_new_thread};
ghost use Rattle.server_pool.specs.Words.{empty_pool};
ghost use Rattle.unref_notice.specs.Words.{was_shared};
ghost use Rattle.unref_notice.specs.declared.counts.TheConstants.{STEP_MAX};
ghost use Rattle.kernel_holdings.specs.Words.{ChangesOnly, references_of};
ghost use Rattle.unref_notice.specs.declared.notices.TheConstants.{NOTICES_MAX};
ghost use Rattle.kernel_store.specs.Frames.{FillsNoPool, IsAtRest, KeepsPools};
ghost use Rattle.kernel_store.specs.Stored.{ArePlaced, HasBegun, HasRoom, HasRoomForNotices, HasWholeStep, has_fallen_since, stored_state};

use crate::beginning::{add_thread, begins_dormant};
use crate::notices::renew_room;
use crate::store::Store;
use dk_base::error::NoMemory;
use dk_base::list::Room;
use dk_base::number::{Pid, Tid};
use kernel_holdings::holdings::Holdings;
use proc_table::procs::Procs;
use server_pool::pools::Pools;
use spec_records::pool::Pool;
use std::alloc::Global;
use unref_notice::counts::STEP_MAX;

/// Another process, under the next number, in all that is kept of processes. Want of memory leaves what the caller lets go.
fn add_process(
    alloc: Global,
    limit: u32,
    held: &mut Holdings,
    processes: &mut Procs,
    pools: &mut Pools,
    short: &mut Room<Pool>,
) -> Result<(), NoMemory>
    requires few { length processes.old.processes < PROCESSES_MAX }
    requires tables { length held.old.tables < PROCESSES_MAX }
    requires limit { limit ≤ DESCRIPTORS_MAX }
    ensures held { OnOk result (held.new ≡ record (held.old) { tables = held.old.tables ++ empty_table limit ∷ [] }) }
    ensures references { (o : Obj) → references_of held.new o ≤ references_of held.old o }
    ensures others { ChangesOnly [] held.old held.new }
    ensures processes { OnOk result (processes.new ≡ record (processes.old) { processes = processes.old.processes ++ new_process (length processes.old.processes + 1) limit ∷ [] }) }
    ensures pools { OnOk result (pools.new ≡ record (pools.old) { common = pools.old.common ++ empty_pool ∷ []; spares = pools.old.spares ++ [] ∷ [] }) }
    ensures short { OnOk result (short.new.items ≡ short.old.items ++ pool.Common (pid (length processes.old.processes + 1)) ∷ []) }
{
    held.add_table(alloc, limit)?;
    short.reserve(1)?;
    let Ok(number) = processes.add_proc(limit) else {
        return Err(NoMemory);
    };
    pools.add_process()?;
    short.push(Pool::Common(number));
    Ok(())
}

impl Store {
    // before the first event

    /// Another process, under the next number. Want of memory lets the store go.
    pub fn with_process(mut self, alloc: Global, limit: u32) -> Result<Self, NoMemory>
        requires processes { length self.processes.processes < PROCESSES_MAX }
        requires tables { length self.tables < PROCESSES_MAX }
        requires limit { limit ≤ DESCRIPTORS_MAX }
        ensures state { IfOk result (λ s. stored_state s ≡ with_new_process (stored_state self) limit) }
        ensures rest { IfOk result (λ s. (n : ℕ) → IsAtRest n self → IsAtRest n s) }
    {
        add_process(
            alloc,
            limit,
            &mut self.held,
            &mut self.processes,
            &mut self.pools,
            &mut self.short,
        )?;
        Ok(self)
    }

    /// Another thread of a process that lives, or has not begun, under the next number: one that runs, or one that is Dormant, as a
    /// spare one or one of a process that has not begun. Want of memory changes nothing.
    pub fn add_thread(&mut self, p: Pid, spare: bool) -> Result<Tid, NoMemory>
        requires few { length self.old.processes.threads < THREADS_MAX }
        requires lives { (is_live_process (stored_state self.old) p.0 || is_unborn_process (stored_state self.old) p.0) ≡ true }
        ensures ok { OnOk result (stored_state self.new ≡ with_new_thread (stored_state self.old) p.0 spare) }
        ensures number { IfOk result (λ t. t.0 ≡ length self.old.processes.threads + 1) }
        ensures err { OnErr result (stored_state self.new ≡ stored_state self.old) }
        ensures rest { (n : ℕ) → IsAtRest n self.old → IsAtRest n self.new }
    {
        let number = Tid(self.processes.thread_count() + 1);
        let dormant = begins_dormant(&self.processes, p, spare);
        if dormant {
            self.pools.add_spare(p, number)?;
        }
        if add_thread(&mut self.processes, p, spare).is_ok() {
            return Ok(number);
        }
        if dormant {
            self.pools.take_back(p);
        }
        Err(NoMemory)
    }

    // memory

    /// Takes the memory that an act can need which touches this pool. It changes nothing else.
    pub fn reserve(&mut self, touched: Pool) -> Result<(), NoMemory>
        ensures state { stored_state self.new ≡ stored_state self.old }
        ensures keeps { FillsNoPool self.old self.new }
        ensures left { self.new.left ≡ self.old.left }
        ensures room { OnOk result (HasRoom self.new touched) }
    {
        self.held.reserve()?;
        self.doors.reserve()?;
        self.short.reserve(1)?;
        self.pools.reserve_door()?;
        self.pools.room(touched)
    }

    /// Takes the memory for the notices that an event can make, beside a call of the same event. Only the pools are looked at that were
    /// made or got an item since it was last taken. It changes nothing else.
    pub fn reserve_notices(&mut self) -> Result<(), NoMemory>
        requires { self.old.notices.list.made + STEP_MAX ≤ NOTICES_MAX }
        ensures state { stored_state self.new ≡ stored_state self.old }
        ensures keeps { FillsNoPool self.old self.new }
        ensures left { self.new.left ≡ self.old.left }
        ensures room { OnOk result (HasRoomForNotices self.new) }
        ensures kept { (touched : Pool) → HasRoom self.old touched → HasRoom self.new touched }
    {
        self.notices
            .reserve(self.doors.notice_doors().len().min(STEP_MAX))?;
        renew_room(&mut self.pools, self.short.slice())?;
        self.short.clear();
        self.short.reserve(STEP_MAX + 1)
    }

    // steps

    /// The step begins that an event is: the references that each object has now are those at its beginning. They may come and go in
    /// it as often as in any step, which takes no memory then. Want of memory leaves all else as it was.
    pub fn start_step(&mut self) -> Result<(), NoMemory>
        ensures same { self.new ≡ record (self.old) { opening = self.new.opening; left = self.new.left } }
        ensures opened { HasBegun self.new (stored_state self.old) }
        ensures left { OnOk result (HasWholeStep self.new) }
    {
        self.held.start_step()
    }

    /// The doors that take notices, had more than one reference when the step began, and have one now, in the order of their
    /// numbers, follow what is in `into`. Only the doors are looked at to which references came or went. It takes no memory.
    pub fn end_of_step(&mut self, into: &mut Room<u32>)
        requires placed { ArePlaced (stored_state self.old) }
        requires room { length (filter (was_shared self.old.opening) (notice_doors (stored_state self.old).doors)) ≤ into.old.spare }
        ensures same { self.new ≡ self.old }
        ensures items { into.new.items ≡ into.old.items ++ filter (has_fallen_since self.old.opening (stored_state self.old)) (notice_doors (stored_state self.old).doors) }
        ensures few { length into.new.items ≤ length into.old.items + STEP_MAX }
    {
        self.held.end_of_step(&self.doors, into);
    }

    /// Counts an event.
    pub fn count(&mut self)
        requires { self.old.events < EVENTS_MAX }
        ensures state { stored_state self.new ≡ with_event_counted (stored_state self.old) }
        ensures keeps { KeepsPools self.old self.new }
    {
        self.events += 1;
    }
}
