//! Which threads became idle, and whose calls can be collected anew: what was so before threads leave, compared with what is so after it.
ghost use Rattle.std.specs.Prelude.{◌≡◌, ℕ, ◌<◌, ◌≤◌, ◌&&◌, ◌==◌, Bool, [], IfOk, not};
ghost use Rattle.dk_base.specs.declared.limits.TheConstants.{THREADS_MAX};
ghost use Rattle.spec_records.specs.Words.{is_idle};
ghost use Rattle.exit_paths.specs.Exits.{is_idle_at, threads_where};
ghost use Rattle.dk_base.specs.Words.{has};

use dk_base::error::NoMemory;
use dk_base::limits::THREADS_MAX;
use dk_base::list::{Room, TidList};
use dk_base::number::Tid;
use dk_base::thread_set::ThreadSet;
use proc_table::procs::Procs;
use spec_records::record::ThreadState;
use std::alloc::Global;

fn is_idle(state: &ThreadState) -> bool
    ensures { result ≡ is_idle state.now }
{
    matches!(state, ThreadState::Idle { .. })
}

pub fn is_idle_thread(procs: &Procs, t: Tid) -> bool
    ensures { result ≡ is_idle_at procs.now t.0 }
{
    is_idle(procs.state(t))
}

/// Room for all threads.
pub fn room_for_all(alloc: Global) -> Result<Room<Tid>, NoMemory>
    ensures empty { IfOk result (λ room. room.items ≡ []) }
    ensures spare { IfOk result (λ room. THREADS_MAX ≤ room.spare) }
{
    Room::with_room(alloc, THREADS_MAX as usize)
}

/// Whether this is so now and was not before.
pub fn has_turned(was: bool, is: bool) -> bool
    ensures { result ≡ (not was && is) }
{
    !was && is
}

/// Room for one thread.
pub fn room_for_one(alloc: Global) -> Result<Room<Tid>, NoMemory>
    ensures empty { IfOk result (λ room. room.items ≡ []) }
    ensures spare { IfOk result (λ room. 0 < room.spare) }
{
    Room::with_room(alloc, 1)
}

/// The threads of a set that are not in an earlier one, in order of number. It takes no memory.
pub fn list_new(mut room: Room<Tid>, before: ThreadSet, after: ThreadSet) -> TidList
    requires empty { room.items ≡ [] }
    requires spare { THREADS_MAX ≤ room.spare }
    ensures { (was is : ℕ → Bool) → ((t : ℕ) → has before t ≡ was t) → ((t : ℕ) → has after t ≡ is t) → result ≡ threads_where (λ t. not (was t) && is t) }
{
    after.without(before).list(&mut room);
    room.into_list()
}

/// A thread alone, if it is to be told, and it is one. It takes no memory.
pub fn list_one(mut room: Room<Tid>, t: Tid, listed: bool) -> TidList
    requires empty { room.items ≡ [] }
    requires spare { 0 < room.spare }
    ensures { result ≡ threads_where (λ k. (k == t.0) && listed) }
{
    if !listed {
        return room.into_list();
    }
    if t.0 == 0 {
        return room.into_list();
    }
    if t.0 <= THREADS_MAX {
        room.push(t);
    }
    room.into_list()
}
