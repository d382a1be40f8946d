//! The lock, with a condition variable for each driver.
ghost use Rattle.std.specs.Prelude.{◌≡◌, ◌≤◌, [], length, IfOk};

use crate::running::Running;
use crate::running::looks::AllIdle;
use crate::turns::ToNotify;
use dk_base::error::NoMemory;
use dk_base::list::{Room, Sequence};
use dk_base::number::Tid;
use std::alloc::Global;
use std::sync::ledger::{Book, Ledger};
use std::sync::{Condvar, Mutex};
use sys_run::asked::SharedRun;

/// What all drivers share: the run under its lock, and a condition variable for each driver.
#[derive(Drop)]
pub struct Shared<S: SharedRun, L: Ledger> {
    /// Where drivers have the memory for what they compute without the lock.
    pub(crate) alloc: Global,
    pub(crate) running: Mutex<Running<S, L>>,
    /// Where the calling thread waits.
    calling: Condvar,
    /// Where the drivers of the script's threads wait, in order.
    condvars: Sequence<Condvar>,
}

/// A condition variable for each thread, in room that was taken before. It takes no memory.
fn fill_with_condvars(mut room: Room<Condvar>, threads: u32) -> Sequence<Condvar>
    requires empty { room.items ≡ [] }
    requires room { threads ≤ room.spare }
    ensures { length result ≡ threads }
{
    for _ in 0..threads {
        room.push(Condvar::new());
    }
    room.into_list()
}

fn condvars(alloc: Global, threads: u32) -> Result<Sequence<Condvar>, NoMemory>
    ensures { IfOk result (λ condvars. length condvars ≡ threads) }
{
    let room = Room::with_room(alloc, threads as usize)?;
    Ok(fill_with_condvars(room, threads))
}

impl<S: SharedRun, L: Ledger> Shared<S, L> {
    /// A run under its lock, with a condition variable for each of its threads, and room for a mark for each thread whose start is
    /// refused. Want of memory drops the run.
    pub fn new(alloc: Global, sys: S, book: Book<L>) -> Result<Self, NoMemory>
        requires { book.total ≡ length (S.run sys).journal }
        ensures { IfOk result (λ shared. length shared.condvars ≡ length (S.run sys).script.threads) }
    {
        let threads = sys.threads();
        let condvars = condvars(alloc, threads)?;
        let Ok(refused) = Vec::with_capacity(alloc, threads as usize) else {
            return Err(NoMemory);
        };
        Ok(Shared {
            alloc,
            running: Mutex::new(Running::new(sys, refused, book)),
            calling: Condvar::new(),
            condvars,
        })
    }

    /// What lay under the lock.
    pub(crate) fn into_running(self) -> Running<S, L> {
        let Shared {
            alloc: _,
            running,
            calling: _,
            condvars: _,
        } = self;
        running.into_inner()
    }

    /// Where a thread's driver waits. For a number that the script does not declare it is where the calling thread waits, who is
    /// notified at the end.
    pub(crate) fn condvar(&self, t: Tid) -> &Condvar {
        match self.condvars.slice().get((t.0 as usize).wrapping_sub(1)) {
            Some(condvar) => condvar,
            None => &self.calling,
        }
    }

    /// Where the calling thread waits, once, since no thread that it drives was runnable.
    pub(crate) fn calling(&self, idle: AllIdle<S>) -> &Condvar {
        drop(idle);
        &self.calling
    }

    /// Notifies those whose threads a turn woke, or all at the end of the run.
    pub(crate) fn notify(&self, whom: &ToNotify) {
        if whom.over {
            return self.notify_all();
        }
        if whom.calling {
            self.calling.notify_one();
        }
        for t in whom.woken.slice() {
            self.condvar(*t).notify_one();
        }
    }

    /// Notifies all.
    pub(crate) fn notify_all(&self) {
        self.calling.notify_all();
        for condvar in self.condvars.slice() {
            condvar.notify_all();
        }
    }
}
