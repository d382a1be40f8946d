//! Timers of processes on the clock of the kernel, each of which tells a port.
ghost use Rattle.std.specs.Prelude.{◌≡◌, ◌≤◌, ◌<◌, ◌^◌, [], None, OnOk, length};
ghost use Rattle.dk_base.specs.declared.answer.Answer.TheVariants.{Count};
ghost use Rattle.dk_base.specs.declared.limits.TheConstants.{ADVANCE_MAX, CLOCK_MAX, DELAY_MAX, EVENTS_MAX};
ghost use Rattle.spec_records.specs.Words.{create_timer_error, dues, free_id, timer_error};
ghost use Rattle.spec_kernel.specs.Types.{Pool};
ghost use Rattle.spec_kernel.specs.Words.{clock_advanced, timer_created, timer_deleted, timer_set, timers_in, with_channels};
ghost use Rattle.kernel_store.specs.Channels.{HasRoomForTimer};
ghost use Rattle.kernel_store.specs.Frames.{KeepsPools};
ghost use Rattle.kernel_store.specs.Stored.{HasRoom, HasRoomForNotices, stored_state};

use crate::ports::{note_port, note_told};
use crate::store::Store;
use dk_base::error::{Errno, NoMemory};
use dk_base::list::Room;
use dk_base::number::Pid;
use spec_records::timer::Due;

impl Store {
    /// The clock of the timers.
    pub fn clock(&self) -> u64
        ensures { result ≡ (stored_state self.now).channels.timers.clock }
    {
        self.ports.timers().clock()
    }

    /// How many timers there are.
    pub fn timer_count(&self) -> usize
        ensures len { result ≡ length (timers_in (stored_state self.now)) }
        ensures small { result < 2 ^ 63 }
    {
        self.ports.timers().len()
    }

    /// Takes the memory for another timer of a port, and for the event that it queues. It changes nothing else.
    pub fn reserve_timer(&mut self, q: u32) -> Result<(), NoMemory>
        ensures same { self.new ≡ record (self.old) { ports = self.new.ports; timers = self.new.timers } }
        ensures state { stored_state self.new ≡ stored_state self.old }
        ensures keeps { KeepsPools self.old self.new }
        ensures room { OnOk result (HasRoomForTimer self.new q) }
        ensures kept { (touched : Pool) → HasRoom self.old touched → HasRoom self.new touched }
        ensures notices { HasRoomForNotices self.old → HasRoomForNotices self.new }
    {
        self.ports.reserve_timer(q)
    }

    /// Why a process gets no further timer (timer_create(3C)): EAGAIN where it has 32.
    pub fn create_timer_refusal(&self, process: Pid) -> Option<Errno>
        ensures { result ≡ create_timer_error (timers_in (stored_state self.now)) process.0 }
    {
        self.ports.timers().create_refusal(process)
    }

    /// Why a timer cannot be set or deleted: EINVAL where its process has none with this id.
    pub fn timer_refusal(&self, process: Pid, id: u32) -> Option<Errno>
        ensures { result ≡ timer_error (timers_in (stored_state self.now)) process.0 id }
    {
        self.ports.timers().timer_refusal(process, id)
    }

    /// A process gets another timer, which tells this port and is not armed (timer_create(3C)). Its id is the lowest of its process that
    /// is free. It takes no memory.
    pub fn create_timer(&mut self, process: Pid, q: u32, user: u64) -> u32
        requires room { HasRoomForTimer self.old q }
        requires made { q ≤ length (stored_state self.old).channels.ports }
        requires few { (stored_state self.old).channels.timers.made < EVENTS_MAX }
        requires allowed { create_timer_error (timers_in (stored_state self.old)) process.0 ≡ None }
        ensures id { result ≡ free_id (timers_in (stored_state self.old)) process.0 }
        ensures state { stored_state self.new ≡ with_channels (stored_state self.old) (timer_created (stored_state self.old).channels process.0 q user) }
        ensures left { self.new.left ≡ self.old.left }
        ensures keeps { KeepsPools self.old self.new }
    {
        self.ports.create_timer(process, q, user)
    }

    /// A timer of a process is armed anew, or is left not armed where `first` is 0, and what it queued is withdrawn (timer_settime(3C)).
    /// Where there is no such timer nothing changes. It takes no memory.
    pub fn set_timer(&mut self, process: Pid, id: u32, first: u64, interval: u64)
        requires first { first ≤ DELAY_MAX }
        requires interval { interval ≤ DELAY_MAX }
        ensures state { stored_state self.new ≡ with_channels (stored_state self.old) (timer_set (stored_state self.old).channels process.0 id first interval) }
        ensures left { self.new.left ≡ self.old.left }
        ensures keeps { KeepsPools self.old self.new }
    {
        if let Some(q) = self.ports.set_timer(process, id, first, interval) {
            note_port(&mut self.ended, q, &self.processes, &self.held, &self.ports);
        }
    }

    /// A timer of a process ends, and what it queued is withdrawn (timer_delete(3C)). Where there is no such timer nothing changes.
    pub fn delete_timer(&mut self, process: Pid, id: u32)
        ensures state { stored_state self.new ≡ with_channels (stored_state self.old) (timer_deleted (stored_state self.old).channels process.0 id) }
        ensures left { self.new.left ≡ self.old.left }
        ensures keeps { KeepsPools self.old self.new }
    {
        if let Some(q) = self.ports.delete_timer(process, id) {
            note_port(&mut self.ended, q, &self.processes, &self.held, &self.ports);
        }
    }

    /// The clock moves on, and ports are told of all timers that are due then. What is due is listed in `into`, which is empty room for
    /// all timers. It takes no memory.
    pub fn advance(&mut self, by: u64, into: &mut Room<Due>)
        requires by { by ≤ ADVANCE_MAX }
        requires clock { (stored_state self.old).channels.timers.clock ≤ CLOCK_MAX }
        requires room { length (timers_in (stored_state self.old)) ≤ into.old.spare }
        requires none { into.old.items ≡ [] }
        ensures state { stored_state self.new ≡ with_channels (stored_state self.old) (clock_advanced (stored_state self.old).channels by) }
        ensures left { self.new.left ≡ self.old.left }
        ensures keeps { KeepsPools self.old self.new }
    {
        self.ports.advance(by, into);
        let told = into.len() != 0;
        note_told(
            &mut self.ended,
            told,
            &self.processes,
            &self.held,
            &self.ports,
        );
    }
}
