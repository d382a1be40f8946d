//! The timers of a kernel.
ghost use Rattle.std.specs.Prelude.{◌≡◌, ◌+◌, ◌-◌, ◌<◌, ◌≤◌, ◌++◌, ◌^◌, None, OnErr, OnOk, IfNone, IfSome, IsOk, Some, length};
ghost use Rattle.dk_base.specs.declared.limits.TheConstants.{ADVANCE_MAX, CLOCK_LAST, CLOCK_MAX, DELAY_MAX, EVENTS_MAX, TIMERS_MAX};
ghost use Rattle.spec_records.specs.Words.{IsAscending, advance_clock, change_first, create_timer, create_timer_answer, create_timer_error, delete_timer, dues, end_process_timers, free_id, is_timer, no_timers, set_timer, tag_answer, tag_of, tags_of, timer_at, timer_error, timer_number, timers_of, with_arming};
ghost use Rattle.timer_src.specs.Value.{CreatesOrWants};

use crate::armed::Armed;
use crate::pending::Pending;
use crate::process_end::{tag_of, tell_tags};
use crate::table::Table;
use dk_base::error::{Errno, NoMemory, Refusal};
use dk_base::limits::TIMERS_MAX;
use dk_base::list::Room;
use dk_base::number::Pid;
use spec_records::timer::{Arming, Due, Tag, Timer};
use std::alloc::Global;
use std::marker::Model;

/// Timers on a clock that moves only by `advance`, in the order of their numbers, which go up from 1; none is used twice. Clauses see
/// the clock, how many were made and those that have not ended (`list`), and how many more take no memory (`spare`).
#[derive(Drop)]
pub struct Timers {
    clock: u64,
    made: u32,
    table: Table,
    armed: Armed,
}

impl Model for Timers {
    ghost use Rattle.std.specs.Prelude.{◌-◌, length, min};
    ghost use Rattle.timer_src.specs.Value.{AreKept, TimersValue};

    ghost Value = { TimersValue };

    ghost view = { λ s. record { list = record { clock = s.clock; made = s.made; timers = s.table.items }; spare = min s.table.spare (s.armed.capacity - length s.table.items) } };

    ghost invariant = { λ s. AreKept s.clock s.made s.table.items s.armed };
}

impl Timers {
    /// No timer, the clock at 0. It takes no memory.
    pub fn new(alloc: Global) -> Self
        ensures { result.list ≡ no_timers }
    {
        Timers {
            clock: 0,
            made: 0,
            table: Table::new(alloc),
            armed: Armed::new(alloc),
        }
    }

    /// The clock, at most 1,000,010,000.
    pub fn clock(&self) -> u64
        ensures clock { result ≡ self.now.list.clock }
        ensures late { result ≤ CLOCK_LAST }
    {
        self.clock
    }

    /// How many timers there are.
    pub fn len(&self) -> usize
        ensures len { result ≡ length self.now.list.timers }
        ensures small { result < 2 ^ 63 }
    {
        self.table.len()
    }

    /// How many timers were made, which is the number of the latest. The numbers of those that have not ended go up, and none is above
    /// it, so the next number is a new one.
    pub fn made(&self) -> u32
        ensures made { result ≡ self.now.list.made }
        ensures numbers { IsAscending timer_number 0 self.now.list.made self.now.list.timers }
    {
        self.made
    }

    /// The lowest id of a process that is free, if it has fewer than 32 timers.
    fn lowest_free(&self, process: Pid) -> Option<u32>
        ensures some { IfSome result (λ id. (id < TIMERS_MAX) × (timer_at self.now.list.timers process.0 id ≡ None) × (id ≡ free_id self.now.list.timers process.0) × (create_timer_error self.now.list.timers process.0 ≡ None)) }
        ensures none { IfNone result (create_timer_error self.now.list.timers process.0 ≡ Some Errno.EAGAIN) }
    {
        for id in 0..TIMERS_MAX {
            if self.table.get(process, id).is_none() {
                return Some(id);
            }
        }
        None
    }

    /// Why no timer can be made for a process: EAGAIN where it has 32.
    pub fn create_refusal(&self, process: Pid) -> Option<Errno>
        ensures { result ≡ create_timer_error self.now.list.timers process.0 }
    {
        match self.lowest_free(process) {
            Some(_) => None,
            None => Some(Errno::EAGAIN),
        }
    }

    /// Why a timer cannot be set or deleted: EINVAL where its process has none with this id.
    pub fn timer_refusal(&self, process: Pid, id: u32) -> Option<Errno>
        ensures { result ≡ timer_error self.now.list.timers process.0 id }
    {
        match self.table.get(process, id) {
            Some(_) => None,
            None => Some(Errno::EINVAL),
        }
    }

    /// Room for another timer, with its arming. Want of memory leaves all but the room as it was.
    pub fn reserve(&mut self) -> Result<(), NoMemory>
        ensures list { self.new.list ≡ self.old.list }
        ensures room { OnOk result (0 < self.new.spare) }
        ensures kept { self.old.spare ≤ self.new.spare }
        ensures succeeds { 0 < self.old.spare → IsOk result }
    {
        self.table.reserve()?;
        self.armed.reserve(self.table.len() + 1)
    }

    /// Another timer, with this id, which is free. It takes no memory.
    fn push(&mut self, process: Pid, id: u32, port: u32, user: u64)
        requires room { 0 < self.old.spare }
        requires few { self.old.list.made < EVENTS_MAX }
        requires id { (id < TIMERS_MAX) × (id ≡ free_id self.old.list.timers process.0) }
        requires free { timer_at self.old.list.timers process.0 id ≡ None }
        ensures { self.new.list ≡ create_timer self.old.list process.0 port user }
    {
        self.made += 1;
        self.table.push(Timer {
            process,
            id,
            port,
            user,
            number: self.made,
            arming: None,
        });
    }

    /// A timer of a process that tells this port, with this user value (timer_create(3C)). It is not armed, and stands last. Its id is the
    /// lowest of its process that is free, from 0 to 31. EAGAIN where the process has 32 timers. Else memory may be wanted, but not where
    /// there was room. Either leaves the timers as they were.
    pub fn create(&mut self, process: Pid, port: u32, user: u64) -> Result<u32, Refusal>
        requires few { self.old.list.made < EVENTS_MAX }
        ensures answer { CreatesOrWants result self.old.list.timers process.0 }
        ensures reserved { 0 < self.old.spare → result ≡ create_timer_answer self.old.list.timers process.0 }
        ensures list { OnOk result (self.new.list ≡ create_timer self.old.list process.0 port user) }
        ensures kept { OnErr result (self.new.list ≡ self.old.list) }
    {
        let Some(id) = self.lowest_free(process) else {
            return Err(Refusal::No(Errno::EAGAIN));
        };
        if self.reserve().is_err() {
            return Err(Refusal::Memory);
        }
        self.push(process, id, port, user);
        Ok(id)
    }

    /// The same for a process that has fewer than 32, where there is room. It takes no memory.
    pub fn create_fitting(&mut self, process: Pid, port: u32, user: u64) -> u32
        requires room { 0 < self.old.spare }
        requires few { self.old.list.made < EVENTS_MAX }
        requires allowed { create_timer_error self.old.list.timers process.0 ≡ None }
        ensures id { result ≡ free_id self.old.list.timers process.0 }
        ensures list { self.new.list ≡ create_timer self.old.list process.0 port user }
    {
        let Some(id) = self.lowest_free(process) else {
            unreachable!()
        };
        self.push(process, id, port, user);
        id
    }

    /// A timer that is there has no moment to come any more, and is not armed.
    fn disarm(&mut self, process: Pid, id: u32, t: Timer)
        requires { timer_at self.old.list.timers process.0 id ≡ Some t }
        ensures clock { self.new.list.clock ≡ self.old.list.clock }
        ensures made { self.new.list.made ≡ self.old.list.made }
        ensures timers { self.new.list.timers ≡ change_first (is_timer process.0 id) (with_arming None) self.old.list.timers }
        ensures room { self.old.spare ≤ self.new.spare }
    {
        self.table.set_arming(process, id, None);
        self.armed.remove(t.number);
    }

    /// A timer that is there is armed: its first moment is so long after the clock. It takes no memory.
    fn arm(&mut self, process: Pid, id: u32, t: Timer, first: u64, interval: u64)
        requires there { timer_at self.old.list.timers process.0 id ≡ Some t }
        requires first { (0 < first) × (first ≤ DELAY_MAX) }
        requires interval { interval ≤ DELAY_MAX }
        ensures clock { self.new.list.clock ≡ self.old.list.clock }
        ensures made { self.new.list.made ≡ self.old.list.made }
        ensures timers { self.new.list.timers ≡ change_first (is_timer process.0 id) (with_arming (Some (record { clock = self.old.list.clock; first = first; interval = interval }))) self.old.list.timers }
        ensures room { self.old.spare ≤ self.new.spare }
    {
        let arming = Arming {
            clock: self.clock,
            first,
            interval,
        };
        self.table.set_arming(process, id, Some(arming));
        self.armed.put(Pending {
            number: t.number,
            process: t.process.0,
            id: t.id,
            port: t.port,
            user: t.user,
            next: self.clock + first,
            interval: interval as u32,
        });
    }

    /// A timer is armed anew (timer_settime(3C)): its first moment is `first` after the clock, and the next ones `interval` after each
    /// other; there is one where `interval` is 0. Where `first` is 0 it is left not armed. An earlier arming ends, and the tag is told by
    /// which an event of it is found. EINVAL where the process has no such timer; that changes nothing. It takes no memory.
    pub fn set(&mut self, process: Pid, id: u32, first: u64, interval: u64) -> Result<Tag, Errno>
        requires first { first ≤ DELAY_MAX }
        requires interval { interval ≤ DELAY_MAX }
        ensures answer { result ≡ tag_answer self.old.list.timers process.0 id }
        ensures list { self.new.list ≡ set_timer self.old.list process.0 id first interval }
        ensures kept { OnErr result (self.new.list ≡ self.old.list) }
        ensures room { self.old.spare ≤ self.new.spare }
    {
        let Some(t) = self.table.get(process, id) else {
            return Err(Errno::EINVAL);
        };
        if first == 0 {
            self.disarm(process, id, t);
        } else {
            self.arm(process, id, t, first, interval);
        }
        Ok(tag_of(&t))
    }

    /// A timer ends (timer_delete(3C)): its id is free again, and the tag is told by which an event of it is found. EINVAL where the process
    /// has no such timer; that changes nothing.
    pub fn delete(&mut self, process: Pid, id: u32) -> Result<Tag, Errno>
        ensures answer { result ≡ tag_answer self.old.list.timers process.0 id }
        ensures list { self.new.list ≡ delete_timer self.old.list process.0 id }
        ensures kept { OnErr result (self.new.list ≡ self.old.list) }
        ensures room { self.old.spare ≤ self.new.spare }
    {
        let Some(t) = self.table.get(process, id) else {
            return Err(Errno::EINVAL);
        };
        self.table.remove(process, id);
        self.armed.remove(t.number);
        Ok(tag_of(&t))
    }

    /// The clock moves on by so much. The timers with moments after the old clock and not after the new one follow, in the order of their
    /// numbers, what is in `into`, each with the count of these moments. Timers that have no moment to come are not looked at. It takes no
    /// memory.
    pub fn advance(&mut self, by: u64, into: &mut Room<Due>)
        requires by { by ≤ ADVANCE_MAX }
        requires clock { self.old.list.clock ≤ CLOCK_MAX }
        requires room { length self.old.list.timers ≤ into.old.spare }
        ensures list { self.new.list ≡ advance_clock self.old.list by }
        ensures dues { into.new.items ≡ into.old.items ++ dues self.old.list by }
        ensures places { length into.old.items + into.old.spare ≤ length into.new.items + into.new.spare }
        ensures spare { self.old.spare ≤ self.new.spare }
    {
        self.clock += by;
        self.armed.advance(self.clock, into);
    }

    /// A process ends, and all of its timers with it. Their tags follow, in the order of their numbers, what is in `into`. It takes no
    /// memory.
    pub fn end_process(&mut self, process: Pid, into: &mut Room<Tag>)
        requires { length (timers_of self.old.list.timers process.0) ≤ into.old.spare }
        ensures list { self.new.list ≡ end_process_timers self.old.list process.0 }
        ensures tags { into.new.items ≡ into.old.items ++ tags_of (timers_of self.old.list.timers process.0) }
        ensures places { length into.old.items + into.old.spare ≤ length into.new.items + into.new.spare }
        ensures room { self.old.spare ≤ self.new.spare }
    {
        tell_tags(&self.table, process, into);
        self.table.end_process(process);
        self.armed.end_process(process);
    }
}
