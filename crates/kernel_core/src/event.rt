//! One event: the memory that it can need is taken first, then the act, and what follows it.
ghost use Rattle.std.specs.Prelude.{◌≡◌, ℕ, ◌+◌, ◌<◌, ◌≤◌, [], Option, false, true, Some, None, IfOk, IsOk, OnOk, OnErr};
ghost use Rattle.std.specs.Option.{option_map};
ghost use Rattle.dk_base.specs.declared.answer.Answer.TheVariants.{Data};
ghost use Rattle.dk_base.specs.declared.limits.TheConstants.{EVENTS_MAX};
ghost use Rattle.spec_kernel.specs.Words.{IsFit, IsStep, State, act, has_lost_door, is_runnable, is_running, step, with_event_counted};
ghost use Rattle.law_states.specs.Events.{is_leaving};
ghost use Rattle.kernel_store.specs.Words.{ArePlaced, CanSettle, HasRoom, HasWholeStep, IsAtRest, stored_state};
ghost use Rattle.spec_kernel.specs.Types.{Request};
ghost use Rattle.unref_notice.specs.declared.counts.TheConstants.{STEP_MAX};
ghost use Rattle.kernel_core.specs.Acted.{CanNoticeAfter, CanStep, HasActed, IsBetweenEvents};
ghost use Rattle.kernel_core.specs.declared.event.Parts.{Parts};
ghost use Rattle.kernel_core.specs.Entries.{is_cache_line};
ghost use Rattle.kernel_core.specs.Forking.{MayFork};
ghost use Rattle.kernel_core.specs.Numbers.{HasNumbersLeft};
ghost use Rattle.kernel_core.specs.Woken.{AreTurns, HasTurnsAfter, IsReady, IsReadyToSettle, turned_threads};

use crate::acts::{ending_of, enter, go_on, made_first, needs_of};
use crate::doors::count_at_end;
use crate::notices::settle;
use crate::ports::{count_found, room_to_find};
use crate::tasks::{is_cache_line, reply_to_line};
use crate::telling::{closed_by, pipe_readied, put_back};
use dk_base::answer::Answer;
use dk_base::error::NoMemory;
use dk_base::event::Stepped;
use dk_base::list::{Room, TidList};
use dk_base::number::{Fd, Pid, Tid};
use dk_base::request::Request;
use dk_base::thread_set::ThreadSet;
use kernel_store::store::Store;
use kernel_store::told::{ClosedRows, TellingRooms};
use spec_records::pool::Pool;
use std::alloc::Global;
use std::mem;

/// A kernel's store, and the rooms of the lists that each event makes anew.
#[derive(Drop)]
pub struct Parts {
    pub store: Store,
    /// Room for the doors whose references fall to one by an event.
    pub fallen: Room<u32>,
    /// Room for the threads that an event wakes.
    pub woken: Room<Tid>,
    /// Room for what ports are told by an event.
    pub rooms: TellingRooms,
    /// Room for the descriptors that a call or a return releases.
    pub released: Room<Fd>,
}

/// What is known before an event: the threads that can take a turn; and what is told of its request: the rows that it closes, and the
/// pipe of what it readies.
#[derive(Drop)]
struct Taken {
    were: ThreadSet,
    closed: ClosedRows,
    pipe: Option<u32>,
}

impl Parts {
    /// The step begins that an event is, and takes the memory that it can need where it touches this pool, which changes nothing
    /// else. One that hands over objects needs room for them besides, and one by which callers, threads or doors leave takes its own.
    fn reserve(
        &mut self,
        touched: Pool,
        closed: ClosedRows,
        pipe: Option<u32>,
    ) -> Result<Taken, NoMemory>
        requires placed { ArePlaced (stored_state self.old.store) }
        requires numbers { HasNumbersLeft (stored_state self.old.store) }
        ensures state { stored_state self.new.store ≡ stored_state self.old.store }
        ensures rest { IsAtRest self.old.store.events self.old.store → IsAtRest self.new.store.events self.new.store }
        ensures room { OnOk result (HasRoom self.new.store touched) }
        ensures references { OnOk result (HasWholeStep self.new.store) }
        ensures ready { IfOk result (λ taken. IsReady self.new taken) }
        ensures told { IfOk result (λ taken. (taken.closed ≡ closed) × (taken.pipe ≡ pipe)) }
    {
        self.store.start_step()?;
        self.store.reserve(touched)?;
        self.store.reserve_notices()?;
        self.fallen.clear();
        self.fallen
            .reserve(self.store.doors().notice_doors().len())?;
        self.woken.clear();
        self.woken
            .reserve(self.store.processes().thread_count() as usize)?;
        self.rooms.reserve(
            self.store.association_count() + 1,
            self.store.timer_count() + 1,
        )?;
        self.store.notices();
        Ok(Taken {
            were: self.store.runnable(),
            closed,
            pipe,
        })
    }

    /// The event is counted once all that follows its act is done. `were` are the threads that could take a turn before it. Where it woke
    /// none, the room for them is kept.
    fn end_event(&mut self, alloc: Global, were: ThreadSet, answer: Answer) -> Stepped
        requires few { self.old.store.events < EVENTS_MAX }
        requires ready { IsReadyToSettle self.old }
        ensures state { stored_state self.new.store ≡ with_event_counted (stored_state self.old.store) }
        ensures answer { result.answer ≡ answer }
        ensures woken { (before : State) → AreTurns were before → result.woken ≡ turned_threads before (stored_state self.new.store) }
        ensures rest { (n : ℕ) → IsAtRest n self.old.store → IsAtRest n self.new.store }
    {
        self.store.count();
        self.store.runnable().without(were).list(&mut self.woken);
        let woken = if self.woken.len() == 0 {
            TidList::new(alloc)
        } else {
            mem::replace(&mut self.woken, Room::new(alloc)).into_list()
        };
        Stepped { answer, woken }
    }

    /// What follows the act of an event that touched this pool, and by which these threads `parked` again, since their callers left, on
    /// what was taken for it. `first` is the process whose first common door the act made.
    fn finish(
        &mut self,
        alloc: Global,
        taken: Taken,
        touched: Pool,
        parked: ThreadSet,
        first: Option<Pid>,
        answer: Answer,
    ) -> Stepped
        requires acted { (start : Parts) × (t : ℕ) × (q : Option Request) × (before : Parts) × HasActed start t q before self.old taken (option_map (λ p. p.0) first) answer }
        requires can_settle { CanSettle touched parked [] self.old.store }
        ensures step { (start : Parts) (t : ℕ) (q : Option Request) (before : Parts) → HasActed start t q before self.old taken (option_map (λ p. p.0) first) answer → IsStep (step (stored_state start.store) t q) (stored_state self.new.store) result }
        ensures made { (start : Parts) (t : ℕ) (q : Option Request) (before : Parts) → HasActed start t q before self.old taken (option_map (λ p. p.0) first) answer → self.new.store.notices.list.made ≤ start.store.notices.list.made + STEP_MAX }
        ensures between { IsBetweenEvents self.new }
    {
        let Taken { were, closed, pipe } = taken;
        self.rooms.gone.clear();
        self.store.gone(&mut self.rooms.gone);
        settle(&mut self.store, &mut self.fallen, touched, parked, first);
        self.store.tell(&closed, pipe, &mut self.rooms);
        put_back(closed, &mut self.released);
        self.end_event(alloc, were, answer)
    }

    /// The event of a line for a name service cache. It is counted, and nothing else changes; it takes no memory.
    fn count_line(&mut self, alloc: Global) -> Stepped
        requires few { self.old.store.events < EVENTS_MAX }
        ensures state { stored_state self.new.store ≡ with_event_counted (stored_state self.old.store) }
        ensures answer { result.answer ≡ Data [] }
        ensures woken { result.woken ≡ [] }
        ensures made { self.new.store.notices.list.made ≡ self.old.store.notices.list.made }
        ensures rest { IsBetweenEvents self.old → IsBetweenEvents self.new }
    {
        self.store.count();
        Stepped {
            answer: reply_to_line(alloc),
            woken: TidList::new(alloc),
        }
    }

    /// The event of a kernel entry, which takes the memory that it can need first. Want of memory leaves all as it was.
    fn enter_with_memory(
        &mut self,
        alloc: Global,
        t: Tid,
        request: Request,
    ) -> Result<Stepped, NoMemory>
        requires running { is_running (stored_state self.old.store) t.0 ≡ true }
        requires can_step { CanStep self.old }
        requires fit { IsFit (stored_state self.old.store) t.0 request }
        requires may_fork { MayFork (stored_state self.old.store) t.0 request }
        requires noticing { CanNoticeAfter (stored_state self.old.store) t.0 (Some request) }
        requires turning { HasTurnsAfter (stored_state self.old.store) t.0 (Some request) }
        requires none_lost { is_leaving request ≡ false → (u : ℕ) → has_lost_door (act (stored_state self.old.store) t.0 (Some request)).state u ≡ false }
        ensures step { IfOk result (λ s. IsStep (step (stored_state self.old.store) t.0 (Some request)) (stored_state self.new.store) s) }
        ensures made { OnOk result (self.new.store.notices.list.made ≤ self.old.store.notices.list.made + STEP_MAX) }
        ensures err { OnErr result (stored_state self.new.store ≡ stored_state self.old.store) }
        ensures between { IsBetweenEvents self.new }
    {
        let p = self.store.processes().process_of(t);
        let needs = needs_of(&self.store, t, p, &request);
        let objects = Room::with_room(alloc, needs.passed)?;
        let closed = closed_by(&self.store, alloc, t, p, &request, &mut self.released)?;
        let pipe = pipe_readied(&self.store, p, &request);
        let taken = self.reserve(needs.touched, closed, pipe)?;
        let mut parked = ThreadSet::new();
        let answer = enter(&mut self.store, alloc, t, p, request, objects, &mut parked)?;
        let first = made_first(&answer, needs.first);
        Ok(self.finish(alloc, taken, needs.touched, parked, first, answer))
    }

    /// The event of a kernel entry. Want of memory leaves all as it was; a line for a name service cache takes none.
    pub fn enter(&mut self, alloc: Global, t: Tid, request: Request) -> Result<Stepped, NoMemory>
        requires running { is_running (stored_state self.old.store) t.0 ≡ true }
        requires can_step { CanStep self.old }
        requires fit { IsFit (stored_state self.old.store) t.0 request }
        requires may_fork { MayFork (stored_state self.old.store) t.0 request }
        requires noticing { CanNoticeAfter (stored_state self.old.store) t.0 (Some request) }
        requires turning { HasTurnsAfter (stored_state self.old.store) t.0 (Some request) }
        requires none_lost { is_leaving request ≡ false → (u : ℕ) → has_lost_door (act (stored_state self.old.store) t.0 (Some request)).state u ≡ false }
        requires counts { is_cache_line request ≡ true → (step (stored_state self.old.store) t.0 (Some request)).state ≡ with_event_counted (stored_state self.old.store) }
        ensures step { IfOk result (λ s. IsStep (step (stored_state self.old.store) t.0 (Some request)) (stored_state self.new.store) s) }
        ensures no_memory { is_cache_line request ≡ true → IsOk result }
        ensures made { OnOk result (self.new.store.notices.list.made ≤ self.old.store.notices.list.made + STEP_MAX) }
        ensures err { OnErr result (stored_state self.new.store ≡ stored_state self.old.store) }
        ensures between { IsBetweenEvents self.new }
    {
        if is_cache_line(&request) {
            Ok(self.count_line(alloc))
        } else {
            self.enter_with_memory(alloc, t, request)
        }
    }

    /// The event of the end of a wait. A thread that is bound to an invalid door wakes with EINVAL where it parks again.
    pub fn go_on(&mut self, alloc: Global, t: Tid) -> Result<Stepped, NoMemory>
        requires can_step { CanStep self.old }
        requires runnable { is_runnable (stored_state self.old.store) t.0 ≡ true }
        requires noticing { CanNoticeAfter (stored_state self.old.store) t.0 None }
        requires turning { HasTurnsAfter (stored_state self.old.store) t.0 None }
        ensures step { IfOk result (λ s. IsStep (step (stored_state self.old.store) t.0 None) (stored_state self.new.store) s) }
        ensures made { OnOk result (self.new.store.notices.list.made ≤ self.old.store.notices.list.made + STEP_MAX) }
        ensures err { OnErr result (stored_state self.new.store ≡ stored_state self.old.store) }
        ensures between { IsBetweenEvents self.new }
    {
        let touched = self.store.own_pool(t);
        let p = self.store.processes().process_of(t);
        let ending = ending_of(self.store.processes().state(t));
        let fds = Room::with_room(alloc, count_at_end(&self.store, t, ending))?;
        let found = room_to_find(alloc, count_found(&self.store, ending))?;
        let taken = self.reserve(touched, ClosedRows::Nothing, None)?;
        let answer = go_on(&mut self.store, alloc, t, p, ending, fds, found);
        Ok(self.finish(alloc, taken, touched, ThreadSet::new(), None, answer))
    }
}
