//! What follows an act, once notices are made: idle threads that lost their doors wake, what waits is given, and spares start. Only the
//! pools and threads are looked at that the act touched.
ghost use Rattle.std.specs.Prelude.{◌≡◌, ℕ, ◌||◌, Bool, drop, length, true, false, is_some};
ghost use Rattle.std.specs.Option.{option_map};
ghost use Rattle.spec_kernel.specs.Types.{Pool};
ghost use Rattle.spec_kernel.specs.Words.{State, fail_returns, give, give_and_start, has_first_common_door, has_lost_door, start_one};
ghost use Rattle.server_pool.specs.Words.{pick_of, stack_in};
ghost use Rattle.dk_base.specs.Words.{has};
ghost use Rattle.law_pools.specs.Words.{IsGivenOut, IsGivenOutIn, is_this};
ghost use Rattle.kernel_store.specs.Failing.{FailsOn, IsFailing, LosesNoneIn};
ghost use Rattle.kernel_store.specs.Giving.{GivesOn, HasGiven, IsServed, IsTold, start_meant};
ghost use Rattle.kernel_store.specs.Frames.{CanSettle, IsAtRest, IsGivenOutToOthers, LoseDoorsIn, NothingAfter, serves_any};
ghost use Rattle.kernel_store.specs.Stored.{IsAgreed, stored_state};

use crate::sets::take_least;
use crate::starting::{last_given, other_than};
use crate::store::Store;
use dk_base::number::{Pid, Tid};
use dk_base::object::Item;
use dk_base::thread_set::ThreadSet;
use spec_records::pool::Pool;
use spec_records::record::ThreadState;

impl Store {
    // idle threads that lost their doors

    /// Whether a thread is idle and bound to a door that is not valid.
    fn has_lost_door(&self, t: Tid) -> bool
        ensures { result ≡ has_lost_door (stored_state self.now) t.0 }
    {
        matches!(self.processes.state(t), ThreadState::Idle { .. }) && self.has_invalid_door(t)
    }

    /// A thread that is idle and has lost its door is unbound, and wakes with EINVAL.
    fn fail(&mut self, t: Tid)
        requires { has_lost_door (stored_state self.old) t.0 ≡ true }
        ensures failed { FailsOn self.old self.new }
        ensures gone { has_lost_door (stored_state self.new) t.0 ≡ false }
    {
        let pool = self.own_pool(t);
        self.pools.unpark(t, pool);
        self.pools.drop_binding(t);
        self.processes.fail(t);
    }

    /// The same of the pick of a pool, where it has lost its door. Says whether.
    fn fail_next(&mut self, pool: Pool) -> bool
        ensures failed { result ≡ true → FailsOn self.old self.new }
        ensures none { result ≡ false → (self.new ≡ self.old) × LosesNoneIn pool (stored_state self.old) }
    {
        let Some(next) = self.pools.pick(pool) else {
            return false;
        };
        if !self.has_lost_door(next.thread) {
            return false;
        }
        self.fail(next.thread);
        true
    }

    /// The threads that are parked in a pool wake with EINVAL, if their door is lost.
    fn fail_parked(&mut self, pool: Pool)
        ensures failing { IsFailing self.old self.new }
        ensures none { LosesNoneIn pool (stored_state self.new) }
    {
        while self.fail_next(pool) {}
    }

    /// A thread wakes with EINVAL, if it is idle and has lost its door.
    fn fail_where_lost(&mut self, t: Tid)
        ensures failing { IsFailing self.old self.new }
        ensures gone { has_lost_door (stored_state self.new) t.0 ≡ false }
    {
        if self.has_lost_door(t) {
            self.fail(t);
        }
    }

    /// The same of these threads.
    fn fail_each(&mut self, threads: ThreadSet)
        ensures failing { IsFailing self.old self.new }
        ensures none { (t : ℕ) → has threads t ≡ true → has_lost_door (stored_state self.new) t ≡ false }
    {
        let mut rest = threads;
        while let Some(t) = take_least(&mut rest) {
            self.fail_where_lost(t);
        }
    }

    /// All threads that are idle and have lost their doors are unbound, and wake with EINVAL: they park in this pool, or are among these
    /// threads.
    fn fail_touched(&mut self, touched: Pool, parked: ThreadSet)
        requires { LoseDoorsIn touched parked (stored_state self.old) }
        ensures state { stored_state self.new ≡ fail_returns (stored_state self.old) }
        ensures given_out { (set : ThreadSet) (pool : Pool) → IsGivenOutToOthers set self.old.pools pool → IsGivenOutToOthers set self.new.pools pool }
        ensures latest { self.new.latest ≡ self.old.latest }
    {
        self.fail_parked(touched);
        self.fail_each(parked);
    }

    // what waits, and spares

    /// The pick of a pool gets the oldest item there, where there are both. Says whether.
    fn give_next(&mut self, pool: Pool) -> bool
        ensures given { result ≡ true → GivesOn pool self.old self.new }
        ensures none { result ≡ false → (self.new ≡ self.old) × IsGivenOutIn self.old.pools pool × IsAgreed self.old }
    {
        let Some(next) = self.pools.match_next(pool) else {
            return false;
        };
        let _threads = self.processes.thread_count();
        self.processes.give(next.thread, next.item);
        match next.item {
            Item::Call(c) => self.held.give_call(c, next.thread),
            Item::Notice(n) => self.notices.give(n, next.thread),
        }
        true
    }

    /// A process starts its lowest spare, if it has one.
    fn start_spare(&mut self, p: Pid)
        ensures state { stored_state self.new ≡ start_one (stored_state self.old) p.0 true }
        ensures given_out { IsGivenOut self.old.pools → IsGivenOut self.new.pools }
        ensures processes { length self.new.processes.processes ≡ length self.old.processes.processes }
        ensures agreed { IsAgreed self.old }
        ensures latest { self.new.latest ≡ self.old.latest }
    {
        if let Some(t) = self.pools.take_spare(p) {
            self.processes.turn(t, ThreadState::Running);
        }
    }

    /// Whether an idle thread is parked in a pool. Its caller also learns here that the pools hold what the records say.
    fn has_idle(&self, pool: Pool) -> bool
        ensures idle { result ≡ is_some (pick_of (stack_in self.now.pools pool)) }
        ensures agreed { IsAgreed self.now }
    {
        self.pools.pick(pool).is_some()
    }

    /// Gives what waits in a pool to the threads parked there, as long as it has both.
    fn give_pool(&mut self, pool: Pool)
        ensures given { HasGiven pool self.old self.new }
    {
        while self.give_next(pool) {}
    }

    /// Where a process is given, it starts its lowest spare, if it has one: as where all that are meant start theirs in order of number,
    /// and it is one more of them.
    fn start_as_well(&mut self, process: Option<Pid>)
        ensures state { (given : State) (meant : ℕ → Bool) (n : ℕ) → n ≡ length self.old.processes.processes → stored_state self.old ≡ start_meant meant given n → ((p : ℕ) → is_this p (option_map (λ p. p.0) process) ≡ true → meant p ≡ false) → stored_state self.new ≡ start_meant (λ p. is_this p (option_map (λ p. p.0) process) || meant p) given n }
        ensures processes { length self.new.processes.processes ≡ length self.old.processes.processes }
        ensures given_out { IsGivenOut self.old.pools → IsGivenOut self.new.pools }
        ensures latest { self.new.latest ≡ self.old.latest }
    {
        if let Some(p) = process {
            self.start_spare(p);
        }
    }

    /// Gives what waits in a pool to the threads parked there, as long as it has both. The process whose common pool this is, if it is
    /// not `first`, where a giving took its last idle thread.
    fn give_and_tell(&mut self, pool: Pool, first: Option<Pid>) -> Option<Pid>
        ensures { IsTold pool (option_map (λ p. p.0) first) (option_map (λ p. p.0) result) self.old self.new }
    {
        let had = self.has_idle(pool);
        self.give_pool(pool);
        let has = self.has_idle(pool);
        other_than(last_given(pool, had, has), first)
    }

    /// What waits in the pools of these doors from this place on is given to idle threads there, as long as there are both. Then a spare
    /// starts of `first`, and of each process whose common pool lost its last idle thread by that.
    fn serve_from(&mut self, doors: &[u32], place: usize, first: Option<Pid>)
        requires out { (pool : Pool) → serves_any (stored_state self.old) (drop place doors.now) pool ≡ false → IsGivenOutIn self.old.pools pool }
        requires agreed { IsAgreed self.old }
        ensures { IsServed (option_map (λ p. p.0) first) self.old self.new }
    {
        if place >= doors.len() {
            self.start_as_well(first);
            return;
        }
        let pool = self.pool_of(doors[place]);
        let last = self.give_and_tell(pool, first);
        self.serve_from(doors, place + 1, first);
        self.start_as_well(last);
    }

    /// The same of the pools in which these threads park, and then of those of the doors.
    fn serve_parked(&mut self, threads: ThreadSet, doors: &[u32], first: Option<Pid>)
        requires out { (pool : Pool) → serves_any (stored_state self.old) doors.now pool ≡ false → IsGivenOutToOthers threads self.old.pools pool }
        requires agreed { IsAgreed self.old }
        ensures { IsServed (option_map (λ p. p.0) first) self.old self.new }
    {
        let mut rest = threads;
        let Some(t) = take_least(&mut rest) else {
            self.serve_from(doors, 0, first);
            return;
        };
        let pool = self.own_pool(t);
        let last = self.give_and_tell(pool, first);
        self.serve_parked(rest, doors, first);
        self.start_as_well(last);
    }

    /// What follows an act, once notices are made: idle threads that lost their doors wake with EINVAL, what waits is given, and spares
    /// start. The act touched this pool, by it these threads `parked` again since their callers left, and notices were made of some of
    /// these doors. `first` is the process whose first common door the act made.
    pub fn settle(&mut self, touched: Pool, parked: ThreadSet, doors: &[u32], first: Option<Pid>)
        requires { CanSettle touched parked doors.now self.old }
        ensures state { (before : State) → ((p : ℕ) → has_first_common_door before (give (fail_returns (stored_state self.old))) p ≡ is_this p (option_map (λ p. p.0) first)) → stored_state self.new ≡ give_and_start before (fail_returns (stored_state self.old)) }
        ensures rest { (n : ℕ) → NothingAfter n self.old → IsAtRest n self.new }
    {
        self.fail_touched(touched, parked);
        let last = self.give_and_tell(touched, first);
        self.serve_parked(parked, doors, first);
        self.start_as_well(last);
    }
}
