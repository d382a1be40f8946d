//! A kernel as seats ask it.

use dk_base::error::NoMemory;
use dk_base::event::Stepped;
use dk_base::number::Tid;
use dk_base::request::Request;
use spec_records::record::ThreadState;

/// What seats ask of a kernel. It is a trait so that nothing above names the kernel, whose type tells of all its parts and is dear to prove with.
pub trait Answers: Drop {
    ghost use Rattle.std.specs.Prelude.{◌≡◌, ◌↔◌, ◌≤◌, IfOk, OnErr, length, true};
    ghost use Rattle.std.specs.Option.{option_map};
    ghost use Rattle.dk_base.specs.declared.limits.TheConstants.{THREADS_MAX};
    ghost use Rattle.spec_kernel.specs.Words.{IsFit, IsOpening, IsStep, MayTurn, StandsFor, State, is_runnable, is_running, least_runnable, root, state_of, step};
    ghost use Rattle.spec_kernel.specs.Small.{IsSmall};

    /// The state that it keeps.
    ghost keeps: { Self → State };

    /// How many events there were.
    fn events(&self) -> u64
        ensures count { result ≡ (keeps self.now).events }
        ensures opening { (keeps self.now).events ≡ 0 → IsOpening (keeps self.now) };

    /// The clock of the timers.
    fn clock(&self) -> u64
        ensures stands { (m : State) → StandsFor (keeps self.now) m → result ≡ m.channels.timers.clock };

    /// How many threads there are, ended ones and spares with them.
    fn threads(&self) -> u32
        ensures few { result ≤ THREADS_MAX }
        ensures stands { (m : State) → StandsFor (keeps self.now) m → result ≡ length m.process_table.threads };

    fn runnable(&self, thread: Tid) -> bool
        ensures kept { result ≡ is_runnable (keeps self.now) thread.0 }
        ensures stands { (m : State) → StandsFor (keeps self.now) m → result ≡ is_runnable m thread.0 };

    /// The least thread that can take a turn.
    fn least_runnable(&self) -> Option<Tid>
        ensures stands { (m : State) → StandsFor (keeps self.now) m → option_map (λ t. t.0) result ≡ least_runnable m };

    fn is_running(&self, thread: Tid) -> bool
        ensures kept { result ≡ is_running (keeps self.now) thread.0 }
        ensures stands { (m : State) → StandsFor (keeps self.now) m → result ≡ is_running m thread.0 };

    fn state(&self, thread: Tid) -> &ThreadState
        ensures { (m : State) → StandsFor (keeps self.now) m → result.now ≡ state_of m thread.0 };

    /// The end of the walk from a thread to the caller of the call that it serves, and so on.
    fn root(&self, thread: Tid) -> Tid
        ensures stands { (m : State) → StandsFor (keeps self.now) m → result.0 ≡ root m thread.0 };

    /// Whether the threads and processes that a request of a thread names are there, and its counts are in range.
    fn fits(&self, thread: Tid, request: &Request) -> bool
        ensures { (result ≡ true) ↔ IsFit (keeps self.now) thread.0 request.now };

    /// A request, or the end of a wait. Want of memory leaves the state as it was.
    fn turn(&mut self, thread: Tid, request: Option<Request>) -> Result<Stepped, NoMemory>
        requires { MayTurn (keeps self.old) thread.0 request }
        ensures step { IfOk result (λ s. (m : State) → StandsFor (keeps self.old) m → IsStep (step m thread.0 request) (keeps self.new) s) }
        ensures small { IfOk result (λ s. IsSmall request s.answer) }
        ensures err { OnErr result (keeps self.new ≡ keeps self.old) };
}
