//! What ports are told once all else that follows an act is done: associations end by the rows that it closed, the timers of a process that
//! ended with it, and those associations fire that watch what it changed.
ghost use Rattle.std.specs.Prelude.{◌≡◌, ◌+◌, ◌<◌, ◌≤◌, ◌^◌, [], ℕ, Option, length};
ghost use Rattle.law_channels.specs.Ended.{empty_rows, ended_by, timers_ended};
ghost use Rattle.kernel_ports.specs.Words.{HasRoomToEnd};
ghost use Rattle.kernel_store.specs.Frames.{KeepsPools};
ghost use Rattle.kernel_store.specs.Stored.{stored_state};
ghost use Rattle.kernel_store.specs.Telling.{AreGone, AreNamed, HasOpened, IsLeftToTell, IsOfPipe, closing_of};
ghost use Rattle.unref_notice.specs.declared.counts.TheConstants.{STEP_MAX};
ghost use Rattle.spec_kernel.specs.Types.{Request};
ghost use Rattle.spec_kernel.specs.Words.{State, associations_in, fire, tell, timers_in, with_channels};

use crate::ports::note_told;
use crate::store::Store;
use crate::telling::{end_closed, end_timers};
use crate::told::{ClosedRows, TellingRooms};
use dk_base::list::Room;
use dk_base::object::Obj;
use kernel_ports::changed::{Changed, Ends};
use kernel_ports::ending::Ending;

impl Store {
    /// How many associations there are.
    pub fn association_count(&self) -> usize
        ensures len { result ≡ length (associations_in (stored_state self.now)) }
        ensures small { result < 2 ^ 63 }
    {
        self.ports.assocs().len()
    }

    /// The ends of pipes that had references when the step began, and have none now. It takes no memory.
    pub fn gone(&self, into: &mut Room<Obj>)
        requires room { STEP_MAX ≤ into.old.spare }
        requires none { into.old.items ≡ [] }
        ensures gone { (m : State) → HasOpened self.now.opening m → AreGone m (stored_state self.now) into.new.items }
        ensures few { length into.new.items ≤ STEP_MAX }
    {
        self.held.gone(into);
    }

    /// The associations end that watch by the rows that an act closed, and what they queued is withdrawn: of the rows that its request
    /// names, those that name nothing now. `ending` is for what the call lists. It takes no memory.
    #[tactic(auto, using(crate::proofs::PortsTold::nothing_ended))]
    fn end_closed(&mut self, closed: &ClosedRows, ending: &mut Ending)
        requires { (k : ℕ) × HasRoomToEnd ending.old (length (associations_in (stored_state self.old))) k }
        ensures state { stored_state self.new ≡ with_channels (stored_state self.old) (ended_by (stored_state self.old).channels (empty_rows (stored_state self.old) (closing_of closed.now))) }
        ensures room { (n k : ℕ) → HasRoomToEnd ending.old n k → HasRoomToEnd ending.new n k }
        ensures left { self.new.left ≡ self.old.left }
        ensures keeps { KeepsPools self.old self.new }
    {
        if closed.is_nothing() {
            return;
        }
        let before = self.ports.assocs().len();
        end_closed(&mut self.ports, &self.held, closed, ending);
        let ended = self.ports.assocs().len() != before;
        note_told(
            &mut self.ended,
            ended,
            &self.processes,
            &self.held,
            &self.ports,
        );
    }

    /// The timers end of a process whose rows an act all closed, and what they queued is withdrawn. `ending` is for what the call lists. It
    /// takes no memory.
    fn end_timers(&mut self, closed: &ClosedRows, ending: &mut Ending)
        requires { (n : ℕ) × HasRoomToEnd ending.old n (length (timers_in (stored_state self.old))) }
        ensures state { stored_state self.new ≡ with_channels (stored_state self.old) (timers_ended (stored_state self.old).channels (closing_of closed.now)) }
        ensures left { self.new.left ≡ self.old.left }
        ensures keeps { KeepsPools self.old self.new }
    {
        let ended = end_timers(&mut self.ports, closed, ending);
        note_told(
            &mut self.ended,
            ended,
            &self.processes,
            &self.held,
            &self.ports,
        );
    }

    /// A pipe, with the references of its ends.
    fn ends_of(&self, pipe: Option<u32>) -> Option<Ends>
        ensures { IsOfPipe (stored_state self.now) pipe result }
    {
        let pipe = pipe?;
        Some(Ends {
            pipe,
            readers: self.held.references_to(Obj::PipeIn(pipe)),
            writers: self.held.references_to(Obj::PipeOut(pipe)),
        })
    }

    /// All associations that are to fire queue their events, in order of number, and are no longer armed. They watch an end of this pipe,
    /// or one whose other end has no references and is among these. `changed` is for what the call lists. It takes no memory.
    fn fire(&mut self, pipe: Option<u32>, gone: &[Obj], changed: &mut Room<Changed>)
        requires listed { length gone.now + 2 ≤ changed.old.spare }
        requires named { AreNamed (stored_state self.old) pipe gone.now }
        ensures state { stored_state self.new ≡ fire (stored_state self.old) }
        ensures left { self.new.left ≡ self.old.left }
        ensures keeps { KeepsPools self.old self.new }
    {
        let ends = self.ends_of(pipe);
        let fired = self.ports.tell(&self.pipes, ends, gone, changed);
        note_told(
            &mut self.ended,
            fired,
            &self.processes,
            &self.held,
            &self.ports,
        );
    }

    /// Ports are told what an act left to tell, once all else that follows it is done. Its request says before it which rows it closes,
    /// and an end of which pipe is readied or newly watched; `rooms` has the ends of pipes that have gone. It takes no memory.
    pub fn tell(&mut self, closed: &ClosedRows, pipe: Option<u32>, rooms: &mut TellingRooms)
        requires listed { length rooms.old.gone.items + 2 ≤ rooms.old.changed.spare }
        requires room { HasRoomToEnd rooms.old.ending (length (associations_in (stored_state self.old))) (length (timers_in (stored_state self.old))) }
        requires told { (m : State) × (t : ℕ) × (q : Option Request) × IsLeftToTell m t q closed.now pipe rooms.old.gone.items (stored_state self.old) }
        ensures state { stored_state self.new ≡ tell (stored_state self.old) }
        ensures left { self.new.left ≡ self.old.left }
        ensures keeps { KeepsPools self.old self.new }
    {
        self.end_closed(closed, &mut rooms.ending);
        self.end_timers(closed, &mut rooms.ending);
        self.fire(pipe, rooms.gone.slice(), &mut rooms.changed);
    }
}
