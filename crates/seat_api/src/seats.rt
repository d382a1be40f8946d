//! The table that seats share, and a seat at it.
ghost use Rattle.std.specs.Prelude.{◌≡◌, ◌+◌, ◌<◌, ◌≤◌, [], length, IfOk, IfErr, IsOk, true, OnErr};
ghost use mathlib.Core.List.{IsPrefix};
ghost use Rattle.spec_kernel.specs.Words.{IsFit};
ghost use Rattle.spec_histories.specs.declared.call.SeatAct.TheVariants.{Enter, GoOn};
ghost use Rattle.seat_table.specs.Rule.{longer};
ghost use Rattle.seat_api.specs.declared.limits.TheConstants.{CALLS_MAX, HISTORY_MAX, SEATS_MAX};
ghost use Rattle.seat_api.specs.History.{IsFitAct, is_allowed};
ghost use Rattle.seat_api.specs.Seating.{Extends, IsSame};

use crate::entry::{SeatAct, SeatEntry, SeatReply};
use crate::kernel::Answers;
use crate::opening::Opening;
use dk_base::error::NoMemory;
use dk_base::number::Tid;
use dk_base::request::Request;
use kernel_core::kernel::Kernel;
use seat_desk::desk::Desk;
use seat_table::table::{Place, SeatTable};
use seat_table::turns::{meet, take_turn};
use std::alloc::Global;
use std::marker::Model;
use std::sync::Wait;

/// A kernel that seats share, with one history of their calls, which is legal from the state that `J` names. Contracts see which seats it is. What
/// follows is proved of whatever answers as a kernel, since the kernel's own type tells of all its parts.
pub struct Seats<J: Opening, K: Answers = Kernel> {
    table: SeatTable<SeatEntry, Desk<K, J>>,
}

/// By hand, so that dropping the seats is one call for their holder.
impl<J: Opening, K: Answers> Drop for Seats<J, K> {
    fn drop(self) {
        let Seats { table: _ } = self;
    }
}

impl<J: Opening, K: Answers> Model for Seats<J, K> {
    ghost use Rattle.atomic_table.specs.Seated.{TableId, table_id_coded};

    ghost Value = { TableId };

    ghost coded = { table_id_coded };

    ghost view = { λ s. s.table };
}

/// A seat, with which one thread of the host acts as a thread of the kernel. What it has seen of the history, and which of its entries are its
/// own, contracts see; it takes no memory.
pub struct Seat<J: Opening, K: Answers = Kernel> {
    place: Place<SeatEntry, Desk<K, J>>,
    number: u32,
    thread: Tid,
    next: u32,
    calls: u32,
    made: u64,
}

/// By hand, so that dropping a seat is one call for its holder.
impl<J: Opening, K: Answers> Drop for Seat<J, K> {
    fn drop(self) {
        let Seat {
            place: _,
            number: _,
            thread: _,
            next: _,
            calls: _,
            made: _,
        } = self;
    }
}

impl<J: Opening, K: Answers> Model for Seat<J, K> {
    ghost use Rattle.seat_api.specs.Seating.{Chair, Sits};

    ghost Value = { Chair };

    ghost view = { λ s. record { table = s.place.table_id; number = s.number; thread = s.thread; next = s.next; calls = s.calls; seen = s.place.me.0.seen; mine = s.place.me.0.mine } };

    ghost invariant = { λ s. Sits s.place.me s.number s.made s.calls s.next };
}

impl<J: Opening, K: Answers> Seat<J, K> {
    /// Seats are numbered from 0 as they were made.
    pub fn number(&self) -> u32
        ensures { result ≡ self.now.number }
    {
        self.number
    }

    /// The thread of the kernel that acts.
    pub fn thread(&self) -> Tid
        ensures { result ≡ self.now.thread }
    {
        self.thread
    }

    /// How many seats were made, asked of the first; 0 of the others.
    pub fn seats_made(&self) -> u32
        ensures { result ≡ self.now.next }
    {
        self.next
    }

    /// How often it called `enter` and `go_on`, with the calls after which memory had run out.
    pub fn calls(&self) -> u32
        ensures { result ≡ self.now.calls }
    {
        self.calls
    }
}

impl<J: Opening, K: Answers> Seats<J, K> {
    /// Seats at a kernel that has made no event, and the first of them. J names the state of the kernel; a kernel without events has forgotten
    /// nothing, so it stands for this state alone. Where memory runs out the kernel comes back as it was.
    pub fn new(alloc: Global, kernel: K, t: Tid) -> Result<(Self, Seat<J, K>), K>
        requires opening { K.keeps kernel ≡ J.opening }
        requires no_event { (K.keeps kernel).events ≡ 0 }
        requires declared { (1 ≤ t.0) × (t.0 ≤ length J.opening.process_table.threads) }
        ensures own { IfOk result (λ s. s.1.table ≡ s.0) }
        ensures first { IfOk result (λ s. (s.1.number ≡ 0) × (s.1.thread ≡ t) × (s.1.next ≡ 1) × (s.1.calls ≡ 0)) }
        ensures history { IfOk result (λ s. (s.1.seen ≡ []) × (s.1.mine ≡ [])) }
        ensures err { IfErr result (λ k. K.keeps k ≡ K.keeps kernel) }
    {
        match SeatTable::new(alloc, Desk::new(alloc, kernel)?) {
            Ok((table, place)) => Ok((
                Seats { table },
                Seat {
                    place,
                    number: 0,
                    thread: t,
                    next: 1,
                    calls: 0,
                    made: 0,
                },
            )),
            Err(desk) => Err(desk.into_kernel()),
        }
    }

    /// Another seat. It has seen what the first one has, and takes no memory.
    pub fn split(&self, first: &mut Seat<J, K>, t: Tid) -> Result<Seat<J, K>, NoMemory>
        requires own { first.old.table ≡ self.now }
        requires first { first.old.number ≡ 0 }
        requires few { first.old.next < SEATS_MAX }
        requires declared { (1 ≤ t.0) × (t.0 ≤ length J.opening.process_table.threads) }
        ensures made { IsOk result }
        ensures own { IfOk result (λ s. s.table ≡ self.now) }
        ensures new { IfOk result (λ s. (s.number ≡ first.old.next) × (s.thread ≡ t) × (s.next ≡ 0) × (s.calls ≡ 0)) }
        ensures history { IfOk result (λ s. (s.seen ≡ first.old.seen) × (s.mine ≡ [])) }
        ensures first { first.new ≡ record first.old { next = first.old.next + 1 } }
    {
        let place = self.table.split(&mut first.place);
        let number = first.next;
        first.next += 1;
        Ok(Seat {
            place,
            number,
            thread: t,
            next: 0,
            calls: 0,
            made: 0,
        })
    }

    /// The seat's thread enters the kernel with a request, which is fit where it is so in the opening state: who is declared, and whose child a process is,
    /// never changes. It may wait for its turn. Where memory runs out there is no entry; all is as before, but the number of
    /// the seat's calls.
    pub fn enter<R: Wait>(
        &self,
        rt: &R,
        seat: &mut Seat<J, K>,
        request: Request,
    ) -> Result<SeatReply, NoMemory>
        requires own { seat.old.table ≡ self.now }
        requires few { seat.old.calls < CALLS_MAX }
        requires fit { IsFit J.opening seat.old.thread.0 request }
        requires allowed { is_allowed request ≡ true }
        ensures same { IsSame seat.old seat.new × (seat.new.next ≡ seat.old.next) }
        ensures calls { seat.new.calls ≡ seat.old.calls + 1 }
        ensures done { IfOk result (λ r. Extends J.opening seat.old seat.new (Enter request) r) }
        ensures err { OnErr result ((seat.new.seen ≡ seat.old.seen) × (seat.new.mine ≡ seat.old.mine)) }
    {
        self.call(rt, seat, SeatAct::Enter(request))
    }

    /// The seat's thread goes on from a wait. It may wait for its turn. Where memory runs out there is no entry; all is as before, but the number of the
    /// seat's calls.
    pub fn go_on<R: Wait>(&self, rt: &R, seat: &mut Seat<J, K>) -> Result<SeatReply, NoMemory>
        requires own { seat.old.table ≡ self.now }
        requires few { seat.old.calls < CALLS_MAX }
        ensures same { IsSame seat.old seat.new × (seat.new.next ≡ seat.old.next) }
        ensures calls { seat.new.calls ≡ seat.old.calls + 1 }
        ensures done { IfOk result (λ r. Extends J.opening seat.old seat.new GoOn r) }
        ensures err { OnErr result ((seat.new.seen ≡ seat.old.seen) × (seat.new.mine ≡ seat.old.mine)) }
    {
        self.call(rt, seat, SeatAct::GoOn)
    }

    /// The length of the history, which is not below that of what the seat has seen. It waits for nobody, and takes no memory.
    pub fn seen(&self, seat: &mut Seat<J, K>) -> u64
        requires { seat.old.table ≡ self.now }
        ensures length { length seat.old.seen ≤ result }
        ensures few { result ≤ HISTORY_MAX }
        ensures seat { seat.new ≡ seat.old }
    {
        self.table.seen(&mut seat.place)
    }

    /// Two seats compare what they have seen: one is the beginning of the other, and the first seat has the longer now. It waits for nobody, makes no
    /// entry, and takes no memory.
    pub fn meet(&self, a: &mut Seat<J, K>, b: &mut Seat<J, K>) -> Result<(), NoMemory>
        requires own { (a.old.table ≡ self.now) × (b.old.table ≡ self.now) }
        ensures met { IsOk result }
        ensures begins { IsPrefix a.old.seen a.new.seen × IsPrefix b.old.seen a.new.seen }
        ensures longer { a.new.seen ≡ longer a.old.seen b.old.seen }
        ensures a { IsSame a.old a.new × (a.new.next ≡ a.old.next) × (a.new.calls ≡ a.old.calls) × (a.new.mine ≡ a.old.mine) }
        ensures b { b.new ≡ b.old }
    {
        meet(&self.table, &mut a.place, &mut b.place);
        Ok(())
    }

    // One call of the seat's thread, in its turn. A call that wants memory leaves the turn without an entry.
    fn call<R: Wait>(
        &self,
        rt: &R,
        seat: &mut Seat<J, K>,
        act: SeatAct,
    ) -> Result<SeatReply, NoMemory>
        requires own { seat.old.table ≡ self.now }
        requires few { seat.old.calls < CALLS_MAX }
        requires fit { IsFitAct J.opening seat.old.thread.0 act }
        ensures same { IsSame seat.old seat.new × (seat.new.next ≡ seat.old.next) }
        ensures calls { seat.new.calls ≡ seat.old.calls + 1 }
        ensures done { IfOk result (λ r. Extends J.opening seat.old seat.new act r) }
        ensures err { OnErr result ((seat.new.seen ≡ seat.old.seen) × (seat.new.mine ≡ seat.old.mine)) }
    {
        seat.calls += 1;
        let mut desk = take_turn(&self.table, rt, &mut seat.place);
        match desk.make(seat.number, seat.made, seat.thread, act) {
            Ok(reply) => {
                self.table.end_turn(&mut seat.place, desk);
                seat.made += 1;
                Ok(reply)
            }
            Err(full) => {
                self.table.leave_turn(&mut seat.place, desk);
                Err(full)
            }
        }
    }
}
