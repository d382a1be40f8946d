//! The one caller that there is. Here alone calls are made of seats.
ghost use Rattle.std.specs.Prelude.{◌≡◌, length};

use crate::caller::Caller;
use crate::calls::{Asks, Came, Gives, request, what_came};
use dk_base::number::Tid;
use seat_api::kernel::Answers;
use seat_api::limits::{CALLS_MAX, SEATS_MAX};
use seat_api::opening::Opening;
use seat_api::seats::{Seat, Seats};
use std::alloc::Global;
use std::mem::drop;
use std::sync::Wait;

/// A seat, with the seats that it is one of.
#[derive(Drop)]
pub struct Sitter<'a, R, J: Opening, K: Answers> {
    pub rt: &'a R,
    pub alloc: Global,
    pub seats: &'a Seats<J, K>,
    pub seat: Seat<J, K>,
    ghost own: { seat.table ≡ seats.now },
}

impl<'a, R: Wait, J: Opening, K: Answers> Caller for Sitter<'a, R, J, K> {
    ghost use Rattle.std.specs.Prelude.{length};

    ghost threads = { length J.opening.process_table.threads };

    ghost table = { λ s. s.seats.now };

    fn acts(&mut self, asks: Asks, gives: Gives) -> Came {
        if self.seat.calls() >= CALLS_MAX {
            return Came::Otherwise;
        }
        let reply = match asks {
            Asks::GoOn => self.seats.go_on(self.rt, &mut self.seat),
            _ => match request(self.alloc, asks) {
                Ok(request) => self.seats.enter(self.rt, &mut self.seat, request),
                Err(_) => return Came::NotAsked,
            },
        };
        let came = what_came(&reply, gives);
        drop(reply);
        came
    }

    fn split(&mut self, thread: Tid) -> Option<Self> {
        if self.seat.number() != 0 || self.seat.seats_made() >= SEATS_MAX {
            return None;
        }
        let seat = self.seats.split(&mut self.seat, thread).unwrap();
        Some(Sitter {
            rt: self.rt,
            alloc: self.alloc,
            seats: self.seats,
            seat,
        })
    }

    fn meets(&mut self, other: &mut Self) -> bool {
        self.seats.meet(&mut self.seat, &mut other.seat).is_ok()
    }

    fn seen(&mut self) -> u64 {
        self.seats.seen(&mut self.seat)
    }

    fn calls(&self) -> u32 {
        self.seat.calls()
    }

    fn seats_made(&self) -> u32 {
        self.seat.seats_made()
    }
}
