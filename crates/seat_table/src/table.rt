//! The table that seats share, at whose value they take turns.
ghost use Rattle.std.specs.Prelude.{ℕ, List, ◌≡◌, ◌<◌, ◌≤◌, [], ◌∷◌, ◌++◌, length, Some, None, IfOk, IfErr};
ghost use mathlib.Core.List.{IsPrefix};
ghost use Rattle.seat_table.specs.declared.limits.TheConstants.{HISTORY_MAX, SEATS_MAX};
ghost use Rattle.seat_table.specs.declared.view.Stage.TheVariants.{Out};
ghost use Rattle.seat_table.specs.Rule.{HasTurn, InTurn, IsWaiting, MayDraw, drawn, joined, left, note_of, opened, split_left, split_right, ticket_in, told, turns};
ghost use Rattle.seat_table.specs.Sums.{Every};

use crate::rule::{Append, Draw, Leave, Look, Note, OneHistory, Read, Recorded, Share};
use crate::view::View;
use atomic_table::{Refused, Seat, Table};
use std::alloc::Global;
use std::marker::Model;
use std::sync::Wait;

// the words of the table

const TICKET: usize = 0;

const SERVING: usize = 1;

const COUNT: usize = 2;

/// What one seat knows, and whether it has the turn. It has no bytes.
pub type Place<E, D> = Seat<Option<D>, View<E>>;

/// A value that seats take turns at, with one history of what they did. Contracts see which seats these are.
pub struct SeatTable<E, D: Recorded<E>> {
    table: Table<Option<D>, View<E>, (), OneHistory, Global>,
}

impl<E, D: Recorded<E> + Drop> Drop for SeatTable<E, D> {
    fn drop(self) {
        let SeatTable { table: _ } = self;
    }
}

impl<E, D: Recorded<E>> Model for SeatTable<E, D> {
    ghost use Rattle.std.specs.Prelude.{◌≡◌};
    ghost use Rattle.atomic_table.specs.Seated.{TableId, table_id_coded};

    ghost Value = { TableId };

    ghost coded = { table_id_coded };

    ghost view = { λ t. t.table.shared.table_id };

    ghost invariant = { λ t. (t.table.shared.table_id.words ≡ 3) × (t.table.shared.table_id.slots ≡ 1) };
}

impl<E, D: Recorded<E> + Drop> SeatTable<E, D> {
    /// Turns at a value without entries, and the first seat. Where memory runs out the value comes back as it was.
    pub fn new(alloc: Global, value: D) -> Result<(Self, Place<E, D>), D>
        requires { D.history value ≡ [] }
        ensures own { IfOk result (λ s. s.1.table_id ≡ s.0) }
        ensures first { IfOk result (λ s. s.1.me ≡ (opened, [])) }
        ensures err { IfErr result (λ v. v ≡ value) }
    {
        let Ok(mut slots) = Vec::with_capacity(alloc, 1) else {
            return Err(value);
        };
        slots.push_reserved(Some(value));
        match Table::new(alloc, &[0, 0, 0], slots, &()) {
            Ok((table, place)) => Ok((SeatTable { table }, place)),
            Err(Refused { mut slots }) => Err(slots.pop().unwrap().unwrap()),
        }
    }

    /// Another seat, with the next number. It has seen what the first one has.
    pub fn split(&self, first: &mut Place<E, D>) -> Place<E, D>
        requires own { first.old.table_id ≡ self.now }
        requires first { 0 < first.old.me.0.next }
        requires few { first.old.me.0.next < SEATS_MAX }
        ensures own { (first.new.table_id ≡ first.old.table_id) × (result.table_id ≡ first.old.table_id) }
        ensures first { first.new.me ≡ (split_left first.old.me.0, first.old.me.1) }
        ensures new { result.me ≡ (split_right first.old.me.0, []) }
    {
        self.table.shared.split_seat::<Share>(first)
    }

    /// The length of the history. What the seat has joined begins what it has seen.
    pub fn seen(&self, place: &mut Place<E, D>) -> u64
        requires { place.old.table_id ≡ self.now }
        ensures length { length place.old.me.0.seen ≤ result }
        ensures few { result ≤ HISTORY_MAX }
        ensures olds { Every (λ xs. IsPrefix xs place.old.me.0.seen) place.old.me.0.olds }
        ensures place { (place.new.table_id ≡ place.old.table_id) × (place.new.me ≡ place.old.me) }
    {
        self.table.shared.load::<Read>(place, COUNT)
    }

    /// A note of what a seat has seen.
    pub fn note(&self, place: &mut Place<E, D>) -> Place<E, D>
        requires { place.old.table_id ≡ self.now }
        ensures own { (place.new.table_id ≡ place.old.table_id) × (result.table_id ≡ place.old.table_id) }
        ensures place { place.new.me ≡ place.old.me }
        ensures note { result.me ≡ (note_of place.old.me.0.seen, []) }
    {
        self.table.shared.split_seat::<Note>(place)
    }

    /// A seat without a ticket joins a note: it has seen the longer of both then.
    pub fn join(&self, place: &mut Place<E, D>, note: Place<E, D>)
        requires own { (place.old.table_id ≡ self.now) × (note.table_id ≡ self.now) }
        requires out { place.old.me.0.stage ≡ Out }
        requires note { (seen : List E) × (note.me ≡ (note_of seen, [])) }
        ensures own { place.new.table_id ≡ place.old.table_id }
        ensures joined { place.new.me ≡ (joined place.old.me.0 note.me.0, place.old.me.1) }
    {
        self.table.shared.join_seat::<Note>(place, note);
    }

    /// Draws a ticket.
    pub fn draw(&self, place: &mut Place<E, D>) -> u64
        requires own { place.old.table_id ≡ self.now }
        requires may { MayDraw place.old.me }
        ensures own { place.new.table_id ≡ place.old.table_id }
        ensures drawn { (place.new.me.0 ≡ drawn place.old.me.0 result) × (place.new.me.1 ≡ place.old.me.1) }
    {
        self.table.shared.fetch_add::<Draw>(place, TICKET, 1)
    }

    /// The ticket that is served. Where it is the seat's own, the seat has the turn, with the value in its slot.
    pub fn look(&self, place: &mut Place<E, D>) -> u64
        requires own { place.old.table_id ≡ self.now }
        requires waits { (ticket : ℕ) × IsWaiting place.old.me ticket }
        ensures own { place.new.table_id ≡ place.old.table_id }
        ensures turn { result ≡ ticket_in place.old.me.0.stage → HasTurn D.history D.seat place.old.me place.new.me }
        ensures others { ¬ (result ≡ ticket_in place.old.me.0.stage) → place.new.me ≡ place.old.me }
    {
        self.table.shared.load::<Look>(place, SERVING)
    }

    /// Sleeps while this ticket is served, until a turn is left.
    pub fn park<R: Wait>(&self, rt: &R, served: u64) {
        self.table
            .shared
            .park(rt, SERVING, (served & 0xffff_ffff) as u32);
    }

    /// Takes the value out of its slot.
    pub fn take(&self, place: &mut Place<E, D>) -> D
        requires own { place.old.table_id ≡ self.now }
        requires holds { (d : D) × (place.old.me.1 ≡ (0, Some d) ∷ []) }
        ensures own { place.new.table_id ≡ place.old.table_id }
        ensures taken { (place.old.me.1 ≡ (0, Some result) ∷ []) × (place.new.me ≡ (place.old.me.0, (0, None) ∷ [])) }
    {
        self.table.shared.exchange(place, 0, None).unwrap()
    }

    /// Gives the value back as it was, and leaves the turn to the next ticket.
    pub fn leave_turn(&self, place: &mut Place<E, D>, value: D)
        requires own { place.old.table_id ≡ self.now }
        requires turn { InTurn place.old.me }
        requires same { D.history value ≡ place.old.me.0.whole }
        ensures own { place.new.table_id ≡ place.old.table_id }
        ensures left { place.new.me ≡ (left place.old.me.0, []) }
    {
        let _ = self.table.shared.exchange(place, 0, Some(value));
        self.pass_on(place);
    }

    /// Gives the value back with one entry of the seat more, and leaves the turn to the next ticket.
    pub fn end_turn(&self, place: &mut Place<E, D>, value: D)
        requires own { place.old.table_id ≡ self.now }
        requires turn { InTurn place.old.me }
        requires entry { (e : E) × (D.history value ≡ place.old.me.0.whole ++ e ∷ []) × (D.seat e ≡ place.old.me.0.number) }
        ensures own { place.new.table_id ≡ place.old.table_id }
        ensures left { place.new.me ≡ (left (told D.seat place.old.me.0 (D.history value)), []) }
    {
        let _ = self.table.shared.exchange(place, 0, Some(value));
        self.table.shared.fetch_add::<Append>(place, COUNT, 1);
        self.pass_on(place);
    }

    // Serves the next ticket.
    fn pass_on(&self, place: &mut Place<E, D>)
        requires own { place.old.table_id ≡ self.now }
        requires turn { turns place.old.me.0.stage ≡ 1 }
        requires holds { (d : D) × (place.old.me.1 ≡ (0, Some d) ∷ []) × (D.history d ≡ place.old.me.0.whole) }
        ensures own { place.new.table_id ≡ place.old.table_id }
        ensures left { place.new.me ≡ (left place.old.me.0, []) }
    {
        self.table.shared.fetch_add::<Leave>(place, SERVING, 1);
        self.table.shared.wake_all(SERVING);
    }
}
