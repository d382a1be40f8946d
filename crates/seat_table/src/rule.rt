//! The rule of the table, and what each kind of its steps tells. `specs/Rule.antt` says both.
use crate::view::View;
use atomic_table::{Join, Play, Split, TableRule};

/// What turns are taken at: a value with a history of entries, each of which one seat has made.
pub trait Recorded<E> {
    ghost use Rattle.std.specs.Prelude.{ℕ, List};

    ghost history: { Self → List E };

    // The number of the seat that made the entry.
    ghost seat: { E → ℕ };
}

pub struct OneHistory;

impl<E, D: Recorded<E>> TableRule<Option<D>, View<E>, ()> for OneHistory {
    ghost use Rattle.seat_table.specs.Rule.{Kept, opened};

    ghost holds = { λ _. Kept D.history D.seat };

    ghost first = { λ _. opened };
}

/// The first seat splits off another.
pub struct Share;

impl<E> Split<View<E>> for Share {
    ghost use Rattle.seat_table.specs.Rule.{split_left, split_right};

    ghost left = { split_left };

    ghost right = { split_right };
}

/// A seat draws a ticket.
pub struct Draw;

impl<E, D> Play<Option<D>, View<E>> for Draw {
    ghost use Rattle.seat_table.specs.Rule.{Draws};

    ghost then = { Draws };
}

/// It looks which ticket is served.
pub struct Look;

impl<E, D: Recorded<E>> Play<Option<D>, View<E>> for Look {
    ghost use Rattle.seat_table.specs.Rule.{Looks};

    ghost then = { Looks D.history D.seat };
}

/// It appends the last entry of the value that it holds.
pub struct Append;

impl<E, D: Recorded<E>> Play<Option<D>, View<E>> for Append {
    ghost use Rattle.seat_table.specs.Rule.{Appends};

    ghost then = { Appends D.history D.seat };
}

/// It leaves the turn.
pub struct Leave;

impl<E, D> Play<Option<D>, View<E>> for Leave {
    ghost use Rattle.seat_table.specs.Rule.{Leaves};

    ghost then = { Leaves };
}

/// It reads the length of the history.
pub struct Read;

impl<E, D> Play<Option<D>, View<E>> for Read {
    ghost use Rattle.seat_table.specs.Rule.{Reads};

    ghost then = { Reads };
}

/// A note of what a seat has seen is split from it, and joined into another.
pub struct Note;

impl<E> Split<View<E>> for Note {
    ghost use Rattle.seat_table.specs.Rule.{note_of};

    ghost left = { λ v. v };

    ghost right = { λ v. note_of v.seen };
}

impl<E> Join<View<E>> for Note {
    ghost use Rattle.std.specs.Prelude.{[]};
    ghost use Rattle.seat_table.specs.Rule.{joined, note_of};

    ghost both = { joined };

    ghost spent = { note_of [] };
}
