//! How a seat comes to its turn, and how two seats meet.
ghost use Rattle.std.specs.Prelude.{◌≡◌};
ghost use mathlib.Core.List.{IsPrefix};
ghost use Rattle.seat_table.specs.declared.view.Stage.TheVariants.{Out};
ghost use Rattle.seat_table.specs.Rule.{HasTurn, IsWaiting, MayDraw, TakesTurn, joined, note_of};

use crate::Recorded;
use crate::table::{Place, SeatTable};
use std::sync::Wait;

/// Draws a ticket, waits until it is served, and takes the value.
pub fn take_turn<E, D: Recorded<E> + Drop, R: Wait>(
    table: &SeatTable<E, D>,
    rt: &R,
    place: &mut Place<E, D>,
) -> D
    requires own { place.old.table_id ≡ table.now }
    requires may { MayDraw place.old.me }
    ensures own { place.new.table_id ≡ place.old.table_id }
    ensures turn { TakesTurn D.history D.seat place.old.me place.new.me result }
{
    let ticket = table.draw(place);
    wait_turn(table, rt, place, ticket);
    table.take(place)
}

// Waits until the ticket is served: parked, and woken where a turn is left.
fn wait_turn<E, D: Recorded<E> + Drop, R: Wait>(
    table: &SeatTable<E, D>,
    rt: &R,
    place: &mut Place<E, D>,
    ticket: u64,
)
    requires own { place.old.table_id ≡ table.now }
    requires waits { IsWaiting place.old.me ticket }
    ensures own { place.new.table_id ≡ place.old.table_id }
    ensures turn { HasTurn D.history D.seat place.old.me place.new.me }
{
    for _ in rt.forever() {
        let serving = table.look(place);
        if serving == ticket {
            return;
        }
        table.park(rt, serving);
    }
    unreachable!()
}

/// What either seat has seen begins what the first has seen now, which is the longer of both.
pub fn meet<E, D: Recorded<E> + Drop>(
    table: &SeatTable<E, D>,
    a: &mut Place<E, D>,
    b: &mut Place<E, D>,
)
    requires own { (a.old.table_id ≡ table.now) × (b.old.table_id ≡ table.now) }
    requires out { a.old.me.0.stage ≡ Out }
    ensures own { (a.new.table_id ≡ a.old.table_id) × (b.new.table_id ≡ b.old.table_id) }
    ensures begins { IsPrefix a.old.me.0.seen a.new.me.0.seen × IsPrefix b.old.me.0.seen a.new.me.0.seen }
    ensures a { a.new.me ≡ (joined a.old.me.0 (note_of b.old.me.0.seen), a.old.me.1) }
    ensures b { b.new.me ≡ b.old.me }
{
    let note = table.note(b);
    table.join(a, note);
    let _ = table.seen(a);
}
