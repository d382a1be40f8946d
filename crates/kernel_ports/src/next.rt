//! Which association fires next.
ghost use Rattle.std.specs.Prelude.{◌≡◌};
ghost use Rattle.spec_records.specs.Words.{IsAscending, association_number};
ghost use Rattle.kernel_ports.specs.Firing.{IsNext, earlier};

use crate::changed::Changed;
use port_assoc::assocs::Assocs;

/// A changed object, and the number of the first association that it fires.
#[derive(Clone, Copy)]
pub struct Next {
    pub number: u32,
    pub changed: Changed,
}

/// What is next of what was next so far and of another object, by the number of the first that it fires, if it fires one.
fn earlier(next: Option<Next>, number: Option<u32>, changed: Changed) -> Option<Next>
    ensures { result ≡ earlier next number changed }
{
    let Some(number) = number else {
        return next;
    };
    match next {
        Some(first) if first.number <= number => next,
        _ => Some(Next { number, changed }),
    }
}

/// The object that fires the first association of all that these objects fire, if they fire one.
pub fn next_told(assocs: &Assocs, changed: &[Changed]) -> Option<Changed>
    ensures { IsNext assocs.now.list.associations changed.now result }
{
    // its clause says here that the numbers of associations go up
    assocs.made();
    let mut next = None;
    for c in changed {
        let number = assocs.first_told(c.object, c.ready);
        next = earlier(next, number, *c);
    }
    let first = next?;
    Some(first.changed)
}
