//! Two host threads, each with the seat of its own process.
ghost use Rattle.std.specs.Prelude.{◌≡◌, ◌≤◌};

use crate::caller::{Caller, is_replied};
use crate::calls::{Asks, Gives};
use dk_base::number::Tid;
use std::thread::{Threads, join};

/// Whether a hundred doors have the descriptors 0 to 99, in order.
fn are_created<C: Caller>(caller: &mut C) -> bool
    ensures table { C.table caller.new ≡ C.table caller.old }
{
    for i in 0..100u32 {
        if !is_replied(caller, Asks::Create, Gives::NewFd(i)) {
            return false;
        }
    }
    true
}

fn creates<C: Caller>(mut caller: C) -> (C, bool)
    ensures table { C.table result.0 ≡ C.table caller }
{
    let right = are_created(&mut caller);
    (caller, right)
}

/// Whether both see all calls, and can meet.
fn meet<C: Caller>(a: &mut C, b: &mut C) -> bool
    requires tables { C.table a.old ≡ C.table b.old }
{
    a.seen() == 200 && b.seen() == 200 && a.meets(b)
}

/// Whether two seats make their doors at the same time, see all calls, and can meet.
pub fn both_create<R: Threads, C: Caller + Send + Drop>(rt: &R, first: &mut C) -> bool
    requires threads { 2 ≤ C.threads }
{
    let Some(a) = first.split(Tid(1)) else {
        return false;
    };
    let Some(b) = first.split(Tid(2)) else {
        return false;
    };
    let ((mut a, by_a), (mut b, by_b)) = join(rt, || creates(a), || creates(b));
    by_a & by_b & meet(&mut a, &mut b)
}
