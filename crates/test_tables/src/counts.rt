//! References of objects: they come and go, and doors that fall to one reference in a step are told, and ends of pipes that fall to none.
ghost use Rattle.std.specs.Prelude.{◌≡◌, ◌≤◌, true, []};

use dk_base::list::Room;
use dk_base::object::Obj;
use std::alloc::Global;
use unref_notice::counts::{Counts, STEP_MAX};

/// A door, and the number of a port and of a pipe.
const FIRST: u32 = 1;

/// Another door.
const SECOND: u32 = 2;

/// Whether a step begins, in which references may come and go eight times.
fn is_begun(counts: &mut Counts) -> bool
    ensures counts { counts.new.counts ≡ counts.old.counts }
    ensures left { result ≡ true → 8 ≤ counts.new.left }
{
    counts.start_step();
    counts.room(8).is_ok()
}

/// Whether two references to each of two doors, to a port and to the reading end of a pipe are counted apart.
fn rise_to_two(counts: &mut Counts) -> bool
    requires none { counts.old.counts ≡ [] }
    requires left { 8 ≤ counts.old.left }
{
    counts.up_all(&[
        Obj::Door(FIRST),
        Obj::Door(FIRST),
        Obj::Door(SECOND),
        Obj::Door(SECOND),
        Obj::Port(FIRST),
        Obj::Port(FIRST),
        Obj::PipeIn(FIRST),
        Obj::PipeIn(FIRST),
    ]);
    counts.count(Obj::Door(FIRST)) == 2
        && counts.count(Obj::Port(FIRST)) == 2
        && counts.count(Obj::PipeIn(FIRST)) == 2
        && counts.count(Obj::PipeOut(FIRST)) == 0
}

/// Whether there is one reference to each then. There is none to go of the writing end.
fn fall_to_one(counts: &mut Counts) -> bool
    requires { 8 ≤ counts.old.left }
{
    counts.down(Obj::Door(SECOND));
    counts.down_all(&[
        Obj::Door(FIRST),
        Obj::Port(FIRST),
        Obj::PipeIn(FIRST),
        Obj::PipeOut(FIRST),
    ]);
    counts.count(Obj::Door(SECOND)) == 1
        && counts.count(Obj::Port(FIRST)) == 1
        && counts.count(Obj::PipeIn(FIRST)) == 1
        && counts.count(Obj::PipeOut(FIRST)) == 0
}

/// Whether these doors are told at the end of the step.
fn are_told(counts: &mut Counts, expected: &[u32]) -> bool {
    counts.end_of_step();
    counts.fallen() == expected
}

/// Whether the second step tells both doors, in order, and neither the port nor the pipe, and the third step none.
fn are_told_once(counts: &mut Counts) -> bool {
    if !(is_begun(counts) && fall_to_one(counts) && are_told(counts, &[FIRST, SECOND])) {
        return false;
    }
    is_begun(counts) && are_told(counts, &[])
}

/// Whether these ends of pipes have lost their references in the step.
fn are_gone(alloc: Global, counts: &Counts, expected: &[Obj]) -> bool {
    let Ok(mut gone) = Room::with_room(alloc, STEP_MAX) else {
        return false;
    };
    counts.gone(&mut gone);
    gone.slice() == expected
}

/// Whether a step that takes the last reference of a door, of a port and of the reading end of a pipe tells the end alone, and
/// the next step does not tell it again.
fn are_gone_once(alloc: Global, counts: &mut Counts) -> bool {
    if !is_begun(counts) || !are_gone(alloc, counts, &[]) {
        return false;
    }
    counts.down_all(&[
        Obj::Door(FIRST),
        Obj::PipeIn(FIRST),
        Obj::Port(FIRST),
        Obj::PipeOut(FIRST),
    ]);
    if !are_gone(alloc, counts, &[Obj::PipeIn(FIRST)]) || !is_begun(counts) {
        return false;
    }
    counts.count(Obj::PipeIn(FIRST)) == 0 && are_gone(alloc, counts, &[])
}

/// Whether each step tells what falls in it, and what is gone by it.
fn are_told_in_steps(alloc: Global, counts: &mut Counts) -> bool
    requires { counts.old.counts ≡ [] }
{
    is_begun(counts)
        && rise_to_two(counts)
        && are_told(counts, &[])
        && are_told_once(counts)
        && are_gone_once(alloc, counts)
}

/// The same of new counts.
fn are_told_from_the_first_on(alloc: Global) -> bool {
    let mut counts = Counts::new(alloc);
    are_told_in_steps(alloc, &mut counts)
}

#[test]
fn doors_that_fall_to_one_reference_are_told(rt: HostRuntime) {
    assert!(rt; are_told_from_the_first_on(rt.alloc()));
}
