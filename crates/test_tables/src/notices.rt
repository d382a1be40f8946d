//! Unreferenced notices: one through its stages, at a door that has at most one and at a door that may have more, and what is left
//! of notices where threads end and doors are lost.
ghost use Rattle.std.specs.Prelude.{◌≡◌, ◌==◌, ◌||◌, ◌++◌, [], false, true};
ghost use Rattle.spec_records.specs.Words.{end_notice, enter_notice, give_notice, kept_notices};
ghost use Rattle.unref_notice.specs.Words.{AreAllLeft, IsAllEntered, takes_many_in};

use dk_base::number::{Pid, Tid};
use dk_base::object::Item;
use dk_base::set::Attrs;
use door_object::doors::Doors;
use spec_records::record::NoticeStage;
use std::alloc::Global;
use unref_notice::notices::Notices;

/// The door that has at most one notice.
const ONE: u32 = 1;

/// A door that may have more.
const MANY: u32 = 2;

/// Whether another door is made.
fn is_door_made(doors: &mut Doors, attrs: Attrs) -> bool {
    doors.reserve().is_ok() && doors.count() < 3 && doors.create(Pid(1), 7, 9, attrs).is_ok()
}

/// Whether a notice is given to a thread, which enters it once.
fn is_entered(notices: &mut Notices, n: u32, t: Tid) -> bool
    ensures { notices.new.list ≡ enter_notice (enter_notice (give_notice notices.old.list n t.0) n t.0) n t.0 }
{
    notices.give(n, t);
    let entered = notices.enter(n, t);
    let again = notices.enter(n, t);
    matches!(entered, Some(notice) if notice.number == n) && again.is_none()
}

/// Where the notice at a place stands, if it has this number.
fn stage_at(notices: &Notices, place: usize, number: u32) -> Option<NoticeStage> {
    if place >= notices.len() {
        return None;
    }
    let notice = notices.at(place);
    if notice.number == number {
        Some(notice.stage)
    } else {
        None
    }
}

/// The notice that a thread has entered is over.
fn ends(notices: &mut Notices, doors: &Doors, serves: Option<Item>, t: Tid)
    requires entered { IsAllEntered serves t.0 notices.old.list.notices }
    requires kept { kept_notices doors.now.items notices.old.list ≡ notices.old.list }
    ensures { notices.new.list ≡ kept_notices doors.now.items (end_notice notices.old.list t.0) }
{
    notices.end(serves, t, |d| doors.takes_many(d));
}

/// What is over of a door that has at most one notice stays, so that it has no other; of another door it is forgotten.
fn are_ended(notices: &mut Notices, doors: &Doors) -> bool
    requires none { notices.old.list ≡ record { made = 0; notices = [] } }
    requires one { takes_many_in doors.now.items 1 ≡ false }
    requires many { takes_many_in doors.now.items 2 ≡ true }
{
    if notices.reserve(3).is_err() {
        return false;
    }
    let one = notices.make(ONE, 5);
    let two = notices.make(MANY, 5);
    let three = notices.make(MANY, 5);
    let first = is_entered(notices, 1, Tid(4));
    let second = is_entered(notices, 2, Tid(6));
    ends(notices, doors, Some(Item::Notice(1)), Tid(4));
    ends(notices, doors, Some(Item::Notice(2)), Tid(6));
    ends(notices, doors, None, Tid(6));
    ends(notices, doors, Some(Item::Call(3)), Tid(6));
    (one == 1 && two == 2 && three == 3)
        && (first && second)
        && notices.len() == 2
        && matches!(stage_at(notices, 0, 1), Some(NoticeStage::Over))
        && matches!(stage_at(notices, 1, 3), Some(NoticeStage::Waiting))
        && notices.has(ONE)
}

/// Two doors, the first with DOOR_UNREF, the second with DOOR_UNREF_MULTI.
fn are_doors_made(doors: &mut Doors) -> bool {
    is_door_made(doors, Attrs::UNREF)
        && is_door_made(doors, Attrs::UNREF_MULTI)
        && doors.notice_doors() == [ONE, MANY].as_slice()
}

/// Whether a notice of a door can be made, where it had one and where it had none.
fn may_take(doors: &Doors, d: u32) -> (bool, bool) {
    (
        doors.may_take_notice(d, true),
        doors.may_take_notice(d, false),
    )
}

/// Whether notices of two doors are over, and none can be made of one that is revoked.
fn end_with_invocations(doors: &mut Doors, notices: &mut Notices) -> bool
    requires { notices.old.list ≡ record { made = 0; notices = [] } }
{
    are_doors_made(doors)
        && doors.takes_many(MANY)
        && !doors.takes_many(ONE)
        && may_take(doors, ONE) == (false, true)
        && may_take(doors, MANY) == (true, true)
        && are_ended(notices, doors)
        && doors.revoke(MANY, Pid(1)).is_ok()
        && may_take(doors, MANY) == (false, false)
}

/// The same of new doors and notices.
fn end_from_the_first_on(alloc: Global) -> bool {
    let mut doors = Doors::new(alloc);
    let mut notices = Notices::new(alloc);
    end_with_invocations(&mut doors, &mut notices)
}

#[test]
fn a_notice_ends_with_its_invocation(rt: HostRuntime) {
    assert!(rt; end_from_the_first_on(rt.alloc()));
}

/// Threads 6 and 7 end, and the first door is lost.
fn leaves(notices: &mut Notices, doors: &Doors, waiting: &[Item], held: &[Item])
    requires left { AreAllLeft (record { ends = λ t. (t == 6) || (t == 7); interrupts = λ t. false; loses = λ d. d == 1 }) (waiting.now ++ held.now) notices.old.list.notices }
    requires kept { kept_notices doors.now.items notices.old.list ≡ notices.old.list }
{
    notices.leave(
        waiting,
        held,
        |t| t == 6 || t == 7,
        |d| d == ONE,
        |d| doors.takes_many(d),
    );
}

/// Of four notices, the first waits at a door that is lost, threads that end were given the second and have entered the third, and
/// the fourth waits. Items that name no notice are passed over.
fn are_left(notices: &mut Notices, doors: &Doors) -> bool
    requires { notices.old.list ≡ record { made = 0; notices = [] } }
{
    if notices.reserve(4).is_err() {
        return false;
    }
    notices.make(ONE, 5);
    notices.make(MANY, 5);
    notices.make(MANY, 5);
    let four = notices.make(MANY, 5);
    let entered = is_entered(notices, 3, Tid(7));
    notices.give(2, Tid(6));
    let waiting = [Item::Call(4), Item::Notice(1)];
    let held = [Item::Notice(3), Item::Notice(9), Item::Notice(2)];
    leaves(notices, doors, &waiting, &held);
    (four == 4 && entered)
        && notices.len() == 2
        && matches!(stage_at(notices, 0, 1), Some(NoticeStage::Dropped))
        && matches!(stage_at(notices, 1, 4), Some(NoticeStage::Waiting))
}

/// The same of new notices, once the doors are made.
fn are_left_from_the_first_on(alloc: Global) -> bool {
    let mut doors = Doors::new(alloc);
    let mut notices = Notices::new(alloc);
    are_doors_made(&mut doors) && are_left(&mut notices, &doors)
}

#[test]
fn notices_are_left_by_their_stages(rt: HostRuntime) {
    assert!(rt; are_left_from_the_first_on(rt.alloc()));
}
