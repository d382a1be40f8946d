//! The notices of a kernel, in the order in which they were made.
ghost use Rattle.std.specs.Prelude.{◌≡◌, ◌+◌, ◌<◌, ◌≤◌, ◌++◌, List, [], OnOk, find, get_or, length};
ghost use Rattle.spec_records.specs.declared.record.Door.{Door};
ghost use Rattle.spec_records.specs.declared.record.Notice.{Notice};
ghost use Rattle.spec_records.specs.Words.{AnswersAs, end_notice, enter_notice, give_notice, has_notice, is_given_notice_as, kept_notices, left_notices, make_notice};
ghost use Rattle.unref_notice.specs.Left.{AreAllLeft, ExitPath, IsAllEntered, takes_many_in};
ghost use Rattle.unref_notice.specs.declared.notices.TheConstants.{NOTICES_MAX};

use crate::change::{end_at, enter_given, give_waiting, place_entered};
use crate::door_counts::DoorCounts;
use crate::leave::{holds, keep, leave_all};
use dk_base::error::NoMemory;
use dk_base::number::Tid;
use dk_base::object::Item;
use spec_records::record::{Notice, NoticeStage};
use std::alloc::Global;
use std::collections::VecDeque;
use std::marker::Model;

/// The greatest number of a notice.
pub const NOTICES_MAX: u32 = u32::MAX;

/// Unreferenced notices, in the order in which they were made, and how many were made in all. Clauses see both (`list`), and
/// how many more take no memory (`spare`). Their numbers go up, so a notice is found by its number in a binary search; one that is
/// forgotten moves those on the shorter side of it by a place.
#[derive(Drop)]
pub struct Notices {
    made: u32,
    notices: VecDeque<Notice>,
    /// How many of them each door has.
    of_doors: DoorCounts,
}

impl Model for Notices {
    ghost use Rattle.std.specs.Prelude.{◌-◌, map, min};
    ghost use Rattle.std.specs.VecDeque.{deque_len, deque_capacity};
    ghost use Rattle.spec_records.specs.Words.{IsAscending, notice_number};
    ghost use Rattle.unref_notice.specs.DoorCounts.{CountsDoors, door_in};
    ghost use Rattle.unref_notice.specs.Words.{NoticesValue};

    ghost Value = { NoticesValue };

    ghost view = { λ s. record { list = record { made = s.made; notices = s.notices.items }; spare = min (deque_capacity s.notices - deque_len s.notices) s.of_doors.spare } };

    ghost invariant = { λ s. IsAscending notice_number 0 s.made s.notices.items × CountsDoors s.of_doors.entries (map door_in s.notices.items) };
}

impl Notices {
    /// No notice was made, and there is no room.
    pub fn new(alloc: Global) -> Self
        ensures { result.list ≡ record { made = 0; notices = [] } }
    {
        Notices {
            made: 0,
            notices: VecDeque::from_vec(Vec::new(alloc)),
            of_doors: DoorCounts::new(alloc),
        }
    }

    /// Room for so many more notices. Want of memory leaves the notices as they were.
    pub fn reserve(&mut self, n: usize) -> Result<(), NoMemory>
        ensures list { self.new.list ≡ self.old.list }
        ensures kept { self.old.spare ≤ self.new.spare }
        ensures room { OnOk result (n ≤ self.new.spare) }
    {
        self.of_doors.reserve(n)?;
        match self.notices.reserve(n) {
            Ok(()) => Ok(()),
            Err(_) => Err(NoMemory),
        }
    }

    /// How many notices there are.
    pub fn len(&self) -> usize
        ensures { result ≡ length self.now.list.notices }
    {
        self.notices.len()
    }

    /// The notice at a place, in the order in which they were made.
    pub fn at(&self, place: usize) -> Notice
        requires { place < length self.now.list.notices }
        ensures { (d : Notice) → result ≡ get_or self.now.list.notices place d }
    {
        self.notices[place]
    }

    /// Whether a door ever had a notice, of a door that has at most one; of another whether it has one that is not past.
    pub fn has(&self, d: u32) -> bool
        ensures { result ≡ has_notice self.now.list d }
    {
        self.of_doors.count(d) > 0
    }

    /// Another notice of a door is made at this event, after the others, and its number is answered. It takes no memory.
    pub fn make(&mut self, d: u32, now: u64) -> u32
        requires room { 0 < self.old.spare }
        requires numbers { self.old.list.made < NOTICES_MAX }
        ensures list { self.new.list ≡ make_notice self.old.list now d }
        ensures number { result ≡ self.old.list.made + 1 }
        ensures spare { self.old.spare ≤ self.new.spare + 1 }
    {
        self.made += 1;
        self.of_doors.add(d);
        self.notices.push_back_reserved(Notice {
            number: self.made,
            made: now,
            door: d,
            stage: NoticeStage::Waiting,
        });
        self.made
    }

    /// A waiting notice is given to a thread. Where no notice of the number waits, nothing changes.
    pub fn give(&mut self, n: u32, t: Tid)
        ensures list { self.new.list ≡ give_notice self.old.list n t.0 }
        ensures spare { self.new.spare ≡ self.old.spare }
    {
        give_waiting(&mut self.notices, n, t);
    }

    /// A thread enters the notice that it was given. The record as it was is handed out. Where the thread was not given the notice,
    /// nothing changes.
    pub fn enter(&mut self, n: u32, t: Tid) -> Option<Notice>
        ensures before { result ≡ find (is_given_notice_as n t.0) self.old.list.notices }
        ensures list { self.new.list ≡ enter_notice self.old.list n t.0 }
        ensures spare { self.new.spare ≡ self.old.spare }
    {
        enter_given(&mut self.notices, n, t)
    }

    /// The notice that a thread has entered, which the item is that it serves, is over, and is forgotten where its door may have
    /// others, of which the test tells by the door's number. Where the thread has entered none, nothing changes.
    pub fn end<M: Fn(u32) -> bool>(&mut self, serves: Option<Item>, t: Tid, takes_many: M)
        ghost doors: { List Door }
        requires many { M.IsAlwaysCallable takes_many }
        requires many_as { AnswersAs (M.post takes_many) (takes_many_in doors) }
        requires entered { IsAllEntered serves t.0 self.old.list.notices }
        requires kept { kept_notices doors self.old.list ≡ self.old.list }
        ensures list { self.new.list ≡ kept_notices doors (end_notice self.old.list t.0) }
        ensures spare { self.old.spare ≤ self.new.spare }
    {
        let Some(place) = place_entered(&self.notices, serves, t) else {
            return;
        };
        let door = self.notices[place].door;
        if holds(&takes_many, door) {
            self.notices.remove(place);
            self.of_doors.take(door);
        } else {
            end_at(&mut self.notices, place);
        }
    }

    /// What becomes of the notices where threads end and doors are lost, of which the tests tell by number: of threads, and of doors.
    /// The notices that those threads have, or that wait at those doors, are among these items, in two lists. Those that are past then
    /// are forgotten, where their doors may have others. No other is looked at.
    pub fn leave<E: Fn(u32) -> bool, L: Fn(u32) -> bool, M: Fn(u32) -> bool>(
        &mut self,
        waiting: &[Item],
        held: &[Item],
        ends: E,
        loses: L,
        takes_many: M,
    )
        ghost path: { ExitPath }
        requires ends { E.IsAlwaysCallable ends }
        requires loses { L.IsAlwaysCallable loses }
        requires many { M.IsAlwaysCallable takes_many }
        requires ends_as { AnswersAs (E.post ends) path.who.ends }
        requires loses_as { AnswersAs (L.post loses) path.who.loses }
        requires many_as { AnswersAs (M.post takes_many) (takes_many_in path.doors) }
        requires left { AreAllLeft path.who (waiting.now ++ held.now) self.old.list.notices }
        requires kept { kept_notices path.doors self.old.list ≡ self.old.list }
        ensures list { self.new.list ≡ kept_notices path.doors (left_notices path.who self.old.list) }
        ensures spare { self.old.spare ≤ self.new.spare }
    {
        leave_all(&mut self.notices, waiting, &ends, &loses);
        leave_all(&mut self.notices, held, &ends, &loses);
        keep(&mut self.notices, &mut self.of_doors, waiting, &takes_many);
        keep(&mut self.notices, &mut self.of_doors, held, &takes_many);
    }
}
