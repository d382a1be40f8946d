//! Notices by their numbers, and how they go on to their next stage.
ghost use Rattle.std.specs.Prelude.{◌≡◌, ℕ, ◌<◌, IfSome, find, get_or, map, position, set};
ghost use Rattle.std.specs.VecDeque.{deque_capacity, deque_len};
ghost use Rattle.spec_records.specs.declared.record.Notice.{Notice};
ghost use Rattle.spec_records.specs.declared.record.NoticeStage.TheVariants as stage;
ghost use Rattle.spec_records.specs.Words.{IsAscending, change_first, is_given_notice_as, is_notice_entered_by, is_numbered, is_waiting_notice_as, notice_at, notice_number, tid};
ghost use Rattle.unref_notice.specs.DoorCounts.{door_in};
ghost use Rattle.unref_notice.specs.Left.{IsAllEntered, is_notice_as, noticed_by};

use crate::stage::{is_entered_by, is_given_to, is_waiting};
use dk_base::number::Tid;
use dk_base::object::Item;
use spec_records::record::{Notice, NoticeStage};
use std::collections::VecDeque;

fn move_on(notice: &mut Notice, stage: NoticeStage)
    ensures { notice.new ≡ notice_at stage notice.old }
{
    notice.stage = stage;
}

/// The place of the notice of a number, among notices in order of number.
pub fn place_of(notices: &VecDeque<Notice>, n: u32) -> Option<usize>
    requires { (made : ℕ) × IsAscending notice_number 0 made notices.now.items }
    ensures { result ≡ position (is_numbered notice_number n) notices.now.items }
{
    let place = notices.partition_point(|notice| notice.number < n);
    if place < notices.len() && notices[place].number == n {
        Some(place)
    } else {
        None
    }
}

/// The number of the notice that an item is, if it is one.
fn number_of(item: Item) -> Option<u32>
    ensures { result ≡ noticed_by item }
{
    match item {
        Item::Notice(n) => Some(n),
        Item::Call(_) => None,
    }
}

/// The place of the notice that an item is, if it is one.
pub fn place_of_item(notices: &VecDeque<Notice>, item: Item) -> Option<usize>
    requires { (made : ℕ) × IsAscending notice_number 0 made notices.now.items }
    ensures { result ≡ position (is_notice_as item) notices.now.items }
{
    let n = number_of(item)?;
    place_of(notices, n)
}

/// The place of notice `n`, where it waits for a server thread.
fn place_waiting(notices: &VecDeque<Notice>, n: u32) -> Option<usize>
    requires { (made : ℕ) × IsAscending notice_number 0 made notices.now.items }
    ensures { result ≡ position (is_waiting_notice_as n) notices.now.items }
{
    let place = place_of(notices, n)?;
    if is_waiting(notices[place].stage) {
        Some(place)
    } else {
        None
    }
}

/// The place of notice `n`, where it was given to the thread.
fn place_given(notices: &VecDeque<Notice>, n: u32, t: Tid) -> Option<usize>
    requires { (made : ℕ) × IsAscending notice_number 0 made notices.now.items }
    ensures { result ≡ position (is_given_notice_as n t.0) notices.now.items }
{
    let place = place_of(notices, n)?;
    if is_given_to(notices[place].stage, t) {
        Some(place)
    } else {
        None
    }
}

/// The place of the notice that a thread has entered, if that is what it serves.
pub fn place_entered(notices: &VecDeque<Notice>, serves: Option<Item>, t: Tid) -> Option<usize>
    requires { (made : ℕ) × IsAscending notice_number 0 made notices.now.items }
    ensures place { IsAllEntered serves t.0 notices.now.items → result ≡ position (is_notice_entered_by t.0) notices.now.items }
    ensures bound { IfSome result (λ i. i < deque_len notices.now) }
{
    let place = place_of_item(notices, serves?)?;
    if is_entered_by(notices[place].stage, t) {
        Some(place)
    } else {
        None
    }
}

/// A waiting notice is given to a thread.
pub fn give_waiting(notices: &mut VecDeque<Notice>, n: u32, t: Tid)
    requires { (made : ℕ) × IsAscending notice_number 0 made notices.old.items }
    ensures changed { notices.new.items ≡ change_first (is_waiting_notice_as n) (notice_at (stage.Given (tid t.0))) notices.old.items }
    ensures doors { map door_in notices.new.items ≡ map door_in notices.old.items }
    ensures len { deque_len notices.new ≡ deque_len notices.old }
    ensures capacity { deque_capacity notices.new ≡ deque_capacity notices.old }
{
    if let Some(place) = place_waiting(notices, n) {
        let notice = &mut notices[place];
        move_on(notice, NoticeStage::Given { to: t });
    }
}

/// A thread enters the notice that it was given. The record as it was is handed out.
pub fn enter_given(notices: &mut VecDeque<Notice>, n: u32, t: Tid) -> Option<Notice>
    requires { (made : ℕ) × IsAscending notice_number 0 made notices.old.items }
    ensures before { result ≡ find (is_given_notice_as n t.0) notices.old.items }
    ensures changed { notices.new.items ≡ change_first (is_given_notice_as n t.0) (notice_at (stage.Entered (tid t.0))) notices.old.items }
    ensures doors { map door_in notices.new.items ≡ map door_in notices.old.items }
    ensures len { deque_len notices.new ≡ deque_len notices.old }
    ensures capacity { deque_capacity notices.new ≡ deque_capacity notices.old }
{
    let Some(place) = place_given(notices, n, t) else {
        return None;
    };
    let notice = &mut notices[place];
    let before = *notice;
    move_on(notice, NoticeStage::Entered { by: t });
    Some(before)
}

/// The notice at a place is over.
pub fn end_at(notices: &mut VecDeque<Notice>, place: usize)
    requires { place < deque_len notices.old }
    ensures changed { (d : Notice) → notices.new.items ≡ set notices.old.items place (notice_at stage.Over (get_or notices.old.items place d)) }
    ensures doors { map door_in notices.new.items ≡ map door_in notices.old.items }
    ensures len { deque_len notices.new ≡ deque_len notices.old }
    ensures capacity { deque_capacity notices.new ≡ deque_capacity notices.old }
{
    let notice = &mut notices[place];
    move_on(notice, NoticeStage::Over);
}
