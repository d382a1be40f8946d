//! What becomes of notices where server threads end and doors become invalid, and which are kept.
ghost use Rattle.std.specs.Prelude.{◌≡◌, ◌≤◌, ℕ, [], ◌∷◌, Bool, List, filter, map};
ghost use Rattle.std.specs.VecDeque.{deque_capacity, deque_len};
ghost use Rattle.spec_records.specs.declared.record.Door.{Door};
ghost use Rattle.spec_records.specs.declared.record.NoticeStage.TheVariants as notice;
ghost use Rattle.spec_records.specs.Words.{AnswersAs, IsAscending, Leaving, is_kept_notice, left_notice, notice_number};
ghost use Rattle.unref_notice.specs.DoorCounts.{CountsDoors, door_in};
ghost use Rattle.unref_notice.specs.Left.{is_kept_among, left_among, takes_many_in};

use crate::change::place_of_item;
use crate::door_counts::DoorCounts;
use crate::stage::is_past;
use dk_base::object::Item;
use spec_records::record::{Notice, NoticeStage};
use std::collections::VecDeque;

/// What a test answers of a number.
pub fn holds<F: Fn(u32) -> bool>(test: &F, number: u32) -> bool
    requires { F.IsAlwaysCallable test.now }
    ensures { (f : ℕ → Bool) → AnswersAs (F.post test.now) f → result ≡ f number }
{
    test(number)
}

/// What becomes of one notice: one that waits is dropped with its door, and one that a thread was given or has entered is over with
/// the thread.
fn leave_notice<E: Fn(u32) -> bool, L: Fn(u32) -> bool>(notice: &mut Notice, ends: &E, loses: &L)
    requires ends { E.IsAlwaysCallable ends.now }
    requires loses { L.IsAlwaysCallable loses.now }
    ensures left { (who : Leaving) → AnswersAs (E.post ends.now) who.ends → AnswersAs (L.post loses.now) who.loses → notice.new ≡ left_notice who notice.old }
    ensures number { notice.new.number ≡ notice.old.number }
    ensures door { notice.new.door ≡ notice.old.door }
{
    match notice.stage {
        NoticeStage::Waiting => {
            if holds(loses, notice.door) {
                notice.stage = NoticeStage::Dropped;
            }
        }
        NoticeStage::Given { to } => {
            if holds(ends, to.0) {
                notice.stage = NoticeStage::Over;
            }
        }
        NoticeStage::Entered { by } => {
            if holds(ends, by.0) {
                notice.stage = NoticeStage::Over;
            }
        }
        _ => {}
    }
}

/// What becomes of the notice that an item is.
fn leave_item<E: Fn(u32) -> bool, L: Fn(u32) -> bool>(
    notices: &mut VecDeque<Notice>,
    item: Item,
    ends: &E,
    loses: &L,
)
    requires ends { E.IsAlwaysCallable ends.now }
    requires loses { L.IsAlwaysCallable loses.now }
    requires order { (made : ℕ) × IsAscending notice_number 0 made notices.old.items }
    ensures order { (made : ℕ) → IsAscending notice_number 0 made notices.old.items → IsAscending notice_number 0 made notices.new.items }
    ensures doors { map door_in notices.new.items ≡ map door_in notices.old.items }
    ensures notices { (who : Leaving) → AnswersAs (E.post ends.now) who.ends → AnswersAs (L.post loses.now) who.loses → notices.new.items ≡ map (left_among who (item ∷ [])) notices.old.items }
    ensures len { deque_len notices.new ≡ deque_len notices.old }
    ensures capacity { deque_capacity notices.new ≡ deque_capacity notices.old }
{
    if let Some(place) = place_of_item(notices, item) {
        let notice = &mut notices[place];
        leave_notice(notice, ends, loses);
    }
}

/// What becomes of the notices among these items.
pub fn leave_all<E: Fn(u32) -> bool, L: Fn(u32) -> bool>(
    notices: &mut VecDeque<Notice>,
    items: &[Item],
    ends: &E,
    loses: &L,
)
    requires ends { E.IsAlwaysCallable ends.now }
    requires loses { L.IsAlwaysCallable loses.now }
    requires order { (made : ℕ) × IsAscending notice_number 0 made notices.old.items }
    ensures notices { (who : Leaving) → AnswersAs (E.post ends.now) who.ends → AnswersAs (L.post loses.now) who.loses → notices.new.items ≡ map (left_among who items.now) notices.old.items }
    ensures order { (made : ℕ) → IsAscending notice_number 0 made notices.old.items → IsAscending notice_number 0 made notices.new.items }
    ensures doors { map door_in notices.new.items ≡ map door_in notices.old.items }
    ensures len { deque_len notices.new ≡ deque_len notices.old }
    ensures capacity { deque_capacity notices.new ≡ deque_capacity notices.old }
{
    for item in items {
        leave_item(notices, *item, ends, loses);
    }
}

/// Whether a notice is kept: it waits or a thread has it, or its door has at most one.
fn is_kept<M: Fn(u32) -> bool>(takes_many: &M, notice: &Notice) -> bool
    requires { M.IsAlwaysCallable takes_many.now }
    ensures { (doors : List Door) → AnswersAs (M.post takes_many.now) (takes_many_in doors) → result ≡ is_kept_notice doors notice.now }
{
    !is_past(notice.stage) || !holds(takes_many, notice.door)
}

/// The notice that an item is, is taken out where it is past, unless its door has at most one.
fn keep_item<M: Fn(u32) -> bool>(
    notices: &mut VecDeque<Notice>,
    of_doors: &mut DoorCounts,
    item: Item,
    takes_many: &M,
)
    requires many { M.IsAlwaysCallable takes_many.now }
    requires order { (made : ℕ) × IsAscending notice_number 0 made notices.old.items }
    ensures items { (doors : List Door) → AnswersAs (M.post takes_many.now) (takes_many_in doors) → notices.new.items ≡ filter (is_kept_among (is_kept_notice doors) (item ∷ [])) notices.old.items }
    ensures order { (made : ℕ) → IsAscending notice_number 0 made notices.old.items → IsAscending notice_number 0 made notices.new.items }
    ensures counted { CountsDoors of_doors.old.entries (map door_in notices.old.items) → CountsDoors of_doors.new.entries (map door_in notices.new.items) }
    ensures spare { of_doors.old.spare ≤ of_doors.new.spare }
    ensures fewer { deque_len notices.new ≤ deque_len notices.old }
    ensures capacity { deque_capacity notices.new ≡ deque_capacity notices.old }
{
    if let Some(place) = place_of_item(notices, item) {
        let notice = notices[place];
        if !is_kept(takes_many, &notice) {
            notices.remove(place);
            of_doors.take(notice.door);
        }
    }
}

/// The notices among these items that are past are taken out, but for those of doors that have at most one.
pub fn keep<M: Fn(u32) -> bool>(
    notices: &mut VecDeque<Notice>,
    of_doors: &mut DoorCounts,
    items: &[Item],
    takes_many: &M,
)
    requires many { M.IsAlwaysCallable takes_many.now }
    requires order { (made : ℕ) × IsAscending notice_number 0 made notices.old.items }
    ensures items { (doors : List Door) → AnswersAs (M.post takes_many.now) (takes_many_in doors) → notices.new.items ≡ filter (is_kept_among (is_kept_notice doors) items.now) notices.old.items }
    ensures order { (made : ℕ) → IsAscending notice_number 0 made notices.old.items → IsAscending notice_number 0 made notices.new.items }
    ensures counted { CountsDoors of_doors.old.entries (map door_in notices.old.items) → CountsDoors of_doors.new.entries (map door_in notices.new.items) }
    ensures spare { of_doors.old.spare ≤ of_doors.new.spare }
    ensures fewer { deque_len notices.new ≤ deque_len notices.old }
    ensures capacity { deque_capacity notices.new ≡ deque_capacity notices.old }
{
    for item in items {
        keep_item(notices, of_doors, *item, takes_many);
    }
}
