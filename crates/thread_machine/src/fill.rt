//! Lists that are filled within their fixed room.
ghost use Rattle.std.specs.Prelude.{◌≡◌, ◌+◌, ◌≤◌, length, take};
ghost use Rattle.dk_base.specs.Words.{RoomValue};

use dk_base::list::Room;

/// As many of the first items.
pub fn first_items<T>(items: &[T], most: usize) -> &[T]
    ensures { result.now ≡ take most items.now }
{
    if items.len() <= most {
        return items;
    }
    &items[..most]
}

/// A list of fixed room has these items. It takes no memory.
pub fn fill<T: Copy + Drop>(room: &mut Room<T>, items: &[T])
    requires { length items.now ≤ length room.old.items + room.old.spare }
    ensures items { room.new.items ≡ items.now }
    ensures spare { length room.old.items + room.old.spare ≤ length room.new.items + room.new.spare }
{
    room.clear();
    if !items.is_empty() {
        room.append(items);
    }
}
