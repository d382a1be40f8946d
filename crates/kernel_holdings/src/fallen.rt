//! Doors that have fallen to one reference, of which those are told that take notices.
ghost use Rattle.std.specs.Prelude.{◌≡◌, ◌≤◌, ◌++◌, filter, length};
ghost use Rattle.kernel_holdings.specs.Words.{takes};

use dk_base::list::Room;
use door_object::doors::Doors;

/// Those of these doors that take notices follow what is in `into`.
pub fn tell(fallen: &[u32], doors: &Doors, into: &mut Room<u32>)
    requires { length (filter (takes doors.now.items) fallen.now) ≤ into.old.spare }
    ensures { into.new.items ≡ into.old.items ++ filter (takes doors.now.items) fallen.now }
{
    for d in fallen {
        if doors.takes_notices(*d) {
            into.push(*d);
        }
    }
}
