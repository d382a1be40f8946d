//! The timers of a process that ends.
ghost use Rattle.std.specs.Prelude.{◌≡◌, ◌+◌, ◌≤◌, ◌++◌, length};
ghost use Rattle.spec_records.specs.Words.{tag_of, tags_of, timers_of};

use crate::table::Table;
use dk_base::list::Room;
use dk_base::number::Pid;
use spec_records::timer::{Tag, Timer};

pub fn tag_of(t: &Timer) -> Tag
    ensures { result ≡ tag_of t.now }
{
    Tag {
        port: t.port,
        number: t.number,
    }
}

/// The tags of the timers of a process follow, in order, what is in `into`. It takes no memory.
pub fn tell_tags(table: &Table, process: Pid, into: &mut Room<Tag>)
    requires { length (timers_of table.now.items process.0) ≤ into.old.spare }
    ensures tags { into.new.items ≡ into.old.items ++ tags_of (timers_of table.now.items process.0) }
    ensures places { length into.old.items + into.old.spare ≤ length into.new.items + into.new.spare }
{
    for place in 0..table.len() {
        if let Some(t) = table.at(place) {
            if t.process.0 == process.0 {
                into.push(tag_of(&t));
            }
        }
    }
}
