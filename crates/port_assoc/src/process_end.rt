//! The associations of a process that ends.
ghost use Rattle.std.specs.Prelude.{◌≡◌, ◌+◌, ◌≤◌, ◌++◌, filter, length};
ghost use Rattle.dk_base.specs.declared.object.Obj.{Obj};
ghost use Rattle.spec_records.specs.Words.{associations_of_process, is_of_other_process, numbers_of, ports_of};
ghost use Rattle.port_assoc.specs.Value.{IsWatched};
ghost use Rattle.port_assoc.specs.Watchers.{room_at};

use crate::table::Table;
use crate::watchers::Watchers;
use dk_base::list::Room;
use dk_base::number::Pid;

/// Those of a process watch no more. Their ports and their numbers follow, in order, what is in the lists. No list of watchers has less
/// room than before.
pub fn end_watches(
    table: &Table,
    watchers: &mut Watchers,
    process: Pid,
    ports: &mut Room<u32>,
    ids: &mut Room<u32>,
)
    requires watched { IsWatched table.now.items watchers.old }
    requires port_room { length table.now.items ≤ ports.old.spare }
    requires id_room { length table.now.items ≤ ids.old.spare }
    ensures watched { IsWatched (filter (is_of_other_process process.0) table.now.items) watchers.new }
    ensures ports { ports.new.items ≡ ports.old.items ++ ports_of (associations_of_process table.now.items process.0) }
    ensures ids { ids.new.items ≡ ids.old.items ++ numbers_of (associations_of_process table.now.items process.0) }
    ensures port_places { length ports.old.items + ports.old.spare ≤ length ports.new.items + ports.new.spare }
    ensures id_places { length ids.old.items + ids.old.spare ≤ length ids.new.items + ids.new.spare }
    ensures room { (o : Obj) → room_at watchers.old o ≤ room_at watchers.new o }
{
    for place in 0..table.len() {
        if let Some(a) = table.at(place) {
            if a.key.process.0 == process.0 {
                ports.push(a.key.port);
                ids.push(a.number);
                watchers.end(a);
            }
        }
    }
}
