//! The memory for associations and timers that end at once.
ghost use Rattle.std.specs.Prelude.{◌≡◌, ℕ, ◌+◌, ◌≤◌, [], OnErr, OnOk, length};
ghost use Rattle.kernel_ports.specs.Ended.{HasRoomToEnd};

use dk_base::error::NoMemory;
use dk_base::list::Room;
use spec_records::timer::Tag;
use std::alloc::Global;

/// Room for the ports and the numbers of the associations that end with a process, and for the tags of its timers.
#[derive(Drop)]
pub struct Ending {
    pub ports: Room<u32>,
    pub ids: Room<u32>,
    pub tags: Room<Tag>,
}

impl Ending {
    /// No room.
    pub fn new(alloc: Global) -> Self
        ensures ports { result.ports.items ≡ [] }
        ensures ids { result.ids.items ≡ [] }
        ensures tags { result.tags.items ≡ [] }
    {
        Ending {
            ports: Room::new(alloc),
            ids: Room::new(alloc),
            tags: Room::new(alloc),
        }
    }

    /// The room that is there is for others.
    pub fn clear(&mut self)
        ensures ports { self.new.ports.items ≡ [] }
        ensures ids { self.new.ids.items ≡ [] }
        ensures tags { self.new.tags.items ≡ [] }
        ensures room { (n m : ℕ) → HasRoomToEnd self.old n m → HasRoomToEnd self.new n m }
        ensures port_places { length self.old.ports.items + self.old.ports.spare ≤ self.new.ports.spare }
        ensures id_places { length self.old.ids.items + self.old.ids.spare ≤ self.new.ids.spare }
        ensures tag_places { length self.old.tags.items + self.old.tags.spare ≤ self.new.tags.spare }
    {
        self.ports.clear();
        self.ids.clear();
        self.tags.clear();
    }

    /// Room for so many associations and so many timers; what was listed goes. Want of memory leaves the lists empty.
    pub fn reserve(&mut self, n: usize, m: usize) -> Result<(), NoMemory>
        ensures room { OnOk result (HasRoomToEnd self.new n m) }
        ensures empty { OnErr result ((self.new.ports.items ≡ []) × (self.new.ids.items ≡ []) × (self.new.tags.items ≡ [])) }
    {
        self.clear();
        self.ports.reserve(n)?;
        self.ids.reserve(n)?;
        self.tags.reserve(m)
    }
}
