//! What is known before an act of what ports are told after it, and the memory for that.
ghost use Rattle.std.specs.Prelude.{◌≡◌, [], OnErr, OnOk};
ghost use Rattle.kernel_store.specs.Telling.{HasRoomToTell, TellsNothing, is_nothing};

use dk_base::error::NoMemory;
use dk_base::list::Room;
use dk_base::number::{Fd, Pid};
use dk_base::object::Obj;
use kernel_ports::changed::Changed;
use kernel_ports::ending::Ending;
use std::alloc::Global;
use unref_notice::counts::STEP_MAX;

/// The rows that an act closes: of a process, one, those of these descriptors, or all. A turn that is refused closes none of them.
#[derive(Drop)]
pub enum ClosedRows {
    Nothing,
    Row(Pid, Fd),
    Rows(Pid, Room<Fd>),
    Process(Pid),
}

impl ClosedRows {
    /// Whether no row is closed.
    pub fn is_nothing(&self) -> bool
        ensures { result ≡ is_nothing self.now }
    {
        matches!(self, ClosedRows::Nothing)
    }
}

/// Room for the ends of pipes that lose their references by an event, for the objects that it changes, and for the associations and
/// timers that end by it.
#[derive(Drop)]
pub struct TellingRooms {
    pub gone: Room<Obj>,
    pub changed: Room<Changed>,
    pub ending: Ending,
}

impl TellingRooms {
    /// No room.
    pub fn new(alloc: Global) -> Self
        ensures gone { result.gone.items ≡ [] }
        ensures changed { result.changed.items ≡ [] }
    {
        TellingRooms {
            gone: Room::new(alloc),
            changed: Room::new(alloc),
            ending: Ending::new(alloc),
        }
    }

    /// Room for what any event can change, where there are so many associations and timers; what was listed goes. Want of memory leaves
    /// the lists empty.
    pub fn reserve(&mut self, associations: usize, timers: usize) -> Result<(), NoMemory>
        ensures room { OnOk result (HasRoomToTell self.new associations timers) }
        ensures empty { OnErr result (TellsNothing self.new) }
    {
        self.gone.clear();
        self.changed.clear();
        self.ending.clear();
        self.gone.reserve(STEP_MAX)?;
        self.changed.reserve(STEP_MAX + 2)?;
        self.ending.reserve(associations, timers)
    }
}
