//! What the map finds timers by.
ghost use Rattle.std.specs.Prelude.{◌≡◌};
ghost use Rattle.timer_src.specs.Keys.{key_at};

use dk_base::number::Pid;

/// By what a timer is known to its process.
#[derive(Clone, Copy, PartialEq, Eq, Hash, Drop)]
pub struct Key {
    pub process: u32,
    pub id: u32,
}

pub fn key_at(process: Pid, id: u32) -> Key
    ensures { result ≡ key_at process.0 id }
{
    Key {
        process: process.0,
        id,
    }
}
