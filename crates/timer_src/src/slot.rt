//! What is kept of a timer under its key.
ghost use Rattle.std.specs.Prelude.{◌≡◌};
ghost use Rattle.timer_src.specs.Table.{timer_of};

use crate::key::Key;
use dk_base::number::Pid;
use spec_records::timer::{Arming, Timer};

#[derive(Clone, Copy)]
pub struct Slot {
    pub port: u32,
    pub user: u64,
    pub number: u32,
    pub arming: Option<Arming>,
}

/// A key with what is kept under it, as a timer.
pub fn timer_of(key: Key, slot: Slot) -> Timer
    ensures { result ≡ timer_of key slot }
{
    Timer {
        process: Pid(key.process),
        id: key.id,
        port: slot.port,
        user: slot.user,
        number: slot.number,
        arming: slot.arming,
    }
}
