//! Associations of objects with ports.
use crate::port::Queued;
use dk_base::number::{Fd, Pid};
use dk_base::object::Obj;
use dk_base::set::PollSet;

/// By what an association is known: its port, and the process and the descriptor that name what it watches.
#[derive(Clone, Copy)]
pub struct AssocKey {
    pub port: u32,
    pub process: Pid,
    pub fd: Fd,
}

/// An association of an object with a port (port_associate(3C)). It is armed until it has queued its event.
#[derive(Clone, Copy)]
pub struct Association {
    pub number: u32,
    pub key: AssocKey,
    pub object: Obj,
    pub events: PollSet,
    pub user: u64,
    pub armed: bool,
}

/// What an association that fires queues, and at which port.
#[derive(Clone, Copy)]
pub struct Fired {
    pub port: u32,
    pub queued: Queued,
}
