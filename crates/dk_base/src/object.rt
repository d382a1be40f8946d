//! What descriptors name and calls pass, what invocations serve, and the events that ports give.
use crate::number::Fd;

/// What a descriptor names. Doors, ports and pipes are numbered from 1.
#[derive(Clone, Copy, PartialEq, Eq)]
pub enum Obj {
    Door(u32),
    Port(u32),
    /// The reading end.
    PipeIn(u32),
    /// The writing end.
    PipeOut(u32),
}

/// A descriptor that a call or a return passes; `release` closes it in its sender (DOOR_RELEASE, door_call(3C)).
#[derive(Clone, Copy, PartialEq, Eq)]
pub struct Pass {
    pub fd: Fd,
    pub release: bool,
}

/// What an invocation serves: a call, or an unreferenced notice. Both are numbered from 1.
#[derive(Clone, Copy, PartialEq, Eq)]
pub enum Item {
    Call(u32),
    Notice(u32),
}

/// An invocation of a server procedure. `cancelled` is set where the caller left and the door has no DOOR_NO_CANCEL.
#[derive(Clone, Copy, PartialEq, Eq)]
pub struct Inv {
    pub item: Item,
    pub cancelled: bool,
}

/// Where a port's event comes from (port_get(3C)).
#[derive(Clone, Copy, PartialEq, Eq)]
pub enum Src {
    Fd,
    User,
    Alert,
    /// Its `object` is the timer's id, its `events` how often the timer fired.
    Timer,
}

/// A port's event as it is retrieved.
#[derive(Clone, Copy, PartialEq, Eq)]
pub struct EventRec {
    pub source: Src,
    pub object: u32,
    pub events: u32,
    pub user: u64,
}
