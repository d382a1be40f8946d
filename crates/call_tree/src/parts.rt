//! What calls are made of, and what is told where one ends.

use dk_base::error::Errno;
use dk_base::list::{Bytes, ObjList};
use dk_base::number::Tid;

/// What a caller passes (door_call(3C)).
#[derive(Drop)]
pub struct Args {
    pub bytes: Bytes,
    pub objects: ObjList,
}

/// What a caller collects.
#[derive(Drop)]
pub enum Outcome {
    /// `grown` is whether there are more bytes than the caller had room for.
    Results {
        bytes: Bytes,
        objects: ObjList,
        grown: bool,
    },
    Ended(Errno),
}

/// What a caller leaves behind: the objects that are no longer in transit, the thread that the call was given to, and the thread
/// that is in it and is to be told so.
#[derive(Drop)]
pub struct Abandoned {
    pub dropped: ObjList,
    pub parked: Option<Tid>,
    pub cancelled: Option<Tid>,
}

/// Why a caller leaves its call: it is interrupted and collects EINTR, or it ends.
#[derive(Clone, Copy)]
pub enum Leave {
    Interrupted,
    Finished,
}
