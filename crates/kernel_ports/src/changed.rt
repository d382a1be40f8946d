//! What an event changed of what ports watch.
use dk_base::object::Obj;
use dk_base::set::PollSet;

/// An object that an event changed, and what it is ready for now.
#[derive(Clone, Copy)]
pub struct Changed {
    pub object: Obj,
    pub ready: PollSet,
}

/// A pipe, with how many references its ends have.
#[derive(Clone, Copy)]
pub struct Ends {
    pub pipe: u32,
    pub readers: u64,
    pub writers: u64,
}
