//! What C asks, in numbers.

/// An operation of a thread with its operands; which of them it has, and what they are, is the request's that they ask for.
#[repr(C)]
#[derive(Drop)]
pub struct Asked {
    pub op: u32,
    pub thread: u32,
    pub a: u32,
    pub b: u32,
    pub c: u64,
    pub d: u64,
}

/// A process as C declares it: its limit of descriptors, its parent or 0, and how many threads and spares it has.
#[repr(C)]
#[derive(Drop)]
pub struct Declared {
    pub limit: u32,
    pub parent: u32,
    pub threads: u32,
    pub spares: u32,
}
