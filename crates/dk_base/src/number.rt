//! Numbers of processes, threads, descriptors and paths, each of a type of its own.

/// A process, numbered from 1.
#[derive(Clone, Copy, Debug, PartialEq, Eq)]
pub struct Pid(pub u32);

/// A thread, numbered from 1.
#[derive(Clone, Copy, Debug, PartialEq, Eq)]
pub struct Tid(pub u32);

/// A descriptor of a process, numbered from 0.
#[derive(Clone, Copy, Debug, PartialEq, Eq)]
pub struct Fd(pub u32);

/// A path that doors are attached to, numbered from 0.
#[derive(Clone, Copy, Debug, PartialEq, Eq)]
pub struct PathId(pub u32);
