//! The processes and threads with which a history begins.

use dk_base::number::Pid;

/// A process. They are numbered from 1 in order, children with them.
#[derive(Clone, Copy)]
pub struct OpeningProcess {
    /// How many descriptors it may have.
    pub limit: u32,
    /// The process that it is a child of, if it is one. A child has not begun.
    pub parent: Option<Pid>,
}

/// A thread. They are numbered from 1 in order, over all processes and with their spares. One that is no spare runs, where its process has begun.
#[derive(Clone, Copy)]
pub struct OpeningThread {
    pub process: Pid,
    pub spare: bool,
}
