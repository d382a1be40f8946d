//! The limits of scripts and of the kernel (this project's profile). Definitions cite these constants too.

/// The most processes of a script.
pub const PROCESSES_MAX: u32 = 64;

/// The most threads of a kernel, spares with them.
pub const THREADS_MAX: u32 = 64;

/// The most procedures of a process.
pub const PROCEDURES_MAX: usize = 64;

/// The most procedures of a script: as many processes with as many each.
pub const ALL_PROCEDURES_MAX: usize = 4096;

/// The most descriptors that a process may have.
pub const DESCRIPTORS_MAX: u32 = 256;

/// The most bytes of a call, of a return, and of one read of a pipe.
pub const DATA_MAX: usize = 4096;

/// The most descriptors that a call or a return hands over. A script may write 32, and is then refused.
pub const PASS_MAX: usize = 16;

/// The most calls that wait in a door's pool.
pub const QUEUE_MAX: usize = 32;

/// The most bytes that a pipe holds.
pub const PIPE_MAX: usize = 4096;

/// The most user events that are queued at a port (port_send(3C)).
pub const USER_EVENTS_MAX: usize = 1024;

/// The most events of a port that one answer has (port_getn(3C)), and the most errors.
pub const ANSWER_ITEMS_MAX: u32 = 64;

/// The most events of a kernel.
pub const EVENTS_MAX: u64 = 1_000_000;

/// The most events of a script's run, and how many it may have without a line `budget`.
pub const BUDGET_MAX: u32 = 100_000;

/// The most different variables of a body, with `arg` and `cookie` where they stand.
pub const VARIABLES_MAX: usize = 32;

/// How deep the blocks of a body may nest.
pub const DEPTH_MAX: u32 = 8;

/// The most timers of a process.
pub const TIMERS_MAX: u32 = 32;

/// The most that lies between the arming of a timer and its first moment, and between two moments.
pub const DELAY_MAX: u64 = 1_000_000_000;

/// The most by which the clock moves at once.
pub const ADVANCE_MAX: u64 = 10_000;

/// The latest clock from which it moves.
pub const CLOCK_MAX: u64 = 1_000_000_000;

/// The latest clock that there is.
pub const CLOCK_LAST: u64 = 1_000_010_000;
