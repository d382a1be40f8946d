//! The records of the written kernel's state, as the kernel's code has them too: processes, threads, doors, names, calls and
//! notices, what server pools hold, what is queued at ports and associated with them, timers, and who leaves.
#![tactic(auto)]

pub mod association;
pub mod leaving;
pub mod numbered;
pub mod pool;
pub mod port;
pub mod record;
pub mod timer;
