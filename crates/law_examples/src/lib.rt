//! Worked runs, each proved to be a run, so that the laws speak of something: doors and calls, children, ports,
//! associations, timers, tasks and tables. Definitions in `specs/`, what is said of each in `src/`, proofs in `proofs/`.
#![tactic(auto)]

pub mod association_runs;
pub mod cache_runs;
pub mod fork_runs;
pub mod port_laws;
pub mod port_runs;
pub mod task_runs;
pub mod timer_laws;
pub mod timer_runs;
pub mod worked_run;
