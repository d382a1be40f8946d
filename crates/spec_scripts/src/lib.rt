//! Which runs a script has: declared openings, the requests of its threads, plays by a schedule and how runs end; and how
//! a run is written as text. Definitions in `specs/`; worked runs and what is said of them in `src/`. No code runs.
#![tactic(auto)]

pub mod laws;
pub mod worked_runs;
