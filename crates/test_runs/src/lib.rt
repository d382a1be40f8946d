//! Tests of whole runs, on one thread and on many, of verdicts, of generated loads, and of the commands.
#![tactic(auto)]

#[cfg(test)]
mod commands;
#[cfg(test)]
mod loads;
#[cfg(test)]
mod locked_runs;
#[cfg(test)]
mod on_threads;
#[cfg(test)]
mod tasks;
#[cfg(test)]
mod verdicts;
#[cfg(test)]
mod whole_runs;
