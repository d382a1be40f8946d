//! Tests of `dk_base`, of the lines of scripts, of the operations of tasks, and of a name table with a cache.
#![tactic(auto)]

#[cfg(test)]
mod cache;
#[cfg(test)]
mod copies;
#[cfg(test)]
mod lines;
#[cfg(test)]
mod lists;
#[cfg(test)]
mod memory;
#[cfg(test)]
mod reading;
#[cfg(test)]
mod replies;
#[cfg(test)]
mod standard;
#[cfg(test)]
mod table;
#[cfg(test)]
mod tasks;
#[cfg(test)]
mod writing;
