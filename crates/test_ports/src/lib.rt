//! Tests of pipes and event ports, of associations, and of timers.
#![tactic(auto)]

#[cfg(test)]
mod associated_timers;
#[cfg(test)]
mod associations;
#[cfg(test)]
mod pipes;
#[cfg(test)]
mod ports;
#[cfg(test)]
mod telling;
#[cfg(test)]
mod timers;
