//! The kernel: the acts of doors, calls, descriptors, names, pipes, ports, associations, timers and tasks over what it
//! holds, and what follows them. Each of its calls is proved to be a step of the written kernel.
#![tactic(auto)]

mod acts;
mod asked;
mod associations;
mod binding;
mod descriptors;
mod doors;
mod event;
mod fitness;
mod information;
pub mod kernel;
mod leaving;
mod notices;
mod pipes;
mod ports;
mod tasks;
mod telling;
mod timers;
mod turns;
