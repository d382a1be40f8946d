//! Tests of the tables of the kernel: descriptors, and those that are passed, names, processes and threads, doors, server pools,
//! calls, exit paths, the parts of a fork, notices, and the references that are counted.
#![tactic(auto)]

#[cfg(test)]
mod calls;
#[cfg(test)]
mod counts;
#[cfg(test)]
mod descriptors;
#[cfg(test)]
mod doors;
#[cfg(test)]
mod exits;
#[cfg(test)]
mod forking;
#[cfg(test)]
mod names;
#[cfg(test)]
mod notices;
#[cfg(test)]
mod passing;
#[cfg(test)]
mod pools;
#[cfg(test)]
mod processes;
