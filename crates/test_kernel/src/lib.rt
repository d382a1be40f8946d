//! Tests of the kernel.
#![tactic(auto)]

#[cfg(test)]
mod states;
#[cfg(test)]
mod tests;
#[cfg(test)]
mod turns;
