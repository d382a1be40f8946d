//! Tests of seats.
#![tactic(auto)]

#[cfg(test)]
mod caller;
#[cfg(test)]
mod calls;
#[cfg(test)]
mod doors;
#[cfg(test)]
mod eight;
#[cfg(test)]
mod limits;
#[cfg(test)]
mod plan;
#[cfg(test)]
mod rows;
#[cfg(test)]
mod seated;
#[cfg(test)]
mod sitter;
#[cfg(test)]
mod tests;
