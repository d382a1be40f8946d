//! The table that seats share: a value with a history, tickets for it, a beginning of the history that each seat knows,
//! turns of which each is taken by one seat, and what each holder may still rely on while others go on.
#![tactic(auto)]

pub mod limits;
mod rule;
pub mod table;
pub mod turns;
pub mod view;

pub use rule::Recorded;
