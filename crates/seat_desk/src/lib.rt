//! What seats take turns at: a kernel with one legal history of the calls that were made of it.
#![tactic(auto)]

pub mod desk;
pub mod opening;
pub mod replies;
