//! Doors: their making, validity, parameters and limits, and what is told of them (door_create(3C), door_revoke(3C),
//! door_info(3C), door_getparam(3C), door_setparam(3C)).
#![tactic(auto)]

mod attributes;
mod door;
pub mod doors;
mod info;
mod limits;
mod owner_lists;
mod params;
