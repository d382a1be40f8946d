//! Types that every layer of Weldozig speaks of: numbers, sets, lists, requests, answers, events, and the outside.
#![tactic(auto)]

pub mod answer;
pub mod duplicate;
pub mod error;
pub mod event;
pub mod exact;
pub mod limits;
pub mod list;
pub mod memory;
pub mod number;
pub mod object;
pub mod outside;
pub mod reading;
pub mod request;
pub mod set;
pub mod standard;
pub mod thread_set;
pub mod writing;
