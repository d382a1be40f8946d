//! Descriptors that calls and returns pass (door_call(3C), door_return(3C)), out of the table of their sender: they are tested
//! together and then taken together, so that all of them go or none. What they named comes into the table of their receiver: all of
//! it gets numbers, or nothing does.
#![tactic(auto)]

pub mod passing;
