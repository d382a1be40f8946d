//! What server pools hold: parked threads, waiting items, the doors that threads are bound to, and spare threads
//! (door_create(3C), door_bind(3C), door_return(3C)).
#![tactic(auto)]

mod bindings;
pub mod facts;
mod numbered;
mod pool;
mod pool_list;
pub mod pools;
mod spares;
