//! Associations of objects with ports: each queues one event when its object gets ready (port_associate(3C), port_dissociate(3C)).
#![tactic(auto)]

pub mod assocs;
mod key;
mod process_end;
mod rows;
mod table;
mod watch;
mod watch_list;
mod watchers;
