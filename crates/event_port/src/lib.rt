//! Event ports: what is queued at them, their alerts, and what is retrieved (port_create(3C), port_send(3C), port_alert(3C),
//! port_get(3C)).
#![tactic(auto)]

pub mod ports;
mod queue;
