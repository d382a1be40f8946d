//! What a port holds besides its number.
use dk_base::object::EventRec;

/// What port_alert(3C) set, while a port is in alert mode.
#[derive(Clone, Copy)]
pub struct Alert {
    pub events: u32,
    pub user: u64,
}

/// An event that is queued at a port: as it is retrieved, and the number of the association or of the timer that queued it, if one
/// did.
#[derive(Clone, Copy)]
pub struct Queued {
    pub rec: EventRec,
    pub assoc: Option<u32>,
    pub timer: Option<u32>,
}
