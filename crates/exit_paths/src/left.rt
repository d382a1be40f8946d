//! What an exit path tells.

use dk_base::list::{ItemList, ObjList, TidList};

/// The objects that left transit; the threads that became Idle and the callers whose call has ended, both in order of number; and
/// what waited at a door that is lost, calls and notices, in the order in which they left their queues.
#[derive(Drop)]
pub struct Left {
    pub dropped: ObjList,
    pub parked: TidList,
    pub woken: TidList,
    pub untaken: ItemList,
}
