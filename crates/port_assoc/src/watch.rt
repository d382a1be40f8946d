//! What is kept of an association under its key.
ghost use Rattle.std.specs.Prelude.{◌≡◌};
ghost use Rattle.port_assoc.specs.Table.{association_of};

use crate::key::{Key, association_key};
use dk_base::object::Obj;
use dk_base::set::PollSet;
use spec_records::association::Association;

#[derive(Clone, Copy)]
pub struct Watch {
    pub number: u32,
    pub object: Obj,
    pub events: PollSet,
    pub user: u64,
    pub armed: bool,
}

/// A key with what is kept under it, as an association.
pub fn association_of(key: Key, watch: Watch) -> Association
    ensures { result ≡ association_of key watch }
{
    Association {
        number: watch.number,
        key: association_key(key),
        object: watch.object,
        events: watch.events,
        user: watch.user,
        armed: watch.armed,
    }
}
