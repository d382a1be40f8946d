//! How the calls are left where callers, servers and doors leave at one event: one after the other. Nothing runs here.
ghost use Rattle.spec_records.specs.Words.{CallTree};
ghost use Rattle.call_tree.specs.Parting.{PartsOfLeaving};
ghost use Rattle.call_tree.specs.Sound.{AreSound};
ghost use Rattle.call_tree.specs.Transit.{DropsInTransit};

/// Each call of `abandon`, `server_left` and `refuse` is one part of an event at which calls are left; together they are the event.
pub fn parts_of_leaving()
    ensures { (tree : CallTree) → AreSound tree → PartsOfLeaving tree }
{}

/// What a call of `abandon`, `server_left` or `refuse` hands out is what leaves transit.
pub fn drops_in_transit()
    ensures { (tree : CallTree) → AreSound tree → DropsInTransit tree }
{}
