//! Unreferenced notices. Before the act of an event the kernel takes the memory for those that may fall due; after it a notice is made
//! of each door that is due, and then what follows an act goes on.
ghost use Rattle.std.specs.Prelude.{◌≡◌, ◌≤◌, ℕ, ◌∷◌, [], List, length, true};
ghost use Rattle.std.specs.Option.{option_map};
ghost use Rattle.spec_kernel.specs.Types.{Pool};
ghost use Rattle.spec_kernel.specs.Words.{State, give, has_first_common_door, make_notices, now, pool_of, settle_pools};
ghost use Rattle.law_pools.specs.Words.{is_this};
ghost use Rattle.dk_base.specs.declared.thread_set.ThreadSet.{ThreadSet};
ghost use Rattle.kernel_store.specs.Words.{CanMake, CanSettle, IsAtRest, IsInEvent, NothingAfter, StoreValue, serves_any, stored_state};
ghost use Rattle.unref_notice.specs.declared.counts.TheConstants.{STEP_MAX};
ghost use Rattle.kernel_core.specs.Watched.{BeganIn, HadRoomForNotices, fallen as fallen_in, make_of, watched};

use dk_base::list::Room;
use dk_base::number::Pid;
use dk_base::thread_set::ThreadSet;
use kernel_store::store::Store;
use spec_records::pool::Pool;

/// A notice is made of a door where it may have one.
fn make_one(store: &mut Store, d: u32)
    requires within { IsInEvent store.old }
    requires room { (ds : List ℕ) × CanMake store.old (d ∷ ds) }
    ensures state { stored_state store.new ≡ make_of (stored_state store.old) (d ∷ []) }
    ensures within { IsInEvent store.new }
    ensures events { store.new.events ≡ store.old.events }
    ensures left { (ds : List ℕ) → CanMake store.old (d ∷ ds) → CanMake store.new ds }
    ensures served { (touched : Pool) (parked : ThreadSet) (ds : List ℕ) → serves_any (stored_state store.old) ds (pool_of (stored_state store.old) d) ≡ true → CanSettle touched parked ds store.old → CanSettle touched parked ds store.new }
{
    if !store.may_have_notice(d) {
        return;
    }
    store.make_notice(d);
}

/// A notice is made of each of these doors that may have one, in order.
fn make_all(store: &mut Store, ds: &[u32])
    requires within { IsInEvent store.old }
    requires room { CanMake store.old ds.now }
    ensures state { stored_state store.new ≡ make_of (stored_state store.old) ds.now }
    ensures latest { NothingAfter (now (stored_state store.old)) store.new }
    ensures served { (touched : Pool) (parked : ThreadSet) → CanSettle touched parked ds.now store.old → CanSettle touched parked ds.now store.new }
{
    for d in ds {
        make_one(store, *d);
    }
}

/// A notice is made of each door that is due after the act of an event. The room was taken before it, also that to list the doors whose
/// references have fallen to one.
fn make_notices(store: &mut Store, fallen: &mut Room<u32>)
    requires within { IsInEvent store.old }
    requires room { (before : StoreValue) × HadRoomForNotices before store.old × (length (watched (stored_state before)) ≤ fallen.old.spare) }
    ensures state { (before : State) → BeganIn before store.old → stored_state store.new ≡ make_notices before (stored_state store.old) }
    ensures few { (before : State) → BeganIn before store.old → length (fallen_in before (stored_state store.old)) ≤ STEP_MAX }
    ensures latest { NothingAfter (now (stored_state store.old)) store.new }
    ensures served { (touched : Pool) (parked : ThreadSet) → CanSettle touched parked [] store.old → CanSettle touched parked fallen.new.items store.new }
{
    // its clause says here that the pools hold what the records say
    store.notices();
    fallen.clear();
    store.end_of_step(fallen);
    make_all(store, fallen.slice());
}

/// What follows the act of an event but that ports are told. The act touched this pool, and by it these threads `parked` again, since
/// their callers left. `first` is the process whose first common door it made. The pools of the doors that fell to one reference may have
/// an idle thread for a notice.
pub fn settle(
    store: &mut Store,
    fallen: &mut Room<u32>,
    touched: Pool,
    parked: ThreadSet,
    first: Option<Pid>,
)
    requires within { IsInEvent store.old }
    requires room { (before : StoreValue) × HadRoomForNotices before store.old × (length (watched (stored_state before)) ≤ fallen.old.spare) }
    requires can_settle { CanSettle touched parked [] store.old }
    ensures state { (before : State) → BeganIn before store.old → ((p : ℕ) → has_first_common_door before (give (stored_state store.old)) p ≡ is_this p (option_map (λ p. p.0) first)) → stored_state store.new ≡ settle_pools before (stored_state store.old) }
    ensures few { (before : State) → BeganIn before store.old → length (fallen_in before (stored_state store.old)) ≤ STEP_MAX }
    ensures rest { IsAtRest (now (stored_state store.old)) store.new }
{
    make_notices(store, fallen);
    store.settle(touched, parked, fallen.slice(), first);
}
