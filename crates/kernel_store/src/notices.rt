//! Room for the notices that an event can make.
ghost use Rattle.std.specs.Prelude.{◌≡◌, [], OnOk};
ghost use Rattle.exit_paths.specs.Words.{HasNoLessRoom, HoldsSame};
ghost use Rattle.kernel_store.specs.Noticing.{HaveItemRoomBut, items_for};

use dk_base::error::NoMemory;
use server_pool::pools::Pools;
use spec_records::pool::Pool;
use unref_notice::counts::STEP_MAX;

/// How many items a pool takes where it may get a notice of each door that falls in one event, and one more item.
fn items_for(pool: Pool) -> usize
    ensures { result ≡ items_for pool }
{
    match pool {
        Pool::Common(_) => STEP_MAX + 1,
        Pool::Private(_) => 2,
    }
}

/// The pools that are listed as short of room have it again. Want of memory changes nothing but room, of which there is never less than
/// before.
pub fn renew_room(pools: &mut Pools, short: &[Pool]) -> Result<(), NoMemory>
    requires { HaveItemRoomBut short.now pools.old }
    ensures same { HoldsSame pools.old pools.new }
    ensures kept { HasNoLessRoom pools.old pools.new }
    ensures room { OnOk result (HaveItemRoomBut [] pools.new) }
{
    for pool in short {
        pools.room_for_items(*pool, items_for(*pool))?;
    }
    Ok(())
}
