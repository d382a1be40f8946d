//! Associations that fire.
ghost use Rattle.std.specs.Prelude.{◌≡◌, ℕ, ◌+◌, IfSome, false};
ghost use Rattle.dk_base.specs.declared.object.Obj.{Obj};
ghost use Rattle.dk_base.specs.declared.set.PollSet.{PollSet};
ghost use Rattle.spec_records.specs.Words.{all_fired, fire_all, fire_first, first_fired, post_event, post_fired};
ghost use Rattle.port_assoc.specs.Words.{KeepsRoom};
ghost use Rattle.kernel_ports.specs.Words.{AreAllChanged, HasRoomForArmed, KeepsRoomBeside};

use crate::changed::Changed;
use crate::next::next_told;
use event_port::ports::Ports;
use port_assoc::assocs::Assocs;

/// The first association that an object fires queues its event, if it fires one. It takes no memory.
fn fire_first(assocs: &mut Assocs, ports: &mut Ports, c: Changed)
    requires room { HasRoomForArmed assocs.old.list.associations ports.old.rooms }
    ensures list { assocs.new.list ≡ fire_first assocs.old.list c.object c.ready }
    ensures posted { IfSome (first_fired c.object c.ready assocs.old.list.associations) (λ f. ports.new.ports ≡ post_event ports.old.ports f.port f.queued) }
    ensures rooms { KeepsRoomBeside assocs.old.list.associations assocs.new.list.associations ports.old.rooms ports.new.rooms }
    ensures assoc_room { KeepsRoom assocs.old assocs.new }
    ensures spare { ports.new.spare ≡ ports.old.spare }
{
    if let Some(fired) = assocs.fire(c.object, c.ready) {
        ports.post_fitting(fired.port, fired.queued);
    }
}

/// All associations that are to fire queue their events, in order of number, and are no longer armed. They watch objects that are listed,
/// each with what it is ready for; no other object's are looked at. It takes no memory. Says whether any fired.
pub fn fire_changed(assocs: &mut Assocs, ports: &mut Ports, changed: &[Changed]) -> bool
    requires room { HasRoomForArmed assocs.old.list.associations ports.old.rooms }
    ensures list { (ready : Obj → PollSet) → AreAllChanged ready changed.now assocs.old.list.associations → assocs.new.list ≡ fire_all assocs.old.list ready }
    ensures ports { (ready : Obj → PollSet) → AreAllChanged ready changed.now assocs.old.list.associations → ports.new.ports ≡ post_fired ports.old.ports (all_fired ready assocs.old.list.associations) }
    ensures room { HasRoomForArmed assocs.new.list.associations ports.new.rooms }
    ensures rooms { KeepsRoomBeside assocs.old.list.associations assocs.new.list.associations ports.old.rooms ports.new.rooms }
    ensures assoc_room { KeepsRoom assocs.old assocs.new }
    ensures spare { ports.new.spare ≡ ports.old.spare }
    ensures none { result ≡ false → (assocs.new ≡ assocs.old) × (ports.new ≡ ports.old) }
{
    let mut any = false;
    while let Some(c) = next_told(assocs, changed) {
        fire_first(assocs, ports, c);
        any = true;
    }
    any
}
