//! What ports are told where an event changed a pipe, and ends of pipes lost their references.
ghost use Rattle.std.specs.Prelude.{◌≡◌, ℕ, ◌+◌, ◌≤◌, ◌||◌, All, false, length, true};
ghost use Rattle.std.specs.List.{list_any};
ghost use Rattle.dk_base.specs.declared.object.Obj.{Obj};
ghost use Rattle.spec_records.specs.declared.association.Association.{Association};
ghost use Rattle.spec_records.specs.Words.{all_fired, fire_all, is_object, post_fired, ready_object};
ghost use Rattle.port_assoc.specs.Words.{KeepsRoom};
ghost use Rattle.kernel_ports.specs.Words.{AreAllNamed, HasAllReferences, HasRoomForArmed, IsSaid, KeepsRoomBeside, is_changed, is_watched_among};

use crate::changed::{Changed, Ends};
use crate::fire::fire_changed;
use crate::listing::{list_ends, list_others};
use dk_base::list::Room;
use dk_base::object::Obj;
use event_port::ports::Ports;
use pipe_obj::pipes::Pipes;
use port_assoc::assocs::Assocs;

/// The ends of a pipe, if one is given, and the other ends of those that have no references, are all that is in `into`.
fn list_all(pipes: &Pipes, pipe: Option<Ends>, gone: &[Obj], into: &mut Room<Changed>)
    requires { length gone.now + 2 ≤ into.old.spare }
    ensures said { (refs : Obj → ℕ) → HasAllReferences refs pipe → ((o : Obj) → list_any (is_object o) gone.now ≡ true → refs o ≡ 0) → All (IsSaid (ready_object pipes.now.items refs)) into.new.items }
    ensures watched { (a : Association) → is_watched_among into.new.items a ≡ is_changed pipe gone.now a.object }
{
    into.clear();
    if let Some(ends) = pipe {
        list_ends(pipes, ends, into);
    }
    list_others(pipes, gone, into);
}

/// All associations that are to fire queue their events, in order of number, and are no longer armed, where an event changed this pipe,
/// and these ends of pipes lost their references in it: of no other object an association is to fire. `changed` is for what the call
/// lists. It takes no memory. Says whether any fired.
pub fn tell_ports(
    assocs: &mut Assocs,
    ports: &mut Ports,
    pipes: &Pipes,
    pipe: Option<Ends>,
    gone: &[Obj],
    changed: &mut Room<Changed>,
) -> bool
    requires listed { length gone.now + 2 ≤ changed.old.spare }
    requires room { HasRoomForArmed assocs.old.list.associations ports.old.rooms }
    ensures list { (refs : Obj → ℕ) → AreAllNamed pipes.now.items refs pipe gone.now assocs.old.list.associations → assocs.new.list ≡ fire_all assocs.old.list (ready_object pipes.now.items refs) }
    ensures ports { (refs : Obj → ℕ) → AreAllNamed pipes.now.items refs pipe gone.now assocs.old.list.associations → ports.new.ports ≡ post_fired ports.old.ports (all_fired (ready_object pipes.now.items refs) assocs.old.list.associations) }
    ensures room { HasRoomForArmed assocs.new.list.associations ports.new.rooms }
    ensures rooms { KeepsRoomBeside assocs.old.list.associations assocs.new.list.associations ports.old.rooms ports.new.rooms }
    ensures assoc_room { KeepsRoom assocs.old assocs.new }
    ensures spare { ports.new.spare ≡ ports.old.spare }
    ensures none { result ≡ false → (assocs.new ≡ assocs.old) × (ports.new ≡ ports.old) }
{
    list_all(pipes, pipe, gone, changed);
    fire_changed(assocs, ports, changed.slice())
}
