//! Objects that an event changed, each listed with what it is ready for.
ghost use Rattle.std.specs.Prelude.{◌≡◌, ℕ, ◌+◌, ◌≤◌, ◌||◌, All, length, true};
ghost use Rattle.std.specs.List.{list_any};
ghost use Rattle.dk_base.specs.declared.object.Obj.{Obj};
ghost use Rattle.spec_records.specs.declared.association.Association.{Association};
ghost use Rattle.spec_records.specs.Words.{is_object, ready_object};
ghost use Rattle.kernel_ports.specs.Words.{HasReferences, IsSaid, is_end_of, is_watched_among, other_end};

use crate::changed::{Changed, Ends};
use crate::ready::{other_end, ready_object};
use dk_base::list::Room;
use dk_base::object::Obj;
use pipe_obj::pipes::Pipes;

/// An object whose other end has so many references is listed.
fn list_object(pipes: &Pipes, object: Obj, others: u64, into: &mut Room<Changed>)
    requires { 1 ≤ into.old.spare }
    ensures said { (refs : Obj → ℕ) → refs (other_end object) ≡ others → All (IsSaid (ready_object pipes.now.items refs)) into.old.items → All (IsSaid (ready_object pipes.now.items refs)) into.new.items }
    ensures watched { (a : Association) → is_watched_among into.new.items a ≡ (is_watched_among into.old.items a || is_object object a.object) }
    ensures spare { into.old.spare ≤ into.new.spare + 1 }
{
    into.push(Changed {
        object,
        ready: ready_object(pipes, object, others),
    });
}

/// Both ends of a pipe are listed.
pub fn list_ends(pipes: &Pipes, ends: Ends, into: &mut Room<Changed>)
    requires { 2 ≤ into.old.spare }
    ensures said { (refs : Obj → ℕ) → HasReferences refs ends → All (IsSaid (ready_object pipes.now.items refs)) into.old.items → All (IsSaid (ready_object pipes.now.items refs)) into.new.items }
    ensures watched { (a : Association) → is_watched_among into.new.items a ≡ (is_watched_among into.old.items a || is_end_of ends.pipe a.object) }
    ensures spare { into.old.spare ≤ into.new.spare + 2 }
{
    list_object(pipes, Obj::PipeIn(ends.pipe), ends.writers, into);
    list_object(pipes, Obj::PipeOut(ends.pipe), ends.readers, into);
}

/// The other ends of these, which have no references, are listed.
pub fn list_others(pipes: &Pipes, gone: &[Obj], into: &mut Room<Changed>)
    requires { length gone.now ≤ into.old.spare }
    ensures said { (refs : Obj → ℕ) → ((o : Obj) → list_any (is_object o) gone.now ≡ true → refs o ≡ 0) → All (IsSaid (ready_object pipes.now.items refs)) into.old.items → All (IsSaid (ready_object pipes.now.items refs)) into.new.items }
    ensures watched { (a : Association) → is_watched_among into.new.items a ≡ (is_watched_among into.old.items a || list_any (is_object (other_end a.object)) gone.now) }
{
    for object in gone {
        list_object(pipes, other_end(*object), 0, into);
    }
}
