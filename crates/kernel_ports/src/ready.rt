//! What objects are ready for.
ghost use Rattle.std.specs.Prelude.{◌≡◌, ℕ};
ghost use Rattle.dk_base.specs.declared.object.Obj.{Obj};
ghost use Rattle.spec_records.specs.Words.{ready_object};
ghost use Rattle.kernel_ports.specs.Words.{other_end};

use dk_base::object::Obj;
use dk_base::set::PollSet;
use pipe_obj::pipes::Pipes;

/// The other end of a pipe. Doors and ports have none, and are told themselves.
pub fn other_end(object: Obj) -> Obj
    ensures { result ≡ other_end object }
{
    match object {
        Obj::PipeIn(p) => Obj::PipeOut(p),
        Obj::PipeOut(p) => Obj::PipeIn(p),
        _ => object,
    }
}

/// What an object is ready for, where the other end of its pipe has so many references (poll(2)). Doors and ports are never ready.
pub fn ready_object(pipes: &Pipes, object: Obj, others: u64) -> PollSet
    ensures { (refs : Obj → ℕ) → refs (other_end object) ≡ others → result ≡ ready_object pipes.now.items refs object }
{
    match object {
        Obj::PipeIn(p) => pipes.ready_in(p, others),
        Obj::PipeOut(p) => pipes.ready_out(p, others),
        _ => PollSet(0),
    }
}
