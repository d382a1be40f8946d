//! The acts of tasks, and of lines for a name service cache. None takes memory: the input of a task is that of its request, and who runs
//! the kernel has the cache.
ghost use Rattle.std.specs.Prelude.{◌≡◌, [], true};
ghost use Rattle.dk_base.specs.declared.answer.Answer.TheVariants.{Data};
ghost use Rattle.spec_kernel.specs.Words.{Subject, end_work, is_running, state_of};
ghost use Rattle.kernel_core.specs.Entries.{entry_about, is_cache_line};
ghost use Rattle.kernel_store.specs.Words.{IsActive, KeepsPools, stored_state};

use dk_base::answer::Answer;
use dk_base::list::Bytes;
use dk_base::number::{Pid, Tid};
use dk_base::request::Request;
use kernel_store::store::Store;
use spec_records::record::ThreadState;
use std::alloc::Global;

/// The end of a task. Who runs the thread computes its bytes.
pub fn end_work(store: &mut Store, alloc: Global, t: Tid) -> Answer
    requires { IsActive (state_of (stored_state store.old) t.0) }
    ensures state { stored_state store.new ≡ (end_work (stored_state store.old) t.0).state }
    ensures answer { result ≡ (end_work (stored_state store.old) t.0).answer }
    ensures keeps { KeepsPools store.old store.new }
{
    store.turn(t, ThreadState::Running);
    Answer::Data {
        bytes: Bytes::new(alloc),
    }
}

/// Whether an entry is a line for a name service cache.
pub fn is_cache_line(request: &Request) -> bool
    ensures { result ≡ is_cache_line request.now }
{
    matches!(request, Request::Ncd { .. })
}

/// What the kernel answers to such a line. Who has the cache puts in the bytes of the reply.
pub fn reply_to_line(alloc: Global) -> Answer
    ensures { result ≡ Data [] }
{
    Answer::Data {
        bytes: Bytes::new(alloc),
    }
}

/// An entry about tasks: the thread is at the task from then on. A line for a cache changes nothing.
#[tactic(auto, using(crate::proofs::Idle::running_active))]
pub fn enter(store: &mut Store, alloc: Global, t: Tid, p: Pid, request: Request) -> Answer
    requires { is_running (stored_state store.old) t.0 ≡ true }
    ensures state { stored_state store.new ≡ (entry_about Subject.tasks (stored_state store.old) t.0 p.0 request).state }
    ensures answer { result ≡ (entry_about Subject.tasks (stored_state store.old) t.0 p.0 request).answer }
    ensures keeps { KeepsPools store.old store.new }
{
    match request {
        Request::Work { op, bytes } => {
            store.turn(t, ThreadState::Working { op, input: bytes });
            Answer::Wait
        }
        Request::Ncd { .. } => reply_to_line(alloc),
        _ => Answer::Done,
    }
}
