//! Which entry, or which end of a wait, an event is.
ghost use Rattle.std.specs.Prelude.{◌≡◌};
ghost use Rattle.spec_kernel.specs.Words.{what_of_entry, what_of_wait};

use dk_base::event::What;
use dk_base::request::Request;
use spec_records::record::ThreadState;

pub fn of_entry(request: &Request) -> What
    ensures { result ≡ what_of_entry request.now }
{
    match request {
        Request::Create { .. } => What::Create,
        Request::Call { .. } => What::Call,
        Request::Return { .. } => What::Return,
        Request::Revoke { .. } => What::Revoke,
        Request::Bind { .. } => What::Bind,
        Request::Unbind => What::Unbind,
        Request::Info { .. } | Request::InfoQuery => What::Info,
        Request::GetParam { .. } => What::GetParam,
        Request::SetParam { .. } => What::SetParam,
        Request::Cred => What::Cred,
        Request::TestCancel => What::TestCancel,
        Request::Close { .. } => What::Close,
        Request::Dup { .. } => What::Dup,
        Request::Attach { .. } => What::Attach,
        Request::Detach { .. } => What::Detach,
        Request::Open { .. } => What::Open,
        Request::Await { .. } => What::Await,
        Request::Pipe => What::Pipe,
        Request::Write { .. } => What::Write,
        Request::Read { .. } => What::Read,
        Request::PortCreate => What::PortCreate,
        Request::Associate { .. } => What::Associate,
        Request::Dissociate { .. } => What::Dissociate,
        Request::Get { .. } => What::Get,
        Request::GetN { .. } => What::GetN,
        Request::Send { .. } => What::Send,
        Request::SendN { .. } => What::SendN,
        Request::Alert { .. } => What::Alert,
        Request::TimerCreate { .. } => What::TimerCreate,
        Request::TimerSet { .. } => What::TimerSet,
        Request::TimerDelete { .. } => What::TimerDelete,
        Request::Advance { .. } => What::Advance,
        Request::Interrupt { .. } => What::Interrupt,
        Request::Kill { .. } => What::Kill,
        Request::Exit => What::Exit,
        Request::Fork { .. } => What::Fork,
        Request::Work { .. } => What::Work,
        Request::Ncd { .. } => What::Ncd,
    }
}

pub fn of_wait(state: &ThreadState) -> What
    ensures { result ≡ what_of_wait state.now }
{
    match state {
        ThreadState::Given { .. } => What::Accept,
        ThreadState::Calling { .. } => What::Collect,
        ThreadState::Getting { .. } => What::Got,
        ThreadState::Awaiting { .. } => What::Found,
        ThreadState::Working { .. } => What::Done,
        _ => What::Woken,
    }
}
