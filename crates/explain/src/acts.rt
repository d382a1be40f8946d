//! What the threads of a run did, as plain values.

use dk_base::event::What;
use dk_base::number::Tid;
use dk_base::request::Request;

/// What a request is about: the number of a process, path or port, and how many events of a port it wants.
#[derive(Clone, Copy)]
pub struct Subject {
    pub(crate) number: u32,
    pub(crate) wanted: u32,
}

impl Subject {
    /// Takes the request, so that no holder of a whole run drops one.
    pub fn of(request: Request) -> Self {
        let mut wanted = 0;
        let number = match &request {
            Request::Kill { process } => process.0,
            Request::Attach { path, .. } | Request::Detach { path } | Request::Await { path } =>
                path.0,
            Request::Get { port, .. } => {
                wanted = 1;
                port.0
            }
            Request::GetN { port, nget, .. } => {
                wanted = *nget;
                port.0
            }
            _ => 0,
        };
        Subject { number, wanted }
    }
}

/// What a thread did at an event. That it took a call is an accept.
#[derive(Clone, Copy)]
pub(crate) struct Act {
    pub event: u64,
    pub thread: Tid,
    pub what: What,
    /// The number of the call, process, path or port that it is about, as far as that is told.
    pub number: u64,
    /// How many events of a port it wants.
    pub wanted: u64,
    /// The name of the error that it answered.
    pub error: Option<&'static str>,
}

impl Act {
    /// Whether it answered no error.
    pub fn is_done(&self) -> bool {
        self.error.is_none()
    }
}
