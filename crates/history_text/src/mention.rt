//! What an event's line mentions.
use crate::names::Names;
use dk_base::request::Request;

impl Names {
    ghost use Rattle.std.specs.Prelude.{◌≡◌};
    ghost use Rattle.history_text.specs.Changes.{mentioned_by, with_mention};

    /// A process is mentioned, where there is one of this number.
    pub fn mention(&mut self, process: u32)
        ensures { self.new ≡ with_mention self.old process }
    {
        if 1 <= process && process as usize <= self.processes.len() {
            self.processes[process as usize - 1].mentioned = true;
        }
    }

    /// The process that a request mentions, by its own name or by that of a member, or 0.
    pub fn mentioned_by(&self, request: &Request) -> u32
        ensures { result ≡ mentioned_by self.now request.now }
    {
        match request {
            Request::Interrupt { thread } => self.process_of(*thread),
            Request::Kill { process } => process.0,
            Request::Fork { child } => child.0,
            _ => 0,
        }
    }
}
