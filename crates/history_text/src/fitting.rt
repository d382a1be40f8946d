//! Which requests a history has a line for.
ghost use Rattle.std.specs.Prelude.{◌≡◌};
ghost use Rattle.history_text.specs.Writable.{are_ports, is_message};

use crate::limits::{PASSES_MAX, PORTS_MAX, REQUEST_DATA_MAX};
use crate::names::Names;
use dk_base::number::{PathId, Tid};
use dk_base::request::Request;

fn is_message(bytes: usize, passes: usize) -> bool
    ensures { result ≡ is_message bytes passes }
{
    bytes <= REQUEST_DATA_MAX && passes <= PASSES_MAX
}

fn are_ports(ports: usize) -> bool
    ensures { result ≡ are_ports ports }
{
    1 <= ports && ports <= PORTS_MAX
}

impl Names {
    ghost use Rattle.std.specs.Prelude.{◌≡◌};
    ghost use Rattle.history_text.specs.Lookups.{process_of};
    ghost use Rattle.history_text.specs.Writable.{is_child, is_path, is_procedure, is_process, is_thread, is_writable};

    fn knows_thread(&self, thread: u32) -> bool
        ensures { result ≡ is_thread self.now thread }
    {
        1 <= thread && thread as usize <= self.threads.len()
    }

    fn knows_process(&self, process: u32) -> bool
        ensures { result ≡ is_process self.now process }
    {
        1 <= process && process as usize <= self.processes.len()
    }

    fn knows_path(&self, path: PathId) -> bool
        ensures { result ≡ is_path self.now path }
    {
        (path.0 as usize) < self.paths.len()
    }

    fn knows_child(&self, process: u32, child: u32) -> bool
        ensures { result ≡ is_child self.now process child }
    {
        match self.parent_of(child) {
            Some(parent) => parent.0 == process,
            None => false,
        }
    }

    fn knows_procedure(&self, process: u32, entry: u32) -> bool
        ensures { result ≡ is_procedure self.now process entry }
    {
        match self.procedures.get(entry as usize) {
            Some(procedure) => procedure.process == process,
            None => false,
        }
    }

    /// Whether a history has a line for this request of a thread: what it names is declared, and it hands over no more than a line has.
    pub fn may_write(&self, thread: Tid, request: &Request) -> bool
        ensures { result ≡ is_writable self.now (process_of self.now thread) request.now }
    {
        match request {
            Request::Create { entry, attrs, .. } => {
                self.knows_procedure(self.process_of(thread), *entry) && attrs.0 < 256
            }
            Request::Call { bytes, pass, .. } | Request::Return { bytes, pass } => {
                is_message(bytes.len(), pass.len())
            }
            Request::Attach { path, .. }
            | Request::Detach { path }
            | Request::Open { path }
            | Request::Await { path } => self.knows_path(*path),
            Request::Write { bytes, .. } => bytes.len() <= REQUEST_DATA_MAX,
            Request::Associate { events, .. } => events.0 & 29 == events.0,
            Request::SendN { ports, .. } => are_ports(ports.len()),
            Request::Interrupt { thread } => self.knows_thread(thread.0),
            Request::Kill { process } => self.knows_process(process.0),
            Request::Fork { child } => self.knows_child(self.process_of(thread), child.0),
            Request::Work { .. } | Request::Ncd { .. } => false,
            _ => true,
        }
    }
}
