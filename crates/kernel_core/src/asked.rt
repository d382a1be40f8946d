//! The kernel answers as seats ask it.

use crate::kernel::Kernel;
use dk_base::error::NoMemory;
use dk_base::event::Stepped;
use dk_base::number::Tid;
use dk_base::request::Request;
use spec_kernel::answering::Answers;
use spec_records::record::ThreadState;

impl Answers for Kernel {
    ghost keeps = { λ m. m };

    fn events(&self) -> u64 {
        self.events()
    }

    fn clock(&self) -> u64 {
        self.clock()
    }

    fn threads(&self) -> u32 {
        self.threads()
    }

    fn runnable(&self, thread: Tid) -> bool {
        self.runnable(thread)
    }

    fn least_runnable(&self) -> Option<Tid> {
        self.least_runnable()
    }

    fn is_running(&self, thread: Tid) -> bool {
        self.is_running(thread)
    }

    fn state(&self, thread: Tid) -> &ThreadState {
        self.state(thread)
    }

    fn root(&self, thread: Tid) -> Tid {
        self.root(thread)
    }

    fn fits(&self, thread: Tid, request: &Request) -> bool {
        self.fits(thread, request)
    }

    fn turn(&mut self, thread: Tid, request: Option<Request>) -> Result<Stepped, NoMemory> {
        match request {
            Some(request) => self.enter(thread, request),
            None => self.go_on(thread),
        }
    }
}
