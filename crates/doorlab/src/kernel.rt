//! The kernel, as the walk over a history asks it.

ghost use Rattle.std.specs.Prelude.{◌≡◌};

use dk_base::answer::Answer;
use dk_base::error::NoMemory;
use dk_base::event::What;
use dk_base::limits::CLOCK_MAX;
use dk_base::list::TidList;
use dk_base::number::Tid;
use dk_base::request::Request;
use kernel_handle::held::Held;
use spec_histories::opening::{OpeningProcess, OpeningThread};
use spec_histories::recorded::RecordsHistory;
use spec_kernel::what::of_wait;
use std::alloc::Global;

/// The kernel with the history of its turns.
#[derive(Drop)]
pub(crate) struct Recorded {
    held: Held,
}

impl RecordsHistory for Recorded {
    ghost history = { λ recorded. recorded.held };

    fn open(
        alloc: Global,
        processes: &[OpeningProcess],
        threads: &[OpeningThread],
    ) -> Result<Recorded, NoMemory> {
        match Held::open(alloc, processes, threads) {
            Ok(held) => Ok(Recorded { held }),
            Err(_) => Err(NoMemory),
        }
    }

    fn legal(&self) {
        self.held.legal();
    }

    fn events(&self) -> u64 {
        self.held.events()
    }

    fn is_late(&self) -> bool {
        self.held.clock() > CLOCK_MAX
    }

    fn runnable(&self, thread: Tid) -> bool {
        self.held.runnable(thread)
    }

    fn is_running(&self, thread: Tid) -> bool {
        self.held.is_running(thread)
    }

    fn fits(&self, thread: Tid, request: &Request) -> bool {
        self.held.fits(thread, request)
    }

    fn root(&self, thread: Tid) -> Tid {
        self.held.root(thread)
    }

    fn what_of_wait(&self, thread: Tid) -> What {
        of_wait(self.held.state(thread))
    }

    fn least_runnable(&self) -> Option<Tid> {
        self.held.least_runnable()
    }

    fn waiting(&self, alloc: Global) -> Result<TidList, NoMemory> {
        let _ = self.held.threads();
        self.held.waiting(alloc)
    }

    fn enter(&mut self, thread: Tid, request: Request) -> Result<Answer, NoMemory> {
        match self.held.enter(thread, request) {
            Ok(told) => Ok(told.stepped.answer),
            Err(_) => Err(NoMemory),
        }
    }

    fn go_on(&mut self, thread: Tid) -> Result<Answer, NoMemory> {
        match self.held.go_on(thread) {
            Ok(told) => Ok(told.stepped.answer),
            Err(_) => Err(NoMemory),
        }
    }
}
