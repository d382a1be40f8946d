//! The run of a script as one that threads share.

use crate::asked::SharedRun;
use crate::sys::Sys;
use dk_base::error::NoMemory;
use dk_base::list::TidList;
use dk_base::number::Tid;
use work_ops::task::{Done, Task};

impl SharedRun for Sys {
    ghost run = { λ p. p };

    fn threads(&self) -> u32 {
        self.script().threads()
    }

    fn runnable(&self, t: Tid) -> bool {
        Sys::runnable(self, t)
    }

    fn working(&self, t: Tid) -> bool {
        Sys::working(self, t)
    }

    fn works_on(&self, t: Tid, done: &Done) -> bool {
        Sys::works_on(self, t, done)
    }

    fn over(&self) -> bool {
        Sys::over(self)
    }

    fn events(&self) -> u32 {
        Sys::events(self)
    }

    fn lend(&self, t: Tid) -> Result<Task, NoMemory> {
        Sys::lend(self, t)
    }

    fn step(&mut self, t: Tid) -> Result<TidList, NoMemory> {
        Sys::step(self, t)
    }

    fn hand_in(&mut self, t: Tid, done: Done) -> Result<TidList, NoMemory> {
        Sys::hand_in(self, t, done)
    }
}
