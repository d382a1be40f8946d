//! How many processes and threads are declared, and which threads are spares.
use crate::names::Names;
use dk_base::number::Tid;

impl Names {
    ghost use Rattle.std.specs.Prelude.{◌≡◌, length};
    ghost use Rattle.history_text.specs.Changes.{is_spare as is_spare_thread};

    pub fn count_processes(&self) -> u32
        ensures { result ≡ length self.now.processes }
    {
        self.processes.len() as u32
    }

    pub fn count_threads(&self) -> u32
        ensures { result ≡ length self.now.threads }
    {
        self.threads.len() as u32
    }

    /// Whether the thread of a number is a spare.
    pub fn is_spare(&self, thread: Tid) -> bool
        ensures { result ≡ is_spare_thread self.now thread }
    {
        if thread.0 == 0 {
            return false;
        }
        match self.threads.get(thread.0 as usize - 1) {
            Some(thread) => thread.spare,
            None => false,
        }
    }
}
