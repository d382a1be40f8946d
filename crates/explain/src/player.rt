//! What is asked of who can take a run again by the lines of its trace.

use crate::run::Run;
use dk_base::error::NoMemory;
use std::alloc::Global;

/// Who can take a run again, and tell the script and the trace of an input of `check` apart.
pub trait Player {
    /// What stands before the first line that is exactly `trace`, and what stands after it. Without such a line all is the script's.
    fn parts(input: &[u8]) -> (&[u8], Option<&[u8]>);

    /// Takes the run of a script's text again, from before its first event: for each of the run's lines the turn of the thread that is the
    /// line's second word, as long as it can take one and the budget is not used up; and then tells which threads of the run can take a
    /// turn, but for the budget. It ends early only where memory runs out, or the text is no script.
    fn play(alloc: Global, text: &[u8], run: &mut Run<'_>) -> Result<(), NoMemory>;
}
