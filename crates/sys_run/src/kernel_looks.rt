//! What a kernel tells of a run after which it stands.
ghost use Rattle.std.specs.Prelude.{◌≡◌, List, nat_lt, option_map, slice_get};
ghost use Rattle.spec_kernel.specs.Types.{Event as EventValue};
ghost use Rattle.spec_kernel.specs.Words.{StandsFor, State};
ghost use Rattle.spec_scripts.specs.Words.{ending_of as ending_of_state, tid_number};
ghost use Rattle.sys_run.specs.Sys.{next_turn, scheduled_turn, state_of_run, with_journal};

use crate::threads::is_any_waiting;
use dk_base::number::Tid;
use kernel_core::kernel::Kernel;
use script_lang::script::Script;
use spec_requests::ending::Ending;

/// Whether another event may be made.
fn has_budget(script: &Script, kernel: &Kernel) -> bool
    ensures { result ≡ nat_lt kernel.now.events script.now.budget }
{
    kernel.events() < u64::from(script.budget())
}

/// The least runnable thread, if another event may be made.
pub(crate) fn next_thread(script: &Script, kernel: &Kernel) -> Option<Tid>
    ensures { (es : List EventValue) → StandsFor kernel.now (state_of_run (with_journal script.now es)) → option_map tid_number result ≡ next_turn (with_journal script.now es) }
{
    if has_budget(script, kernel) {
        kernel.least_runnable()
    } else {
        None
    }
}

/// The thread at a place, from 0.
fn thread_at(threads: &[Tid], place: usize) -> Option<Tid>
    ensures { result ≡ slice_get threads.now place }
{
    threads.get(place).copied()
}

/// The thread of the schedule's next turn, if another event may be made.
pub(crate) fn next_scheduled(script: &Script, kernel: &Kernel) -> Option<Tid>
    ensures { (es : List EventValue) → StandsFor kernel.now (state_of_run (with_journal script.now es)) → result ≡ scheduled_turn (with_journal script.now es) }
{
    if has_budget(script, kernel) {
        thread_at(script.schedule().slice(), kernel.events() as usize)
    } else {
        None
    }
}

/// Budget where some thread can go on, so at the end of a run the budget is used up.
pub(crate) fn ending_of(kernel: &Kernel) -> Ending
    ensures { (m : State) → StandsFor kernel.now m → result ≡ ending_of_state m }
{
    match kernel.least_runnable() {
        Some(_) => Ending::Budget,
        None if is_any_waiting(kernel) => Ending::Stalled,
        None => Ending::Complete,
    }
}
