//! Where a call stands, and who serves it.
ghost use Rattle.std.specs.Prelude.{◌≡◌, ℕ, true};
ghost use Rattle.spec_records.specs.declared.record.CallStage.TheVariants as call_stage;
ghost use Rattle.spec_records.specs.Words.{is_client_call_of, is_entered_by, is_given_as, is_given_to, is_queued, is_to_collect, is_to_collect_as, tid};
ghost use Rattle.call_tree.specs.Calls.{is_given, is_waiting};
ghost use Rattle.call_tree.specs.Index.{is_entered, is_open, server_number};

use dk_base::number::Tid;
use spec_records::record::{Call, CallStage};

/// Whether a call at this stage waits for a server thread.
pub fn is_queued(stage: &CallStage) -> bool
    ensures { result ≡ is_queued stage.now }
{
    matches!(stage, CallStage::Queued)
}

/// Whether a call at this stage was given to a thread, which has not entered it.
pub(crate) fn is_given(stage: &CallStage) -> bool
    ensures { result ≡ is_given stage.now }
{
    matches!(stage, CallStage::Given { .. })
}

/// Whether no thread has entered a call at this stage, and it has not ended.
pub(crate) fn is_waiting(stage: &CallStage) -> bool
    ensures { result ≡ is_waiting stage.now }
{
    matches!(stage, CallStage::Queued | CallStage::Given { .. })
}

/// Whether a call's caller can collect its results or its error.
fn is_to_collect(stage: &CallStage) -> bool
    ensures { result ≡ is_to_collect stage.now }
{
    matches!(stage, CallStage::Returned { .. } | CallStage::Ended { .. })
}

fn is_given_to(stage: &CallStage, t: Tid) -> bool
    ensures { result ≡ is_given_to t.0 stage.now }
{
    match stage {
        CallStage::Given { to } => to.0 == t.0,
        _ => false,
    }
}

fn is_entered_by(stage: &CallStage, t: Tid) -> bool
    ensures { result ≡ is_entered_by t.0 stage.now }
{
    match stage {
        CallStage::Entered { by } => by.0 == t.0,
        _ => false,
    }
}

/// Whether this is call `c`, and it was given to the thread.
pub(crate) fn is_given_as(call: &Call, c: u32, t: Tid) -> bool
    ensures { result ≡ is_given_as c t.0 call.now }
{
    call.number == c && is_given_to(&call.stage, t)
}

/// Whether the thread has entered this call, and its caller has not left.
pub(crate) fn is_client_call_of(call: &Call, t: Tid) -> bool
    ensures { result ≡ is_client_call_of t.0 call.now }
{
    !call.abandoned && is_entered_by(&call.stage, t)
}

/// Whether this is call `c`, and its caller can collect it.
pub(crate) fn is_to_collect_as(call: &Call, c: u32) -> bool
    ensures { result ≡ is_to_collect_as c call.now }
{
    call.number == c && is_to_collect(&call.stage)
}

/// Whether no result and no error has come.
pub(crate) fn is_open(stage: &CallStage) -> bool
    ensures { result ≡ is_open stage.now }
{
    matches!(
        stage,
        CallStage::Queued | CallStage::Given { .. } | CallStage::Entered { .. }
    )
}

/// Whether a thread is in a call at this stage.
pub(crate) fn is_entered(stage: &CallStage) -> bool
    ensures { result ≡ is_entered stage.now }
{
    matches!(stage, CallStage::Entered { .. })
}

/// The number of the thread that serves a call until its caller leaves, or 0.
pub(crate) fn server_number(call: &Call) -> u32
    ensures { result ≡ server_number call.now }
{
    if call.abandoned {
        return 0;
    }
    match call.stage {
        CallStage::Given { to } => to.0,
        CallStage::Entered { by } => by.0,
        _ => 0,
    }
}

/// The next stage of a call that was given to a thread.
pub(crate) fn entered(stage: &CallStage) -> CallStage
    requires { is_given stage.now ≡ true }
    ensures { (t : ℕ) → is_given_to t stage.now ≡ true → result ≡ call_stage.Entered (tid t) }
{
    match stage {
        CallStage::Given { to } => CallStage::Entered { by: *to },
        _ => CallStage::Gone,
    }
}
