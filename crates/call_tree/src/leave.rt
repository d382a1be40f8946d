//! What is handed out of a call that ends or leaves.
ghost use Rattle.std.specs.Prelude.{◌≡◌, ◌≤◌, true, filter, Some};
ghost use Rattle.std.specs.Option.{option_map};
ghost use Rattle.spec_records.specs.declared.record.Call.{Call};
ghost use Rattle.spec_records.specs.Words.{broken_call_at, interruption, is_live_call, is_to_collect, left_call};
ghost use Rattle.call_tree.specs.Words.{HasKey, calls_in, look, with_call, without_key};
ghost use Rattle.call_tree.specs.Calls.{cancelled_at, dropped_at, held_at, leaving_for, outcome_at, parked_at};
ghost use Rattle.call_tree.specs.Index.{AreSingle};
ghost use Rattle.call_tree.specs.declared.parts.Leave.TheVariants.{Finished, Interrupted};

use crate::index::CallIndex;
use crate::parts::{Leave, Outcome};
use crate::stage::{is_entered, is_open};
use dk_base::error::Errno;
use dk_base::list::ObjList;
use dk_base::number::Tid;
use spec_records::record::{Call, CallStage};
use std::alloc::Global;

/// The thread that a call was given to.
pub fn given_to(stage: &CallStage) -> Option<Tid>
    ensures { option_map (λ t. t.0) result ≡ parked_at stage.now }
{
    match stage {
        CallStage::Given { to } => Some(*to),
        _ => None,
    }
}

/// The thread that is in a call, unless the door has DOOR_NO_CANCEL.
pub fn cancelled_in(call: &Call) -> Option<Tid>
    ensures { option_map (λ t. t.0) result ≡ cancelled_at call.now.no_cancel call.now.stage }
{
    match &call.stage {
        CallStage::Entered { by } if !call.no_cancel => Some(*by),
        _ => None,
    }
}

/// What the caller of a call at this stage is told, which had room for so many bytes.
fn outcome_at(stage: CallStage, rsize: u64) -> Outcome
    requires { is_to_collect stage ≡ true }
    ensures { outcome_at rsize stage ≡ Some result }
{
    match stage {
        CallStage::Returned { bytes, objects } => {
            let grown = bytes.len() as u64 > rsize;
            Outcome::Results {
                bytes,
                objects,
                grown,
            }
        }
        CallStage::Ended { error } => Outcome::Ended(error),
        _ => Outcome::Ended(Errno::EINTR),
    }
}

/// What the caller of a call is told.
pub fn outcome(call: Call) -> Outcome
    requires { is_to_collect call.stage ≡ true }
    ensures { outcome_at call.rsize call.stage ≡ Some result }
{
    outcome_at(call.stage, call.rsize)
}

/// The objects of a call's results, or else those of its arguments.
fn held_at(stage: CallStage, arguments: ObjList) -> ObjList
    ensures { result ≡ held_at stage arguments }
{
    match stage {
        CallStage::Returned { objects, .. } => objects,
        _ => arguments,
    }
}

/// A call leaves with its caller. What was in transit with it is handed out.
fn forget(index: &mut CallIndex, key: usize) -> ObjList
    requires { HasKey index.old.entries key }
    ensures single { AreSingle index.old.entries }
    ensures after { index.new ≡ record { made = index.old.made; entries = without_key key index.old.entries; spare = index.new.spare } }
    ensures objects { (call : Call) → look key index.old.entries ≡ Some call → result ≡ dropped_at Finished call.stage call.objects }
    ensures spare { index.old.spare ≤ index.new.spare }
{
    let call = index.remove(key);
    held_at(call.stage, call.objects)
}

/// The caller of a call is interrupted. What is no longer in transit with it is handed out.
fn interrupt(alloc: Global, index: &mut CallIndex, key: usize) -> ObjList
    requires { HasKey index.old.entries key }
    ensures single { AreSingle index.old.entries }
    ensures after { (call : Call) → look key index.old.entries ≡ Some call → index.new ≡ record index.old { entries = with_call key (broken_call_at (interruption call.caller.0) call.stage call) index.old.entries } }
    ensures objects { (call : Call) → look key index.old.entries ≡ Some call → result ≡ dropped_at Interrupted call.stage call.objects }
{
    let call = index.at(key);
    if !is_open(&call.stage) {
        return ObjList::new(alloc);
    }
    let abandoned = is_entered(&call.stage);
    let ended = CallStage::Ended {
        error: Errno::EINTR,
    };
    index.end(alloc, key, ended, abandoned).objects
}

/// A caller leaves its call. What is no longer in transit with it is handed out.
pub fn leave(alloc: Global, index: &mut CallIndex, key: usize, why: Leave) -> ObjList
    requires { HasKey index.old.entries key }
    ensures made { index.new.made ≡ index.old.made }
    ensures calls { (call : Call) → look key index.old.entries ≡ Some call → calls_in index.new.entries ≡ filter is_live_call (calls_in (with_call key (left_call (leaving_for why call.caller.0) call) index.old.entries)) }
    ensures objects { (call : Call) → look key index.old.entries ≡ Some call → result ≡ dropped_at why call.stage call.objects }
    ensures spare { index.old.spare ≤ index.new.spare }
{
    match why {
        Leave::Interrupted => interrupt(alloc, index, key),
        Leave::Finished => forget(index, key),
    }
}
