//! Runs of threads of the host at seats, each with what it is to end in.

use crate::seated::{Deed, is_done};

/// Two processes with one thread each.
const TWO: [u32; 2] = [256, 256];

/// Eight processes: those with the threads p and p + 8.
const EIGHT: [u32; 8] = [16, 16, 16, 16, 16, 16, 16, 16];

/// A call, served by another thread, and calls that are refused meanwhile.
#[test]
fn a_call_and_its_refusals(rt: HostRuntime) {
    assert!(rt; is_done(&rt, rt.alloc(), &TWO, 2, Deed::Call { wanting: 0 }).unwrap_or(false));
}

/// To be run with each allocation refused in turn, as `tests/refused_memory.sh` does. It fails where the kernel and the seats are not made,
/// and nowhere else.
#[test]
fn goes_on_after_want_of_memory(rt: HostRuntime) {
    let done = is_done(&rt, rt.alloc(), &TWO, 2, Deed::Call { wanting: 1 });
    assert!(rt; done.is_some(), "the kernel and the seats are made");
    assert!(rt;
        done.unwrap_or(false),
        "all is as before, but the number of calls"
    );
}

#[test]
fn each_has_its_own_descriptors(rt: HostRuntime) {
    assert!(rt; is_done(&rt, rt.alloc(), &TWO, 2, Deed::CreateAtOnce).unwrap_or(false));
}

#[test]
fn seats_and_calls_run_out(rt: HostRuntime) {
    assert!(rt; is_done(&rt, rt.alloc(), &TWO, 2, Deed::ReachLimits).unwrap_or(false));
}

#[test]
fn eight_threads_serve_each_other(rt: HostRuntime) {
    assert!(rt; is_done(&rt, rt.alloc(), &EIGHT, 16, Deed::ServeEachOther).unwrap_or(false));
}
