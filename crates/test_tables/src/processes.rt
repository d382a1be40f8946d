//! Processes and threads: when there is room for no more, and which thread is the last of its process.

use dk_base::error::ProcFault;
use dk_base::number::{Pid, Tid};
use proc_table::procs::Procs;
use spec_records::record::ThreadState;
use std::alloc::Global;

/// Whether this is so of a new table.
fn is_so_of_new(alloc: Global, check: fn(&mut Procs) -> bool) -> bool
    requires { IsAlwaysCallable check }
{
    let mut procs = Procs::new(alloc);
    check(&mut procs)
}

/// Whether a process is added, under this number.
fn is_process_added(procs: &mut Procs, number: u32) -> bool {
    matches!(procs.add_proc(256), Ok(p) if p.0 == number)
}

/// Whether a thread is added to a process that lives, under this number.
fn is_thread_added(procs: &mut Procs, p: Pid, spare: bool, number: u32) -> bool {
    procs.is_live(p) && matches!(procs.add_thread(p, spare), Ok(t) if t.0 == number)
}

fn are_processes_full_at_64(procs: &mut Procs) -> bool {
    for number in 1..65 {
        if !is_process_added(procs, number) {
            return false;
        }
    }
    matches!(procs.add_proc(0), Err(ProcFault::Full)) && procs.process_count() == 64
}

#[test]
fn there_are_at_most_64_processes(rt: HostRuntime) {
    assert!(rt; is_so_of_new(rt.alloc(), are_processes_full_at_64));
}

fn are_threads_full_at_64(procs: &mut Procs) -> bool {
    if !is_process_added(procs, 1) {
        return false;
    }
    for number in 1..65 {
        if !is_thread_added(procs, Pid(1), number > 32, number) {
            return false;
        }
    }
    procs.is_live(Pid(1))
        && matches!(procs.add_thread(Pid(1), true), Err(ProcFault::Full))
        && procs.thread_count() == 64
}

#[test]
fn there_are_at_most_64_threads(rt: HostRuntime) {
    assert!(rt; is_so_of_new(rt.alloc(), are_threads_full_at_64));
}

/// Process 1 has thread 1 and a spare, process 2 has threads 3 and 4.
fn are_two_processes_added(procs: &mut Procs) -> bool {
    is_process_added(procs, 1)
        && is_process_added(procs, 2)
        && is_thread_added(procs, Pid(1), false, 1)
        && is_thread_added(procs, Pid(1), true, 2)
        && is_thread_added(procs, Pid(2), false, 3)
        && is_thread_added(procs, Pid(2), false, 4)
}

/// Whether a thread that runs ends, and was the last of its process or was not.
fn is_ended(procs: &mut Procs, t: Tid, last: bool) -> bool {
    match procs.state(t) {
        ThreadState::Running => procs.end_thread(t) == last,
        _ => false,
    }
}

fn are_last_threads_known(procs: &mut Procs) -> bool {
    are_two_processes_added(procs)
        && procs.active_threads(Pid(1)) == 1
        && procs.active_threads(Pid(2)) == 2
        && procs.is_last(Tid(1), Pid(1))
        && !procs.is_last(Tid(2), Pid(1))
        && is_ended(procs, Tid(1), true)
        && is_ended(procs, Tid(3), false)
        && is_ended(procs, Tid(4), true)
}

#[test]
fn a_spare_thread_keeps_no_process(rt: HostRuntime) {
    assert!(rt; is_so_of_new(rt.alloc(), are_last_threads_known));
}

fn is_done(procs: &Procs, t: Tid) -> bool {
    matches!(procs.state(t), ThreadState::Done)
}

/// Of two processes, one ends with its spare, and the other one goes on.
fn is_process_ended(procs: &mut Procs) -> bool {
    if !are_two_processes_added(procs) {
        return false;
    }
    procs.end_proc(Pid(1));
    is_done(procs, Tid(1))
        && is_done(procs, Tid(2))
        && !procs.is_live(Pid(1))
        && procs.is_live(Pid(2))
        && procs.active_threads(Pid(2)) == 2
}

#[test]
fn a_process_ends_with_all_its_threads(rt: HostRuntime) {
    assert!(rt; is_so_of_new(rt.alloc(), is_process_ended));
}

/// Whether a thread is added to a process that has not begun, under this number, and is Dormant.
fn is_added_unborn(procs: &mut Procs, p: Pid, spare: bool, number: u32) -> bool {
    procs.is_unborn(p)
        && matches!(procs.add_unborn_thread(p, spare), Ok(t) if t.0 == number)
        && is_dormant(procs, Tid(number))
}

fn is_dormant(procs: &Procs, t: Tid) -> bool {
    matches!(procs.state(t), ThreadState::Dormant)
}

/// Process 2 is a child of process 1, with a spare, which is thread 2, and another thread.
fn is_child_added(procs: &mut Procs) -> bool {
    if !is_process_added(procs, 1) || !is_process_added(procs, 2) {
        return false;
    }
    procs.make_child(Pid(2), Pid(1));
    !procs.is_live(Pid(2))
        && procs.parent_of(Pid(2)) == Some(Pid(1))
        && procs.parent_of(Pid(1)).is_none()
        && is_thread_added(procs, Pid(1), false, 1)
        && is_added_unborn(procs, Pid(2), true, 2)
        && is_added_unborn(procs, Pid(2), false, 3)
}

/// A child is added, and begins, and its thread runs that is no spare.
fn is_begun(procs: &mut Procs) -> bool {
    if !is_child_added(procs) {
        return false;
    }
    if procs.first_thread(Pid(2)) != Some(Tid(3)) || procs.going().has(Tid(3)) {
        return false;
    }
    procs.begin(Pid(2));
    procs.is_live(Pid(2))
        && !procs.is_unborn(Pid(2))
        && procs.is_spare(Tid(2))
        && is_dormant(procs, Tid(2))
        && procs.going().has(Tid(3))
        && procs.active_threads(Pid(2)) == 1
}

#[test]
fn a_child_begins(rt: HostRuntime) {
    assert!(rt; is_so_of_new(rt.alloc(), is_begun));
}
