//! Seats at a kernel in its opening state. The kernel is owned here alone, and in one place; what is done with the seats borrows them.
ghost use Rattle.std.specs.Prelude.{◌≡◌, ◌+◌, ◌≤◌, [], length, true};
ghost use Rattle.std.specs.List.{AllByRecursion};
ghost use Rattle.dk_base.specs.declared.limits.TheConstants.{DESCRIPTORS_MAX, PROCESSES_MAX};

use crate::caller::Caller;
use crate::sitter::Sitter;
use crate::{doors, eight, limits, rows};
use dk_base::list::IdList;
use dk_base::number::{Pid, Tid};
use kernel_core::kernel::Kernel;
use seat_api::kernel::Answers;
use seat_api::opening::Opening;
use seat_api::seats::Seats;
use std::alloc::Global;
use std::marker::Brand;
use std::sync::Wait;
use std::thread::Threads;

/// What is done with two seats, the first of which may split off others.
#[derive(Clone, Copy)]
pub enum Deed {
    /// A call and its refusals, where so many calls may find no memory.
    Call { wanting: u32 },
    CreateAtOnce,
    ReachLimits,
    ServeEachOther,
}

fn does<R: Threads + Wait + Sync, C: Caller + Send + Drop>(
    rt: &R,
    alloc: Global,
    mut first: C,
    threads: u32,
    deed: Deed,
) -> bool
    requires threads { (2 ≤ threads) × (C.threads ≡ threads) }
{
    let Some(mut second) = first.split(Tid(2)) else {
        return false;
    };
    match deed {
        Deed::Call { wanting } => rows::are_right(&mut first, &mut second, wanting),
        Deed::CreateAtOnce => doors::both_create(rt, &mut first),
        Deed::ReachLimits => limits::are_reached(&mut first),
        Deed::ServeEachOther => threads == 16 && eight::are_right(rt, alloc, &mut first),
    }
}

fn is_done_at<R: Threads + Wait + Sync, J: Opening + Send + Sync, K: Answers + Send + Sync>(
    rt: &R,
    alloc: Global,
    kernel: K,
    threads: u32,
    deed: Deed,
) -> Option<bool>
    requires opening { K.keeps kernel ≡ J.opening }
    requires no_event { (K.keeps kernel).events ≡ 0 }
    requires threads { (2 ≤ threads) × (length (K.keeps kernel).process_table.threads ≡ threads) }
{
    match Seats::<J, K>::new(alloc, kernel, Tid(1)) {
        Ok((seats, seat)) => {
            let first = Sitter {
                rt,
                alloc,
                seats: &seats,
                seat,
            };
            Some(does(rt, alloc, first, threads, deed))
        }
        Err(_) => None,
    }
}

/// Threads are added to each of the processes in turn.
fn are_added(kernel: &mut Kernel, processes: u32, threads: u32) -> bool
    requires opening { kernel.old.events ≡ 0 }
    requires none { kernel.old.process_table.threads ≡ [] }
    requires processes { (1 ≤ processes) × (length kernel.old.process_table.processes ≡ processes) }
    ensures opening { kernel.new.events ≡ 0 }
    ensures threads { result ≡ true → length kernel.new.process_table.threads ≡ threads }
{
    for t in 0..threads {
        if kernel.add_thread(Pid(t % processes + 1), false).is_err() {
            return false;
        }
    }
    true
}

/// Whether it is done at a kernel of processes with these limits of descriptors, and so many threads. None where there was no memory to make the
/// kernel or its seats.
pub fn is_done<R: Threads + Wait + Sync>(
    rt: &R,
    alloc: Global,
    limits: &[u32],
    threads: u32,
    deed: Deed,
) -> Option<bool>
    requires processes { (1 ≤ length limits.now) × (length limits.now ≤ PROCESSES_MAX) }
    requires limits { AllByRecursion (λ n. n ≤ DESCRIPTORS_MAX) limits.now }
    requires threads { 2 ≤ threads }
{
    let Ok(limits) = IdList::from_slice(alloc, limits) else {
        return None;
    };
    match Kernel::new(alloc, &limits) {
        Ok(mut kernel) => {
            if are_added(&mut kernel, limits.len() as u32, threads) {
                is_done_at::<R, Brand, Kernel>(rt, alloc, kernel, threads, deed)
            } else {
                None
            }
        }
        Err(_) => None,
    }
}
