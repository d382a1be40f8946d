//! New names of the members of a process.
ghost use Rattle.std.specs.Prelude.{◌≡◌, ◌∷◌, ◌++◌, [], IfOk, List, length, map, reverse, take};
ghost use Rattle.history_text.specs.Types.{NamedThread as NamedThreadValue};
ghost use Rattle.history_text.specs.Changes.{called_thread, new_thread, with_member_names};

use crate::line::Member;
use crate::named::NamedThread;
use dk_base::error::NoMemory;
use dk_base::list::Bytes;
use std::alloc::Global;

/// Copies of names, the last first, so that the first is taken first.
pub fn reversed_copies(alloc: Global, names: &[Bytes]) -> Result<Vec<Bytes>, NoMemory>
    ensures { IfOk result (λ copies. copies.items ≡ reverse names.now) }
{
    let mut copies = Vec::new(alloc);
    for name in names {
        let copy = name.copy(alloc)?;
        if copies.push(copy).is_err() {
            return Err(NoMemory);
        }
    }
    copies.as_mut_slice().reverse();
    Ok(copies)
}

fn call_thread(thread: &mut NamedThread, name: Bytes)
    ensures { thread.new ≡ called_thread name thread.old }
{
    thread.given = Some(name);
}

/// A member of the process takes the next name, which stands last.
#[tactic(auto, using(crate::proofs::MemberNames::not_member, crate::proofs::MemberNames::next_name, crate::proofs::MemberNames::no_name))]
fn call_if_member(thread: &mut NamedThread, process: u32, names: &mut Vec<Bytes>)
    ensures { (rest : List NamedThreadValue) → with_member_names process (reverse names.old.items) (thread.old ∷ rest) ≡ thread.new ∷ with_member_names process (reverse names.new.items) rest }
{
    if thread.process != process {
        return;
    }
    match names.pop() {
        Some(name) => call_thread(thread, name),
        None => {}
    }
}

/// The members of a process take these names in their order, of which the first stands last. It takes no memory.
pub fn call_members(threads: &mut [NamedThread], process: u32, mut names: Vec<Bytes>)
    ensures { threads.new ≡ with_member_names process (reverse names.items) threads.old }
{
    for thread in threads.iter_mut() {
        call_if_member(thread, process, &mut names);
    }
}

/// The threads that these members of a process are.
pub fn threads_of_members(
    alloc: Global,
    process: u32,
    members: &[Member],
) -> Result<Vec<NamedThread>, NoMemory>
    ensures { IfOk result (λ threads. threads.items ≡ map (new_thread process) members.now) }
{
    let mut threads = Vec::new(alloc);
    for member in members {
        let thread = NamedThread {
            declared: member.name.copy(alloc)?,
            given: None,
            process,
            spare: member.spare,
        };
        if threads.push(thread).is_err() {
            return Err(NoMemory);
        }
    }
    Ok(threads)
}
