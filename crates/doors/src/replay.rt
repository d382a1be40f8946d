//! A run that is taken again by the lines of its trace, for what is said of it on the error stream.

use dk_base::error::NoMemory;
use explain::acts::Subject;
use explain::player::Player;
use explain::run::Run;
use script_lang::parse::parse;
use std::alloc::Global;
use sys_run::sys::Sys;
use trace_check::parts;
use trace_text::thread_of;

/// The kernel that `play` runs.
pub(crate) struct KernelPlayer;

impl Player for KernelPlayer {
    fn parts(input: &[u8]) -> (&[u8], Option<&[u8]>) {
        parts(input)
    }

    fn play(alloc: Global, text: &[u8], run: &mut Run<'_>) -> Result<(), NoMemory> {
        if text.len() >= 4_000_000_000 {
            return Err(NoMemory);
        }
        match parse(alloc, text) {
            Ok(script) => match Sys::new(alloc, script) {
                Ok(mut sys) => follow(&mut sys, run),
                Err(error) => Err(error),
            },
            Err(_) => Err(NoMemory),
        }
    }
}

/// Takes the turns of the lines of a run, and tells which of its threads can take a turn then.
fn follow(sys: &mut Sys, run: &mut Run<'_>) -> Result<(), NoMemory> {
    for _ in 0..sys.script().budget() {
        // no thread has a turn in a line without bytes
        let thread = match thread_of(sys.script(), run.next_line()) {
            Some(thread) if sys.events() < sys.script().budget() && sys.runnable(thread) => thread,
            _ => break,
        };
        let Ok(request) = sys.request(thread) else {
            return Err(NoMemory);
        };
        let subject = Subject::of(request);
        if sys.step(thread).is_err() {
            return Err(NoMemory);
        }
        if let Some(event) = sys.journal().last() {
            run.add(event, subject)?;
        }
    }
    for thread in run.threads.as_mut_slice() {
        thread.is_runnable = sys.runnable(thread.number);
    }
    Ok(())
}
