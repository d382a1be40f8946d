//! `doorlab`: judges what programs did at the kernel of doors.
#![tactic(auto)]

mod history;
mod kernel;
mod opening;
mod status;
mod words;

use crate::opening::judge;
use crate::status::Status;
use crate::words::{Asked, NotAsked, Refusal, command_asked};
use dk_base::error::NoMemory;
use std::alloc::Global;
use std::env;
use std::io::ErrorKind;
use std::process::ExitCode;
use std::rt::{Env, Files};

/// The words of the command line, with the program's name. Words that cannot be had for another cause than memory are none.
fn words_given<R: Env + AllocGlobal>(rt: &R) -> Result<Vec<String>, NoMemory> {
    match env::args(rt) {
        Ok(words) => match words.collect(rt.alloc()) {
            Ok(words) => Ok(words),
            Err(_) => Err(NoMemory),
        },
        Err(error) if error.kind() == ErrorKind::OutOfMemory => Err(NoMemory),
        Err(_) => Ok(Vec::new(rt.alloc())),
    }
}

fn texts_of(alloc: Global, words: &[String]) -> Result<Vec<&str>, NoMemory> {
    let mut texts = Vec::new(alloc);
    for word in words {
        if texts.push(word.as_str()).is_err() {
            return Err(NoMemory);
        }
    }
    Ok(texts)
}

/// How the command ended, and for words that are none why.
#[derive(Clone, Copy)]
struct Ended {
    status: Status,
    refusal: Option<Refusal>,
}

fn with_status(status: Status) -> Ended {
    Ended {
        status,
        refusal: None,
    }
}

fn helped<R: Print>(rt: &R, help: &str) -> Ended {
    match rt.print(help) {
        Ok(()) => with_status(Status::Done),
        Err(_) => with_status(Status::WriteFault),
    }
}

fn answered<R>(rt: &R, words: &[&str]) -> Ended
where
    R: Input + Print + AllocGlobal + Files,
{
    match command_asked(rt.alloc(), words) {
        Ok(Asked::History { file }) => with_status(judge(rt, file)),
        Err(NotAsked::Help(help)) => helped(rt, help.as_str()),
        Err(NotAsked::Refused(refusal)) => Ended {
            status: Status::Usage,
            refusal: Some(refusal),
        },
        Err(NotAsked::Memory) => with_status(Status::Memory),
    }
}

fn program<R>(rt: &R) -> Ended
where
    R: Env + Input + Print + AllocGlobal + Files,
{
    if let Ok(words) = words_given(rt) {
        if let Ok(texts) = texts_of(rt.alloc(), words.as_slice()) {
            return answered(rt, texts.as_slice());
        }
    }
    with_status(Status::Memory)
}

/// What is said on the error stream: one line for a status that has one. Where it cannot be written the status stays.
fn report<R: Eprint>(rt: &R, ended: Ended) {
    if let Some(refusal) = ended.refusal {
        let _ = rt.eprintln(refusal.message());
    }
    if let Some(message) = ended.status.message() {
        let _ = rt.eprintln(message);
    }
}

fn main(rt: HostRuntime) -> ExitCode {
    let ended = program(&rt);
    report(&rt, ended);
    ExitCode::from(ended.status.code())
}
