//! `doors`: runs a script of processes, threads and server procedures, and writes the trace of its run.
#![tactic(auto)]

mod replay;

use crate::replay::KernelPlayer;
use dk_base::error::NoMemory;
use dk_base::list::Bytes;
use dk_base::outside::NoGate;
use dk_base::standard::{StdSink, StdSource};
use doors_top::status::Status;
use doors_top::top::doors_main;
use explain::explaining::explanation;
use explain::recording::{RecordedSink, RecordedSource};
use std::alloc::Global;
use std::io::ErrorKind;
use std::process::ExitCode;
use std::rt::Env;
use std::sync::Wait;
use std::thread::Threads;
use std::{env, io};

/// The words after the program's name. Words that cannot be had for another cause than memory are no words.
fn words_given<R: Env + AllocGlobal>(rt: &R) -> Result<Vec<String>, NoMemory> {
    match env::args(rt) {
        Ok(words) => match words.skip(1).collect(rt.alloc()) {
            Ok(words) => Ok(words),
            Err(_) => Err(NoMemory),
        },
        Err(error) if error.kind() == ErrorKind::OutOfMemory => Err(NoMemory),
        Err(_) => Ok(Vec::new(rt.alloc())),
    }
}

fn texts_of(alloc: Global, words: &[String]) -> Result<Vec<&str>, NoMemory> {
    let mut texts = Vec::new(alloc);
    for word in words {
        if texts.push(word.as_str()).is_err() {
            return Err(NoMemory);
        }
    }
    Ok(texts)
}

/// How a command ended, and what is to be said of its answer.
#[derive(Drop)]
struct Ended {
    status: Status,
    told: Option<Bytes>,
}

/// The top call over the real input and output. What is said of its answer is made when all is written; where memory runs out for it
/// nothing is said.
fn answered<R>(rt: &R, alloc: Global, words: &[&str]) -> Ended
where
    R: Env + Input + Print + AllocGlobal + Threads + Wait + Sync,
{
    let mut source = RecordedSource::new(alloc, StdSource::new(rt.reader()));
    let mut sink = RecordedSink::new(alloc, StdSink::new(io::writer(rt)));
    let status = doors_main(rt, alloc, words, &mut source, &mut sink, &NoGate);
    let told = explanation::<KernelPlayer>(alloc, words, source.kept(), sink.kept(), status.code());
    Ended {
        status,
        told: told.ok(),
    }
}

/// The same of the words that were given.
fn program<R>(rt: &R) -> Ended
where
    R: Env + Input + Print + AllocGlobal + Threads + Wait + Sync,
{
    let alloc = rt.alloc();
    if let Ok(words) = words_given(rt) {
        if let Ok(texts) = texts_of(alloc, words.as_slice()) {
            return answered(rt, alloc, texts.as_slice());
        }
    }
    Ended {
        status: Status::Memory,
        told: None,
    }
}

/// What is said on the error stream: one line for a status that has one, or what is to be said of the answer. Where it cannot be
/// written the status stays.
fn report<R: Eprint>(rt: &R, ended: &Ended) {
    if let Some(message) = ended.status.message() {
        let _ = rt.eprintln(message);
    }
    if let Some(told) = &ended.told {
        if let Ok(text) = str::from_utf8(told.slice()) {
            let _ = rt.eprint(text);
        }
    }
}

fn main(rt: HostRuntime) -> ExitCode {
    let ended = program(&rt);
    report(&rt, &ended);
    ExitCode::from(ended.status.code())
}
