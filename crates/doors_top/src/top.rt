//! The top call.
ghost use Rattle.std.specs.Prelude.{◌≡◌, ◌≢◌, ℕ, ◌≤◌, false};
ghost use Rattle.load_gen.specs.declared.load_script.TheConstants.{CALLS_MAX};
ghost use Rattle.doors_top.specs.declared.script_in.TheConstants.{CHECK_LIMIT, SCRIPT_LIMIT};
ghost use Rattle.doors_top.specs.Outcomes.{IsLoad, IsNoCommand, is_run, texts, usage};
ghost use Rattle.doors_top.specs.Top.{Answered, AnsweredLoad, AnswersWords, HasText, IsChecked, IsPlayed, IsRan, IsShown, IsWritten, LeavesInput, LeavesOutput};

use crate::check::check;
use crate::frame::{read_input, write_made};
use crate::load::load;
use crate::play::play;
use crate::reply::usage_reply;
use crate::run::run;
use crate::script_in::{CHECK_LIMIT, SCRIPT_LIMIT};
use crate::show::show;
use crate::status::Status;
use crate::words::{calls_of_load, is_check_word, is_play_word, is_run_word, is_show_word};
use dk_base::outside::{Gate, Sink, Source};
use std::alloc::Global;
use std::sync::Wait;
use std::thread::Threads;

fn answer_play<S: Source, O: Sink>(alloc: Global, src: &mut S, out: &mut O) -> Status
    ensures answer { HasText result → Answered SCRIPT_LIMIT IsPlayed (S.left src.old) (S.left src.new) (O.held out.old) (O.held out.new) result }
    ensures input { LeavesInput S.left S.faults src.old src.new result }
    ensures output { LeavesOutput O.faults out.old out.new result }
{
    match read_input(alloc, src, SCRIPT_LIMIT) {
        Ok(read) => write_made(out, play(alloc, &read)),
        Err(fault) => fault,
    }
}

fn answer_show<S: Source, O: Sink>(alloc: Global, src: &mut S, out: &mut O) -> Status
    ensures answer { HasText result → Answered SCRIPT_LIMIT IsShown (S.left src.old) (S.left src.new) (O.held out.old) (O.held out.new) result }
    ensures input { LeavesInput S.left S.faults src.old src.new result }
    ensures output { LeavesOutput O.faults out.old out.new result }
{
    match read_input(alloc, src, SCRIPT_LIMIT) {
        Ok(read) => write_made(out, show(alloc, &read)),
        Err(fault) => fault,
    }
}

fn answer_check<S: Source, O: Sink>(alloc: Global, src: &mut S, out: &mut O) -> Status
    ensures answer { HasText result → Answered CHECK_LIMIT IsChecked (S.left src.old) (S.left src.new) (O.held out.old) (O.held out.new) result }
    ensures input { LeavesInput S.left S.faults src.old src.new result }
    ensures output { LeavesOutput O.faults out.old out.new result }
{
    match read_input(alloc, src, CHECK_LIMIT) {
        Ok(read) => write_made(out, check(alloc, &read)),
        Err(fault) => fault,
    }
}

fn answer_run<R: Threads + Wait + Sync, S: Source, O: Sink, G: Gate + Sync>(
    rt: &R,
    alloc: Global,
    src: &mut S,
    out: &mut O,
    gate: &G,
) -> Status
    ensures answer { HasText result → Answered SCRIPT_LIMIT IsRan (S.left src.old) (S.left src.new) (O.held out.old) (O.held out.new) result }
    ensures input { LeavesInput S.left S.faults src.old src.new result }
    ensures output { LeavesOutput O.faults out.old out.new result }
{
    match read_input(alloc, src, SCRIPT_LIMIT) {
        Ok(read) => write_made(out, run(rt, alloc, &read, gate)),
        Err(fault) => fault,
    }
}

fn answer_load<O: Sink>(alloc: Global, out: &mut O, n: u32) -> Status
    requires least { 1 ≤ n }
    requires most { n ≤ CALLS_MAX }
    ensures answer { HasText result → AnsweredLoad n (O.held out.old) (O.held out.new) result }
    ensures output { LeavesOutput O.faults out.old out.new result }
    ensures no_read_fault { result ≢ Status.ReadFault }
{
    write_made(out, load(alloc, n))
}

fn write_usage<O: Sink>(alloc: Global, out: &mut O) -> Status
    ensures answer { HasText result → IsWritten usage (O.held out.old) (O.held out.new) result }
    ensures output { LeavesOutput O.faults out.old out.new result }
    ensures no_read_fault { result ≢ Status.ReadFault }
{
    write_made(out, usage_reply(alloc))
}

/// The words with which nothing is read: `load N`, and those that are no command.
fn answer_unread<O: Sink>(alloc: Global, words: &[&str], out: &mut O) -> Status
    ensures load { (n : ℕ) → IsLoad (texts words.now) n → HasText result → AnsweredLoad n (O.held out.old) (O.held out.new) result }
    ensures usage { IsNoCommand (texts words.now) → HasText result → IsWritten usage (O.held out.old) (O.held out.new) result }
    ensures output { LeavesOutput O.faults out.old out.new result }
    ensures no_read_fault { result ≢ Status.ReadFault }
{
    match calls_of_load(words) {
        Some(n) => answer_load(alloc, out, n),
        None => write_usage(alloc, out),
    }
}

/// The commands but `run`. `play` reads a script to the end of the input and writes the trace of the run that its turns
/// make; `show` writes the canonical text of a script; `check` reads a script, the line `trace` and a trace, and writes whether
/// that is the trace of a legal run of the script; `load N` writes the line that tells of the run that `play` makes of a generated
/// script of N calls, and reads nothing. Other words are answered with the usage line, and nothing is read.
/// An answer comes with its whole text, WriteFault with a front of it. The text is made whole before the first write, so
/// with ReadFault and with Memory the output is as it was. What is left of the input is the end of what was left.
pub fn plain_main<S: Source, O: Sink>(
    alloc: Global,
    words: &[&str],
    src: &mut S,
    out: &mut O,
) -> Status
    requires { is_run (texts words.now) ≡ false }
    ensures { AnswersWords S.left S.faults O.held O.faults (texts words.now) src.old src.new out.old out.new result }
{
    if is_play_word(words) {
        answer_play(alloc, src, out)
    } else if is_show_word(words) {
        answer_show(alloc, src, out)
    } else if is_check_word(words) {
        answer_check(alloc, src, out)
    } else {
        answer_unread(alloc, words, out)
    }
}

/// The top call: what the program does, from its words to its exit status. `run` reads a script to the end of the input, drives
/// each of its threads on a thread of its own, or on the calling one where none could be started, and writes the trace of the run
/// that they made, and the line `tail N`. A driver passes the gate before it looks for its turn. All other words are those of
/// `plain_main`. The promise is the same, and holds where the call returns: with `run` it may wait.
pub fn doors_main<R: Threads + Wait + Sync, S: Source, O: Sink, G: Gate + Sync>(
    rt: &R,
    alloc: Global,
    words: &[&str],
    src: &mut S,
    out: &mut O,
    gate: &G,
) -> Status
    ensures { AnswersWords S.left S.faults O.held O.faults (texts words.now) src.old src.new out.old out.new result }
{
    if is_run_word(words) {
        answer_run(rt, alloc, src, out, gate)
    } else {
        plain_main(alloc, words, src, out)
    }
}
