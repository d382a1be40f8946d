//! Words of the command line that are no command.

use crate::shown::Shown;
use std::fmt;

static COMMANDS: [&str; 4] = ["play", "run", "show", "check"];

/// What is wrong with the words of the command line.
#[derive(Clone, Copy)]
pub(crate) enum WordsFault<'a> {
    NoCommand,
    NoSuchCommand(&'a str),
    /// A command that takes no word has this one.
    WordTooMany(&'a str),
    /// The word after `load` is no number of calls.
    NoLoad(&'a str),
    /// After `load` stands no word, or more than one.
    LoadTakesOne,
}

impl<'a> WordsFault<'a> {
    pub fn of(words: &[&'a str]) -> Self {
        match words {
            [] => WordsFault::NoCommand,
            ["load", calls] => WordsFault::NoLoad(calls),
            ["load", ..] => WordsFault::LoadTakesOne,
            [command, word, ..] if COMMANDS.contains(command) => WordsFault::WordTooMany(word),
            [command, ..] => WordsFault::NoSuchCommand(command),
        }
    }
}

impl fmt::Display for WordsFault<'_> {
    fn fmt<W: fmt::Write>(&self, f: &mut fmt::Formatter<W>) -> fmt::Result {
        match self {
            WordsFault::NoCommand => writeln!(f, "    no command is given"),
            WordsFault::NoSuchCommand(name) => {
                let name = Shown(name.as_bytes());
                writeln!(
                    f,
                    "    there is no command '{name}': there are play, run, show, check and load"
                )
            }
            WordsFault::WordTooMany(word) => {
                let word = Shown(word.as_bytes());
                writeln!(
                    f,
                    "    '{word}' is a word too many: the input is no word, but comes after '<', as in: doors play < FILE"
                )
            }
            WordsFault::NoLoad(word) => {
                let word = Shown(word.as_bytes());
                writeln!(
                    f,
                    "    '{word}' is no N of 'load N': N is a number from 1 to 16000, without a sign or zeros before it"
                )
            }
            WordsFault::LoadTakesOne => writeln!(
                f,
                "    after 'load' one word stands, a number from 1 to 16000"
            ),
        }
    }
}
