//! What the words of the command line ask for.

use clap::error::ErrorKind;
use clap::{Arg, ArgAction, ArgMatches, Command, Error};
use std::alloc::{AllocError, Global};

/// A command with its operands.
#[derive(Clone, Copy)]
pub(crate) enum Asked<'a> {
    /// The verdict on the history in this file; `-` is the standard input.
    History { file: &'a str },
}

/// What is wrong with words that are no command.
#[derive(Clone, Copy)]
pub(crate) enum Refusal {
    NoCommand,
    UnknownCommand,
    NoFile,
    TooMany,
    Others,
}

impl Refusal {
    pub(crate) fn message(self) -> &'static str {
        match self {
            Refusal::NoCommand =>
                "doorlab: give a command: doorlab history FILE (doorlab --help tells more)",
            Refusal::UnknownCommand =>
                "doorlab: the first word is no command: there is doorlab history FILE (doorlab --help tells more)",
            Refusal::NoFile =>
                "doorlab: give the file of the history, or - for the standard input: doorlab history FILE",
            Refusal::TooMany =>
                "doorlab: a word is too many, or no option: doorlab history FILE (doorlab --help tells more)",
            Refusal::Others => "doorlab: the words are no command (doorlab --help tells more)",
        }
    }
}

/// Why the words ask for nothing.
#[derive(Drop)]
pub(crate) enum NotAsked {
    /// They ask for this text.
    Help(String),
    Refused(Refusal),
    Memory,
}

/// The command line. A further command is a subcommand more.
fn command<'a>(alloc: Global) -> Result<Command<'a>, AllocError> {
    let file = Arg::new(alloc, "FILE")
        .help("the text of the history; - is the standard input")
        .required(true)
        .action(ArgAction::Set);
    let history = Command::new(alloc, "history")
        .about(
            "whether a history is legal: each line is the one that the kernel gives at its place",
        )
        .arg(file)?;
    Command::new(alloc, "doorlab")
        .about("judges what programs did at the kernel of doors")
        .subcommand_required(true)
        .disable_help_subcommand(true)
        .bin_name("doorlab")?
        .subcommand(history)
}

fn refusal_of(kind: ErrorKind) -> Refusal {
    match kind {
        ErrorKind::MissingSubcommand | ErrorKind::DisplayHelpOnMissingArgumentOrSubcommand =>
            Refusal::NoCommand,
        ErrorKind::InvalidSubcommand => Refusal::UnknownCommand,
        ErrorKind::MissingRequiredArgument => Refusal::NoFile,
        ErrorKind::UnknownArgument | ErrorKind::TooManyValues => Refusal::TooMany,
        _ => Refusal::Others,
    }
}

/// Why a parse gave nothing, in our words: the error's own text may name what others call so.
fn not_asked(alloc: Global, error: &Error) -> NotAsked {
    match error.kind() {
        ErrorKind::DisplayHelp => match error.to_string(alloc) {
            Ok(help) => NotAsked::Help(help),
            Err(_) => NotAsked::Memory,
        },
        ErrorKind::OutOfMemory => NotAsked::Memory,
        kind => NotAsked::Refused(refusal_of(kind)),
    }
}

fn file_asked<'a>(matches: &ArgMatches<'a>) -> Result<Asked<'a>, NotAsked> {
    let Some(history) = matches.subcommand_matches("history") else {
        return Err(NotAsked::Refused(Refusal::UnknownCommand));
    };
    match history.get_str("FILE") {
        Some(file) => Ok(Asked::History { file }),
        None => Err(NotAsked::Refused(Refusal::NoFile)),
    }
}

/// What the words ask for, of which the first is the program's name.
pub(crate) fn command_asked<'a>(
    alloc: Global,
    words: &'a [&'a str],
) -> Result<Asked<'a>, NotAsked> {
    let Ok(command) = command(alloc) else {
        return Err(NotAsked::Memory);
    };
    match command.try_get_matches_from(words) {
        Ok(matches) => file_asked(&matches),
        Err(error) => Err(not_asked(alloc, &error)),
    }
}
