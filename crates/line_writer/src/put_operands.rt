//! Operands as a line's further words.

ghost use Rattle.std.specs.Prelude.{◌≡◌, ◌∷◌, [], ◌++◌, map, flat_map, codes, decimal, OnOk, IfOk};
ghost use Rattle.line_forms.specs.Words.{attribute_flags, attribute_if, attribute_words, bits_of_flags, data_words, desc_words, fd_word as fd_spelling, joined_piece, pass_word as pass_spelling, piece_word as piece_spelling, release_mark, value_word, variable_word as variable_spelling, wait_words};
ghost use Rattle.line_writer.specs.Written.{Puts};

use dk_base::error::NoMemory;
use dk_base::list::{Bytes, Sequence};
use dk_base::set::Attrs;
use line_forms::line::{FdArg, PassArg, Piece};
use line_forms::sets::{ATTRIBUTES, attribute_word};
use line_text::writer::Writer;
use std::alloc::Global;

/// Puts a number after other bytes, in decimal.
fn append_number(alloc: Global, text: &mut Bytes, number: u64) -> Result<(), NoMemory>
    ensures { OnOk result (text.new ≡ text.old ++ decimal number) }
{
    match number.to_string(alloc) {
        Ok(digits) => text.append(digits.as_bytes()),
        Err(_) => Err(NoMemory),
    }
}

fn variable_word(alloc: Global, name: &[u8]) -> Result<Bytes, NoMemory>
    ensures { IfOk result (λ word. word ≡ variable_spelling name.now) }
{
    let mut word = Sequence::new(alloc);
    word.push(b'$')?;
    word.append(name)?;
    Ok(word)
}

/// `$VAR.0` is written `$VAR`.
fn fd_word(alloc: Global, fd: &FdArg) -> Result<Bytes, NoMemory>
    ensures { IfOk result (λ word. word ≡ fd_spelling fd.now) }
{
    match fd {
        FdArg::Number(number) => {
            let mut word = Sequence::new(alloc);
            append_number(alloc, &mut word, u64::from(*number))?;
            Ok(word)
        }
        FdArg::Of { name, k } => {
            let mut word = variable_word(alloc, name.slice())?;
            if *k != 0 {
                word.push(b'.')?;
                append_number(alloc, &mut word, u64::from(*k))?;
            }
            Ok(word)
        }
    }
}

/// FD
pub fn put_fd(alloc: Global, text: &mut Writer, fd: &FdArg) -> Result<(), NoMemory>
    ensures { Puts (fd_spelling fd.now ∷ []) text.old result text.new }
{
    let word = fd_word(alloc, fd)?;
    text.word(word.slice())
}

fn put_pass(alloc: Global, text: &mut Writer, pass: &PassArg) -> Result<(), NoMemory>
    ensures { Puts (pass_spelling pass.now ∷ []) text.old result text.new }
{
    let mut word = fd_word(alloc, &pass.fd)?;
    if pass.release {
        word.push(b'!')?;
    }
    text.word(word.slice())
}

fn fill_word(alloc: Global, count: u32) -> Result<Bytes, NoMemory>
    ensures { IfOk result (λ word. word ≡ codes "fill:" ++ decimal count) }
{
    let mut word = Sequence::new(alloc);
    word.append(b"fill:")?;
    append_number(alloc, &mut word, u64::from(count))?;
    Ok(word)
}

fn put_piece(alloc: Global, text: &mut Writer, piece: &Piece) -> Result<(), NoMemory>
    ensures { Puts (piece_spelling piece.now ∷ []) text.old result text.new }
{
    match piece {
        Piece::Text(bytes) => text.string(alloc, bytes.slice()),
        Piece::Of(name) => {
            let word = variable_word(alloc, name.slice())?;
            text.word(word.slice())
        }
        Piece::Fill(count) => {
            let word = fill_word(alloc, *count)?;
            text.word(word.slice())
        }
    }
}

/// The N of `setparam`: the greatest number is written `max`.
pub fn put_value(alloc: Global, text: &mut Writer, value: u64) -> Result<(), NoMemory>
    ensures { Puts (value_word value ∷ []) text.old result text.new }
{
    if value == u64::MAX {
        text.word(b"max")
    } else {
        text.number(alloc, value)
    }
}

/// `nowait`, where it does not wait.
pub fn put_wait(text: &mut Writer, wait: bool) -> Result<(), NoMemory>
    ensures { Puts (wait_words wait) text.old result text.new }
{
    if wait { Ok(()) } else { text.word(b"nowait") }
}

fn put_attribute(text: &mut Writer, set: u32, bits: u32) -> Result<(), NoMemory>
    ensures { Puts (attribute_if set bits) text.old result text.new }
{
    if set & bits == 0 {
        Ok(())
    } else {
        text.word(attribute_word(bits).as_bytes())
    }
}

/// The pieces after the first, each after the word `+`.
fn put_more_pieces(alloc: Global, text: &mut Writer, pieces: &[Piece]) -> Result<(), NoMemory>
    ensures { Puts (flat_map joined_piece pieces.now) text.old result text.new }
{
    for piece in pieces {
        text.word(b"+")?;
        put_piece(alloc, text, piece)?;
    }
    Ok(())
}

/// DATA
pub fn put_pieces(alloc: Global, text: &mut Writer, pieces: &[Piece]) -> Result<(), NoMemory>
    ensures { Puts (data_words pieces.now) text.old result text.new }
{
    match pieces.split_first() {
        None => Ok(()),
        Some((first, others)) => {
            put_piece(alloc, text, first)?;
            put_more_pieces(alloc, text, others)
        }
    }
}

fn put_each_pass(alloc: Global, text: &mut Writer, passes: &[PassArg]) -> Result<(), NoMemory>
    ensures { Puts (map pass_spelling passes.now) text.old result text.new }
{
    for pass in passes {
        put_pass(alloc, text, pass)?;
    }
    Ok(())
}

/// `desc PASS ..`, where there are some.
pub fn put_passes(alloc: Global, text: &mut Writer, passes: &[PassArg]) -> Result<(), NoMemory>
    ensures { Puts (desc_words passes.now) text.old result text.new }
{
    if passes.is_empty() {
        return Ok(());
    }
    text.word(b"desc")?;
    put_each_pass(alloc, text, passes)
}

/// FD ..
pub fn put_ports(alloc: Global, text: &mut Writer, ports: &[FdArg]) -> Result<(), NoMemory>
    ensures { Puts (map fd_spelling ports.now) text.old result text.new }
{
    for port in ports {
        put_fd(alloc, text, port)?;
    }
    Ok(())
}

fn put_attribute_words(text: &mut Writer, set: u32) -> Result<(), NoMemory>
    ensures { Puts (flat_map (attribute_if set) (bits_of_flags attribute_flags)) text.old result text.new }
{
    for bits in ATTRIBUTES {
        put_attribute(text, set, bits)?;
    }
    Ok(())
}

/// ATTR .., in the table's order.
#[tactic(auto, using(line_forms::proofs::FlagsOfSet::attribute_words_put))]
pub fn put_attributes(text: &mut Writer, attrs: Attrs) -> Result<(), NoMemory>
    ensures { Puts (attribute_words attrs) text.old result text.new }
{
    put_attribute_words(text, attrs.0)
}
