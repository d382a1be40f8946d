//! Which variables a body sets or names.
ghost use Rattle.std.specs.Prelude.{◌≡◌, ◌++◌, flat_map, OnOk};
ghost use Rattle.line_text.specs.Words.{with_distinct_name, with_distinct_names};
ghost use Rattle.line_forms.specs.Words.{fd_variables, pass_variables, piece_variables, variables_of};

use dk_base::error::NoMemory;
use dk_base::list::{Bytes, Sequence};
use line_forms::line::{FdArg, Line, PassArg, Piece};
use line_text::names::add_name;
use std::alloc::Global;

/// Puts the variable of a descriptor after these names, unless it is among them.
fn add_of_fd(alloc: Global, names: &mut Sequence<Bytes>, fd: &FdArg) -> Result<(), NoMemory>
    ensures { OnOk result (names.new ≡ with_distinct_names names.old (fd_variables fd.now)) }
{
    match fd {
        FdArg::Number(_) => Ok(()),
        FdArg::Of { name, .. } => add_name(alloc, names, name.slice()),
    }
}

#[tactic(auto, using(crate::proofs::WithNames::with_names_append))]
fn add_of_fds(alloc: Global, names: &mut Sequence<Bytes>, fds: &[FdArg]) -> Result<(), NoMemory>
    ensures { OnOk result (names.new ≡ with_distinct_names names.old (flat_map fd_variables fds.now)) }
{
    for fd in fds {
        add_of_fd(alloc, names, fd)?;
    }
    Ok(())
}

#[tactic(auto, using(crate::proofs::WithNames::with_names_append))]
fn add_of_passes(
    alloc: Global,
    names: &mut Sequence<Bytes>,
    passes: &[PassArg],
) -> Result<(), NoMemory>
    ensures { OnOk result (names.new ≡ with_distinct_names names.old (flat_map pass_variables passes.now)) }
{
    for pass in passes {
        add_of_fd(alloc, names, &pass.fd)?;
    }
    Ok(())
}

fn add_of_piece(alloc: Global, names: &mut Sequence<Bytes>, piece: &Piece) -> Result<(), NoMemory>
    ensures { OnOk result (names.new ≡ with_distinct_names names.old (piece_variables piece.now)) }
{
    match piece {
        Piece::Of(name) => add_name(alloc, names, name.slice()),
        Piece::Text(_) | Piece::Fill(_) => Ok(()),
    }
}

#[tactic(auto, using(crate::proofs::WithNames::with_names_append))]
fn add_of_pieces(
    alloc: Global,
    names: &mut Sequence<Bytes>,
    pieces: &[Piece],
) -> Result<(), NoMemory>
    ensures { OnOk result (names.new ≡ with_distinct_names names.old (flat_map piece_variables pieces.now)) }
{
    for piece in pieces {
        add_of_piece(alloc, names, piece)?;
    }
    Ok(())
}

/// Puts the variables of a line after these names, each that is not among them.
#[tactic(auto, using(crate::proofs::WithNames::with_names_append))]
pub fn add_variables(
    alloc: Global,
    names: &mut Sequence<Bytes>,
    line: &Line,
) -> Result<(), NoMemory>
    ensures { OnOk result (names.new ≡ with_distinct_names names.old (variables_of line.now)) }
{
    match line {
        Line::Create { var, .. } | Line::Open { var, .. } | Line::PortCreate { var } => add_name(
            alloc,
            names,
            var.slice(),
        ),
        Line::Call {
            var,
            fd,
            bytes,
            pass,
            ..
        } => {
            add_name(alloc, names, var.slice())?;
            add_of_fd(alloc, names, fd)?;
            add_of_pieces(alloc, names, bytes.slice())?;
            add_of_passes(alloc, names, pass.slice())
        }
        Line::Return { bytes, pass } => {
            add_of_pieces(alloc, names, bytes.slice())?;
            add_of_passes(alloc, names, pass.slice())
        }
        Line::Revoke { fd }
        | Line::Bind { fd }
        | Line::Info { fd }
        | Line::GetParam { fd, .. }
        | Line::SetParam { fd, .. }
        | Line::Close { fd }
        | Line::Attach { fd, .. } => add_of_fd(alloc, names, fd),
        Line::Dup { var, fd } | Line::Read { var, fd, .. } => {
            add_name(alloc, names, var.slice())?;
            add_of_fd(alloc, names, fd)
        }
        Line::Pipe { reading, writing } => {
            add_name(alloc, names, reading.slice())?;
            add_name(alloc, names, writing.slice())
        }
        Line::Write { fd, bytes } => {
            add_of_fd(alloc, names, fd)?;
            add_of_pieces(alloc, names, bytes.slice())
        }
        Line::Associate { port, object, .. } | Line::Dissociate { port, object } => {
            add_of_fd(alloc, names, port)?;
            add_of_fd(alloc, names, object)
        }
        Line::Get { port, .. }
        | Line::GetN { port, .. }
        | Line::Send { port, .. }
        | Line::Alert { port, .. }
        | Line::TimerCreate { port, .. } => add_of_fd(alloc, names, port),
        Line::SendN { ports, .. } => add_of_fds(alloc, names, ports.slice()),
        Line::Work { var, bytes, .. } | Line::Ncd { var, bytes } => {
            add_name(alloc, names, var.slice())?;
            add_of_pieces(alloc, names, bytes.slice())
        }
        Line::Serve
        | Line::Unbind
        | Line::InfoQuery
        | Line::Cred
        | Line::TestCancel
        | Line::Exit
        | Line::Detach { .. }
        | Line::Await { .. }
        | Line::TimerSet { .. }
        | Line::TimerDelete { .. }
        | Line::Advance { .. }
        | Line::Interrupt { .. }
        | Line::Kill { .. }
        | Line::Fork { .. }
        | Line::Repeat { .. }
        | Line::If { .. }
        | Line::End => Ok(()),
    }
}
