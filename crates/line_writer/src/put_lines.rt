//! The operands of each line as its further words.

ghost use Rattle.std.specs.Prelude.{◌∷◌, [], ◌++◌, map, codes, decimal};
ghost use Rattle.line_forms.specs.Words.{attribute_words, cond_word as cond_spelling, data_words, desc_words, fd_word, mode_word as mode_spelling, op_word as op_spelling, operand_words, param_word as param_spelling, path_word, poll_word as poll_spelling, procedure_word, process_word, thread_word, value_word, wait_words};
ghost use Rattle.line_writer.specs.Written.{Puts};

use crate::put_operands::{
    put_attributes, put_fd, put_passes, put_pieces, put_ports, put_value, put_wait,
};
use dk_base::error::NoMemory;
use dk_base::list::Bytes;
use dk_base::number::PathId;
use dk_base::request::{AlertMode, Op, Param};
use dk_base::set::{Attrs, PollSet};
use line_forms::enumerated::{cond_word, mode_word, op_word, param_word};
use line_forms::line::{FdArg, FdArgList, Line, PassArgList, PieceList};
use line_forms::sets::poll_word;
use line_forms::tables::Tables;
use line_text::writer::Writer;
use std::alloc::Global;

fn put_create(
    alloc: Global,
    tables: &Tables,
    text: &mut Writer,
    var: &Bytes,
    entry: u32,
    cookie: u64,
    attrs: Attrs,
) -> Result<(), NoMemory>
    ensures { Puts (var.now ∷ procedure_word tables.now entry ∷ decimal cookie ∷ attribute_words attrs) text.old result text.new }
{
    text.word(var.slice())?;
    text.word(tables.procedure_name(entry))?;
    text.number(alloc, cookie)?;
    put_attributes(text, attrs)
}

/// VAR FD DATA `desc PASS ..` `rsize N`
#[tactic(auto, using(crate::proofs::SpacedWords::call_put))]
fn put_call(
    alloc: Global,
    text: &mut Writer,
    var: &Bytes,
    fd: &FdArg,
    bytes: &PieceList,
    pass: &PassArgList,
    rsize: u64,
) -> Result<(), NoMemory>
    ensures { Puts (var.now ∷ fd_word fd.now ∷ data_words bytes.now ++ desc_words pass.now ++ codes "rsize" ∷ decimal rsize ∷ []) text.old result text.new }
{
    text.word(var.slice())?;
    put_fd(alloc, text, fd)?;
    put_return(alloc, text, bytes, pass)?;
    text.word(b"rsize")?;
    text.number(alloc, rsize)
}

/// DATA `desc PASS ..`
#[tactic(auto, using(crate::proofs::SpacedWords::put_after))]
fn put_return(
    alloc: Global,
    text: &mut Writer,
    bytes: &PieceList,
    pass: &PassArgList,
) -> Result<(), NoMemory>
    ensures { Puts (data_words bytes.now ++ desc_words pass.now) text.old result text.new }
{
    put_pieces(alloc, text, bytes.slice())?;
    put_passes(alloc, text, pass.slice())
}

fn put_getparam(alloc: Global, text: &mut Writer, fd: &FdArg, param: Param) -> Result<(), NoMemory>
    ensures { Puts (fd_word fd.now ∷ param_spelling param ∷ []) text.old result text.new }
{
    put_fd(alloc, text, fd)?;
    text.word(param_word(param).as_bytes())
}

fn put_setparam(
    alloc: Global,
    text: &mut Writer,
    fd: &FdArg,
    param: Param,
    value: u64,
) -> Result<(), NoMemory>
    ensures { Puts (fd_word fd.now ∷ param_spelling param ∷ value_word value ∷ []) text.old result text.new }
{
    put_fd(alloc, text, fd)?;
    text.word(param_word(param).as_bytes())?;
    put_value(alloc, text, value)
}

fn put_dup(alloc: Global, text: &mut Writer, var: &Bytes, fd: &FdArg) -> Result<(), NoMemory>
    ensures { Puts (var.now ∷ fd_word fd.now ∷ []) text.old result text.new }
{
    text.word(var.slice())?;
    put_fd(alloc, text, fd)
}

fn put_attach(
    alloc: Global,
    tables: &Tables,
    text: &mut Writer,
    fd: &FdArg,
    path: PathId,
) -> Result<(), NoMemory>
    ensures { Puts (fd_word fd.now ∷ path_word tables.now path ∷ []) text.old result text.new }
{
    put_fd(alloc, text, fd)?;
    text.word(tables.path_name(path))
}

fn put_open(tables: &Tables, text: &mut Writer, var: &Bytes, path: PathId) -> Result<(), NoMemory>
    ensures { Puts (var.now ∷ path_word tables.now path ∷ []) text.old result text.new }
{
    text.word(var.slice())?;
    text.word(tables.path_name(path))
}

fn put_pipe(text: &mut Writer, reading: &Bytes, writing: &Bytes) -> Result<(), NoMemory>
    ensures { Puts (reading.now ∷ writing.now ∷ []) text.old result text.new }
{
    text.word(reading.slice())?;
    text.word(writing.slice())
}

fn put_write(
    alloc: Global,
    text: &mut Writer,
    fd: &FdArg,
    bytes: &PieceList,
) -> Result<(), NoMemory>
    ensures { Puts (fd_word fd.now ∷ data_words bytes.now) text.old result text.new }
{
    put_fd(alloc, text, fd)?;
    put_pieces(alloc, text, bytes.slice())
}

fn put_read(
    alloc: Global,
    text: &mut Writer,
    var: &Bytes,
    fd: &FdArg,
    max: u32,
) -> Result<(), NoMemory>
    ensures { Puts (var.now ∷ fd_word fd.now ∷ decimal max ∷ []) text.old result text.new }
{
    text.word(var.slice())?;
    put_fd(alloc, text, fd)?;
    text.number(alloc, u64::from(max))
}

fn put_associate(
    alloc: Global,
    text: &mut Writer,
    port: &FdArg,
    object: &FdArg,
    events: PollSet,
    user: u64,
) -> Result<(), NoMemory>
    ensures { Puts (fd_word port.now ∷ fd_word object.now ∷ poll_spelling events ∷ decimal user ∷ []) text.old result text.new }
{
    put_fd(alloc, text, port)?;
    put_fd(alloc, text, object)?;
    text.word(poll_word(events).as_bytes())?;
    text.number(alloc, user)
}

fn put_dissociate(
    alloc: Global,
    text: &mut Writer,
    port: &FdArg,
    object: &FdArg,
) -> Result<(), NoMemory>
    ensures { Puts (fd_word port.now ∷ fd_word object.now ∷ []) text.old result text.new }
{
    put_fd(alloc, text, port)?;
    put_fd(alloc, text, object)
}

fn put_get(alloc: Global, text: &mut Writer, port: &FdArg, wait: bool) -> Result<(), NoMemory>
    ensures { Puts (fd_word port.now ∷ wait_words wait) text.old result text.new }
{
    put_fd(alloc, text, port)?;
    put_wait(text, wait)
}

fn put_getn(
    alloc: Global,
    text: &mut Writer,
    port: &FdArg,
    max: u32,
    nget: u32,
    wait: bool,
) -> Result<(), NoMemory>
    ensures { Puts (fd_word port.now ∷ decimal max ∷ decimal nget ∷ wait_words wait) text.old result text.new }
{
    put_fd(alloc, text, port)?;
    text.number(alloc, u64::from(max))?;
    text.number(alloc, u64::from(nget))?;
    put_wait(text, wait)
}

fn put_send(
    alloc: Global,
    text: &mut Writer,
    port: &FdArg,
    events: u32,
    user: u64,
) -> Result<(), NoMemory>
    ensures { Puts (fd_word port.now ∷ decimal events ∷ decimal user ∷ []) text.old result text.new }
{
    put_fd(alloc, text, port)?;
    text.number(alloc, u64::from(events))?;
    text.number(alloc, user)
}

fn put_sendn(
    alloc: Global,
    text: &mut Writer,
    events: u32,
    user: u64,
    ports: &FdArgList,
) -> Result<(), NoMemory>
    ensures { Puts (decimal events ∷ decimal user ∷ map fd_word ports.now) text.old result text.new }
{
    text.number(alloc, u64::from(events))?;
    text.number(alloc, user)?;
    put_ports(alloc, text, ports.slice())
}

fn put_alert(
    alloc: Global,
    text: &mut Writer,
    port: &FdArg,
    mode: AlertMode,
    events: u32,
    user: u64,
) -> Result<(), NoMemory>
    ensures { Puts (fd_word port.now ∷ mode_spelling mode ∷ decimal events ∷ decimal user ∷ []) text.old result text.new }
{
    put_fd(alloc, text, port)?;
    text.word(mode_word(mode).as_bytes())?;
    text.number(alloc, u64::from(events))?;
    text.number(alloc, user)
}

fn put_tcreate(alloc: Global, text: &mut Writer, port: &FdArg, user: u64) -> Result<(), NoMemory>
    ensures { Puts (fd_word port.now ∷ decimal user ∷ []) text.old result text.new }
{
    put_fd(alloc, text, port)?;
    text.number(alloc, user)
}

fn put_tset(
    alloc: Global,
    text: &mut Writer,
    timer: u32,
    first: u64,
    interval: u64,
) -> Result<(), NoMemory>
    ensures { Puts (decimal timer ∷ decimal first ∷ decimal interval ∷ []) text.old result text.new }
{
    text.number(alloc, u64::from(timer))?;
    text.number(alloc, first)?;
    text.number(alloc, interval)
}

fn put_work(
    alloc: Global,
    text: &mut Writer,
    var: &Bytes,
    op: Op,
    bytes: &PieceList,
) -> Result<(), NoMemory>
    ensures { Puts (var.now ∷ op_spelling op ∷ data_words bytes.now) text.old result text.new }
{
    text.word(var.slice())?;
    text.word(op_word(op).as_bytes())?;
    put_pieces(alloc, text, bytes.slice())
}

fn put_ncd(alloc: Global, text: &mut Writer, var: &Bytes, bytes: &PieceList) -> Result<(), NoMemory>
    ensures { Puts (var.now ∷ data_words bytes.now) text.old result text.new }
{
    text.word(var.slice())?;
    put_pieces(alloc, text, bytes.slice())
}

/// The words of a line after its keyword.
pub fn put_line_operands(
    alloc: Global,
    tables: &Tables,
    text: &mut Writer,
    line: &Line,
) -> Result<(), NoMemory>
    ensures { Puts (operand_words tables.now line.now) text.old result text.new }
{
    match line {
        Line::Create {
            var,
            entry,
            cookie,
            attrs,
        } => put_create(alloc, tables, text, var, *entry, *cookie, *attrs),
        Line::Call {
            var,
            fd,
            bytes,
            pass,
            rsize,
        } => put_call(alloc, text, var, fd, bytes, pass, *rsize),
        Line::Return { bytes, pass } => put_return(alloc, text, bytes, pass),
        Line::Serve => Ok(()),
        Line::Revoke { fd } => put_fd(alloc, text, fd),
        Line::Bind { fd } => put_fd(alloc, text, fd),
        Line::Unbind => Ok(()),
        Line::Info { fd } => put_fd(alloc, text, fd),
        Line::InfoQuery => text.word(b"query"),
        Line::GetParam { fd, param } => put_getparam(alloc, text, fd, *param),
        Line::SetParam { fd, param, value } => put_setparam(alloc, text, fd, *param, *value),
        Line::Cred => Ok(()),
        Line::TestCancel => Ok(()),
        Line::Exit => Ok(()),
        Line::Close { fd } => put_fd(alloc, text, fd),
        Line::Dup { var, fd } => put_dup(alloc, text, var, fd),
        Line::Attach { fd, path } => put_attach(alloc, tables, text, fd, *path),
        Line::Detach { path } => text.word(tables.path_name(*path)),
        Line::Open { var, path } => put_open(tables, text, var, *path),
        Line::Await { path } => text.word(tables.path_name(*path)),
        Line::Pipe { reading, writing } => put_pipe(text, reading, writing),
        Line::Write { fd, bytes } => put_write(alloc, text, fd, bytes),
        Line::Read { var, fd, max } => put_read(alloc, text, var, fd, *max),
        Line::PortCreate { var } => text.word(var.slice()),
        Line::Associate {
            port,
            object,
            events,
            user,
        } => put_associate(alloc, text, port, object, *events, *user),
        Line::Dissociate { port, object } => put_dissociate(alloc, text, port, object),
        Line::Get { port, wait } => put_get(alloc, text, port, *wait),
        Line::GetN {
            port,
            max,
            nget,
            wait,
        } => put_getn(alloc, text, port, *max, *nget, *wait),
        Line::Send { port, events, user } => put_send(alloc, text, port, *events, *user),
        Line::SendN {
            events,
            user,
            ports,
        } => put_sendn(alloc, text, *events, *user, ports),
        Line::Alert {
            port,
            mode,
            events,
            user,
        } => put_alert(alloc, text, port, *mode, *events, *user),
        Line::TimerCreate { port, user } => put_tcreate(alloc, text, port, *user),
        Line::TimerSet {
            timer,
            first,
            interval,
        } => put_tset(alloc, text, *timer, *first, *interval),
        Line::TimerDelete { timer } => text.number(alloc, u64::from(*timer)),
        Line::Advance { by } => text.number(alloc, *by),
        Line::Interrupt { thread } => text.word(tables.thread_name(*thread)),
        Line::Kill { process } => text.word(tables.process_name(*process)),
        Line::Fork { child } => text.word(tables.process_name(*child)),
        Line::Work { var, op, bytes } => put_work(alloc, text, var, *op, bytes),
        Line::Ncd { var, bytes } => put_ncd(alloc, text, var, bytes),
        Line::Repeat { times } => text.number(alloc, u64::from(*times)),
        Line::If { cond } => text.word(cond_word(*cond).as_bytes()),
        Line::End => Ok(()),
    }
}
