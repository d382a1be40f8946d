//! The values of operands: descriptors, passed descriptors and data.
ghost use Rattle.std.specs.Prelude.{◌≡◌, ◌≤◌, ◌-◌, ◌++◌, length, map, take, replicate, IfOk, OnOk};
ghost use Rattle.spec_requests.specs.Words.{data_of, fd_of, greatest_data as greatest_data_of, pass_of, piece_bytes};
ghost use Rattle.thread_machine.specs.Slots.{slot_value};

use crate::fill::first_items;
use crate::variable::greatest_data;
use crate::variables::Variables;
use dk_base::error::NoMemory;
use dk_base::list::{Bytes, FdList, PassList};
use dk_base::number::Fd;
use dk_base::object::Pass;
use line_forms::line::{FdArg, PassArg, Piece};
use std::alloc::Global;

/// A number that no table has.
const NO_DESCRIPTOR: Fd = Fd(u32::MAX);

/// Appends as many of these bytes as data has room for.
fn append(bytes: &mut Bytes, more: &[u8]) -> Result<(), NoMemory>
    requires { length bytes.old ≤ greatest_data_of }
    ensures { OnOk result (bytes.new ≡ take greatest_data_of (bytes.old ++ more.now)) }
{
    let shown = first_items(more, greatest_data() - bytes.len());
    bytes.append(shown)
}

/// Appends so many bytes `x`, or as many as data has room for.
fn append_fill(bytes: &mut Bytes, count: u32) -> Result<(), NoMemory>
    requires { length bytes.old ≤ greatest_data_of }
    ensures { OnOk result (bytes.new ≡ take greatest_data_of (bytes.old ++ replicate count 120)) }
{
    let shown = (greatest_data() - bytes.len()).min(count as usize);
    for _ in 0..shown {
        bytes.push(b'x')?;
    }
    Ok(())
}

impl Variables {
    /// The number that an operand names.
    pub fn fd(&self, fd: &FdArg) -> Fd
        ensures { result ≡ fd_of (slot_value self.now.set) fd.now }
    {
        match fd {
            FdArg::Number(number) => Fd(*number),
            FdArg::Of { name, k } => match self.get(name.slice()) {
                Some(variable) => match variable.descriptors().get(*k as usize) {
                    Some(fd) => *fd,
                    None => NO_DESCRIPTOR,
                },
                None => NO_DESCRIPTOR,
            },
        }
    }

    pub fn fds(&self, alloc: Global, fds: &[FdArg]) -> Result<FdList, NoMemory>
        ensures { IfOk result (λ list. list ≡ map (fd_of (slot_value self.now.set)) fds.now) }
    {
        let mut list = FdList::new(alloc);
        for fd in fds {
            list.push(self.fd(fd))?;
        }
        Ok(list)
    }

    pub fn passes(&self, alloc: Global, passes: &[PassArg]) -> Result<PassList, NoMemory>
        ensures { IfOk result (λ list. list ≡ map (pass_of (slot_value self.now.set)) passes.now) }
    {
        let mut list = PassList::new(alloc);
        for pass in passes {
            list.push(Pass {
                fd: self.fd(&pass.fd),
                release: pass.release,
            })?;
        }
        Ok(list)
    }

    /// Appends the bytes of a piece, as many as data has room for.
    fn append_piece(&self, bytes: &mut Bytes, piece: &Piece) -> Result<(), NoMemory>
        requires { length bytes.old ≤ greatest_data_of }
        ensures { OnOk result (bytes.new ≡ take greatest_data_of (bytes.old ++ piece_bytes (slot_value self.now.set) piece.now)) }
    {
        match piece {
            Piece::Text(text) => append(bytes, text.slice()),
            Piece::Of(name) => match self.get(name.slice()) {
                Some(variable) => append(bytes, variable.bytes()),
                None => Ok(()),
            },
            Piece::Fill(count) => append_fill(bytes, *count),
        }
    }

    /// The bytes of a data expression.
    pub fn data(&self, alloc: Global, pieces: &[Piece]) -> Result<Bytes, NoMemory>
        ensures { IfOk result (λ bytes. bytes ≡ data_of (slot_value self.now.set) pieces.now) }
    {
        let mut bytes = Bytes::new(alloc);
        for piece in pieces {
            self.append_piece(&mut bytes, piece)?;
        }
        Ok(bytes)
    }
}
