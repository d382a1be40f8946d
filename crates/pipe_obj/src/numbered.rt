//! A pipe with its number.
ghost use Rattle.std.specs.Prelude.{◌≡◌, ◌+◌, ◌≤◌, ◌++◌, length, min};
ghost use Rattle.dk_base.specs.declared.limits.TheConstants.{PIPE_MAX};
ghost use Rattle.spec_records.specs.Words.{fitting, oldest, without_oldest, written};

use crate::pipe::Pipe;
use dk_base::list::Room;
use std::marker::Model;

/// A pipe with its number. Clauses see the pipe's record.
#[derive(Drop)]
pub struct NumberedPipe {
    pub number: u32,
    pub pipe: Pipe,
}

impl Model for NumberedPipe {
    ghost use Rattle.spec_records.specs.Words.{Pipe};

    ghost Value = { Pipe };

    ghost view = { λ x. record { number = x.number; bytes = x.pipe } };
}

impl NumberedPipe {
    pub fn len(&self) -> usize
        ensures len { result ≡ length self.now.bytes }
        ensures few { length self.now.bytes ≤ PIPE_MAX }
    {
        self.pipe.len()
    }

    pub fn write_fitting(&mut self, bytes: &[u8]) -> u32
        ensures count { result ≡ length (fitting self.old.bytes bytes.now) }
        ensures pipe { self.new ≡ written bytes.now self.old }
    {
        self.pipe.write_fitting(bytes)
    }

    pub fn take_oldest(&mut self, max: u32, into: &mut Room<u8>) -> u32
        requires { min max (length self.old.bytes) ≤ into.old.spare }
        ensures count { result ≡ length (oldest self.old.bytes max) }
        ensures taken { into.new.items ≡ into.old.items ++ oldest self.old.bytes max }
        ensures spare { into.old.spare ≤ into.new.spare + length (oldest self.old.bytes max) }
        ensures pipe { self.new ≡ without_oldest max self.old }
    {
        self.pipe.take_oldest(max, into)
    }
}
