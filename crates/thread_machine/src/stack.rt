//! The open blocks of a place.
ghost use Rattle.std.specs.Prelude.{◌≡◌, ◌<◌, [], ◌∷◌, length, MatchOption};

use arrayvec::ArrayVec;
use std::marker::Model;

/// An open block: where the lines in it begin, and how many turns of it are left after this one. An `if` is a loop with
/// none left.
#[derive(Clone, Copy, Debug, Default, PartialEq, Eq)]
pub struct Turns {
    pub start: usize,
    pub left: u32,
}

/// The open blocks, innermost first.
#[derive(Drop)]
pub struct Stack {
    blocks: ArrayVec<Turns, 8>,
}

impl Model for Stack {
    ghost use Rattle.std.specs.Prelude.{List, reverse};
    ghost use Rattle.thread_machine.specs.declared.stack.Turns.{Turns};

    ghost Value = { List Turns };

    ghost view = { λ s. reverse s.blocks.items };
}

impl Stack {
    pub fn new() -> Self
        ensures { result ≡ [] }
    {
        Stack {
            blocks: ArrayVec::new(),
        }
    }

    pub fn len(&self) -> usize
        ensures { result ≡ length self.now }
    {
        self.blocks.len()
    }

    /// One block more, the innermost.
    pub fn push(&mut self, turns: Turns)
        requires { length self.old < 8 }
        ensures { self.new ≡ turns ∷ self.old }
    {
        self.blocks.push(turns);
    }

    /// The innermost block is left.
    pub fn pop(&mut self) -> Option<Turns>
        ensures { MatchOption result ((self.old ≡ []) × (self.new ≡ [])) (λ turns. self.old ≡ turns ∷ self.new) }
    {
        self.blocks.pop()
    }
}
