//! A place in a body: how it goes over blocks to the next command.
ghost use Rattle.std.specs.Prelude.{◌≡◌, ◌<◌, ◌≤◌, ◌^◌, suc, length, drop, slice_get, Some};
ghost use Rattle.line_forms.specs.declared.line.Kind.TheVariants.{Closing};
ghost use Rattle.line_forms.specs.Words.{kind_of as kind_of_line};
ghost use Rattle.spec_requests.specs.Words.{next_steps};
ghost use Rattle.thread_machine.specs.Places.{IsNested, StandsAt, AtCommand, steps_from, PassesLine, Leaves, depth_after_line, place_in_block, place_after_end, is_left, first_place};
ghost use Rattle.thread_machine.specs.LastAnswers.{is_met_in};

use crate::known::TestContext;
use crate::lines::{tested_condition, times_of};
use crate::stack::{Stack, Turns};
use line_forms::line::{Kind, Line};
use script_lang::blocks::kind_of;

/// How many blocks are open after a line, where so many are before it.
fn new_depth(depth: usize, line: &Line) -> usize
    requires open { kind_of_line line.now ≡ Closing → 0 < depth }
    requires few { depth < 9 }
    ensures { result ≡ depth_after_line depth (kind_of_line line.now) }
{
    match kind_of(line) {
        Kind::Act => depth,
        Kind::Loop | Kind::Test => depth + 1,
        Kind::Closing => depth - 1,
    }
}

/// The position after the innermost block that is open at this one, where it is inside so many others.
fn position_after_block(body: &[Line], position: usize, depth: usize) -> usize
    requires few { depth < 8 }
    requires nested { IsNested (suc depth) (drop position body.now) }
    ensures { Leaves body.now depth position result }
{
    let mut at = position;
    let mut open = depth + 1;
    while at < body.len() {
        open = new_depth(open, &body[at]);
        at += 1;
        if open == depth {
            return at;
        }
    }
    at
}

/// Where a machine stands in a body: before which line, and in which blocks.
#[derive(Drop)]
pub struct Place {
    pub position: usize,
    pub blocks: Stack,
}

impl Place {
    /// Before the first line.
    pub fn new() -> Self
        ensures { result ≡ first_place }
    {
        Place {
            position: 0,
            blocks: Stack::new(),
        }
    }

    /// Into the block that begins here, of which so many turns are left after this one.
    fn enter(&mut self, left: u32)
        requires few { length self.old.blocks < 8 }
        requires inside { self.old.position < 2 ^ 63 }
        ensures { self.new ≡ place_in_block self.old left }
    {
        self.position += 1;
        self.blocks.push(Turns {
            start: self.position,
            left,
        });
    }

    /// At a block's end: to the start of its next turn, or after it. Whether it is left behind.
    fn close(&mut self) -> bool
        requires few { length self.old.blocks ≤ 8 }
        requires inside { self.old.position < 2 ^ 63 }
        ensures moved { self.new ≡ place_after_end self.old }
        ensures left { result ≡ is_left self.old.blocks }
    {
        match self.blocks.pop() {
            None => false,
            Some(turns) => {
                if turns.left == 0 {
                    self.position += 1;
                    return true;
                }
                self.position = turns.start;
                self.blocks.push(Turns {
                    start: turns.start,
                    left: turns.left - 1,
                });
                false
            }
        }
    }

    /// Goes over this line, unless it is a command. Whether another that is none may follow.
    fn pass_line(&mut self, body: &[Line], line: &Line, known: TestContext) -> bool
        requires stands { StandsAt body.now self.old }
        requires there { slice_get body.now self.old.position ≡ Some line.now }
        requires inside { self.old.position < 2 ^ 63 }
        ensures { PassesLine body.now (is_met_in known) self.old result self.new }
    {
        match kind_of(line) {
            Kind::Act => false,
            Kind::Loop => {
                self.enter(times_of(line) - 1);
                false
            }
            Kind::Test => {
                if known.is_met(tested_condition(line)) {
                    self.enter(0);
                } else {
                    self.position = position_after_block(
                        body,
                        self.position + 1,
                        self.blocks.len(),
                    );
                }
                true
            }
            Kind::Closing => self.close(),
        }
    }

    /// Goes over a line that is no command, if one is there. Whether another may follow.
    fn pass(&mut self, body: &[Line], known: TestContext) -> bool
        requires { StandsAt body.now self.old }
        ensures { PassesLine body.now (is_met_in known) self.old result self.new }
    {
        if self.position < body.len() {
            self.pass_line(body, &body[self.position], known)
        } else {
            false
        }
    }

    /// Goes on to the next command, or to the body's end.
    pub fn settle(&mut self, body: &[Line], known: TestContext)
        requires { StandsAt body.now self.old }
        ensures stands { StandsAt body.now self.new }
        ensures command { AtCommand (drop self.new.position body.now) }
        ensures ahead { next_steps (is_met_in known) 0 (steps_from body.now self.old) ≡ steps_from body.now self.new }
    {
        while self.pass(body, known) {}
    }
}
