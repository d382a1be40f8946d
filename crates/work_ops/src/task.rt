//! Tasks, and tasks that are done.
ghost use Rattle.std.specs.Prelude.{◌≡◌, ◌↔◌, IfOk, IsTrue};
ghost use Rattle.work_ops.specs.Words.{output_of};

use crate::ops;
use dk_base::error::NoMemory;
use dk_base::list::Bytes;
use dk_base::request::Op;
use std::alloc::Global;
use std::marker::Model;

/// An op and the bytes that it is for. Clauses see both.
#[derive(Drop)]
pub struct Task {
    op: Op,
    input: Bytes,
}

impl Model for Task {
    ghost use Rattle.work_ops.specs.Words.{TaskValue};

    ghost Value = { TaskValue };

    ghost view = { λ t. record { op = t.op; input = t.input } };
}

impl Task {
    /// The task to make of these bytes what the op makes of them. It takes no memory.
    pub fn new(op: Op, input: Bytes) -> Self
        ensures op { result.op ≡ op }
        ensures input { result.input ≡ input }
    {
        Task { op, input }
    }
}

/// A task with its output, which is what its op makes of its input. Clauses see the task.
#[derive(Drop)]
pub struct Done {
    op: Op,
    input: Bytes,
    output: Bytes,
}

impl Model for Done {
    ghost use Rattle.std.specs.Prelude.{◌≡◌};
    ghost use Rattle.work_ops.specs.Words.{TaskValue, output_of};

    ghost Value = { TaskValue };

    ghost view = { λ d. record { op = d.op; input = d.input } };

    ghost invariant = { λ d. d.output ≡ output_of d.op d.input };
}

impl Done {
    /// What was computed.
    pub fn op(&self) -> Op
        ensures { result ≡ self.now.op }
    {
        self.op
    }

    /// Of which bytes it was computed.
    pub fn input(&self) -> &Bytes
        ensures { result.now ≡ self.now.input }
    {
        &self.input
    }

    /// Whether it is this op of these bytes that was computed.
    pub fn is_of(&self, op: Op, input: &Bytes) -> bool
        ensures { IsTrue result ↔ ((self.now.op ≡ op) × (self.now.input ≡ input.now)) }
    {
        self.op == op && self.input.slice() == input.slice()
    }

    /// What came of it.
    pub fn output(&self) -> &Bytes
        ensures { result.now ≡ output_of self.now.op self.now.input }
    {
        &self.output
    }

    /// The output alone. It takes no memory.
    pub fn into_output(self) -> Bytes
        ensures { result ≡ output_of self.op self.input }
    {
        let Done {
            op: _,
            input: _,
            output,
        } = self;
        output
    }
}

/// Does a task. Want of memory drops it.
pub fn run(alloc: Global, task: Task) -> Result<Done, NoMemory>
    ensures { IfOk result (λ done. done ≡ task) }
{
    let Task { op, input } = task;
    let output = ops::output_of(alloc, op, input.slice())?;
    Ok(Done { op, input, output })
}
