//! What the law of tasks speaks of, at places of a run that is known beforehand. The functions do nothing: they are the laws that the
//! words of this law hold there.

ghost use Rattle.std.specs.Prelude.{◌≡◌};
ghost use Rattle.dk_base.specs.declared.request.Op.TheVariants as op;
ghost use Rattle.spec_records.specs.declared.record.ThreadState.TheVariants as is;
ghost use Rattle.spec_kernel.specs.Words.{state_at, state_of};
ghost use Rattle.law_runs.specs.Tasks.{BeginsTask, WasAsked};
ghost use Rattle.law_examples.specs.PortLaws.{turn_of};
ghost use Rattle.law_examples.specs.PortRuns.{GoesAs};
ghost use Rattle.law_examples.specs.TaskRuns.{first_input, second_input, tasks_answers, tasks_start, tasks_turns};

/// A task that an interrupt leaves as it is, and one that ends with its process.
pub fn tasks()
    ensures goes { GoesAs tasks_start tasks_turns tasks_answers }
    ensures begins { BeginsTask tasks_start tasks_turns 0 (turn_of tasks_turns 0) op.Reverse first_input }
    ensures asked { WasAsked tasks_start tasks_turns 2 1 op.Reverse first_input }
    ensures ended { state_of (state_at tasks_start tasks_turns 3) 1 ≡ is.Running }
    ensures again { state_of (state_at tasks_start tasks_turns 4) 1 ≡ is.Working op.Upper second_input }
    ensures killed { state_of (state_at tasks_start tasks_turns 5) 1 ≡ is.Done }
{}
