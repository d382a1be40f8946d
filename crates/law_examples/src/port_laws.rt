//! What the laws of pipes and event ports speak of, at places of runs that are known beforehand. The functions do nothing: they are the
//! laws that the words of these laws hold there.

ghost use Rattle.std.specs.Prelude.{[], ◌∷◌, replicate, true};
ghost use Rattle.dk_base.specs.declared.object.Src.TheVariants as source;
ghost use Rattle.spec_kernel.specs.Words.{state_at};
ghost use Rattle.law_runs.specs.Bytes.{IsRead, IsWritten};
ghost use Rattle.law_runs.specs.PortEvents.{IsAnsweredAt, IsFound};
ghost use Rattle.law_runs.specs.PortWaits.{BeginsWait, WasInterrupted};
ghost use Rattle.law_examples.specs.PortLaws.{fd, sent, several, several_answers, several_errors, several_start, several_turns, turn_of};
ghost use Rattle.law_examples.specs.PortRuns.{GoesAs, alert_start, alert_turns, interrupted_get_start, interrupted_get_turns, pipe_start, pipe_turns};

/// A write of one byte more than fits, and a read of three.
pub fn bytes()
    ensures written { IsWritten pipe_start pipe_turns 1 (turn_of pipe_turns 1) (fd 1) (replicate 4097 120) 4096 }
    ensures read { IsRead pipe_start pipe_turns 3 (turn_of pipe_turns 3) (fd 0) 3 (120 ∷ 120 ∷ 120 ∷ []) }
{}

/// The end of a wait for two events that is told an alert, and a get that is told the event that was sent before it.
pub fn found()
    ensures alert { IsFound alert_start alert_turns 6 1 2 2 (record { source = source.Alert; object = 0; events = 1; user = 4 } ∷ []) }
    ensures event { IsFound alert_start alert_turns 9 1 1 1 (sent 3 9 ∷ []) }
{}

/// A wait that begins, and is interrupted.
pub fn interrupted()
    ensures begins { BeginsWait interrupted_get_start interrupted_get_turns 1 (turn_of interrupted_get_turns 1) (fd 0) 1 1 true }
    ensures interrupted { WasInterrupted interrupted_get_start interrupted_get_turns 3 1 1 1 1 true }
{}

/// Several descriptors that are sent to at once: a port, one that is not open, an end of a pipe, and the same port.
pub fn several_sent()
    ensures goes { GoesAs several_start several_turns several_answers }
    ensures first { IsAnsweredAt (state_at several_start several_turns 2) 1 several several_errors 0 (fd 0) }
    ensures not_open { IsAnsweredAt (state_at several_start several_turns 2) 1 several several_errors 1 (fd 7) }
    ensures no_port { IsAnsweredAt (state_at several_start several_turns 2) 1 several several_errors 2 (fd 1) }
    ensures second { IsAnsweredAt (state_at several_start several_turns 2) 1 several several_errors 3 (fd 0) }
    ensures both { IsFound several_start several_turns 3 1 4 1 (sent 2 3 ∷ sent 2 3 ∷ []) }
{}
