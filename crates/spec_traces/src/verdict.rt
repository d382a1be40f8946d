//! Verdicts on traces.

use dk_base::list::Bytes;

/// What a trace is found to be.
#[derive(Drop)]
pub enum Verdict {
    /// It is the trace of a legal run of so many events.
    Legal { events: u32 },
    /// At this line, counted from 1, another text is wanted than stands there. A text is without its line feed, and empty where no
    /// line may stand, or none stands. `want` is the word `turn` where the run can go on and the line names no thread that can take
    /// a turn.
    Differs { line: u32, want: Bytes, have: Bytes },
}
