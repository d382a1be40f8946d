//! Verdicts on the text of a history.

use dk_base::list::Bytes;
use line_forms::reason::Reason;

/// What the text of a history is found to be. Lines are counted from 1.
#[derive(Drop)]
pub enum Verdict {
    /// It is a legal history of so many events.
    Legal { events: u64 },
    /// This line, the last, lacks its line feed.
    Cut { line: u64 },
    /// This line is none of a history.
    Bad { line: u64, reason: Reason },
    /// This line is in good form and not the kernel's. `want` is the line that is, or the word `turn` where the thread cannot take
    /// the turn that the line tells, and is at no wait that can end.
    Illegal { line: u64, want: Bytes, have: Bytes },
}
