//! What is found at one line of a history.

use dk_base::list::Bytes;
use line_forms::reason::Reason;

/// What is found at a line.
#[derive(Drop)]
pub(crate) enum Finding {
    /// The text goes on after it.
    GoesOn,
    Bad { reason: Reason },
    /// It is in good form, and another is wanted.
    Illegal { want: Bytes },
}
