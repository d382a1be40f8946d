//! Where in a line a byte stands: between words, in a word, or in a string.

/// Where a place in a line stands.
#[derive(Clone, Copy)]
pub enum Mode {
    Between,
    Word,
    Text,
    /// After a backslash in a string.
    Escape,
}
