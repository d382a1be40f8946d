//! What is read is what is written. No function here does anything: it carries a law on the definitions.

ghost use Rattle.history_text.specs.Laws.{ReadIsWritten};

/// What is read as a line is what is written of it, so a line has one spelling.
pub fn read_is_written()
    ensures { ReadIsWritten }
{}
