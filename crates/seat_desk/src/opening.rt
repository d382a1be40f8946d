//! Names for the states from which histories of seats begin.

use std::marker::Brand;

/// A name for the state from which a history is legal. A caller picks it where it makes the seats.
pub trait Opening {
    ghost use Rattle.spec_kernel.specs.Words.{State};

    ghost opening: { State };
}

impl Opening for Brand {
    ghost use Rattle.spec_kernel.specs.Words.{no_process};

    ghost opening = { no_process };
}
