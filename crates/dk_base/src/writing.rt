//! Writing a whole text.
ghost use Rattle.std.specs.Prelude.{◌≤◌, OnOk, OnErr};
ghost use Rattle.std.specs.Io.KnownBytes.{Appends};
ghost use Rattle.dk_base.specs.Outside.{Rose};
ghost use Rattle.dk_base.specs.Output.{AppendsFront};

use crate::error::Failed;
use crate::outside::Sink;

/// Hands the sink all that is left of the text until nothing is left. A fault leaves the front of the text written.
pub fn write_all<O: Sink>(sink: &mut O, text: &[u8]) -> Result<(), Failed>
    ensures ok { OnOk result (Appends (O.held sink.old) (O.held sink.new) text.now) }
    ensures err { OnErr result (AppendsFront (O.held sink.old) (O.held sink.new) text.now) }
    ensures steady { O.faults sink.old ≤ O.faults sink.new }
    ensures cause { OnErr result (Rose (O.faults sink.old) (O.faults sink.new)) }
{
    let mut at = 0;
    while at < text.len() {
        at += sink.write(&text[at..])?;
    }
    Ok(())
}
