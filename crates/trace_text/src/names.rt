//! What procedures are called.

use script_lang::script::Script;

/// A table of the names of procedures. A number that is no procedure's has the empty name.
pub trait NamesProcedures {
    ghost use Rattle.std.specs.Prelude.{◌≡◌, ℕ, List};

    ghost procedures: { Self → ℕ → List ℕ };

    fn name_of_procedure(&self, entry: u32) -> &[u8]
        ensures { result.now ≡ procedures self.now entry };
}

impl NamesProcedures for Script {
    ghost use Rattle.spec_requests.specs.TraceNames.{procedure_name};

    ghost procedures = { λ script. procedure_name script };

    fn name_of_procedure(&self, entry: u32) -> &[u8] {
        self.name_of_procedure(entry)
    }
}
