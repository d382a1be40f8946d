//! Whether two scripts are the same.

ghost use Rattle.std.specs.Prelude.{◌≡◌, ◌↔◌, IsTrue};
ghost use Rattle.script_lang.specs.SameScript.{part_exact, script_process_exact, script_thread_exact, script_procedure_exact};

use crate::script::{Part, Procedure, Script, ScriptProcess, ScriptThread};
use dk_base::exact::Exact;

impl Exact for Part {
    ghost exact = { part_exact };
}

impl Exact for ScriptProcess {
    ghost exact = { script_process_exact };
}

impl Exact for ScriptThread {
    ghost exact = { script_thread_exact };
}

impl Exact for Procedure {
    ghost exact = { script_procedure_exact };
}

impl Script {
    /// Whether two scripts are of the same version, and have the same budget, processes, threads, procedures, paths and schedule, declared in the same
    /// order.
    pub fn same(&self, other: &Script) -> bool
        ensures { IsTrue result ↔ (self.now ≡ other.now) }
    {
        self.version == other.version
            && self.budget == other.budget
            && self.processes.same(&other.processes)
            && self.threads.same(&other.threads)
            && self.procedures.same(&other.procedures)
            && self.order.same(&other.order)
            && self.schedule.same(&other.schedule)
            && self.tables.same_paths(&other.tables)
    }
}
