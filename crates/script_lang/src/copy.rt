//! A copy of a script.

ghost use Rattle.std.specs.Prelude.{◌≡◌, IfOk};

use crate::script::{Procedure, Script, ScriptProcess, ScriptThread};
use dk_base::duplicate::Duplicate;
use dk_base::error::NoMemory;
use std::alloc::Global;

impl Duplicate for ScriptProcess {
    fn duplicate(&self, alloc: Global) -> Result<Self, NoMemory> {
        Ok(ScriptProcess {
            name: self.name.copy(alloc)?,
            limit: self.limit,
            parent: self.parent,
        })
    }
}

impl Duplicate for ScriptThread {
    fn duplicate(&self, alloc: Global) -> Result<Self, NoMemory> {
        Ok(ScriptThread {
            name: self.name.copy(alloc)?,
            process: self.process,
            spare: self.spare,
            body: self.body.duplicate(alloc)?,
        })
    }
}

impl Duplicate for Procedure {
    fn duplicate(&self, alloc: Global) -> Result<Self, NoMemory> {
        Ok(Procedure {
            name: self.name.copy(alloc)?,
            process: self.process,
            body: self.body.duplicate(alloc)?,
        })
    }
}

impl Script {
    /// An equal script with memory of its own.
    pub fn copy(&self, alloc: Global) -> Result<Script, NoMemory>
        ensures { IfOk result (λ copy. copy ≡ self.now) }
    {
        Ok(Script {
            version: self.version,
            budget: self.budget,
            processes: self.processes.duplicate(alloc)?,
            threads: self.threads.duplicate(alloc)?,
            procedures: self.procedures.duplicate(alloc)?,
            order: self.order.copy(alloc)?,
            schedule: self.schedule.copy(alloc)?,
            tables: self.tables.copy(alloc)?,
        })
    }
}
