//! Where a name stands in a list of names.
ghost use Rattle.std.specs.Prelude.{◌≡◌, [], position, slice_get, unwrap_or, option_map};
ghost use Rattle.dk_base.specs.ByNumber.{at_number};
ghost use Rattle.line_forms.specs.Tables.{is_same, is_procedure};

use dk_base::duplicate::Duplicate;
use dk_base::error::NoMemory;
use dk_base::list::Bytes;
use std::alloc::Global;
use std::marker::Model;

/// A procedure's name, and the number of its process.
#[derive(Drop)]
pub struct ProcedureName {
    process: u32,
    name: Bytes,
}

impl Model for ProcedureName {
    ghost use Rattle.line_forms.specs.Tables.{ProcedureName as NameOfProcedure};

    ghost Value = { NameOfProcedure };

    ghost view = { λ procedure. record { process = procedure.process; name = procedure.name } };
}

impl ProcedureName {
    pub fn new(process: u32, name: Bytes) -> Self
        ensures process { result.process ≡ process }
        ensures name { result.name ≡ name }
    {
        ProcedureName { process, name }
    }

    pub fn name(&self) -> &[u8]
        ensures { result.now ≡ self.now.name }
    {
        self.name.slice()
    }

    /// Whether it is this process's procedure of this name.
    fn is(&self, process: u32, name: &[u8]) -> bool
        ensures { result ≡ is_procedure process name.now self.now }
    {
        self.process == process && self.name.slice() == name
    }
}

impl Duplicate for ProcedureName {
    fn duplicate(&self, alloc: Global) -> Result<Self, NoMemory> {
        Ok(ProcedureName {
            process: self.process,
            name: self.name.copy(alloc)?,
        })
    }
}

/// Where a name first stands.
pub fn place_of(names: &[Bytes], name: &[u8]) -> Option<usize>
    ensures { result ≡ position (is_same name.now) names.now }
{
    names.iter().position(|other| other.slice() == name)
}

/// Where the name of this process's procedure first stands.
pub fn place_of_procedure(names: &[ProcedureName], process: u32, name: &[u8]) -> Option<usize>
    ensures { result ≡ position (is_procedure process name.now) names.now }
{
    names.iter().position(|other| other.is(process, name))
}

/// The name that is numbered from 1, or nothing where there is none.
pub fn name_at(names: &[Bytes], number: u32) -> &[u8]
    ensures { result.now ≡ unwrap_or (at_number names.now number) [] }
{
    if number == 0 {
        return &[];
    }
    match names.get(number as usize - 1) {
        Some(name) => name.slice(),
        None => &[],
    }
}

/// The name that is numbered from 0, or nothing where there is none.
pub fn procedure_at(names: &[ProcedureName], number: u32) -> &[u8]
    ensures { result.now ≡ unwrap_or (option_map (λ procedure. procedure.name) (slice_get names.now number)) [] }
{
    match names.get(number as usize) {
        Some(procedure) => procedure.name(),
        None => &[],
    }
}
