//! The paths of a script, in the order of their first uses.
use dk_base::error::NoMemory;
use indexmap::IndexSet;
use std::alloc::Global;
use std::marker::Model;

/// Paths, numbered from 0 in the order of their first uses.
#[derive(Drop)]
pub struct PathTable {
    names: IndexSet<Vec<u8>>,
}

impl Model for PathTable {
    ghost use Rattle.std.specs.Prelude.{List, ℕ, length, ◌<◌};
    ghost use Rattle.line_forms.specs.PathNames.{names_as_bytes};

    ghost Value = { List (List ℕ) };

    ghost view = { λ paths. names_as_bytes paths.names.keys };

    ghost invariant = { λ paths. length paths.names.keys < 4294967295 };
}

impl PathTable {
    ghost use Rattle.std.specs.Prelude.{◌≡◌, ◌<◌, ◌↔◌, [], length, IfOk, IsTrue, OnOk, OnErr, slice_get, unwrap_or};
    ghost use Rattle.std.specs.List.{position_or_len};
    ghost use Rattle.line_text.specs.Words.{with_distinct_name};
    ghost use Rattle.line_forms.specs.Tables.{is_same};

    /// No path.
    pub fn new(alloc: Global) -> Self
        ensures { result ≡ [] }
    {
        PathTable {
            names: IndexSet::new(alloc),
        }
    }

    /// The number of a path. One that is not there gets the next.
    pub fn number_of(&self, name: &[u8]) -> u32
        ensures { result ≡ position_or_len (is_same name.now) self.now }
    {
        match self.names.get_index_of(name) {
            Some(place) => place as u32,
            None => self.names.len() as u32,
        }
    }

    /// Gives a path that is not there the next number. Want of memory leaves all as it was.
    pub fn add(&mut self, alloc: Global, name: &[u8]) -> Result<(), NoMemory>
        requires { length self.old < 4294967294 }
        ensures ok { OnOk result (self.new ≡ with_distinct_name self.old name.now) }
        ensures err { OnErr result (self.new ≡ self.old) }
    {
        let Ok(name) = Vec::from_slice(alloc, name) else {
            return Err(NoMemory);
        };
        match self.names.insert(name) {
            Ok(_) => Ok(()),
            Err(_) => Err(NoMemory),
        }
    }

    /// The path of a number, or nothing where there is none.
    pub fn name_of(&self, number: u32) -> &[u8]
        ensures { result.now ≡ unwrap_or (slice_get self.now number) [] }
    {
        match self.names.get_index(number as usize) {
            Some(name) => name.as_slice(),
            None => &[],
        }
    }

    pub fn copy(&self) -> Result<Self, NoMemory>
        ensures { IfOk result (λ copy. copy ≡ self.now) }
    {
        match self.names.clone() {
            Ok(names) => Ok(PathTable { names }),
            Err(_) => Err(NoMemory),
        }
    }

    /// Whether the same paths have the same numbers.
    pub fn same(&self, other: &PathTable) -> bool
        ensures { IsTrue result ↔ (self.now ≡ other.now) }
    {
        self.names.as_slice() == other.names.as_slice()
    }
}
