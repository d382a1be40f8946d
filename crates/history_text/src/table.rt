//! Names with their numbers, which are found by an index.

use dk_base::error::NoMemory;
use indexmap::IndexSet;
use std::alloc::Global;
use std::marker::Model;

/// Different byte strings, numbered from 0 in the order in which they came.
#[derive(Drop)]
pub struct Table {
    keys: IndexSet<Vec<u8>>,
}

impl Model for Table {
    ghost use Rattle.std.specs.Prelude.{List, ℕ};
    ghost use Rattle.line_forms.specs.PathNames.{names_as_bytes};

    ghost Value = { List (List ℕ) };

    ghost view = { λ table. names_as_bytes table.keys.keys };
}

impl Table {
    ghost use Rattle.std.specs.Prelude.{◌≡◌, ℕ, List, ◌∷◌, ◌++◌, [], false, length, position, slice_get, unwrap_or, OnOk, OnErr};
    ghost use Rattle.line_forms.specs.Tables.{is_same};
    ghost use Rattle.line_text.specs.Words.{has_name};

    /// No string.
    pub fn new(alloc: Global) -> Self
        ensures { result ≡ [] }
    {
        Table {
            keys: IndexSet::new(alloc),
        }
    }

    pub fn len(&self) -> usize
        ensures { result ≡ length self.now }
    {
        self.keys.len()
    }

    /// The number of a string, if it is there.
    pub fn number_of(&self, key: &[u8]) -> Option<usize>
        ensures { result ≡ position (is_same key.now) self.now }
    {
        self.keys.get_index_of(key)
    }

    /// Whether a string is there.
    pub fn has(&self, key: &[u8]) -> bool
        ensures { result ≡ has_name self.now key.now }
    {
        self.keys.contains(key)
    }

    /// Gives a string that is not there the next number. Want of memory leaves all as it was.
    pub fn add(&mut self, alloc: Global, key: &[u8]) -> Result<(), NoMemory>
        requires { has_name self.old key.now ≡ false }
        ensures ok { OnOk result (self.new ≡ self.old ++ key.now ∷ []) }
        ensures err { OnErr result (self.new ≡ self.old) }
    {
        let Ok(key) = Vec::from_slice(alloc, key) else {
            return Err(NoMemory);
        };
        match self.keys.insert(key) {
            Ok(_) => Ok(()),
            Err(_) => Err(NoMemory),
        }
    }

    /// Takes the last string away again.
    pub fn remove_last(&mut self)
        ensures { (front : List (List ℕ)) (key : List ℕ) → self.old ≡ front ++ key ∷ [] → self.new ≡ front }
    {
        drop(self.keys.pop());
    }

    /// The string of a number, or nothing where there is none.
    pub fn at(&self, number: usize) -> &[u8]
        ensures { result.now ≡ unwrap_or (slice_get self.now number) [] }
    {
        match self.keys.get_index(number) {
            Some(key) => key.as_slice(),
            None => &[],
        }
    }
}
