//! A text that is written word by word.
ghost use Rattle.std.specs.Prelude.{◌≡◌, [], ◌∷◌, ◌++◌, decimal, IfOk, OnOk, OnErr};
ghost use Rattle.line_text.specs.Strings.{quoted_text as quoted_bytes};

use crate::string::quoted_text;
use dk_base::error::NoMemory;
use dk_base::list::{Bytes, Room};
use std::alloc::Global;
use std::marker::Model;

/// A text that is written word by word. Clauses see its bytes so far. Want of memory leaves it as it was.
#[derive(Drop)]
pub struct Writer {
    text: Room<u8>,
}

impl Model for Writer {
    ghost use Rattle.std.specs.Prelude.{List, ℕ};

    ghost Value = { List ℕ };

    ghost view = { λ writer. writer.text.items };
}

impl Writer {
    /// No byte.
    pub fn new(alloc: Global) -> Result<Self, NoMemory>
        ensures { IfOk result (λ writer. writer ≡ []) }
    {
        Ok(Writer {
            text: Room::with_room(alloc, 0)?,
        })
    }

    /// Bytes with no space before them.
    pub fn bytes(&mut self, bytes: &[u8]) -> Result<(), NoMemory>
        ensures ok { OnOk result (self.new ≡ self.old ++ bytes.now) }
        ensures err { OnErr result (self.new ≡ self.old) }
    {
        self.text.reserve(bytes.len())?;
        self.text.append(bytes);
        Ok(())
    }

    /// A line's first word.
    pub fn first(&mut self, word: &[u8]) -> Result<(), NoMemory>
        ensures ok { OnOk result (self.new ≡ self.old ++ word.now) }
        ensures err { OnErr result (self.new ≡ self.old) }
    {
        self.bytes(word)
    }

    /// A further word.
    pub fn word(&mut self, word: &[u8]) -> Result<(), NoMemory>
        ensures ok { OnOk result (self.new ≡ self.old ++ 32 ∷ word.now) }
        ensures err { OnErr result (self.new ≡ self.old) }
    {
        self.text.reserve(word.len() + 1)?;
        self.text.push(b' ');
        self.text.append(word);
        Ok(())
    }

    /// A number in decimal, as a further word.
    pub fn number(&mut self, alloc: Global, number: u64) -> Result<(), NoMemory>
        ensures ok { OnOk result (self.new ≡ self.old ++ 32 ∷ decimal number) }
        ensures err { OnErr result (self.new ≡ self.old) }
    {
        match number.to_string(alloc) {
            Ok(digits) => self.word(digits.as_bytes()),
            Err(_) => Err(NoMemory),
        }
    }

    /// A string that spells these bytes, as a further word.
    pub fn string(&mut self, alloc: Global, bytes: &[u8]) -> Result<(), NoMemory>
        ensures ok { OnOk result (self.new ≡ self.old ++ 32 ∷ quoted_bytes bytes.now) }
        ensures err { OnErr result (self.new ≡ self.old) }
    {
        let word = quoted_text(alloc, bytes)?;
        self.word(word.slice())
    }

    /// The end of a line.
    pub fn end_line(&mut self) -> Result<(), NoMemory>
        ensures ok { OnOk result (self.new ≡ self.old ++ 10 ∷ []) }
        ensures err { OnErr result (self.new ≡ self.old) }
    {
        self.text.reserve(1)?;
        self.text.push(b'\n');
        Ok(())
    }

    /// The bytes alone. It takes no memory.
    pub fn into_bytes(self) -> Bytes
        ensures { result ≡ self }
    {
        let Writer { text } = self;
        text.into_list()
    }
}
