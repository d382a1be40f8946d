//! Records by their keys, and what is answered from them.
ghost use Rattle.std.specs.Prelude.{◌≡◌, [], ◌∷◌, ◌++◌, None, Some, IfOk, List, OnErr, OnOk, is_some, length, option_copied, ℕ};
ghost use Rattle.ncd_app.specs.Commands.{change_to};
ghost use Rattle.ncd_app.specs.Definition.{answer, found_from, has_value, is_full, listed, record_of, recorded, refusal, words_after};
ghost use Rattle.ncd_app.specs.Table.{HasOrder, HoldsChanges, IsTold, keys_with, record_in};

use crate::line::{Change, Question, Record};
use crate::text::Text;
use dk_base::error::NoMemory;
use dk_base::list::Bytes;
use line_text::writer::Writer;
use std::alloc::Global;
use std::collections::BTreeMap;
use std::marker::Model;

/// How many records there can be.
const RECORDS_MAX: usize = 1024;

/// How many keys a `who` tells at most.
const TOLD_KEYS: u32 = 32;

/// How many aliases are followed at most.
const FOLLOWED_ALIASES: u32 = 8;

/// The records by their keys, in order of bytes. Clauses see the pairs.
#[derive(Drop)]
pub struct Table {
    records: BTreeMap<Text, Record>,
}

impl Model for Table {
    ghost use Rattle.ncd_app.specs.Table.{HasOrder, Pairs};

    ghost Value = { Pairs };

    ghost view = { λ t. t.records.entries };

    ghost invariant = { λ t. HasOrder t.records.entries };
}

/// A word and another, with a space between them.
fn two_words(alloc: Global, first: &[u8], second: &[u8]) -> Result<Bytes, NoMemory>
    ensures { IfOk result (λ text. text ≡ words_after first.now (second.now ∷ [])) }
{
    let mut text = Writer::new(alloc)?;
    text.first(first)?;
    text.word(second)?;
    Ok(text.into_bytes())
}

fn is_value(record: &Record, value: &Text) -> bool
    ensures { result ≡ has_value value.now (Some record.now) }
{
    match record {
        Record::Value(held) => value == held,
        Record::Alias(_) => false,
    }
}

/// Tells a key, if its record is this value and fewer than 32 are told: how many are told then.
fn tell(
    text: &mut Writer,
    told: u32,
    key: &Text,
    record: &Record,
    value: &Text,
) -> Result<u32, NoMemory>
    ensures { IfOk result (λ count. (keys : List (List ℕ)) → IsTold text.old told keys → IsTold text.new count (keys ++ keys_with value.now ((key.now, record.now) ∷ []))) }
{
    if !is_value(record, value) || told >= TOLD_KEYS {
        return Ok(told);
    }
    text.word(key.bytes())?;
    Ok(told + 1)
}

impl Table {
    /// No record. It takes no memory.
    pub fn new(alloc: Global) -> Self
        ensures { result ≡ [] }
    {
        Table {
            records: BTreeMap::new(alloc),
        }
    }

    fn len(&self) -> usize
        ensures { (cs : List Change) → HoldsChanges self.now cs → result ≡ length (recorded cs) }
    {
        self.records.len()
    }

    fn record(&self, key: &Text) -> Option<&Record>
        ensures { option_copied result ≡ record_in self.now key.now }
    {
        self.records.get(key)
    }

    fn has(&self, key: &Text) -> bool
        ensures { result ≡ is_some (record_in self.now key.now) }
    {
        self.records.contains_key(key)
    }

    /// Whether a record for this key finds no room: it has none, and there are 1,024.
    fn is_full_for(&self, key: &Text) -> bool
        ensures { (cs : List Change) → HoldsChanges self.now cs → result ≡ is_full cs key.now }
    {
        self.len() >= RECORDS_MAX && !self.has(key)
    }

    /// Why a change can't be made: `full` for a record that finds no room, `none` where there is none to take away.
    pub fn refusal(&self, change: &Change) -> Option<&'static str>
        ensures { (cs : List Change) → HoldsChanges self.now cs → option_copied result ≡ refusal cs change.now }
    {
        match &change.made {
            Some(_) if self.is_full_for(&change.key) => Some("full"),
            None if !self.has(&change.key) => Some("none"),
            _ => None,
        }
    }

    /// Gives a key this record, in place of the one that it has. Want of memory leaves all as it was.
    fn put(&mut self, key: Text, made: Record) -> Result<(), NoMemory>
        ensures ok { OnOk result ((cs : List Change) → HoldsChanges self.old cs → HoldsChanges self.new (change_to key (Some made) ∷ cs)) }
        ensures err { OnErr result (self.new ≡ self.old) }
    {
        match self.records.insert(key, made) {
            Ok(_) => Ok(()),
            Err(_) => Err(NoMemory),
        }
    }

    /// Takes the record of a key away.
    fn remove(&mut self, key: &Text)
        ensures { (cs : List Change) → HoldsChanges self.old cs → HoldsChanges self.new (change_to key.now None ∷ cs) }
    {
        self.records.remove(key);
    }

    /// Makes a change. Want of memory leaves all as it was.
    pub fn apply(&mut self, change: Change) -> Result<(), NoMemory>
        ensures ok { OnOk result ((cs : List Change) → HoldsChanges self.old cs → HoldsChanges self.new (change ∷ cs)) }
        ensures err { OnErr result (self.new ≡ self.old) }
    {
        let Change { key, made } = change;
        match made {
            Some(record) => self.put(key, record),
            None => {
                self.remove(&key);
                Ok(())
            }
        }
    }

    /// What is found from a key on, where `left` aliases may yet be followed.
    fn found(&self, alloc: Global, key: &Text, left: u32) -> Result<Bytes, NoMemory>
        ensures { IfOk result (λ text. (cs : List Change) → HoldsChanges self.now cs → text ≡ found_from cs left (record_of cs key.now)) }
    {
        match self.record(key) {
            None => Bytes::from_slice(alloc, b"none"),
            Some(Record::Value(value)) => two_words(alloc, b"value", value.bytes()),
            Some(Record::Alias(target)) => {
                if left == 0 {
                    return Bytes::from_slice(alloc, b"loop");
                }
                self.found(alloc, target, left - 1)
            }
        }
    }

    /// `keys` and the keys that have a value, in order of bytes, 32 at most; `none` where there are none.
    fn owners(&self, alloc: Global, value: &Text) -> Result<Bytes, NoMemory>
        ensures owners { IfOk result (λ text. text ≡ listed (keys_with value.now self.now)) }
        ensures order { HasOrder self.now }
    {
        let records = &self.records;
        let mut text = Writer::new(alloc)?;
        text.first(b"keys")?;
        let mut told = 0;
        for (key, record) in records {
            told = tell(&mut text, told, key, record, value)?;
        }
        if told == 0 {
            return Bytes::from_slice(alloc, b"none");
        }
        Ok(text.into_bytes())
    }

    /// The answer to a question.
    pub fn answer(&self, alloc: Global, question: &Question) -> Result<Bytes, NoMemory>
        ensures { IfOk result (λ text. (cs : List Change) → HoldsChanges self.now cs → text ≡ answer cs question.now) }
    {
        match question {
            Question::Get(key) => self.found(alloc, key, FOLLOWED_ALIASES),
            Question::Who(value) => self.owners(alloc, value),
        }
    }
}
