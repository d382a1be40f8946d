//! A name table with a cache of its answers.
ghost use Rattle.std.specs.Prelude.{◌≡◌, ◌+◌, ◌<◌, [], ◌∷◌, ◌++◌, IfOk, List, OnErr, ℕ};
ghost use Rattle.ncd_app.specs.Commands.{command_of};
ghost use Rattle.ncd_app.specs.Definition.{reply as reply_after, statistics as statistics_of};
ghost use Rattle.ncd_app.specs.Stands.{Replied, StandsFor, asked_lines};
ghost use Rattle.ncd_app.specs.declared.line.Command.{Command};

use crate::cache::Cache;
use crate::line::{Change, Command, Question, command_of};
use crate::table::Table;
use crate::text::Text;
use dk_base::error::NoMemory;
use dk_base::list::Bytes;
use line_text::writer::Writer;
use std::alloc::Global;
use std::marker::Model;

/// A table of at most 1,024 names, which lines change and ask, and the answers to the 64 different lines that asked last. Clauses see
/// for which lines it stands (`StandsFor`): those that it replied to, in order.
#[derive(Drop)]
pub struct Ncd {
    table: Table,
    cache: Cache,
    hits: u32,
    misses: u32,
    alloc: Global,
}

impl Model for Ncd {
    ghost use Rattle.ncd_app.specs.Stands.{NcdValue};

    ghost Value = { NcdValue };

    ghost view = { λ n. record { records = n.table; cached = n.cache; hits = n.hits; misses = n.misses } };
}

impl Ncd {
    /// It replied to no line.
    pub fn new(alloc: Global) -> Result<Self, NoMemory>
        ensures { IfOk result (λ ncd. StandsFor ncd []) }
    {
        Ok(Ncd {
            table: Table::new(alloc),
            cache: Cache::new(alloc)?,
            hits: 0,
            misses: 0,
            alloc,
        })
    }

    /// Makes a change, if it can be made, and then keeps no answer any more.
    fn change(&mut self, change: Change) -> Result<Bytes, NoMemory>
        ensures ok { (line : List ℕ) → command_of line ≡ Command.Change change → IfOk result (Replied self.old self.new line) }
        ensures err { OnErr result (self.new ≡ self.old) }
    {
        if let Some(refusal) = self.table.refusal(&change) {
            return Bytes::from_slice(self.alloc, refusal.as_bytes());
        }
        let text = Bytes::from_slice(self.alloc, b"ok")?;
        self.table.apply(change)?;
        self.cache.clear();
        Ok(text)
    }

    /// The answer to a line that asks, from the cache if it is kept there.
    fn ask(&mut self, line: Text, question: &Question) -> Result<Bytes, NoMemory>
        requires few { asked_lines self.old < 4000000000 }
        requires asks { command_of line ≡ Command.Ask question.now }
        ensures ok { IfOk result (Replied self.old self.new line) }
        ensures err { OnErr result (self.new ≡ self.old) }
    {
        if let Some(kept) = self.cache.answer(&line) {
            let text = kept.copy(self.alloc)?;
            self.cache.touch(&line);
            self.hits += 1;
            return Ok(text);
        }
        let text = self.table.answer(self.alloc, question)?;
        let kept = text.copy(self.alloc)?;
        self.cache.keep(line, kept)?;
        self.misses += 1;
        Ok(text)
    }

    /// How many lines asked, of those that were replied to.
    pub fn asked(&self) -> u64
        ensures { result ≡ asked_lines self.now }
    {
        u64::from(self.hits) + u64::from(self.misses)
    }

    /// How many lines that asked were hits, and how many were not.
    fn statistics(&self) -> Result<Bytes, NoMemory>
        ensures { IfOk result (λ text. text ≡ statistics_of self.now.hits self.now.misses) }
    {
        let mut text = Writer::new(self.alloc)?;
        text.first(b"hits")?;
        text.number(self.alloc, u64::from(self.hits))?;
        text.word(b"misses")?;
        text.number(self.alloc, u64::from(self.misses))?;
        Ok(text.into_bytes())
    }

    /// Replies to a line. Fewer than 4,000,000,000 lines were replied to before. Want of memory leaves all as it was.
    pub fn reply(&mut self, line: &[u8]) -> Result<Bytes, NoMemory>
        requires few { asked_lines self.old < 4000000000 }
        ensures reply { IfOk result (λ text. (lines : List (List ℕ)) → StandsFor self.old lines → text ≡ reply_after lines line.now) }
        ensures stands { IfOk result (λ text. (lines : List (List ℕ)) → StandsFor self.old lines → StandsFor self.new (lines ++ line.now ∷ [])) }
        ensures err { OnErr result (self.new ≡ self.old) }
    {
        match command_of(line) {
            Command::Change(change) => self.change(change),
            Command::Ask(question) => self.ask(Text::of(line), &question),
            Command::Statistics => self.statistics(),
            Command::Bad => Bytes::from_slice(self.alloc, b"bad"),
        }
    }
}
