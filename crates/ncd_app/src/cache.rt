//! The answers to the lines that asked last.
ghost use Rattle.std.specs.Prelude.{◌≡◌, [], ◌∷◌, None, IfOk, OnErr, OnOk, bytes_eq, option_copied, take};
ghost use Rattle.lru.specs.LruCache.{promoted};
ghost use Rattle.ncd_app.specs.Cache.{answer_in};

use crate::text::Text;
use dk_base::error::NoMemory;
use dk_base::list::Bytes;
use lru::LruCache;
use std::alloc::Global;
use std::marker::Model;
use std::num::NonZeroUsize;

/// How many lines have their answers kept at most.
const KEPT_LINES: usize = 64;

/// The answers to at most 64 lines. Clauses see the pairs, the last used first.
#[derive(Drop)]
pub struct Cache {
    answers: LruCache<Text, Bytes>,
}

impl Model for Cache {
    ghost use Rattle.std.specs.Prelude.{◌≡◌, List, ℕ};

    ghost Value = { List (List ℕ × List ℕ) };

    ghost view = { λ c. c.answers.entries };

    ghost invariant = { λ c. c.answers.cap ≡ 64 };
}

impl Cache {
    /// No answer.
    pub fn new(alloc: Global) -> Result<Self, NoMemory>
        ensures { IfOk result (λ cache. cache ≡ []) }
    {
        let Some(lines) = NonZeroUsize::new(KEPT_LINES) else {
            unreachable!()
        };
        match LruCache::new(alloc, lines) {
            Ok(answers) => Ok(Cache { answers }),
            Err(_) => Err(NoMemory),
        }
    }

    /// The answer to a line, if it is kept.
    pub fn answer(&self, line: &Text) -> Option<&Bytes>
        ensures { option_copied result ≡ answer_in self.now line.now }
    {
        self.answers.peek(line)
    }

    /// A line is now the last used.
    pub fn touch(&mut self, line: &Text)
        ensures { self.new ≡ promoted (bytes_eq line.now) self.old }
    {
        self.answers.promote(line);
    }

    /// Keeps the answer to a line that has none kept, in place of the one that was used before all others where there are 64. Want of
    /// memory leaves all as it was.
    pub fn keep(&mut self, line: Text, answer: Bytes) -> Result<(), NoMemory>
        requires { answer_in self.old line ≡ None }
        ensures ok { OnOk result (self.new ≡ (line, answer) ∷ take 63 self.old) }
        ensures err { OnErr result (self.new ≡ self.old) }
    {
        match self.answers.put(line, answer) {
            Ok(_) => Ok(()),
            Err(_) => Err(NoMemory),
        }
    }

    /// Keeps no answer any more.
    pub fn clear(&mut self)
        ensures { self.new ≡ [] }
    {
        self.answers.clear();
    }
}
