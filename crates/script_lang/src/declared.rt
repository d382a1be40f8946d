//! The names that a script declares, by number, and the other way round.

use crate::script::Script;
use dk_base::number::Tid;

impl Script {
    ghost use Rattle.std.specs.Prelude.{◌≡◌, option_map};
    ghost use Rattle.line_forms.specs.Words.{procedure_word, thread_number, thread_word};
    ghost use Rattle.script_lang.specs.Scripts.{tables_of};

    /// The name of a thread or a spare, or nothing where there is none.
    pub fn name_of_thread(&self, thread: Tid) -> &[u8]
        ensures { result.now ≡ thread_word (tables_of self.now) thread }
    {
        self.tables.thread_name(thread)
    }

    /// The name of a server procedure, or nothing where there is none.
    pub fn name_of_procedure(&self, entry: u32) -> &[u8]
        ensures { result.now ≡ procedure_word (tables_of self.now) entry }
    {
        self.tables.procedure_name(entry)
    }

    /// The thread or spare of this name.
    pub fn thread_named(&self, name: &[u8]) -> Option<Tid>
        ensures { option_map (λ thread. thread.0) result ≡ thread_number (tables_of self.now) name.now }
    {
        let number = self.tables.thread_number(name)?;
        Some(Tid(number))
    }
}
