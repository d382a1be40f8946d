//! Names as lines show them.

ghost use Rattle.std.specs.Prelude.{◌≡◌, ◌≤◌, length};
ghost use Rattle.history_text.specs.Lookups.{path_word, procedure_word, process_word, thread_word};
ghost use Rattle.history_text.specs.ShortNames.{AreShort};

use crate::names::Names;
use dk_base::number::{PathId, Pid, Tid};
use trace_text::NamesProcedures;

impl NamesProcedures for Names {
    ghost procedures = { λ names. procedure_word names };

    fn name_of_procedure(&self, entry: u32) -> &[u8] {
        self.procedure_name(entry)
    }
}

pub fn name_of_process(names: &Names, process: Pid) -> &[u8]
    requires { AreShort names.now }
    ensures value { result.now ≡ process_word names.now process }
    ensures short { length result.now ≤ 16 }
{
    names.process_name(process)
}

pub fn name_of_thread(names: &Names, thread: Tid) -> &[u8]
    requires { AreShort names.now }
    ensures value { result.now ≡ thread_word names.now thread }
    ensures short { length result.now ≤ 16 }
{
    names.thread_name(thread)
}

pub fn name_of_procedure(names: &Names, entry: u32) -> &[u8]
    requires { AreShort names.now }
    ensures value { result.now ≡ procedure_word names.now entry }
    ensures short { length result.now ≤ 16 }
{
    names.procedure_name(entry)
}

pub fn name_of_path(names: &Names, path: PathId) -> &[u8]
    requires { AreShort names.now }
    ensures value { result.now ≡ path_word names.now path }
    ensures short { length result.now ≤ 16 }
{
    names.path_name(path)
}
