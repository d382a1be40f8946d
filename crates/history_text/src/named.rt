//! What a history has declared, piece by piece.

ghost use Rattle.std.specs.Prelude.{◌≡◌, position};
ghost use Rattle.history_text.specs.Names.{name_now as name_called, process_name, thread_name};
ghost use Rattle.history_text.specs.Lookups.{is_name_of as is_name_among, is_procedure_called, is_process_called, is_thread_called, was_process_called, was_thread_called};

use dk_base::list::Bytes;
use dk_base::number::Pid;

/// A process.
#[derive(Drop)]
pub struct NamedProcess {
    /// The name of its own line.
    pub declared: Bytes,
    /// The name that a line `name` gave it, if one did.
    pub given: Option<Bytes>,
    /// How many descriptors it may have; a child as many as its parent.
    pub limit: u32,
    pub parent: Option<Pid>,
    /// An event or a procedure's line has mentioned it, or a member of it.
    pub mentioned: bool,
}

/// A thread or a spare.
#[derive(Drop)]
pub struct NamedThread {
    /// The name of its own line.
    pub declared: Bytes,
    /// The name that a line `name` gave it, if one did.
    pub given: Option<Bytes>,
    /// The number of its process.
    pub process: u32,
    pub spare: bool,
}

/// A procedure that doors of a process may have.
#[derive(Drop)]
pub struct NamedProcedure {
    /// The number of its process.
    pub process: u32,
    pub name: Bytes,
}

/// Whether this is a name that was declared, or the one that was given in place of it.
fn is_name_of(name: &[u8], declared: &Bytes, given: &Option<Bytes>) -> bool
    ensures { result ≡ is_name_among name.now declared.now given.now }
{
    if declared.slice() == name {
        return true;
    }
    match given {
        Some(given) => given.slice() == name,
        None => false,
    }
}

/// The name that was given, or else the one that was declared.
fn name_now<'a>(declared: &'a Bytes, given: &'a Option<Bytes>) -> &'a [u8]
    ensures { result.now ≡ name_called declared.now given.now }
{
    match given {
        Some(given) => given.slice(),
        None => declared.slice(),
    }
}

impl NamedProcess {
    /// What it is called now.
    pub fn name(&self) -> &[u8]
        ensures { result.now ≡ process_name self.now }
    {
        name_now(&self.declared, &self.given)
    }

    /// Whether it is called so.
    pub fn is_called(&self, name: &[u8]) -> bool
        ensures { result ≡ is_process_called name.now self.now }
    {
        self.name() == name
    }

    /// Whether it is called so, or was.
    pub fn was_called(&self, name: &[u8]) -> bool
        ensures { result ≡ was_process_called name.now self.now }
    {
        is_name_of(name, &self.declared, &self.given)
    }
}

impl NamedThread {
    /// What it is called now.
    pub fn name(&self) -> &[u8]
        ensures { result.now ≡ thread_name self.now }
    {
        name_now(&self.declared, &self.given)
    }

    /// Whether it is called so.
    pub fn is_called(&self, name: &[u8]) -> bool
        ensures { result ≡ is_thread_called name.now self.now }
    {
        self.name() == name
    }

    /// Whether it is called so, or was.
    pub fn was_called(&self, name: &[u8]) -> bool
        ensures { result ≡ was_thread_called name.now self.now }
    {
        is_name_of(name, &self.declared, &self.given)
    }
}

impl NamedProcedure {
    /// Whether it is this process's procedure of this name.
    pub fn is(&self, process: u32, name: &[u8]) -> bool
        ensures { result ≡ is_procedure_called process name.now self.now }
    {
        self.process == process && self.name.slice() == name
    }
}

/// Where the process that is called so stands.
pub fn place_of_process(processes: &[NamedProcess], name: &[u8]) -> Option<usize>
    ensures { result ≡ position (is_process_called name.now) processes.now }
{
    processes.iter().position(|process| process.is_called(name))
}

/// Where the process that is called so, or was, stands.
pub fn place_of_used_name(processes: &[NamedProcess], name: &[u8]) -> Option<usize>
    ensures { result ≡ position (was_process_called name.now) processes.now }
{
    processes
        .iter()
        .position(|process| process.was_called(name))
}

/// Where the thread or spare that is called so stands.
pub fn place_of_thread(threads: &[NamedThread], name: &[u8]) -> Option<usize>
    ensures { result ≡ position (is_thread_called name.now) threads.now }
{
    threads.iter().position(|thread| thread.is_called(name))
}

/// Where this process's procedure of this name stands.
pub fn place_of_procedure(procedures: &[NamedProcedure], process: u32, name: &[u8]) -> Option<usize>
    ensures { result ≡ position (is_procedure_called process name.now) procedures.now }
{
    procedures
        .iter()
        .position(|procedure| procedure.is(process, name))
}
