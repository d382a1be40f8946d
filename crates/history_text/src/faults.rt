//! The faults of a line whose words are well formed and whose numbers are in their ranges.

ghost use Rattle.std.specs.Prelude.{◌≡◌, bytes_eq};
ghost use Rattle.std.specs.List.{list_any};
ghost use Rattle.line_text.specs.Words.{are_distinct};
ghost use Rattle.history_text.specs.Lookups.{is_thread_name_used};
ghost use Rattle.history_text.specs.Faults.{are_members_used as are_members_used_in, are_processes_many as are_too_many, are_thread_names_used as are_thread_names_used_in, have_same_name, is_many as is_line_many, is_member_used, is_twice as is_line_twice};

use crate::limits::PATHS_MAX;
use crate::line::{Line, Member};
use crate::names::Names;
use crate::place::Place;
use dk_base::limits::{PROCEDURES_MAX, PROCESSES_MAX, THREADS_MAX};
use dk_base::list::Bytes;

/// Whether a name is among these.
fn has_name(names: &[Bytes], name: &[u8]) -> bool
    ensures { result ≡ list_any (bytes_eq name.now) names.now }
{
    names.iter().any(|other| name == other.slice())
}

/// Whether no two of these names are the same.
fn are_different(names: &[Bytes]) -> bool
    ensures { result ≡ are_distinct bytes_eq names.now }
{
    let mut rest = names;
    while let Some((first, others)) = rest.split_first() {
        if has_name(others, first.slice()) {
            return false;
        }
        rest = others;
    }
    true
}

/// Whether a member of these has the name of this one.
fn has_member(members: &[Member], member: &Member) -> bool
    ensures { result ≡ list_any (have_same_name member.now) members.now }
{
    members
        .iter()
        .any(|other| member.name.slice() == other.name.slice())
}

/// Whether no two of these members have the same name.
fn are_members_different(members: &[Member]) -> bool
    ensures { result ≡ are_distinct have_same_name members.now }
{
    let mut rest = members;
    while let Some((first, others)) = rest.split_first() {
        if has_member(others, first) {
            return false;
        }
        rest = others;
    }
    true
}

/// Whether a thread is called, or was, as one of these.
fn is_some_name_used(names: &Names, called: &[Bytes]) -> bool
    ensures { result ≡ list_any (is_thread_name_used names.now) called.now }
{
    called
        .iter()
        .any(|name| names.is_thread_name_used(name.slice()))
}

/// Whether of these names of threads one was used before, or two are the same.
fn are_thread_names_used(names: &Names, called: &[Bytes]) -> bool
    ensures { result ≡ are_thread_names_used_in names.now called.now }
{
    is_some_name_used(names, called) || !are_different(called)
}

/// Whether a thread is called, or was, as one of these members.
fn is_some_member_used(names: &Names, members: &[Member]) -> bool
    ensures { result ≡ list_any (is_member_used names.now) members.now }
{
    members
        .iter()
        .any(|member| names.is_thread_name_used(member.name.slice()))
}

/// Whether of the names of these members one was used before, or two are the same.
fn are_members_used(names: &Names, members: &[Member]) -> bool
    ensures { result ≡ are_members_used_in names.now members.now }
{
    is_some_member_used(names, members) || !are_members_different(members)
}

/// Whether something is declared again.
pub fn is_twice(names: &Names, line: &Line) -> bool
    ensures { result ≡ is_line_twice names.now line.now }
{
    match line {
        Line::Process { name, members, .. } | Line::Child { name, members, .. } => {
            names.is_process_name_used(name.slice()) || are_members_used(names, members.slice())
        }
        Line::Name {
            child,
            name,
            members,
        } => {
            names.is_name_too_late(*child)
                || names.is_process_name_used(name.slice())
                || are_thread_names_used(names, members.slice())
        }
        Line::Procedure { name, process } => {
            names.procedure_number(process.0, name.slice()).is_some()
        }
        Line::Path { name, text } => names.has_path(name.slice(), text.slice()),
        Line::Event { .. } | Line::End { .. } => false,
    }
}

/// Whether a process with these members is one too many.
fn are_processes_many(names: &Names, members: &[Member]) -> bool
    ensures { result ≡ are_too_many names.now members.now }
{
    names.processes.len() >= PROCESSES_MAX as usize
        || names.threads.len() + members.len() > THREADS_MAX as usize
}

/// Whether a limit on a count is exceeded.
pub fn is_many(names: &Names, place: Place, line: &Line) -> bool
    ensures { result ≡ is_line_many names.now place line.now }
{
    match line {
        Line::Process { members, .. } | Line::Child { members, .. } => {
            are_processes_many(names, members.slice())
        }
        Line::Procedure { process, .. } => names.procedure_count(process.0) >= PROCEDURES_MAX,
        Line::Path { .. } => names.paths.len() >= PATHS_MAX,
        Line::Event { .. } => place.full,
        Line::Name { .. } | Line::End { .. } => false,
    }
}
