//! The lines that declare, and the end line.

ghost use Rattle.std.specs.Prelude.{◌≡◌};
ghost use Rattle.line_reader.specs.OperandContracts.{Reads};
ghost use Rattle.history_text.specs.MemberContracts.{next_member as next_member_read};
ghost use Rattle.history_text.specs.Declarations.{child_line as child_read, end_line as end_read, for_each_member, if_child as if_child_of, members as members_read, name_line as name_line_read, path_line as path_read, procedure_line as procedure_read, process_line as process_read, waiting_after};
ghost use Rattle.history_text.specs.Reading.{line_after_first as after_first_read};

use crate::kinds::{ending_of, is_spare_of};
use crate::limits::PATH_TEXT_MAX;
use crate::line::{Ending, Line, Member, MemberList, NameList};
use crate::names::Names;
use crate::operands::Operands;
use crate::place::Kind;
use dk_base::limits::DESCRIPTORS_MAX;
use dk_base::list::{Sequence, TidList};
use dk_base::number::Pid;
use line_forms::reason::Reason;
use line_reader::fault::Fault;
use std::alloc::Global;

impl<'a> Operands<'a> {
    /// The next member, if there is one.
    fn next_member(&mut self, alloc: Global) -> Result<Option<Member>, Fault>
        ensures { Reads next_member_read self.old result self.new }
    {
        if self.peek().is_none() {
            return Ok(None);
        }
        let kind = self.next_word()?;
        let word = self.next_word()?;
        let Some(spare) = is_spare_of(kind) else {
            return Err(Fault::Bad(Reason::Form));
        };
        let name = self.name_from_word(word)?;
        let name = Sequence::from_slice(alloc, name)?;
        Ok(Some(Member { spare, name }))
    }

    /// {("thread" | "spare") NAME} to the last word.
    fn members(&mut self, alloc: Global) -> Result<MemberList, Fault>
        ensures { Reads members_read self.old result self.new }
    {
        let mut members = Sequence::new(alloc);
        while let Some(member) = self.next_member(alloc)? {
            members.push(member)?;
        }
        Ok(members)
    }

    /// process NAME limit N {MEMBER}
    pub fn process_line(&mut self, alloc: Global) -> Result<Line, Fault>
        ensures { Reads process_read self.old result self.new }
    {
        let name = self.own_name(alloc)?;
        let _ = self.the_word(b"limit")?;
        let limit = self.small_number(0, DESCRIPTORS_MAX)?;
        let members = self.members(alloc)?;
        self.value_at_end(Line::Process {
            name,
            limit,
            members,
        })
    }

    /// child NAME of PROCESS {MEMBER}
    pub fn child_line(&mut self, alloc: Global, names: &Names) -> Result<Line, Fault>
        ensures { Reads (child_read names.now) self.old result self.new }
    {
        let name = self.own_name(alloc)?;
        let _ = self.the_word(b"of")?;
        let parent = self.process(names)?;
        let members = self.members(alloc)?;
        self.value_at_end(Line::Child {
            name,
            parent,
            members,
        })
    }

    /// A name for each member of a process; where the process is not declared, any number of them.
    fn for_each_member(
        &self,
        names: &Names,
        process: Option<u32>,
        called: NameList,
    ) -> Result<NameList, Fault>
        ensures { Reads (for_each_member names.now process called) self.now result self.now }
    {
        let Some(process) = process else {
            return Ok(called);
        };
        if called.len() == names.member_count(process) {
            Ok(called)
        } else {
            Err(Fault::Bad(Reason::Form))
        }
    }

    /// name CHILD NAME {NAME}
    pub fn name_line(&mut self, alloc: Global, names: &Names) -> Result<Line, Fault>
        ensures { Reads (name_line_read names.now) self.old result self.new }
    {
        let child = self.name()?;
        let name = self.own_name(alloc)?;
        let called = self.names_to_end(alloc)?;
        let process = names.used_process_number(child);
        let members = self.for_each_member(names, process, called)?;
        let number = self.declared_number(if_child(names, process));
        self.value_at_end(Line::Name {
            child: Pid(number),
            name,
            members,
        })
    }

    /// proc NAME of PROCESS
    pub fn procedure_line(&mut self, alloc: Global, names: &Names) -> Result<Line, Fault>
        ensures { Reads (procedure_read names.now) self.old result self.new }
    {
        let name = self.own_name(alloc)?;
        let _ = self.the_word(b"of")?;
        let process = self.process(names)?;
        self.value_at_end(Line::Procedure { name, process })
    }

    /// path NAME STRING, of 1 to 4096 bytes
    pub fn path_line(&mut self, alloc: Global) -> Result<Line, Fault>
        ensures { Reads path_read self.old result self.new }
    {
        let name = self.own_name(alloc)?;
        let text = self.string(alloc, 1, PATH_TEXT_MAX)?;
        self.value_at_end(Line::Path { name, text })
    }

    /// The threads that an end line names.
    fn waiting_after(
        &mut self,
        alloc: Global,
        names: &Names,
        ending: Ending,
    ) -> Result<TidList, Fault>
        ensures { Reads (waiting_after names.now ending) self.old result self.new }
    {
        if ending != Ending::Stalled {
            return Ok(Sequence::new(alloc));
        }
        let threads = self.threads(alloc, names)?;
        if threads.is_empty() {
            return Err(Fault::Bad(Reason::Form));
        }
        Ok(threads)
    }

    /// end complete NUMBER, end stalled NUMBER THREAD {THREAD}, end open NUMBER
    pub fn end_line(&mut self, alloc: Global, names: &Names) -> Result<Line, Fault>
        ensures { Reads (end_read names.now) self.old result self.new }
    {
        let word = self.next_word()?;
        let Some(ending) = ending_of(word) else {
            return Err(Fault::Bad(Reason::Form));
        };
        let number = self.number(0, u64::MAX)?;
        let threads = self.waiting_after(alloc, names, ending)?;
        self.value_at_end(Line::End {
            ending,
            number,
            threads,
        })
    }

    /// What follows the first word of a line of this kind.
    pub fn line_after_first(
        &mut self,
        alloc: Global,
        names: &Names,
        kind: Kind,
    ) -> Result<Line, Fault>
        ensures { Reads (after_first_read names.now kind) self.old result self.new }
    {
        match kind {
            Kind::Process => self.process_line(alloc),
            Kind::Child => self.child_line(alloc, names),
            Kind::Name => self.name_line(alloc, names),
            Kind::Procedure => self.procedure_line(alloc, names),
            Kind::Path => self.path_line(alloc),
            Kind::End => self.end_line(alloc, names),
            Kind::Event => Err(Fault::Bad(Reason::Form)),
        }
    }
}

/// The number of a process, where it is a child.
fn if_child(names: &Names, process: Option<u32>) -> Option<u32>
    ensures { result ≡ if_child_of names.now process }
{
    let process = process?;
    if names.parent_of(process).is_some() {
        Some(process)
    } else {
        None
    }
}
