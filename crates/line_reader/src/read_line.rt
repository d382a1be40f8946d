//! The line after a keyword.

ghost use Rattle.line_reader.specs.Commands.{line_with as line_with_read};
ghost use Rattle.line_reader.specs.OperandContracts.{Reads};

use crate::fault::Fault;
use crate::operands::Operands;
use line_forms::keyword::Keyword;
use line_forms::line::Line;
use line_forms::tables::Tables;
use std::alloc::Global;

impl<'a> Operands<'a> {
    /// What follows the first word of a line, in a body of this process.
    #[tactic(none)]
    pub fn line(
        &mut self,
        alloc: Global,
        tables: &Tables,
        process: u32,
        keyword: Keyword,
    ) -> Result<Line, Fault>
        ensures { Reads (line_with_read tables.now process keyword) self.old result self.new }
    {
        match keyword {
            Keyword::Create => self.create_line(alloc, tables, process),
            Keyword::Call => self.call_line(alloc),
            Keyword::Return => self.return_line(alloc),
            Keyword::Serve => self.serve_line(),
            Keyword::Revoke => self.revoke_line(alloc),
            Keyword::Bind => self.bind_line(alloc),
            Keyword::Unbind => self.unbind_line(),
            Keyword::Info => self.info_line(alloc),
            Keyword::GetParam => self.getparam_line(alloc),
            Keyword::SetParam => self.setparam_line(alloc),
            Keyword::Cred => self.cred_line(),
            Keyword::TestCancel => self.testcancel_line(),
            Keyword::Exit => self.exit_line(),
            Keyword::Close => self.close_line(alloc),
            Keyword::Dup => self.dup_line(alloc),
            Keyword::Attach => self.attach_line(alloc, tables),
            Keyword::Detach => self.detach_line(tables),
            Keyword::Open => self.open_line(alloc, tables),
            Keyword::Await => self.await_line(tables),
            Keyword::Pipe => self.pipe_line(alloc),
            Keyword::Write => self.write_line(alloc),
            Keyword::Read => self.read_line(alloc),
            Keyword::PortCreate => self.pcreate_line(alloc),
            Keyword::Associate => self.associate_line(alloc),
            Keyword::Dissociate => self.dissociate_line(alloc),
            Keyword::Get => self.get_line(alloc),
            Keyword::GetN => self.getn_line(alloc),
            Keyword::Send => self.send_line(alloc),
            Keyword::SendN => self.sendn_line(alloc),
            Keyword::Alert => self.alert_line(alloc),
            Keyword::TimerCreate => self.tcreate_line(alloc),
            Keyword::TimerSet => self.tset_line(),
            Keyword::TimerDelete => self.tdelete_line(),
            Keyword::Advance => self.advance_line(),
            Keyword::Interrupt => self.interrupt_line(tables),
            Keyword::Kill => self.kill_line(tables),
            Keyword::Fork => self.fork_line(tables, process),
            Keyword::Work => self.work_line(alloc),
            Keyword::Ncd => self.ncd_line(alloc),
            Keyword::Repeat => self.repeat_line(),
            Keyword::If => self.if_line(),
            Keyword::End => self.end_line(),
        }
    }
}
