//! Commands on descriptors and names.

ghost use Rattle.line_reader.specs.Commands.{getparam_line as getparam_line_read, setparam_line as setparam_line_read, cred_line as cred_line_read, testcancel_line as testcancel_line_read, exit_line as exit_line_read, close_line as close_line_read, dup_line as dup_line_read, attach_line as attach_line_read, detach_line as detach_line_read};
ghost use Rattle.line_reader.specs.OperandContracts.{Reads};

use crate::fault::Fault;
use crate::operands::Operands;
use line_forms::line::Line;
use line_forms::tables::Tables;
use std::alloc::Global;

impl<'a> Operands<'a> {
    #[tactic(auto, unfolding(crate::specs::Commands::getparam_line))]
    pub fn getparam_line(&mut self, alloc: Global) -> Result<Line, Fault>
        ensures { Reads getparam_line_read self.old result self.new }
    {
        let fd = self.fd(alloc)?;
        let param = self.param()?;
        self.value_at_end(Line::GetParam { fd, param })
    }

    #[tactic(auto, unfolding(crate::specs::Commands::setparam_line))]
    pub fn setparam_line(&mut self, alloc: Global) -> Result<Line, Fault>
        ensures { Reads setparam_line_read self.old result self.new }
    {
        let fd = self.fd(alloc)?;
        let param = self.param()?;
        let value = self.value()?;
        self.value_at_end(Line::SetParam { fd, param, value })
    }

    #[tactic(auto, unfolding(crate::specs::Commands::cred_line))]
    pub fn cred_line(&self) -> Result<Line, Fault>
        ensures { Reads cred_line_read self.now result self.now }
    {
        self.value_at_end(Line::Cred)
    }

    #[tactic(auto, unfolding(crate::specs::Commands::testcancel_line))]
    pub fn testcancel_line(&self) -> Result<Line, Fault>
        ensures { Reads testcancel_line_read self.now result self.now }
    {
        self.value_at_end(Line::TestCancel)
    }

    #[tactic(auto, unfolding(crate::specs::Commands::exit_line))]
    pub fn exit_line(&self) -> Result<Line, Fault>
        ensures { Reads exit_line_read self.now result self.now }
    {
        self.value_at_end(Line::Exit)
    }

    #[tactic(auto, unfolding(crate::specs::Commands::close_line))]
    pub fn close_line(&mut self, alloc: Global) -> Result<Line, Fault>
        ensures { Reads close_line_read self.old result self.new }
    {
        let fd = self.fd(alloc)?;
        self.value_at_end(Line::Close { fd })
    }

    #[tactic(auto, unfolding(crate::specs::Commands::dup_line))]
    pub fn dup_line(&mut self, alloc: Global) -> Result<Line, Fault>
        ensures { Reads dup_line_read self.old result self.new }
    {
        let var = self.variable(alloc)?;
        let fd = self.fd(alloc)?;
        self.value_at_end(Line::Dup { var, fd })
    }

    #[tactic(auto, unfolding(crate::specs::Commands::attach_line))]
    pub fn attach_line(&mut self, alloc: Global, tables: &Tables) -> Result<Line, Fault>
        ensures { Reads (attach_line_read tables.now) self.old result self.new }
    {
        let fd = self.fd(alloc)?;
        let path = self.path(tables)?;
        self.value_at_end(Line::Attach { fd, path })
    }

    #[tactic(auto, unfolding(crate::specs::Commands::detach_line))]
    pub fn detach_line(&mut self, tables: &Tables) -> Result<Line, Fault>
        ensures { Reads (detach_line_read tables.now) self.old result self.new }
    {
        let path = self.path(tables)?;
        self.value_at_end(Line::Detach { path })
    }
}
