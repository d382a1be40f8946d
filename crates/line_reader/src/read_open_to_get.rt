//! Commands on paths, pipes and ports.

ghost use Rattle.line_reader.specs.Commands.{open_line as open_line_read, await_line as await_line_read, pipe_line as pipe_line_read, write_line as write_line_read, read_line as read_line_read, pcreate_line as pcreate_line_read, associate_line as associate_line_read, dissociate_line as dissociate_line_read, get_line as get_line_read};
ghost use Rattle.line_reader.specs.OperandContracts.{Reads};

use crate::fault::Fault;
use crate::operands::Operands;
use line_forms::line::Line;
use line_forms::tables::Tables;
use std::alloc::Global;

impl<'a> Operands<'a> {
    #[tactic(auto, unfolding(crate::specs::Commands::open_line))]
    pub fn open_line(&mut self, alloc: Global, tables: &Tables) -> Result<Line, Fault>
        ensures { Reads (open_line_read tables.now) self.old result self.new }
    {
        let var = self.variable(alloc)?;
        let path = self.path(tables)?;
        self.value_at_end(Line::Open { var, path })
    }

    #[tactic(auto, unfolding(crate::specs::Commands::await_line))]
    pub fn await_line(&mut self, tables: &Tables) -> Result<Line, Fault>
        ensures { Reads (await_line_read tables.now) self.old result self.new }
    {
        let path = self.path(tables)?;
        self.value_at_end(Line::Await { path })
    }

    #[tactic(auto, unfolding(crate::specs::Commands::pipe_line))]
    pub fn pipe_line(&mut self, alloc: Global) -> Result<Line, Fault>
        ensures { Reads pipe_line_read self.old result self.new }
    {
        let reading = self.variable(alloc)?;
        let writing = self.variable(alloc)?;
        self.value_at_end(Line::Pipe { reading, writing })
    }

    #[tactic(auto, unfolding(crate::specs::Commands::write_line))]
    pub fn write_line(&mut self, alloc: Global) -> Result<Line, Fault>
        ensures { Reads write_line_read self.old result self.new }
    {
        let fd = self.fd(alloc)?;
        let bytes = self.pieces(alloc)?;
        self.value_at_end(Line::Write { fd, bytes })
    }

    #[tactic(auto, unfolding(crate::specs::Commands::read_line))]
    pub fn read_line(&mut self, alloc: Global) -> Result<Line, Fault>
        ensures { Reads read_line_read self.old result self.new }
    {
        let var = self.variable(alloc)?;
        let fd = self.fd(alloc)?;
        let max = self.small_number(1, 4096)?;
        self.value_at_end(Line::Read { var, fd, max })
    }

    #[tactic(auto, unfolding(crate::specs::Commands::pcreate_line))]
    pub fn pcreate_line(&mut self, alloc: Global) -> Result<Line, Fault>
        ensures { Reads pcreate_line_read self.old result self.new }
    {
        let var = self.variable(alloc)?;
        self.value_at_end(Line::PortCreate { var })
    }

    #[tactic(auto, unfolding(crate::specs::Commands::associate_line))]
    pub fn associate_line(&mut self, alloc: Global) -> Result<Line, Fault>
        ensures { Reads associate_line_read self.old result self.new }
    {
        let port = self.fd(alloc)?;
        let object = self.fd(alloc)?;
        let events = self.poll()?;
        let user = self.number(0, u64::MAX)?;
        self.value_at_end(Line::Associate {
            port,
            object,
            events,
            user,
        })
    }

    #[tactic(auto, unfolding(crate::specs::Commands::dissociate_line))]
    pub fn dissociate_line(&mut self, alloc: Global) -> Result<Line, Fault>
        ensures { Reads dissociate_line_read self.old result self.new }
    {
        let port = self.fd(alloc)?;
        let object = self.fd(alloc)?;
        self.value_at_end(Line::Dissociate { port, object })
    }

    #[tactic(auto, unfolding(crate::specs::Commands::get_line))]
    pub fn get_line(&mut self, alloc: Global) -> Result<Line, Fault>
        ensures { Reads get_line_read self.old result self.new }
    {
        let port = self.fd(alloc)?;
        let wait = self.wait_option();
        self.value_at_end(Line::Get { port, wait })
    }
}
