//! Commands on doors.

ghost use Rattle.line_reader.specs.Commands.{create_line as create_line_read, call_line as call_line_read, return_line as return_line_read, serve_line as serve_line_read, revoke_line as revoke_line_read, bind_line as bind_line_read, unbind_line as unbind_line_read, info_line as info_line_read, info_after as info_after_read};
ghost use Rattle.line_reader.specs.OperandContracts.{Reads};

use crate::fault::Fault;
use crate::operands::Operands;
use line_forms::line::Line;
use line_forms::tables::Tables;
use std::alloc::Global;

impl<'a> Operands<'a> {
    #[tactic(auto, unfolding(crate::specs::Commands::create_line))]
    pub fn create_line(
        &mut self,
        alloc: Global,
        tables: &Tables,
        process: u32,
    ) -> Result<Line, Fault>
        ensures { Reads (create_line_read tables.now process) self.old result self.new }
    {
        let var = self.variable(alloc)?;
        let entry = self.procedure(tables, process)?;
        let cookie = self.number(0, u64::MAX)?;
        let attrs = self.attributes()?;
        self.value_at_end(Line::Create {
            var,
            entry,
            cookie,
            attrs,
        })
    }

    #[tactic(auto, unfolding(crate::specs::Commands::call_line))]
    pub fn call_line(&mut self, alloc: Global) -> Result<Line, Fault>
        ensures { Reads call_line_read self.old result self.new }
    {
        let var = self.variable(alloc)?;
        let fd = self.fd(alloc)?;
        let bytes = self.pieces(alloc)?;
        let pass = self.passes(alloc)?;
        let rsize = self.rsize()?;
        self.value_at_end(Line::Call {
            var,
            fd,
            bytes,
            pass,
            rsize,
        })
    }

    #[tactic(auto, unfolding(crate::specs::Commands::return_line))]
    pub fn return_line(&mut self, alloc: Global) -> Result<Line, Fault>
        ensures { Reads return_line_read self.old result self.new }
    {
        let bytes = self.pieces(alloc)?;
        let pass = self.passes(alloc)?;
        self.value_at_end(Line::Return { bytes, pass })
    }

    #[tactic(auto, unfolding(crate::specs::Commands::serve_line))]
    pub fn serve_line(&self) -> Result<Line, Fault>
        ensures { Reads serve_line_read self.now result self.now }
    {
        self.value_at_end(Line::Serve)
    }

    #[tactic(auto, unfolding(crate::specs::Commands::revoke_line))]
    pub fn revoke_line(&mut self, alloc: Global) -> Result<Line, Fault>
        ensures { Reads revoke_line_read self.old result self.new }
    {
        let fd = self.fd(alloc)?;
        self.value_at_end(Line::Revoke { fd })
    }

    #[tactic(auto, unfolding(crate::specs::Commands::bind_line))]
    pub fn bind_line(&mut self, alloc: Global) -> Result<Line, Fault>
        ensures { Reads bind_line_read self.old result self.new }
    {
        let fd = self.fd(alloc)?;
        self.value_at_end(Line::Bind { fd })
    }

    #[tactic(auto, unfolding(crate::specs::Commands::unbind_line))]
    pub fn unbind_line(&self) -> Result<Line, Fault>
        ensures { Reads unbind_line_read self.now result self.now }
    {
        self.value_at_end(Line::Unbind)
    }

    fn info_after(&mut self, alloc: Global, query: bool) -> Result<Line, Fault>
        ensures { Reads (info_after_read query) self.old result self.new }
    {
        if query {
            return self.value_at_end(Line::InfoQuery);
        }
        let fd = self.fd(alloc)?;
        self.value_at_end(Line::Info { fd })
    }

    #[tactic(auto, unfolding(crate::specs::Commands::info_line))]
    pub fn info_line(&mut self, alloc: Global) -> Result<Line, Fault>
        ensures { Reads info_line_read self.old result self.new }
    {
        let query = self.optional_word(b"query");
        self.info_after(alloc, query)
    }
}
