//! Commands on waiting events, timers, threads, processes, work and the cache, and the lines of blocks.

ghost use Rattle.line_reader.specs.Commands.{getn_line as getn_line_read, send_line as send_line_read, sendn_line as sendn_line_read, alert_line as alert_line_read, tcreate_line as tcreate_line_read, tset_line as tset_line_read, tdelete_line as tdelete_line_read, advance_line as advance_line_read, interrupt_line as interrupt_line_read, kill_line as kill_line_read, fork_line as fork_line_read, work_line as work_line_read, ncd_line as ncd_line_read, repeat_line as repeat_line_read, if_line as if_line_read, end_line as end_line_read};
ghost use Rattle.line_reader.specs.OperandContracts.{Reads};

use crate::fault::Fault;
use crate::operands::Operands;
use dk_base::limits::{ADVANCE_MAX, DELAY_MAX};
use line_forms::line::Line;
use line_forms::tables::Tables;
use std::alloc::Global;

impl<'a> Operands<'a> {
    #[tactic(auto, unfolding(crate::specs::Commands::getn_line))]
    pub fn getn_line(&mut self, alloc: Global) -> Result<Line, Fault>
        ensures { Reads getn_line_read self.old result self.new }
    {
        let port = self.fd(alloc)?;
        let max = self.small_number(0, 64)?;
        let nget = self.small_number(0, 64)?;
        let wait = self.wait_option();
        self.value_at_end(Line::GetN {
            port,
            max,
            nget,
            wait,
        })
    }

    #[tactic(auto, unfolding(crate::specs::Commands::send_line))]
    pub fn send_line(&mut self, alloc: Global) -> Result<Line, Fault>
        ensures { Reads send_line_read self.old result self.new }
    {
        let port = self.fd(alloc)?;
        let events = self.small_number(0, u32::MAX)?;
        let user = self.number(0, u64::MAX)?;
        self.value_at_end(Line::Send { port, events, user })
    }

    #[tactic(auto, unfolding(crate::specs::Commands::sendn_line))]
    pub fn sendn_line(&mut self, alloc: Global) -> Result<Line, Fault>
        ensures { Reads sendn_line_read self.old result self.new }
    {
        let events = self.small_number(0, u32::MAX)?;
        let user = self.number(0, u64::MAX)?;
        let ports = self.ports(alloc)?;
        self.value_at_end(Line::SendN {
            events,
            user,
            ports,
        })
    }

    #[tactic(auto, unfolding(crate::specs::Commands::alert_line))]
    pub fn alert_line(&mut self, alloc: Global) -> Result<Line, Fault>
        ensures { Reads alert_line_read self.old result self.new }
    {
        let port = self.fd(alloc)?;
        let mode = self.mode()?;
        let events = self.small_number(0, u32::MAX)?;
        let user = self.number(0, u64::MAX)?;
        self.value_at_end(Line::Alert {
            port,
            mode,
            events,
            user,
        })
    }

    #[tactic(auto, unfolding(crate::specs::Commands::tcreate_line))]
    pub fn tcreate_line(&mut self, alloc: Global) -> Result<Line, Fault>
        ensures { Reads tcreate_line_read self.old result self.new }
    {
        let port = self.fd(alloc)?;
        let user = self.number(0, u64::MAX)?;
        self.value_at_end(Line::TimerCreate { port, user })
    }

    #[tactic(auto, unfolding(crate::specs::Commands::tset_line))]
    pub fn tset_line(&mut self) -> Result<Line, Fault>
        ensures { Reads tset_line_read self.old result self.new }
    {
        let timer = self.small_number(0, 31)?;
        let first = self.number(0, DELAY_MAX)?;
        let interval = self.number(0, DELAY_MAX)?;
        self.value_at_end(Line::TimerSet {
            timer,
            first,
            interval,
        })
    }

    #[tactic(auto, unfolding(crate::specs::Commands::tdelete_line))]
    pub fn tdelete_line(&mut self) -> Result<Line, Fault>
        ensures { Reads tdelete_line_read self.old result self.new }
    {
        let timer = self.small_number(0, 31)?;
        self.value_at_end(Line::TimerDelete { timer })
    }

    #[tactic(auto, unfolding(crate::specs::Commands::advance_line))]
    pub fn advance_line(&mut self) -> Result<Line, Fault>
        ensures { Reads advance_line_read self.old result self.new }
    {
        let by = self.number(1, ADVANCE_MAX)?;
        self.value_at_end(Line::Advance { by })
    }

    #[tactic(auto, unfolding(crate::specs::Commands::interrupt_line))]
    pub fn interrupt_line(&mut self, tables: &Tables) -> Result<Line, Fault>
        ensures { Reads (interrupt_line_read tables.now) self.old result self.new }
    {
        let thread = self.thread(tables)?;
        self.value_at_end(Line::Interrupt { thread })
    }

    #[tactic(auto, unfolding(crate::specs::Commands::kill_line))]
    pub fn kill_line(&mut self, tables: &Tables) -> Result<Line, Fault>
        ensures { Reads (kill_line_read tables.now) self.old result self.new }
    {
        let process = self.process(tables)?;
        self.value_at_end(Line::Kill { process })
    }

    #[tactic(auto, unfolding(crate::specs::Commands::fork_line))]
    pub fn fork_line(&mut self, tables: &Tables, process: u32) -> Result<Line, Fault>
        ensures { Reads (fork_line_read tables.now process) self.old result self.new }
    {
        let child = self.child(tables, process)?;
        self.value_at_end(Line::Fork { child })
    }

    #[tactic(auto, unfolding(crate::specs::Commands::work_line))]
    pub fn work_line(&mut self, alloc: Global) -> Result<Line, Fault>
        ensures { Reads work_line_read self.old result self.new }
    {
        let var = self.variable(alloc)?;
        let op = self.op()?;
        let bytes = self.pieces(alloc)?;
        self.value_at_end(Line::Work { var, op, bytes })
    }

    #[tactic(auto, unfolding(crate::specs::Commands::ncd_line))]
    pub fn ncd_line(&mut self, alloc: Global) -> Result<Line, Fault>
        ensures { Reads ncd_line_read self.old result self.new }
    {
        let var = self.variable(alloc)?;
        let bytes = self.pieces(alloc)?;
        self.value_at_end(Line::Ncd { var, bytes })
    }

    #[tactic(auto, unfolding(crate::specs::Commands::repeat_line))]
    pub fn repeat_line(&mut self) -> Result<Line, Fault>
        ensures { Reads repeat_line_read self.old result self.new }
    {
        let times = self.small_number(1, 1_000_000)?;
        self.value_at_end(Line::Repeat { times })
    }

    #[tactic(auto, unfolding(crate::specs::Commands::if_line))]
    pub fn if_line(&mut self) -> Result<Line, Fault>
        ensures { Reads if_line_read self.old result self.new }
    {
        let cond = self.condition()?;
        self.value_at_end(Line::If { cond })
    }

    #[tactic(auto, unfolding(crate::specs::Commands::end_line))]
    pub fn end_line(&self) -> Result<Line, Fault>
        ensures { Reads end_line_read self.now result self.now }
    {
        self.value_at_end(Line::End)
    }
}
