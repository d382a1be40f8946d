//! The operands of each request.

ghost use Rattle.std.specs.Prelude.{◌≡◌};
ghost use Rattle.line_reader.specs.OperandContracts.{Reads};
ghost use Rattle.history_text.specs.Requests.{with_fd, with_path, request_on, request_at, request_with, asked_with, create_request as create_read, call_request as call_read, return_request as return_read, info_request as info_read, getparam_request as getparam_read, setparam_request as setparam_read, attach_request as attach_read, write_request as write_read, read_request as read_read, associate_request as associate_read, dissociate_request as dissociate_read, get_request as get_read, getn_request as getn_read, send_request as send_read, sendn_request as sendn_read, alert_request as alert_read, tcreate_request as tcreate_read, tset_request as tset_read, tdelete_request as tdelete_read, advance_request as advance_read, interrupt_request as interrupt_read, kill_request as kill_read, fork_request as fork_read};

use crate::kinds::is_wait_end;
use crate::line::Asked;
use crate::names::Names;
use crate::operands::Operands;
use dk_base::event::What;
use dk_base::limits::{ADVANCE_MAX, DELAY_MAX};
use dk_base::request::Request;
use line_forms::reason::Reason;
use line_reader::fault::Fault;
use std::alloc::Global;

impl<'a> Operands<'a> {
    /// create PROC U64 {ATTR}, PROC of this process
    pub fn create_request(&mut self, names: &Names, process: u32) -> Result<Request, Fault>
        ensures { Reads (create_read names.now process) self.old result self.new }
    {
        let entry = self.procedure(names, process)?;
        let cookie = self.number(0, u64::MAX)?;
        let attrs = self.attributes();
        Ok(Request::Create {
            entry,
            cookie,
            attrs,
        })
    }

    /// call FD STRING [desc] rsize U64
    pub fn call_request(&mut self, alloc: Global) -> Result<Request, Fault>
        ensures { Reads call_read self.old result self.new }
    {
        let door = self.fd()?;
        let bytes = self.data(alloc)?;
        let pass = self.passes(alloc)?;
        let _ = self.the_word(b"rsize")?;
        let rsize = self.number(0, u64::MAX)?;
        Ok(Request::Call {
            door,
            bytes,
            pass,
            rsize,
        })
    }

    /// return STRING [desc]
    pub fn return_request(&mut self, alloc: Global) -> Result<Request, Fault>
        ensures { Reads return_read self.old result self.new }
    {
        let bytes = self.data(alloc)?;
        let pass = self.passes(alloc)?;
        Ok(Request::Return { bytes, pass })
    }

    /// info FD, info query
    pub fn info_request(&mut self) -> Result<Request, Fault>
        ensures { Reads info_read self.old result self.new }
    {
        if self.optional_word(b"query") {
            return Ok(Request::InfoQuery);
        }
        Ok(Request::Info { fd: self.fd()? })
    }

    /// getparam FD PARAM
    pub fn getparam_request(&mut self) -> Result<Request, Fault>
        ensures { Reads getparam_read self.old result self.new }
    {
        let fd = self.fd()?;
        let param = self.param()?;
        Ok(Request::GetParam { fd, param })
    }

    /// setparam FD PARAM (U64 | max)
    pub fn setparam_request(&mut self) -> Result<Request, Fault>
        ensures { Reads setparam_read self.old result self.new }
    {
        let fd = self.fd()?;
        let param = self.param()?;
        let value = self.value()?;
        Ok(Request::SetParam { fd, param, value })
    }

    /// attach FD PATH
    pub fn attach_request(&mut self, names: &Names) -> Result<Request, Fault>
        ensures { Reads (attach_read names.now) self.old result self.new }
    {
        let fd = self.fd()?;
        let path = self.path(names)?;
        Ok(Request::Attach { fd, path })
    }

    /// write FD STRING
    pub fn write_request(&mut self, alloc: Global) -> Result<Request, Fault>
        ensures { Reads write_read self.old result self.new }
    {
        let fd = self.fd()?;
        let bytes = self.data(alloc)?;
        Ok(Request::Write { fd, bytes })
    }

    /// read FD 1..4096
    pub fn read_request(&mut self) -> Result<Request, Fault>
        ensures { Reads read_read self.old result self.new }
    {
        let fd = self.fd()?;
        let max = self.small_number(1, 4096)?;
        Ok(Request::Read { fd, max })
    }

    /// associate FD FD POLL U64
    pub fn associate_request(&mut self) -> Result<Request, Fault>
        ensures { Reads associate_read self.old result self.new }
    {
        let port = self.fd()?;
        let object = self.fd()?;
        let events = self.poll()?;
        let user = self.number(0, u64::MAX)?;
        Ok(Request::Associate {
            port,
            object,
            events,
            user,
        })
    }

    /// dissociate FD FD
    pub fn dissociate_request(&mut self) -> Result<Request, Fault>
        ensures { Reads dissociate_read self.old result self.new }
    {
        let port = self.fd()?;
        let object = self.fd()?;
        Ok(Request::Dissociate { port, object })
    }

    /// get FD [nowait]
    pub fn get_request(&mut self) -> Result<Request, Fault>
        ensures { Reads get_read self.old result self.new }
    {
        let port = self.fd()?;
        let wait = self.waits();
        Ok(Request::Get { port, wait })
    }

    /// getn FD 0..64 U32 [nowait]
    pub fn getn_request(&mut self) -> Result<Request, Fault>
        ensures { Reads getn_read self.old result self.new }
    {
        let port = self.fd()?;
        let max = self.small_number(0, 64)?;
        let nget = self.small_number(0, u32::MAX)?;
        let wait = self.waits();
        Ok(Request::GetN {
            port,
            max,
            nget,
            wait,
        })
    }

    /// send FD U32 U64
    pub fn send_request(&mut self) -> Result<Request, Fault>
        ensures { Reads send_read self.old result self.new }
    {
        let port = self.fd()?;
        let events = self.small_number(0, u32::MAX)?;
        let user = self.number(0, u64::MAX)?;
        Ok(Request::Send { port, events, user })
    }

    /// sendn U32 U64 FD {FD}
    pub fn sendn_request(&mut self, alloc: Global) -> Result<Request, Fault>
        ensures { Reads sendn_read self.old result self.new }
    {
        let events = self.small_number(0, u32::MAX)?;
        let user = self.number(0, u64::MAX)?;
        let ports = self.ports(alloc)?;
        Ok(Request::SendN {
            ports,
            events,
            user,
        })
    }

    /// alert FD MODE U32 U64
    pub fn alert_request(&mut self) -> Result<Request, Fault>
        ensures { Reads alert_read self.old result self.new }
    {
        let port = self.fd()?;
        let mode = self.mode()?;
        let events = self.small_number(0, u32::MAX)?;
        let user = self.number(0, u64::MAX)?;
        Ok(Request::Alert {
            port,
            mode,
            events,
            user,
        })
    }

    /// tcreate FD U64
    pub fn tcreate_request(&mut self) -> Result<Request, Fault>
        ensures { Reads tcreate_read self.old result self.new }
    {
        let port = self.fd()?;
        let user = self.number(0, u64::MAX)?;
        Ok(Request::TimerCreate { port, user })
    }

    /// tset U32 DELAY DELAY
    pub fn tset_request(&mut self) -> Result<Request, Fault>
        ensures { Reads tset_read self.old result self.new }
    {
        let timer = self.small_number(0, u32::MAX)?;
        let first = self.number(0, DELAY_MAX)?;
        let interval = self.number(0, DELAY_MAX)?;
        Ok(Request::TimerSet {
            timer,
            first,
            interval,
        })
    }

    /// tdelete U32
    pub fn tdelete_request(&mut self) -> Result<Request, Fault>
        ensures { Reads tdelete_read self.old result self.new }
    {
        let timer = self.small_number(0, u32::MAX)?;
        Ok(Request::TimerDelete { timer })
    }

    /// advance 1..10000; once the clock is too late to move, any is out of range
    pub fn advance_request(&mut self, late: bool) -> Result<Request, Fault>
        ensures { Reads (advance_read late) self.old result self.new }
    {
        let by = self.number(1, ADVANCE_MAX)?;
        if late {
            self.out_of_range();
        }
        Ok(Request::Advance { by })
    }

    /// interrupt THREAD
    pub fn interrupt_request(&mut self, names: &Names) -> Result<Request, Fault>
        ensures { Reads (interrupt_read names.now) self.old result self.new }
    {
        let thread = self.thread(names)?;
        Ok(Request::Interrupt { thread })
    }

    /// kill PROCESS
    pub fn kill_request(&mut self, names: &Names) -> Result<Request, Fault>
        ensures { Reads (kill_read names.now) self.old result self.new }
    {
        let process = self.process(names)?;
        Ok(Request::Kill { process })
    }

    /// fork CHILD, a child of this process
    pub fn fork_request(&mut self, names: &Names, process: u32) -> Result<Request, Fault>
        ensures { Reads (fork_read names.now process) self.old result self.new }
    {
        let child = self.child(names, process)?;
        Ok(Request::Fork { child })
    }

    /// revoke FD, bind FD, close FD, dup FD
    fn fd_request(&mut self, what: What) -> Result<Request, Fault>
        ensures { Reads (with_fd (request_on what)) self.old result self.new }
    {
        let fd = self.fd()?;
        Ok(match what {
            What::Bind => Request::Bind { fd },
            What::Close => Request::Close { fd },
            What::Dup => Request::Dup { fd },
            _ => Request::Revoke { fd },
        })
    }

    /// detach PATH, open PATH, await PATH
    fn path_request(&mut self, names: &Names, what: What) -> Result<Request, Fault>
        ensures { Reads (with_path names.now (request_at what)) self.old result self.new }
    {
        let path = self.path(names)?;
        Ok(match what {
            What::Detach => Request::Detach { path },
            What::Await => Request::Await { path },
            _ => Request::Open { path },
        })
    }

    /// What follows the word of a request by a thread of this process, where the clock may be too late to move.
    #[tactic(none)]
    pub fn request(
        &mut self,
        alloc: Global,
        names: &Names,
        process: u32,
        late: bool,
        what: What,
    ) -> Result<Request, Fault>
        ensures { Reads (request_with names.now process late what) self.old result self.new }
    {
        match what {
            What::Create => self.create_request(names, process),
            What::Call => self.call_request(alloc),
            What::Return => self.return_request(alloc),
            What::Revoke => self.fd_request(What::Revoke),
            What::Bind => self.fd_request(What::Bind),
            What::Unbind => Ok(Request::Unbind),
            What::Info => self.info_request(),
            What::GetParam => self.getparam_request(),
            What::SetParam => self.setparam_request(),
            What::Cred => Ok(Request::Cred),
            What::TestCancel => Ok(Request::TestCancel),
            What::Close => self.fd_request(What::Close),
            What::Dup => self.fd_request(What::Dup),
            What::Attach => self.attach_request(names),
            What::Detach => self.path_request(names, What::Detach),
            What::Open => self.path_request(names, What::Open),
            What::Await => self.path_request(names, What::Await),
            What::Pipe => Ok(Request::Pipe),
            What::Write => self.write_request(alloc),
            What::Read => self.read_request(),
            What::PortCreate => Ok(Request::PortCreate),
            What::Associate => self.associate_request(),
            What::Dissociate => self.dissociate_request(),
            What::Get => self.get_request(),
            What::GetN => self.getn_request(),
            What::Send => self.send_request(),
            What::SendN => self.sendn_request(alloc),
            What::Alert => self.alert_request(),
            What::TimerCreate => self.tcreate_request(),
            What::TimerSet => self.tset_request(),
            What::TimerDelete => self.tdelete_request(),
            What::Advance => self.advance_request(late),
            What::Interrupt => self.interrupt_request(names),
            What::Kill => self.kill_request(names),
            What::Exit => Ok(Request::Exit),
            What::Fork => self.fork_request(names, process),
            What::Work => Err(Fault::Bad(Reason::Form)),
            What::Ncd => Err(Fault::Bad(Reason::Form)),
            What::Accept => Err(Fault::Bad(Reason::Form)),
            What::Collect => Err(Fault::Bad(Reason::Form)),
            What::Got => Err(Fault::Bad(Reason::Form)),
            What::Found => Err(Fault::Bad(Reason::Form)),
            What::Done => Err(Fault::Bad(Reason::Form)),
            What::Woken => Err(Fault::Bad(Reason::Form)),
        }
    }

    /// What follows the fourth word of an event.
    pub fn asked(
        &mut self,
        alloc: Global,
        names: &Names,
        process: u32,
        late: bool,
        what: What,
    ) -> Result<Asked, Fault>
        ensures { Reads (asked_with names.now process late what) self.old result self.new }
    {
        if is_wait_end(what) {
            return Ok(Asked::GoOn(what));
        }
        Ok(Asked::Enter(self.request(alloc, names, process, late, what)?))
    }
}
