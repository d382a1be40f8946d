//! Associations and timers that end by the rows that an act closed, and what is known of a pipe that it changed.
ghost use Rattle.std.specs.Prelude.{◌≡◌, ℕ, List, false, filter, if◌then◌else◌, length};
ghost use Rattle.law_channels.specs.Ended.{row_ended, rows_ended, timers_ended};
ghost use Rattle.kernel_ports.specs.Words.{HasRoomToEnd};
ghost use Rattle.spec_records.specs.Words.{Pipe};
ghost use Rattle.kernel_store.specs.Telling.{channels_in, closing_of, ended_in, is_empty_in};

use crate::told::ClosedRows;
use dk_base::number::{Fd, Pid};
use kernel_holdings::holdings::Holdings;
use kernel_ports::ending::Ending;
use kernel_ports::ports::AssociatedPorts;

/// Where a row of a process names nothing, the associations that watch by it end.
fn end_if_empty(ports: &mut AssociatedPorts, held: &Holdings, process: Pid, fd: Fd)
    ensures { (pipes : List Pipe) → channels_in pipes ports.new ≡ (if is_empty_in held.now.tables process.0 fd then row_ended (channels_in pipes ports.old) process.0 fd else channels_in pipes ports.old) }
{
    if held.object_at(process, fd).is_none() {
        ports.end_row(process, fd);
    }
}

/// Of these rows of a process, the associations end that watch by those that name nothing.
#[tactic(auto, using(crate::proofs::PortsTold::rows_next))]
fn end_empty(ports: &mut AssociatedPorts, held: &Holdings, process: Pid, fds: &[Fd])
    ensures { (pipes : List Pipe) → channels_in pipes ports.new ≡ rows_ended (channels_in pipes ports.old) process.0 (filter (is_empty_in held.now.tables process.0) fds.now) }
{
    for fd in fds {
        end_if_empty(ports, held, process, *fd);
    }
}

/// The associations end that watch by the rows that an act closed. `ending` is for what the call lists.
#[tactic(auto, using(crate::proofs::PortsTold::one_row))]
pub fn end_closed(
    ports: &mut AssociatedPorts,
    held: &Holdings,
    closed: &ClosedRows,
    ending: &mut Ending,
)
    requires { (k : ℕ) × HasRoomToEnd ending.old (length ports.old.assocs.list.associations) k }
    ensures ended { (pipes : List Pipe) → channels_in pipes ports.new ≡ ended_in held.now.tables (channels_in pipes ports.old) closed.now }
    ensures room { (n k : ℕ) → HasRoomToEnd ending.old n k → HasRoomToEnd ending.new n k }
{
    match closed {
        ClosedRows::Nothing => {}
        ClosedRows::Row(process, fd) => end_if_empty(ports, held, *process, *fd),
        ClosedRows::Rows(process, fds) => end_empty(ports, held, *process, fds.slice()),
        ClosedRows::Process(process) => ports.end_process(*process, ending),
    }
}

/// The timers end of a process whose rows all close, and what they queued is withdrawn. `ending` is for what the call lists. Says whether
/// any ended.
pub fn end_timers(ports: &mut AssociatedPorts, closed: &ClosedRows, ending: &mut Ending) -> bool
    requires { (n : ℕ) × HasRoomToEnd ending.old n (length ports.old.timers.list.timers) }
    ensures ended { (pipes : List Pipe) → channels_in pipes ports.new ≡ timers_ended (channels_in pipes ports.old) (closing_of closed.now) }
    ensures none { result ≡ false → ports.new.ports.ports ≡ ports.old.ports.ports }
{
    match closed {
        ClosedRows::Process(process) => ports.end_timers(*process, ending),
        _ => false,
    }
}
