//! What timers queue: what is told of them, and what is withdrawn.
ghost use Rattle.std.specs.Prelude.{◌≡◌, ℕ, ◌+◌, ◌<◌, ◌^◌, All, List, false};
ghost use Rattle.spec_records.specs.declared.timer.Timer.{Timer};
ghost use Rattle.spec_records.specs.Words.{due_event, has_timer_event, port_of, tell_due, tell_dues};
ghost use Rattle.event_port.specs.Words.{HasRoomAt, KeepsPlaces, KeepsRoom, timer_count};
ghost use Rattle.kernel_ports.specs.Ended.{withdraw_tags};
ghost use Rattle.kernel_ports.specs.Told.{AllFit, IsDueOf, KeepsRoomBesideIdle};
ghost use Rattle.kernel_ports.specs.Words.{idle_at};

use dk_base::object::{EventRec, Src};
use event_port::ports::Ports;
use spec_records::port::Queued;
use spec_records::timer::{Due, Tag};

fn due_event(due: Due) -> Queued
    ensures { result ≡ due_event due }
{
    Queued {
        rec: EventRec {
            source: Src::Timer,
            object: due.id,
            events: due.count,
            user: due.user,
        },
        assoc: None,
        timer: Some(due.tag.number),
    }
}

/// What is due is told to the port of its timer: the event of the timer counts so many more, or one is queued last. It takes no memory.
fn tell_due(ports: &mut Ports, due: Due)
    requires fits { timer_count due.tag.number (port_of ports.old.ports due.tag.port) + due.count < 2 ^ 32 }
    requires room { has_timer_event due.tag.number (port_of ports.old.ports due.tag.port) ≡ false → HasRoomAt ports.old.rooms due.tag.port 1 }
    ensures ports { ports.new.ports ≡ tell_due ports.old.ports due }
    ensures rooms { (ts : List Timer) → IsDueOf ts due → KeepsRoomBesideIdle ts ports.old ports.new }
{
    if ports.grow(due.tag.port, due.tag.number, due.count) {
        return;
    }
    ports.post_fitting(due.tag.port, due_event(due));
}

/// What is due is told, in order. It takes no memory, since each port has room for one event of each of these timers of it of which none is
/// queued, and it keeps that room.
pub fn tell_dues(ports: &mut Ports, dues: &[Due])
    requires fits { AllFit ports.old.ports dues.now }
    requires room { (ts : List Timer) × All (IsDueOf ts) dues.now × ((q : ℕ) → HasRoomAt ports.old.rooms q (idle_at ports.old.ports ts q)) }
    ensures ports { ports.new.ports ≡ tell_dues ports.old.ports dues.now }
    ensures rooms { (ts : List Timer) → All (IsDueOf ts) dues.now → KeepsRoomBesideIdle ts ports.old ports.new }
{
    for due in dues {
        tell_due(ports, *due);
    }
}

/// What the timers of these tags queued is withdrawn, each at its port.
pub fn withdraw_tags(ports: &mut Ports, tags: &[Tag])
    ensures ports { ports.new.ports ≡ withdraw_tags ports.old.ports tags.now }
    ensures rooms { KeepsRoom ports.old.rooms ports.new.rooms }
    ensures places { KeepsPlaces ports.old ports.new }
{
    for tag in tags {
        ports.withdraw_timer(tag.port, tag.number);
    }
}
