//! Scripts whose traces are known beforehand, computed through the definitions. No function here does anything: each is a law that
//! the run which the definitions give a script has this text.
ghost use Rattle.spec_scripts.specs.WorkedRuns.{PlaysAs, echo_script, echo_trace, grown_script, grown_trace, budget_script, budget_trace, refused_script, refused_trace, loops_script, loops_trace, interrupted_script, interrupted_trace, noticed_script, noticed_trace};

/// An echo door and a client.
pub fn echo()
    ensures { PlaysAs echo_script echo_trace }
{}

/// The results of a call are more than its caller has room for.
pub fn grown()
    ensures { PlaysAs grown_script grown_trace }
{}

/// The budget is used up while a thread can go on.
pub fn budget()
    ensures { PlaysAs budget_script budget_trace }
{}

/// A turn of the schedule is refused.
pub fn refused()
    ensures { PlaysAs refused_script refused_trace }
{}

/// A loop in a loop, and tests in tests.
pub fn loops()
    ensures { PlaysAs loops_script loops_trace }
{}

/// A client is interrupted while its server waits in a call of its own.
pub fn interrupted()
    ensures { PlaysAs interrupted_script interrupted_trace }
{}

/// References to two doors fall to one, twice each.
pub fn noticed()
    ensures { PlaysAs noticed_script noticed_trace }
{}
