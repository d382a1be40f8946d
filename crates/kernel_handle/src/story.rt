//! A history that only clauses read.
ghost use Rattle.std.specs.Prelude.{◌≡◌};
ghost use base.Fml.{ftrue};
ghost use Rattle.spec_kernel.specs.Words.{State};
ghost use Rattle.spec_histories.specs.Histories.{History, begun, grown, next};

use dk_base::number::Tid;
use dk_base::request::Request;
use std::marker::Model;

/// A history. It has no bytes and owns nothing, and alone says nothing of what was done: the recorder's invariant does.
#[derive(Drop)]
pub struct Story {
    pub ghost history: { History },
}

impl Model for Story {
    ghost also_owns = { λ _. ftrue };
}

impl Story {
    /// A history without entries.
    pub fn begin() -> Story
        ghost opening: { State }
        ensures { result.history ≡ begun opening }
    {
        Story {}
    }

    /// The same history with the entry that the written kernel gives for this turn. So it is made before the turn, and needs neither the
    /// answer nor the state.
    pub fn with(_before: &Story, _thread: &Tid, _request: &Option<Request>) -> Story
        ensures { result.history ≡ grown _before.now.history (next _before.now.history _thread.now.0 _request.now) }
    {
        Story {}
    }
}
