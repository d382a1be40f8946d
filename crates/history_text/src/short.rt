//! Names are short, so that the room for a line is a constant.
ghost use Rattle.std.specs.Prelude.{◌≡◌};
ghost use Rattle.std.specs.List.{list_all};
ghost use Rattle.history_text.specs.NameLimits.{is_short, is_short_member};

use crate::line::Member;
use crate::names::Names;
use dk_base::list::Bytes;

/// The most bytes of a name.
const NAME_MAX: usize = 16;

pub fn is_short(name: &Bytes) -> bool
    ensures { result ≡ is_short name.now }
{
    name.len() <= NAME_MAX
}

pub fn are_short(names: &[Bytes]) -> bool
    ensures { result ≡ list_all is_short names.now }
{
    names.iter().all(|name| is_short(name))
}

pub fn are_members_short(members: &[Member]) -> bool
    ensures { result ≡ list_all is_short_member members.now }
{
    members.iter().all(|member| is_short(&member.name))
}

impl Names {
    ghost use Rattle.history_text.specs.ShortNames.{AreShort};

    /// Each name is short. It does nothing.
    #[tactic(auto, using(crate::proofs::ShortKept::are_short))]
    pub fn short(&self)
        ensures { AreShort self.now }
    {
        let _ = &self.processes;
    }
}
