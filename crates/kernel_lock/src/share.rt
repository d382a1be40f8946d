//! What a driver holds of the ledger of turns.
ghost use Rattle.std.specs.Prelude.{◌≡◌, ◌+◌, ◌<◌, ◌^◌};

use std::sync::ledger::{Book, Ledger, Share};

/// A driver's part of the ledger of turns. Its number is the turns that this driver took.
#[derive(Drop)]
pub struct TurnShare<L: Ledger> {
    pub(crate) turns: u64,
    pub(crate) share: Share<L>,
    pub(crate) ghost one_part: { share.parts ≡ 1 },
    pub(crate) ghost counted: { share.amount ≡ turns },
}

impl<L: Ledger> TurnShare<L> {
    /// The part of a driver that took no turn yet.
    pub fn new(share: Share<L>) -> Self
        requires part { share.parts ≡ 1 }
        requires none { share.amount ≡ 0 }
        ensures { result.turns ≡ 0 }
    {
        TurnShare { turns: 0, share }
    }

    /// How many turns this driver took.
    pub fn turns(&self) -> u64
        ensures { result ≡ self.now.turns }
    {
        self.turns
    }

    /// Books one turn.
    pub(crate) fn book(&mut self, book: &mut Book<L>)
        requires { book.old.total < 2 ^ 32 }
        ensures total { book.new.total ≡ book.old.total + 1 }
        ensures turns { self.new.turns ≡ self.old.turns + 1 }
    {
        let TurnShare { turns, share } = self;
        book.audit(share);
        book.add(share, 1);
        *turns += 1;
    }

    /// The share alone.
    pub(crate) fn into_share(self) -> Share<L>
        ensures parts { result.parts ≡ 1 }
        ensures amount { result.amount ≡ self.turns }
    {
        let TurnShare { turns: _, share } = self;
        share
    }
}
