//! Sets of bits: the attributes of a door, and what an association polls for.
ghost use Rattle.std.specs.Prelude.{⊤, [], ◌∷◌, codes};

use bitflags::{Flag, Flags, bitflag_items};

/// The attributes of a door (door_create(3C), door_info(3C)).
#[derive(Clone, Copy, PartialEq, Eq)]
pub struct Attrs(pub u32);

bitflag_items! {
    impl Attrs: u32 {
        const UNREF = 1;
        const PRIVATE = 2;
        const LOCAL = 4;
        const REVOKED = 8;
        const UNREF_MULTI = 16;
        const IS_UNREF = 32;
        const REFUSE_DESC = 64;
        const NO_CANCEL = 128;
    }
}

impl Flags for Attrs {
    type Bits = u32;

    ghost exact = { ⊤ };

    ghost table = { (codes "UNREF", 1) ∷ (codes "PRIVATE", 2) ∷ (codes "LOCAL", 4) ∷ (codes "REVOKED", 8) ∷ (codes "UNREF_MULTI", 16) ∷ (codes "IS_UNREF", 32) ∷ (codes "REFUSE_DESC", 64) ∷ (codes "NO_CANCEL", 128) ∷ [] };

    ghost set_of = { λ a. a.0 };

    fn flags<'a>() -> &'a [Flag<Attrs>] {
        Attrs::FLAGS
    }

    fn bits(&self) -> u32 {
        self.0
    }

    fn from_bits_retain(bits: u32) -> Attrs {
        Attrs(bits)
    }
}

/// The events that an association polls for (port_associate(3C), poll(2)).
#[derive(Clone, Copy, PartialEq, Eq)]
pub struct PollSet(pub u32);

bitflag_items! {
    impl PollSet: u32 {
        const IN = 1;
        const OUT = 4;
        const ERR = 8;
        const HUP = 16;
    }
}

impl Flags for PollSet {
    type Bits = u32;

    ghost exact = { ⊤ };

    ghost table = { (codes "IN", 1) ∷ (codes "OUT", 4) ∷ (codes "ERR", 8) ∷ (codes "HUP", 16) ∷ [] };

    ghost set_of = { λ a. a.0 };

    fn flags<'a>() -> &'a [Flag<PollSet>] {
        PollSet::FLAGS
    }

    fn bits(&self) -> u32 {
        self.0
    }

    fn from_bits_retain(bits: u32) -> PollSet {
        PollSet(bits)
    }
}
