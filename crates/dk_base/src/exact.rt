//! Types whose `==` tells every two values apart.

ghost use Rattle.std.specs.Prelude.{◌≡◌, ◌↔◌, IsTrue};
ghost use Rattle.std.specs.Bool.{Decides};
ghost use Rattle.dk_base.specs.Exact.{lists_exact};
ghost use Rattle.dk_base.specs.ExactParts.{number_exact, thread_exact};

use crate::list::Sequence;
use crate::number::Tid;

/// Types whose `==` holds of equal values alone.
pub trait Exact: PartialEq {
    ghost exact: { (x y : Self) → Decides (Self.eq x y) (x ≡ y) };

    /// Whether two values are equal.
    final fn same(&self, other: &Self) -> bool
        ensures { IsTrue result ↔ (self.now ≡ other.now) }
    {
        self == other
    }
}

impl Exact for u8 {
    ghost exact = { number_exact };
}

impl Exact for Tid {
    ghost exact = { thread_exact };
}

impl<T: Exact> Exact for Sequence<T> {
    ghost exact = { lists_exact T.exact };
}
