//! Sets of attributes (door_create(3C), door_info(3C)).
ghost use Rattle.std.specs.Prelude.{◌≡◌};
ghost use Rattle.spec_records.specs.Words.{attributes_where, first_desc_max, has_attributes, has_told_attributes, has_unref_multi, is_private, refuses_descriptors, takes_notices};

use bitflags::Flags;
use dk_base::set::Attrs;

fn has_attributes(attrs: Attrs, wanted: Attrs) -> bool
    ensures { result ≡ has_attributes attrs wanted }
{
    attrs.contains(wanted)
}

pub fn is_private(attrs: Attrs) -> bool
    ensures { result ≡ is_private attrs }
{
    has_attributes(attrs, Attrs::PRIVATE)
}

pub fn has_unref_multi(attrs: Attrs) -> bool
    ensures { result ≡ has_unref_multi attrs }
{
    has_attributes(attrs, Attrs::UNREF_MULTI)
}

/// Unreferenced notices of a door that has these can be made.
pub fn takes_notices(attrs: Attrs) -> bool
    ensures { result ≡ takes_notices attrs }
{
    has_attributes(attrs, Attrs::UNREF) || has_unref_multi(attrs)
}

pub fn refuses_descriptors(attrs: Attrs) -> bool
    ensures { result ≡ refuses_descriptors attrs }
{
    has_attributes(attrs, Attrs::REFUSE_DESC)
}

/// Attributes that door_info(3C) tells and door_create(3C) refuses.
pub fn has_told_attributes(attrs: Attrs) -> bool
    ensures { result ≡ has_told_attributes attrs }
{
    has_attributes(attrs, Attrs::LOCAL)
        || has_attributes(attrs, Attrs::REVOKED)
        || has_attributes(attrs, Attrs::IS_UNREF)
}

/// The most descriptors of a call, as a door is made.
pub fn first_desc_max(attrs: Attrs) -> u64
    ensures { result ≡ first_desc_max attrs }
{
    if refuses_descriptors(attrs) {
        0
    } else {
        2_147_483_647
    }
}

/// These attributes, or none.
pub fn attributes_where(holds: bool, attrs: Attrs) -> Attrs
    ensures { result.0 ≡ attributes_where holds attrs }
{
    if holds { attrs } else { Attrs::empty() }
}
