//! The door that each thread is bound to.
ghost use Rattle.std.specs.Prelude.{◌≡◌, IfOk, None, replicate};
ghost use Rattle.dk_base.specs.ByNumber.{with_at_number};
ghost use Rattle.spec_records.specs.Words.{bound_at};

use crate::numbered::place_of;
use dk_base::error::NoMemory;
use dk_base::number::Tid;
use spec_records::numbered::numbered_item;
use std::alloc::Global;

/// Places for the bindings of threads, of which none is bound.
pub fn no_bindings(alloc: Global, places: u32) -> Result<Vec<Option<u32>>, NoMemory>
    ensures { IfOk result (λ v. v.items ≡ replicate places None) }
{
    match vec![in alloc; None; places as usize] {
        Ok(bindings) => Ok(bindings),
        Err(_) => Err(NoMemory),
    }
}

/// The door that a thread is bound to.
pub fn bound_at(bindings: &[Option<u32>], t: Tid) -> Option<u32>
    ensures { result ≡ bound_at bindings.now t.0 }
{
    match numbered_item(bindings, t.0) {
        Some(door) => *door,
        None => None,
    }
}

/// A thread is bound to a door or to none. A number that has no place stays without a binding.
pub fn set_binding(bindings: &mut [Option<u32>], t: Tid, door: Option<u32>)
    ensures { bindings.new ≡ with_at_number bindings.old t.0 door }
{
    if let Some(place) = place_of(bindings, t.0) {
        bindings[place] = door;
    }
}
