//! What C holds.
ghost use Rattle.std.specs.Prelude.{◌≡◌, Some, None, Option};
ghost use Rattle.kernel_chronicle.specs.contracts.chronicle.Chronicle.{the_row};
ghost use Rattle.std.specs.Coded.{coded_option};
ghost use Rattle.kernel_chronicle.specs.Handles.{handle_owns};

use crate::chronicle::Chronicle;
use crate::loose::Loose;
use std::alloc::Global;
use std::marker::Model;
use std::ptr;

/// A box of a kernel with its history as C sees it, or nothing.
#[repr(C)]
#[derive(Drop)]
pub struct Handle {
    at: *mut u8,
    alloc: Global,
    pub ghost value: { Option the_row.Denot } by { coded_option the_row.coded },
}

impl Model for Handle {
    ghost also_owns = { λ h. handle_owns h.alloc h.at h.value };
}

impl Handle {
    pub fn empty(alloc: Global) -> Handle
        ensures { result.value ≡ None }
    {
        Handle {
            at: ptr::null_mut(),
            alloc,
        }
    }

    fn of_parts(parts: Loose<Chronicle, Global>) -> Handle
        ensures { result.value ≡ Some parts.value }
    {
        let Loose { at, alloc } = parts;
        Handle {
            at: at as *mut u8,
            alloc,
        }
    }

    fn into_parts(self) -> Loose<Chronicle, Global>
        ghost value: { the_row.Denot }
        requires { self.value ≡ Some value }
        ensures { result.value ≡ value }
    {
        let Handle { at, alloc } = self;
        Loose {
            at: at as *mut Chronicle,
            alloc,
        }
    }

    pub fn of(chronicle: Box<Chronicle>) -> Handle
        ensures { result.value ≡ Some chronicle.value }
    {
        Handle::of_parts(Loose::of(chronicle))
    }

    pub fn into_box(self) -> Box<Chronicle>
        ghost value: { the_row.Denot }
        requires { self.value ≡ Some value }
        ensures { result.value ≡ value }
    {
        self.into_parts().into_box()
    }
}
