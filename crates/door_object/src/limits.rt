//! The limits of door_call(3C).
ghost use Rattle.std.specs.Prelude.{◌≡◌, Some};
ghost use Rattle.spec_records.specs.Words.{first_refusal, has_refused_size, limit_tests};

use crate::attributes::refuses_descriptors;
use crate::door::is_valid_door;
use dk_base::error::Errno;
use dk_base::limits::{DATA_MAX, PASS_MAX};
use spec_records::record::Door;

fn has_refused_size(door: &Door, size: u64) -> bool
    ensures { result ≡ has_refused_size size (Some door.now) }
{
    door.data_max < size || size < door.data_min
}

/// door_call(3C), a call of so many bytes and descriptors: EBADF, ENOBUFS, ENOTSUP, ENFILE, E2BIG.
pub fn limit_refusal(door: Option<Door>, size: u64, descriptors: u64) -> Option<Errno>
    ensures { result ≡ first_refusal (limit_tests door size descriptors) }
{
    let Some(door) = door else {
        return Some(Errno::EBADF);
    };
    if !is_valid_door(&door) {
        return Some(Errno::EBADF);
    }
    if has_refused_size(&door, size) {
        return Some(Errno::ENOBUFS);
    }
    if descriptors > 0 && refuses_descriptors(door.attrs) {
        return Some(Errno::ENOTSUP);
    }
    if descriptors > door.desc_max {
        return Some(Errno::ENFILE);
    }
    if size > DATA_MAX as u64 || descriptors > PASS_MAX as u64 {
        return Some(Errno::E2BIG);
    }
    None
}
