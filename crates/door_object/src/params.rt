//! The parameters of doors (door_getparam(3C), door_setparam(3C)).
ghost use Rattle.std.specs.Prelude.{◌≡◌, Some};
ghost use Rattle.spec_records.specs.Words.{first_refusal, has_no_size, is_of_descriptors, param_in, param_of, set_param_tests, with_param, would_have_no_size};

use crate::attributes::refuses_descriptors;
use crate::door::{is_owned_by, is_valid_door};
use dk_base::error::Errno;
use dk_base::number::Pid;
use dk_base::request::Param;
use spec_records::record::Door;

fn param_of(door: &Door, param: Param) -> u64
    ensures { result ≡ param_of param door.now }
{
    match param {
        Param::DataMax => door.data_max,
        Param::DataMin => door.data_min,
        Param::DescMax => door.desc_max,
    }
}

/// A parameter's value, 0 for no door.
pub fn param_in(door: Option<Door>, param: Param) -> u64
    ensures { result ≡ param_in param door }
{
    match door {
        Some(door) => param_of(&door, param),
        None => 0,
    }
}

pub fn change_param(door: &mut Door, param: Param, value: u64)
    ensures { door.new ≡ with_param param value door.old }
{
    match param {
        Param::DataMax => door.data_max = value,
        Param::DataMin => door.data_min = value,
        Param::DescMax => door.desc_max = value,
    }
}

fn is_of_descriptors(param: Param) -> bool
    ensures { result ≡ is_of_descriptors param }
{
    match param {
        Param::DescMax => true,
        Param::DataMax | Param::DataMin => false,
    }
}

/// Whether the least size of a call is above the greatest.
fn has_no_size(door: &Door) -> bool
    ensures { result ≡ has_no_size door.now }
{
    door.data_max < door.data_min
}

fn would_have_no_size(mut door: Door, param: Param, value: u64) -> bool
    ensures { result ≡ would_have_no_size param value (Some door) }
{
    change_param(&mut door, param, value);
    has_no_size(&door)
}

/// door_setparam(3C): EBADF, EPERM, ENOTSUP, EINVAL.
pub fn param_refusal(door: Option<Door>, by: Pid, param: Param, value: u64) -> Option<Errno>
    ensures { result ≡ first_refusal (set_param_tests by.0 door param value) }
{
    let Some(door) = door else {
        return Some(Errno::EBADF);
    };
    if !is_valid_door(&door) {
        return Some(Errno::EBADF);
    }
    if !is_owned_by(&door, by) {
        return Some(Errno::EPERM);
    }
    if is_of_descriptors(param) && value != 0 && refuses_descriptors(door.attrs) {
        return Some(Errno::ENOTSUP);
    }
    if would_have_no_size(door, param, value) {
        return Some(Errno::EINVAL);
    }
    None
}
