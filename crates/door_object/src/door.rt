//! One door: whether it is valid, whose it is, who serves it, and who may revoke it.
ghost use Rattle.std.specs.Prelude.{◌≡◌, Some};
ghost use Rattle.spec_records.specs.Words.{bind_tests, first_refusal, has_many, is_common_of, is_owned_by, is_valid_door, is_valid_in, is_valid_of, may_take_notice_in, pool_in, pool_of_door, revoke_tests, revoked_door, with_owner_ended};

use crate::attributes::{has_unref_multi, is_private, takes_notices};
use dk_base::error::Errno;
use dk_base::number::Pid;
use spec_records::pool::Pool;
use spec_records::record::Door;

/// A door is valid where it is not revoked and its owner has not ended.
pub fn is_valid_door(door: &Door) -> bool
    ensures { result ≡ is_valid_door door.now }
{
    !door.revoked && !door.owner_ended
}

pub fn is_valid_in(door: Option<Door>) -> bool
    ensures { result ≡ is_valid_in door }
{
    match door {
        Some(door) => is_valid_door(&door),
        None => false,
    }
}

pub fn is_owned_by(door: &Door, p: Pid) -> bool
    ensures { result ≡ is_owned_by p.0 (Some door.now) }
{
    door.owner.0 == p.0
}

pub fn is_valid_of(door: &Door, p: Pid) -> bool
    ensures { result ≡ is_valid_of p.0 door.now }
{
    is_owned_by(door, p) && is_valid_door(door)
}

fn pool_of_door(door: &Door) -> Pool
    ensures { result ≡ pool_of_door door.now }
{
    if is_private(door.attrs) {
        Pool::Private(door.number)
    } else {
        Pool::Common(door.owner)
    }
}

pub fn pool_in(door: Option<Door>) -> Pool
    ensures { result ≡ pool_in door }
{
    match door {
        Some(door) => pool_of_door(&door),
        None => Pool::Common(Pid(0)),
    }
}

/// A door of a process that is not private.
pub fn is_common_of(door: &Door, p: Pid) -> bool
    ensures { result ≡ is_common_of p.0 door.now }
{
    is_owned_by(door, p) && !is_private(door.attrs)
}

/// A door of which any number of notices can be made.
pub fn has_many(door: Option<Door>) -> bool
    ensures { result ≡ has_many door }
{
    match door {
        Some(door) => has_unref_multi(door.attrs),
        None => false,
    }
}

/// Whether a notice of a door can be made, where it had one or not.
pub fn may_take_notice(door: Option<Door>, had: bool) -> bool
    ensures { result ≡ may_take_notice_in had door }
{
    match door {
        Some(door) => {
            takes_notices(door.attrs)
                && is_valid_door(&door)
                && (has_unref_multi(door.attrs) || !had)
        }
        None => false,
    }
}

/// door_bind(3C): EBADF, EINVAL.
pub fn bind_refusal(door: Option<Door>, by: Pid) -> Option<Errno>
    ensures { result ≡ first_refusal (bind_tests by.0 door) }
{
    match door {
        Some(door) if is_valid_door(&door) => {
            if is_private(door.attrs) && is_owned_by(&door, by) {
                None
            } else {
                Some(Errno::EINVAL)
            }
        }
        _ => Some(Errno::EBADF),
    }
}

/// door_revoke(3C): EBADF, EPERM.
pub fn revoke_refusal(door: Option<Door>, by: Pid) -> Option<Errno>
    ensures { result ≡ first_refusal (revoke_tests by.0 door) }
{
    let Some(door) = door else {
        return Some(Errno::EBADF);
    };
    if !is_valid_door(&door) {
        return Some(Errno::EBADF);
    }
    if !is_owned_by(&door, by) {
        return Some(Errno::EPERM);
    }
    None
}

pub fn mark_revoked(door: &mut Door)
    ensures { door.new ≡ revoked_door door.old }
{
    door.revoked = true;
}

/// A door of a process that ends.
pub fn end_owner(door: &mut Door, p: Pid)
    ensures { door.new ≡ with_owner_ended p.0 door.old }
{
    if door.owner.0 == p.0 {
        door.owner_ended = true;
    }
}
