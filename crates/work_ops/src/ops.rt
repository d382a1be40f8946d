//! Each op.
ghost use Rattle.std.specs.Prelude.{◌≡◌, IfOk, decimal, map, reverse, sum};
ghost use Rattle.std.specs.Char.{to_ascii_uppercase};
ghost use Rattle.work_ops.specs.Words.{output_of};

use crate::digest::digest;
use dk_base::error::NoMemory;
use dk_base::list::{Bytes, Room};
use dk_base::request::Op;
use itoa::Buffer;
use std::alloc::Global;

/// What the op makes of these bytes.
pub(crate) fn output_of(alloc: Global, op: Op, input: &[u8]) -> Result<Bytes, NoMemory>
    ensures { IfOk result (λ output. output ≡ output_of op input.now) }
{
    match op {
        Op::Upper => upper(alloc, input),
        Op::Reverse => reverse(alloc, input),
        Op::Sum => sum(alloc, input),
        Op::Digest => digest(alloc, input),
    }
}

/// With A to Z for a to z.
fn upper(alloc: Global, input: &[u8]) -> Result<Bytes, NoMemory>
    ensures { IfOk result (λ output. output ≡ map to_ascii_uppercase input.now) }
{
    let mut output = Room::with_room(alloc, input.len())?;
    for byte in input {
        output.push(byte.to_ascii_uppercase());
    }
    Ok(output.into_list())
}

/// The last byte first.
fn reverse(alloc: Global, input: &[u8]) -> Result<Bytes, NoMemory>
    ensures { IfOk result (λ output. output ≡ reverse input.now) }
{
    let mut output = Room::with_room(alloc, input.len())?;
    for place in (0..input.len()).rev() {
        output.push(input[place]);
    }
    Ok(output.into_list())
}

/// The sum of the bytes in decimal.
fn sum(alloc: Global, input: &[u8]) -> Result<Bytes, NoMemory>
    ensures { IfOk result (λ output. output ≡ decimal (sum input.now)) }
{
    Bytes::from_slice(alloc, Buffer::new().format(total(input)).as_bytes())
}

/// The sum of the bytes. That of as many bytes as memory can hold fits.
fn total(input: &[u8]) -> u128
    ensures { result ≡ sum input.now }
{
    input.iter().map(|&byte| u128::from(byte)).sum()
}
