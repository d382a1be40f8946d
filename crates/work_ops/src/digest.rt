//! The digest of bytes as text.
ghost use Rattle.std.specs.Prelude.{◌≡◌, ◌++◌, ◌≤◌, ◌+◌, IfOk};
ghost use Rattle.work_ops.specs.Words.{digest_of, hex_byte};

use dk_base::error::NoMemory;
use dk_base::list::{Bytes, Room};
use line_text::string::hex_digit;
use sha2::{Digest, Sha256};
use std::alloc::Global;

/// How many digits a digest has.
const DIGITS: usize = 64;

/// In two lower case hexadecimal digits.
fn push_hex(output: &mut Room<u8>, byte: u8)
    requires { 2 ≤ output.old.spare }
    ensures items { output.new.items ≡ output.old.items ++ hex_byte byte }
    ensures spare { output.old.spare ≤ output.new.spare + 2 }
{
    output.append(&[hex_digit(byte / 16), hex_digit(byte % 16)]);
}

/// The SHA-256 in lower case hexadecimal.
pub fn digest(alloc: Global, input: &[u8]) -> Result<Bytes, NoMemory>
    ensures { IfOk result (λ output. output ≡ digest_of input.now) }
{
    let mut output = Room::with_room(alloc, DIGITS)?;
    for byte in &Sha256::digest(input) {
        push_hex(&mut output, *byte);
    }
    Ok(output.into_list())
}
