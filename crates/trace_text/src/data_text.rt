//! Data as lines show it.

ghost use Rattle.std.specs.Prelude.{◌≡◌, ◌≤◌, ◌+◌, ◌*◌, [], ◌∷◌, ◌++◌, length};
ghost use Rattle.line_text.specs.Strings.{quoted_byte, quoted_text};
ghost use Rattle.work_ops.specs.Words.{digest_of, hex_byte};
ghost use Rattle.spec_requests.specs.Words.{data_text, digest_text};
ghost use Rattle.trace_text.specs.Taken.{TakesAtMost};

use super::append::{push_counted, push_word};
use dk_base::list::Room;
use line_text::string::{hex_digit, is_printable};
use sha2::{Digest, Sha256};

/// The longest data that is shown itself.
const SHOWN: usize = 64;

/// In two lower case hexadecimal digits.
fn push_hex(text: &mut Room<u8>, byte: u8)
    requires { 2 ≤ text.old.spare }
    ensures items { text.new.items ≡ text.old.items ++ hex_byte byte }
    ensures room { TakesAtMost text.old text.new 2 }
{
    text.append(&[hex_digit(byte / 16), hex_digit(byte % 16)]);
}

/// The SHA-256 in lower case hexadecimal.
fn push_hash(text: &mut Room<u8>, bytes: &[u8])
    requires { 64 ≤ text.old.spare }
    ensures items { text.new.items ≡ text.old.items ++ digest_of bytes.now }
    ensures room { TakesAtMost text.old text.new 64 }
{
    for byte in &Sha256::digest(bytes) {
        push_hex(text, *byte);
    }
}

/// The length and the SHA-256.
fn push_digest(text: &mut Room<u8>, bytes: &[u8])
    requires { 92 ≤ text.old.spare }
    ensures items { text.new.items ≡ text.old.items ++ digest_text bytes.now }
    ensures room { TakesAtMost text.old text.new 92 }
{
    push_counted(text, "sha256:", bytes.len() as u64);
    push_word(text, ":");
    push_hash(text, bytes);
}

/// As a string spells it.
fn push_quoted_byte(text: &mut Room<u8>, byte: u8)
    requires { 4 ≤ text.old.spare }
    ensures items { text.new.items ≡ text.old.items ++ quoted_byte byte }
    ensures room { TakesAtMost text.old text.new 4 }
{
    if byte == b'"' || byte == b'\\' {
        text.append(&[b'\\', byte]);
        return;
    }
    if is_printable(byte) {
        text.push(byte);
        return;
    }
    push_word(text, "\\x");
    push_hex(text, byte);
}

/// The string that spells these bytes.
pub fn push_quoted(text: &mut Room<u8>, bytes: &[u8])
    requires { 4 * length bytes.now + 2 ≤ text.old.spare }
    ensures items { text.new.items ≡ text.old.items ++ quoted_text bytes.now }
    ensures room { TakesAtMost text.old text.new (4 * length bytes.now + 2) }
{
    text.push(b'"');
    for byte in bytes {
        push_quoted_byte(text, *byte);
    }
    text.push(b'"');
}

/// In quotes up to 64 bytes, by length and SHA-256 above.
pub fn push_data(text: &mut Room<u8>, bytes: &[u8])
    requires { 258 ≤ text.old.spare }
    ensures items { text.new.items ≡ text.old.items ++ data_text bytes.now }
    ensures room { TakesAtMost text.old text.new 258 }
{
    if bytes.len() <= SHOWN {
        push_quoted(text, bytes);
    } else {
        push_digest(text, bytes);
    }
}
