//! The room that a turn's reply and line take. It is taken before the turn, so that nothing can fail after it.
ghost use Rattle.std.specs.Prelude.{◌≡◌, ◌≤◌, [], IfOk, length, take};

use dk_base::error::NoMemory;
use dk_base::list::Room;
use std::alloc::Global;

/// The most words of a reply: eleven, 256 of items, and of 64 threads.
pub const REPLY_ROOM: usize = 331;

/// The most bytes that an answer hands over.
pub const BYTES_ROOM: usize = 4096;

/// The most bytes of a line of a history, with its line feed, and of a history's head.
pub const TEXT_ROOM: usize = 65_536;

/// The most items that C may hand over.
pub const ITEMS_ASKED_MAX: usize = 32;

#[derive(Drop)]
pub struct TurnRoom {
    pub words: Room<u64>,
    pub line: Room<u8>,
}

pub fn room_for_turn(alloc: Global) -> Result<TurnRoom, NoMemory>
    ensures words { IfOk result (λ r. r.words.items ≡ []) }
    ensures line { IfOk result (λ r. r.line.items ≡ []) }
    ensures word_room { IfOk result (λ r. REPLY_ROOM ≤ r.words.spare) }
    ensures line_room { IfOk result (λ r. TEXT_ROOM ≤ r.line.spare) }
{
    let words = Room::with_room(alloc, REPLY_ROOM)?;
    let line = Room::with_room(alloc, TEXT_ROOM)?;
    Ok(TurnRoom { words, line })
}

pub fn put_words(out: &mut [u64], words: &[u64])
    requires { length words.now ≤ length out.old }
    ensures { take (length words.now) out.new ≡ words.now }
{
    out[..words.len()].copy_from_slice(words);
}

pub fn put_bytes(out: &mut [u8], bytes: &[u8])
    requires { length bytes.now ≤ length out.old }
    ensures { take (length bytes.now) out.new ≡ bytes.now }
{
    out[..bytes.len()].copy_from_slice(bytes);
}
