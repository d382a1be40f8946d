//! Lines with the replies that are expected.

use ncd_app::ncd::Ncd;
use std::alloc::Global;
use std::process::Abort;
use std::test::Fail;

/// Whether a line gets this reply.
pub fn replies(ncd: &mut Ncd, line: &str, reply: &str) -> bool {
    if ncd.asked() >= 1_000_000 {
        return false;
    }
    matches!(ncd.reply(line.as_bytes()), Ok(text) if text.slice() == reply.as_bytes())
}

/// Whether these lines get these replies, one after another.
pub fn all_reply(ncd: &mut Ncd, rows: &[(&str, &str)]) -> bool {
    for (line, reply) in rows {
        if !replies(ncd, line, reply) {
            return false;
        }
    }
    true
}

/// Whether a line with a number in it gets this reply.
fn numbered_replies(alloc: Global, ncd: &mut Ncd, parts: (&str, u32, &str), reply: &str) -> bool {
    let (front, number, back) = parts;
    matches!(format!(in alloc; "{front}{number}{back}"), Ok(line) if replies(ncd, line.as_str(), reply))
}

/// Whether the lines with each number up to `end` get this reply.
pub fn each_replies(
    alloc: Global,
    ncd: &mut Ncd,
    parts: (&str, u32, u32, &str),
    reply: &str,
) -> bool {
    let (front, start, end, back) = parts;
    for number in start..end {
        if !numbered_replies(alloc, ncd, (front, number, back), reply) {
            return false;
        }
    }
    true
}

/// Fails where a test does not hold.
pub fn holds<R: Abort>(rt: &R, test: bool) -> Result<(), Fail> {
    assert!(rt; test);
    Ok(())
}
