//! What is a line, and what is none.

use crate::replies::{all_reply, holds};
use ncd_app::ncd::Ncd;
use std::test::Fail;

/// Words of 0, 1, 32 and 33 bytes, spaces at an end and beside each other, the least and the greatest byte of a word, and others.
static LINES: [(&str, &str); 60] = [
    ("", "bad"),
    ("stat", "hits 0 misses 0"),
    ("stat ", "bad"),
    (" stat", "bad"),
    ("stat a", "bad"),
    ("STAT", "bad"),
    ("get", "bad"),
    ("get ", "bad"),
    ("get  a", "bad"),
    (" get a", "bad"),
    ("get a ", "bad"),
    ("get a b", "bad"),
    ("gets a", "bad"),
    ("Get a", "bad"),
    ("a", "bad"),
    (" ", "bad"),
    ("  ", "bad"),
    ("set a", "bad"),
    ("set a ", "bad"),
    ("set  a b", "bad"),
    ("set a  b", "bad"),
    ("set a b ", "bad"),
    ("set a b c", "bad"),
    ("sets a b", "bad"),
    ("del", "bad"),
    ("del a b", "bad"),
    ("alias a", "bad"),
    ("alias a b c", "bad"),
    ("who", "bad"),
    ("who a b", "bad"),
    ("get a", "none"),
    ("set a b", "ok"),
    ("get a", "value b"),
    ("who b", "keys a"),
    ("alias b a", "ok"),
    ("get b", "value b"),
    ("del a", "ok"),
    ("del a", "none"),
    ("get b", "none"),
    (
        "set aaaaaaaaaaaaaaaaaaaaaaaaaaaaaaaa aaaaaaaaaaaaaaaaaaaaaaaaaaaaaaaa",
        "ok",
    ),
    (
        "get aaaaaaaaaaaaaaaaaaaaaaaaaaaaaaaa",
        "value aaaaaaaaaaaaaaaaaaaaaaaaaaaaaaaa",
    ),
    (
        "who aaaaaaaaaaaaaaaaaaaaaaaaaaaaaaaa",
        "keys aaaaaaaaaaaaaaaaaaaaaaaaaaaaaaaa",
    ),
    ("get aaaaaaaaaaaaaaaaaaaaaaaaaaaaaaaaa", "bad"),
    ("set aaaaaaaaaaaaaaaaaaaaaaaaaaaaaaaaa b", "bad"),
    ("set b aaaaaaaaaaaaaaaaaaaaaaaaaaaaaaaaa", "bad"),
    ("alias aaaaaaaaaaaaaaaaaaaaaaaaaaaaaaaaa b", "bad"),
    ("who aaaaaaaaaaaaaaaaaaaaaaaaaaaaaaaaa", "bad"),
    ("del aaaaaaaaaaaaaaaaaaaaaaaaaaaaaaaaa", "bad"),
    ("del aaaaaaaaaaaaaaaaaaaaaaaaaaaaaaaa", "ok"),
    ("set ! ~", "ok"),
    ("get !", "value ~"),
    ("get \x1f", "bad"),
    ("get \x7f", "bad"),
    ("get a\tb", "bad"),
    ("get a\n", "bad"),
    ("get \u{80}", "bad"),
    ("set a \0", "bad"),
    ("set \u{e9} b", "bad"),
    ("get\ta", "bad"),
    ("stat", "hits 0 misses 8"),
];

#[test]
fn lines_are_words_with_one_space_between(rt: HostRuntime) -> Result<(), Fail> {
    holds(&rt, all_reply(&mut Ncd::new(rt.alloc())?, LINES.as_slice()))
}
