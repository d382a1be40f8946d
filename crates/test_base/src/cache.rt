//! Which lines are answered from the cache.

use crate::replies::{all_reply, each_replies, holds, replies};
use ncd_app::ncd::Ncd;
use std::alloc::Global;
use std::test::Fail;

/// After 64 different lines the first is a hit, and then the second is the one that another line puts out.
const AFTER_64: [(&str, &str); 7] = [
    ("get k0", "none"),
    ("get k64", "none"),
    ("get k1", "none"),
    ("stat", "hits 1 misses 66"),
    ("alias a b", "ok"),
    ("alias b a", "ok"),
    ("get a", "loop"),
];

fn is_after_64(alloc: Global, ncd: &mut Ncd) -> bool {
    each_replies(alloc, ncd, ("get k", 0, 64, ""), "none") && all_reply(ncd, AFTER_64.as_slice())
}

#[test]
fn the_line_used_before_all_others_goes(rt: HostRuntime) -> Result<(), Fail> {
    let alloc = rt.alloc();
    holds(&rt, is_after_64(alloc, &mut Ncd::new(alloc)?))
}

/// Whether the first line that asked is counted thus when it asks again after so many different ones.
fn asks_again(alloc: Global, ncd: &mut Ncd, different: u32, counts: &str) -> bool {
    each_replies(alloc, ncd, ("who v", 0, different, ""), "none")
        && replies(ncd, "who v0", "none")
        && replies(ncd, "stat", counts)
}

#[test]
fn the_answers_to_64_lines_are_kept(rt: HostRuntime) -> Result<(), Fail> {
    let alloc = rt.alloc();
    holds(
        &rt,
        asks_again(alloc, &mut Ncd::new(alloc)?, 64, "hits 1 misses 64"),
    )?;
    holds(
        &rt,
        asks_again(alloc, &mut Ncd::new(alloc)?, 65, "hits 0 misses 66"),
    )?;
    holds(
        &rt,
        asks_again(alloc, &mut Ncd::new(alloc)?, 66, "hits 0 misses 67"),
    )
}

/// Lines with their replies, and how often `stat` counts hits and misses: only what replies `ok` ends the life of an answer.
static COUNTS: [(&str, &str); 26] = [
    ("get a", "none"),
    ("get a", "none"),
    ("stat", "hits 1 misses 1"),
    ("who a", "none"),
    ("who a", "none"),
    ("stat", "hits 2 misses 2"),
    ("set a b", "ok"),
    ("get a", "value b"),
    ("get a", "value b"),
    ("stat", "hits 3 misses 3"),
    ("del c", "none"),
    ("nonsense", "bad"),
    ("get  a", "bad"),
    ("get a", "value b"),
    ("stat", "hits 4 misses 3"),
    ("set a b", "ok"),
    ("get a", "value b"),
    ("stat", "hits 4 misses 4"),
    ("who b", "keys a"),
    ("get a", "value b"),
    ("stat", "hits 5 misses 5"),
    ("del a", "ok"),
    ("who b", "none"),
    ("get a", "none"),
    ("who b", "none"),
    ("stat", "hits 6 misses 7"),
];

#[test]
fn only_what_replies_ok_ends_the_life_of_an_answer(rt: HostRuntime) -> Result<(), Fail> {
    holds(
        &rt,
        all_reply(&mut Ncd::new(rt.alloc())?, COUNTS.as_slice()),
    )
}
