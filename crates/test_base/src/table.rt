//! Records that are made, replaced and taken away; aliases; the keys that have a value.

use crate::replies::{all_reply, each_replies, holds, replies};
use ncd_app::ncd::Ncd;
use std::alloc::Global;
use std::test::Fail;

/// What a full table replies: a record more, and one replaced, taken away and added.
static FULL: [(&str, &str); 11] = [
    ("set r1024 v", "full"),
    ("alias r1024 r5", "full"),
    ("get r1024", "none"),
    ("set r5 w", "ok"),
    ("get r5", "value w"),
    ("del r5", "ok"),
    ("del r5", "none"),
    ("alias r1024 r6", "ok"),
    ("get r1024", "value v"),
    ("set r5 v", "full"),
    ("who w", "none"),
];

fn is_full(alloc: Global, ncd: &mut Ncd) -> bool {
    each_replies(alloc, ncd, ("set r", 0, 1024, " v"), "ok") && all_reply(ncd, FULL.as_slice())
}

#[test]
fn a_table_has_1024_records(rt: HostRuntime) -> Result<(), Fail> {
    let alloc = rt.alloc();
    holds(&rt, is_full(alloc, &mut Ncd::new(alloc)?))
}

/// Chains of 7, 8 and 9 aliases, rings of one and two, and an alias of a key without a record.
static ALIASES: [(&str, &str); 21] = [
    ("set end here", "ok"),
    ("alias a1 end", "ok"),
    ("alias a2 a1", "ok"),
    ("alias a3 a2", "ok"),
    ("alias a4 a3", "ok"),
    ("alias a5 a4", "ok"),
    ("alias a6 a5", "ok"),
    ("alias a7 a6", "ok"),
    ("alias a8 a7", "ok"),
    ("alias a9 a8", "ok"),
    ("get a7", "value here"),
    ("get a8", "value here"),
    ("get a9", "loop"),
    ("del end", "ok"),
    ("get a8", "none"),
    ("get a9", "loop"),
    ("alias a1 a2", "ok"),
    ("get a1", "loop"),
    ("alias one one", "ok"),
    ("get one", "loop"),
    ("who a1", "none"),
];

#[test]
fn eight_aliases_are_followed(rt: HostRuntime) -> Result<(), Fail> {
    holds(
        &rt,
        all_reply(&mut Ncd::new(rt.alloc())?, ALIASES.as_slice()),
    )
}

/// Keys in order of bytes, with no alias among them and none of another value.
static ORDER: [(&str, &str); 10] = [
    ("who v", "none"),
    ("set b v", "ok"),
    ("who v", "keys b"),
    ("set a v", "ok"),
    ("set ab v", "ok"),
    ("set B v", "ok"),
    ("alias A b", "ok"),
    ("set c w", "ok"),
    ("who v", "keys B a ab b"),
    ("who b", "none"),
];

const KEYS_32: &str =
    "keys w10 w11 w12 w13 w14 w15 w16 w17 w18 w19 w20 w21 w22 w23 w24 w25 w26 w27 w28 w29 w30 w31 w32 w33 w34 w35 w36 w37 w38 w39 w40 w41";

const KEYS_33: &str =
    "keys w09 w10 w11 w12 w13 w14 w15 w16 w17 w18 w19 w20 w21 w22 w23 w24 w25 w26 w27 w28 w29 w30 w31 w32 w33 w34 w35 w36 w37 w38 w39 w40";

/// The keys with a value, of which there are none, 32 and 33.
fn are_told(alloc: Global, ncd: &mut Ncd) -> bool {
    replies(ncd, "who many", "none")
        && each_replies(alloc, ncd, ("set w", 20, 42, " many"), "ok")
        && each_replies(alloc, ncd, ("set w", 10, 20, " many"), "ok")
        && replies(ncd, "who many", KEYS_32)
        && replies(ncd, "set w42 many", "ok")
        && replies(ncd, "who many", KEYS_32)
        && replies(ncd, "set w09 many", "ok")
        && replies(ncd, "who many", KEYS_33)
}

#[test]
fn keys_are_told_in_order_of_bytes(rt: HostRuntime) -> Result<(), Fail> {
    let alloc = rt.alloc();
    holds(&rt, all_reply(&mut Ncd::new(alloc)?, ORDER.as_slice()))?;
    holds(&rt, are_told(alloc, &mut Ncd::new(alloc)?))
}
