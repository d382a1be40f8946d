//! Traces and their verdicts as text.

use script_lang::parse::parse;
use script_lang::script::Script;
use std::alloc::Global;
use std::test::Fail;
use trace_check::{check, parts, text_of_verdict};

/// A script with a trace after it, and the text of the verdict.
static ROWS: [(&str, &str); 4] = [
    (
        "doors script 1\nprocess p\nthread w\nawait x\nend\nthread i\nend\ntrace\n1 i i exit ok\n2 w w await wait\nend stalled 2 w\ntail 2",
        "legal 2\n",
    ),
    (
        "doors script 1\nprocess p\nthread w\nawait x\nend\nthread i\nend\ntrace\n1 w w await wait\n2 w w found ok\n",
        "illegal line 2\nwant turn\nhave 2 w w found ok\n",
    ),
    (
        "doors script 1\nprocess p\nthread i\nend\ntrace\n1 i i exit EBADF\n",
        "illegal line 1\nwant 1 i i exit ok\nhave 1 i i exit EBADF\n",
    ),
    (
        "doors script 1\nprocess p\nthread i\nend\ntrace\n1 i i exit ok\nend complete 1\n\n",
        "illegal line 3\nwant\nhave\n",
    ),
];

fn is_found(alloc: Global, script: Script, trace: &[u8], expected: &str) -> bool {
    match check(alloc, script, trace) {
        Ok(found) => {
            matches!(text_of_verdict(alloc, &found), Ok(text) if text.slice() == expected.as_bytes())
        }
        Err(_) => false,
    }
}

fn is_checked(alloc: Global, text: &[u8], trace: &[u8], expected: &str) -> bool {
    if text.len() >= 4_000_000_000 {
        return false;
    }
    match parse(alloc, text) {
        Ok(script) => is_found(alloc, script, trace, expected),
        Err(_) => false,
    }
}

#[test]
fn verdicts(rt: HostRuntime) -> Result<(), Fail> {
    for row in &ROWS {
        let (input, expected) = *row;
        let (text, trace) = parts(input.as_bytes());
        let is_right = match trace {
            Some(trace) => is_checked(rt.alloc(), text, trace, expected),
            None => false,
        };
        assert!(rt; is_right, "{expected}");
    }
    Ok(())
}
