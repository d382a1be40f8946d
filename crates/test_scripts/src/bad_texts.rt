//! Worked texts that spell no script.

use line_forms::reason::Reason;
use script_lang::bad::ParseFault;
use script_lang::parse::parse;
use std::alloc::Global;

/// One text for each reason, with the first bad line. `tests/show/` has many more.
static BAD_TEXTS: [(&str, u32, Reason); 10] = [
    ("doors script 5\n", 1, Reason::Header),
    ("doors script 1\r\n", 1, Reason::Byte),
    ("doors script 1\nbudget 1\nbudget 2\n", 3, Reason::Word),
    ("doors script 1\nbudget 007\n", 2, Reason::Form),
    ("doors script 1\nbudget 100001\n", 2, Reason::Range),
    (
        "doors script 1\nprocess a\nthread t\nif ok\nif ok\nif ok\nif ok\nif ok\nif ok\nif ok\nif ok\nif ok\n",
        12,
        Reason::Many,
    ),
    (
        "doors script 1\nprocess a\nthread t\nend\nspare t\n",
        5,
        Reason::Twice,
    ),
    (
        "doors script 1\nprocess a\nthread t\nkill b\nend\n",
        4,
        Reason::Unknown,
    ),
    (
        "doors script 1\nprocess a\nthread t\nrepeat 2\n\n# x\nend\nend\n",
        7,
        Reason::Body,
    ),
    ("doors script 1\nprocess a\nproc e", 4, Reason::Open),
];

/// Lines that later versions add: the version of a text whose body has one, and the reason why it is refused. In a lower version its
/// first word is no word.
static BAD_LINES: [(u32, &str, Reason); 26] = [
    (1, "fork a", Reason::Word),
    (1, "tcreate 0 1", Reason::Word),
    (2, "tcreate 0 1", Reason::Word),
    (2, "tset 0 1 1", Reason::Word),
    (2, "tdelete 0", Reason::Word),
    (2, "advance 1", Reason::Word),
    (2, "advance 0", Reason::Word),
    (3, "ncd v \"stat\"", Reason::Word),
    (1, "ncd v", Reason::Word),
    (3, "tcreate 256 1", Reason::Range),
    (3, "tcreate 0 18446744073709551616", Reason::Range),
    (3, "tset 32 1 1", Reason::Range),
    (3, "tset 0 1000000001 0", Reason::Range),
    (3, "tset 0 0 1000000001", Reason::Range),
    (3, "tdelete 32", Reason::Range),
    (3, "advance 0", Reason::Range),
    (3, "advance 10001", Reason::Range),
    (3, "tcreate 0", Reason::Form),
    (3, "tset 0 1", Reason::Form),
    (3, "tset 0 1 1 1", Reason::Form),
    (3, "tset 00 1 1", Reason::Form),
    (3, "tdelete $v", Reason::Form),
    (3, "advance", Reason::Form),
    (4, "ncd v", Reason::Form),
    (4, "ncd \"stat\"", Reason::Form),
    (4, "ncd v 7", Reason::Form),
];

/// Whether a text is refused at this line for this reason.
fn is_refused(alloc: Global, text: &str, line: u32, reason: Reason) -> bool {
    text.len() < 4_000_000_000
        && matches!(
            parse(alloc, text.as_bytes()),
            Err(ParseFault::Bad(bad)) if bad.line == line && bad.reason == reason
        )
}

/// Whether a text of this version is refused for this reason where its body has the line.
fn is_bad_line(alloc: Global, version: u32, line: &str, reason: Reason) -> bool {
    match format!(in alloc; "doors script {version}\nprocess a\nthread t\n{line}\nend\n") {
        Ok(text) => is_refused(alloc, &text, 4, reason),
        Err(_) => false,
    }
}

#[test]
fn bad_lines_of_later_versions_are_refused(rt: HostRuntime) {
    for row in &BAD_LINES {
        let (version, line, reason) = *row;
        assert!(rt;
            is_bad_line(rt.alloc(), version, line, reason),
            "{version} {line}"
        );
    }
}

#[test]
fn bad_texts_are_refused(rt: HostRuntime) {
    for row in &BAD_TEXTS {
        let (text, line, reason) = *row;
        assert!(rt; is_refused(rt.alloc(), text, line, reason), "{text}");
    }
}
