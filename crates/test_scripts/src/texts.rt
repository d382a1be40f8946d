//! A script with every form of a command. `tests/show/` has more texts that are shown.

use script_lang::parse::parse;
use script_lang::print::print;
use script_lang::script::Script;
use std::alloc::Global;

fn is_printed(alloc: Global, script: &Script, canonical: &str) -> bool {
    matches!(print(alloc, script), Ok(text) if text.slice() == canonical.as_bytes())
}

/// A script with every command and every form of an operand, in its canonical text.
const EVERY_FORM: &str =
    "doors script 1\nbudget 77\nprocess a limit 3\nspare s\nthread t\ncreate d e 18446744073709551615 unref private local revoked unref-multi is-unref refuse-desc no-cancel\ncreate d e 0\ncall r $d \"h\" rsize 4096\ncall r $d.3 \"h\\\"\\\\\\x0a\\xff\" + $v + fill:8192 desc $d $d! $d.15! 255! rsize 18446744073709551615\nreturn \"\"\nreturn $arg desc 1\nserve\nrevoke 0\nbind $x\nunbind\ninfo 255\ninfo query\ngetparam $d data-max\nsetparam $d data-min 0\nsetparam $d desc-max max\ncred\ntestcancel\nexit\nclose $d\ndup v $d.9\nattach $d road\ndetach alley\nopen v road\nawait gate\npipe x y\nwrite $y \"z\" + $w\nread v $x 4096\npcreate p\nassociate $p $x none 1\nassociate $p $x in+out+err+hup 1\nassociate $p $x out+hup 18446744073709551615\ndissociate $p $x\nget $p\nget $p nowait\ngetn $p 64 0\ngetn $p 0 64 nowait\nsend $p 4294967295 1\nsendn 1 2 $p 3 $p.2\nalert $p set 1 2\nalert $p update 0 0\nalert $p none 0 0\ninterrupt s\ninterrupt t\nkill a\nkill b\nwork w upper \"a\"\nwork w reverse $w + \"\"\nwork w sum fill:0\nwork w digest \"\"\nrepeat 1000000\nserve\nif ok\nif yes\nif unref\nend\nend\nif E2BIG\nif ETIME\nend\nend\nend\nend\nend\nproc e\nreturn $arg\nend\nspare q\nprocess b limit 256\nproc e\nend\nthread u\nend\nschedule s t q u s t q u s t q u s t q u\nschedule t\n";

/// The forms that version 2 adds.
const FORMS_SINCE_2: &str =
    "doors script 2\nbudget 9\nprocess a limit 3\nthread t\nfork k\nend\nchild k of a\nspare s\nchild g of k\nthread u\nend\nschedule t u\n";

/// The forms that version 3 adds.
const FORMS_SINCE_3: &str =
    "doors script 3\nbudget 9\nprocess a limit 3\nthread t\ntcreate $p 18446744073709551615\ntcreate $p.15 0\ntcreate 255 7\ntset 0 0 0\ntset 31 1000000000 1000000000\ntdelete 0\ntdelete 31\nadvance 1\nadvance 10000\nfork k\nend\nchild k of a\n";

/// The forms that version 4 adds.
const FORMS_SINCE_4: &str =
    "doors script 4\nbudget 9\nprocess a limit 3\nthread t\nncd v \"get \" + $k + fill:8192\nncd v $v\nadvance 1\nfork k\nend\nchild k of a\n";

fn is_copied(alloc: Global, script: &Script) -> bool {
    matches!(script.copy(alloc), Ok(copy) if copy.same(script))
}

/// Whether a text spells a script that has this canonical text, and whose copy is the same.
fn is_shown_and_copied(alloc: Global, text: &str, canonical: &str) -> bool {
    text.len() < 4_000_000_000
        && matches!(
            parse(alloc, text.as_bytes()),
            Ok(script) if is_printed(alloc, &script, canonical) && is_copied(alloc, &script)
        )
}

#[test]
fn every_form_is_shown_and_copied(rt: HostRuntime) {
    assert!(rt; is_shown_and_copied(rt.alloc(), EVERY_FORM, EVERY_FORM));
}

#[test]
fn forms_since_2_are_shown_and_copied(rt: HostRuntime) {
    assert!(rt; is_shown_and_copied(rt.alloc(), FORMS_SINCE_2, FORMS_SINCE_2));
}

#[test]
fn forms_since_3_are_shown_and_copied(rt: HostRuntime) {
    assert!(rt; is_shown_and_copied(rt.alloc(), FORMS_SINCE_3, FORMS_SINCE_3));
}

#[test]
fn forms_since_4_are_shown_and_copied(rt: HostRuntime) {
    assert!(rt; is_shown_and_copied(rt.alloc(), FORMS_SINCE_4, FORMS_SINCE_4));
}

/// Whether a text spells another script than this one.
fn spells_another(alloc: Global, script: &Script, text: &str) -> bool {
    text.len() < 4_000_000_000
        && matches!(parse(alloc, text.as_bytes()), Ok(other) if !script.same(&other))
}

/// Whether two texts spell scripts that are not the same.
fn differ(alloc: Global, text: &str, other: &str) -> bool {
    text.len() < 4_000_000_000
        && matches!(parse(alloc, text.as_bytes()), Ok(script) if spells_another(alloc, &script, other))
}

/// Scripts of two versions are not the same, whatever their lines are.
#[test]
fn a_script_of_another_version_is_another(rt: HostRuntime) {
    assert!(rt;
        differ(
            rt.alloc(),
            "doors script 1\nprocess a\n",
            "doors script 2\nprocess a\n"
        )
    );
    assert!(rt;
        differ(
            rt.alloc(),
            "doors script 3\nprocess a\n",
            "doors script 4\nprocess a\n"
        )
    );
}

fn needs_send<T: Send>() {}

/// A script may go to another thread.
#[test]
fn a_script_is_send() {
    needs_send::<Script>();
}
