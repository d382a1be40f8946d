//! Operands as a line's further words, each with a space before it. They are written in room that was taken before.

ghost use Rattle.std.specs.Prelude.{◌≡◌, ◌≤◌, ◌+◌, ◌*◌, ◌∷◌, ◌++◌, map, flat_map, length};
ghost use Rattle.line_text.specs.Words.{spaced_words};
ghost use Rattle.line_forms.specs.Words.{attribute_flags, attribute_if, attribute_words, bits_of_flags, wait_words};
ghost use Rattle.trace_text.specs.Taken.{TakesAtMost};
ghost use Rattle.history_text.specs.LineWords.{desc_words, fd_word, pass_word};

use dk_base::list::Room;
use dk_base::number::Fd;
use dk_base::object::Pass;
use dk_base::set::Attrs;
use line_forms::sets::{ATTRIBUTES, attribute_word};
use trace_text::append::{push_spaced, push_spaced_number, push_word};

/// `nowait`, where it does not wait.
pub fn push_wait(text: &mut Room<u8>, wait: bool)
    requires { 7 ≤ text.old.spare }
    ensures items { text.new.items ≡ text.old.items ++ spaced_words (wait_words wait) }
    ensures room { TakesAtMost text.old text.new 7 }
{
    if !wait {
        push_word(text, " nowait");
    }
}

fn push_pass(text: &mut Room<u8>, pass: Pass)
    requires { 22 ≤ text.old.spare }
    ensures items { text.new.items ≡ text.old.items ++ 32 ∷ pass_word pass }
    ensures room { TakesAtMost text.old text.new 22 }
{
    push_spaced_number(text, u64::from(pass.fd.0));
    if pass.release {
        text.push(b'!');
    }
}

fn push_each_pass(text: &mut Room<u8>, passes: &[Pass])
    requires { 22 * length passes.now ≤ text.old.spare }
    ensures items { text.new.items ≡ text.old.items ++ spaced_words (map pass_word passes.now) }
    ensures room { TakesAtMost text.old text.new (22 * length passes.now) }
{
    for pass in passes {
        push_pass(text, *pass);
    }
}

/// `desc PASS ..`, where there are some.
pub fn push_passes(text: &mut Room<u8>, passes: &[Pass])
    requires { 5 + 22 * length passes.now ≤ text.old.spare }
    ensures items { text.new.items ≡ text.old.items ++ spaced_words (desc_words passes.now) }
    ensures room { TakesAtMost text.old text.new (5 + 22 * length passes.now) }
{
    if !passes.is_empty() {
        push_word(text, " desc");
        push_each_pass(text, passes);
    }
}

/// FD ..
pub fn push_ports(text: &mut Room<u8>, ports: &[Fd])
    requires { 21 * length ports.now ≤ text.old.spare }
    ensures items { text.new.items ≡ text.old.items ++ spaced_words (map fd_word ports.now) }
    ensures room { TakesAtMost text.old text.new (21 * length ports.now) }
{
    for port in ports {
        push_spaced_number(text, u64::from(port.0));
    }
}

#[tactic(auto, using(trace_text::proofs::Short::attribute_short))]
fn push_attribute(text: &mut Room<u8>, set: u32, bits: u32)
    requires { 12 ≤ text.old.spare }
    ensures items { text.new.items ≡ text.old.items ++ spaced_words (attribute_if set bits) }
    ensures room { TakesAtMost text.old text.new 12 }
{
    if set & bits != 0 {
        push_spaced(text, attribute_word(bits).as_bytes());
    }
}

fn push_set(text: &mut Room<u8>, set: u32)
    requires { 96 ≤ text.old.spare }
    ensures items { text.new.items ≡ text.old.items ++ spaced_words (flat_map (attribute_if set) (bits_of_flags attribute_flags)) }
    ensures room { TakesAtMost text.old text.new 96 }
{
    for bits in ATTRIBUTES {
        push_attribute(text, set, bits);
    }
}

/// ATTR .., in the table's order.
#[tactic(auto, using(line_forms::proofs::FlagsOfSet::attribute_words_put))]
pub fn push_attribute_words(text: &mut Room<u8>, attributes: Attrs)
    requires { 96 ≤ text.old.spare }
    ensures items { text.new.items ≡ text.old.items ++ spaced_words (attribute_words attributes) }
    ensures room { TakesAtMost text.old text.new 96 }
{
    push_set(text, attributes.0);
}
