//! The sets of a door's attributes, and of the events of a poll.

ghost use Rattle.std.specs.Prelude.{◌≡◌, ◌≤◌, ◌+◌, if◌then◌else◌, ◌∷◌, ◌++◌, flat_map, length};
ghost use Rattle.line_forms.specs.Words.{attribute_flags, attribute_if, bits_of_flags, flag_word, poll_word as poll_spelling};
ghost use Rattle.spec_requests.specs.Words.{attributes_text, plus_joined_words};
ghost use Rattle.trace_text.specs.Taken.{TakesAtMost};

use super::append::push_word;
use dk_base::list::Room;
use dk_base::set::{Attrs, PollSet};
use line_forms::sets::{ATTRIBUTES, attribute_word, poll_word};

/// With a `+` before it unless it is the first.
fn push_joined(text: &mut Room<u8>, word: &str, first: bool)
    requires { length word.now + 1 ≤ text.old.spare }
    ensures items { text.new.items ≡ text.old.items ++ (if first then word.now else 43 ∷ word.now) }
    ensures room { TakesAtMost text.old text.new (length word.now + 1) }
{
    if !first {
        text.push(b'+');
    }
    push_word(text, word);
}

/// The word of an attribute, with a `+` before it unless it is the first.
#[tactic(auto, using(crate::proofs::Short::attribute_short))]
fn push_attribute(text: &mut Room<u8>, bits: u32, first: bool)
    requires { 12 ≤ text.old.spare }
    ensures items { text.new.items ≡ text.old.items ++ (if first then flag_word attribute_flags bits else 43 ∷ flag_word attribute_flags bits) }
    ensures room { TakesAtMost text.old text.new 12 }
{
    push_joined(text, attribute_word(bits), first);
}

fn push_set(text: &mut Room<u8>, set: u32)
    requires { 100 ≤ text.old.spare }
    ensures items { text.new.items ≡ text.old.items ++ plus_joined_words (flat_map (attribute_if set) (bits_of_flags attribute_flags)) }
    ensures room { TakesAtMost text.old text.new 100 }
{
    let mut first = true;
    for bits in ATTRIBUTES {
        if set & bits != 0 {
            push_attribute(text, bits, first);
            first = false;
        }
    }
    if first {
        push_word(text, "none");
    }
}

/// Joined by `+`, or `none`.
#[tactic(auto, using(line_forms::proofs::FlagsOfSet::attribute_words_put))]
pub fn push_attributes(text: &mut Room<u8>, attributes: Attrs)
    requires { 100 ≤ text.old.spare }
    ensures items { text.new.items ≡ text.old.items ++ attributes_text attributes }
    ensures room { TakesAtMost text.old text.new 100 }
{
    push_set(text, attributes.0);
}

/// The word of a set of events.
#[tactic(auto, using(crate::proofs::Short::poll_short))]
pub fn push_poll(text: &mut Room<u8>, set: PollSet)
    requires { 14 ≤ text.old.spare }
    ensures items { text.new.items ≡ text.old.items ++ poll_spelling set }
    ensures room { TakesAtMost text.old text.new 14 }
{
    push_word(text, poll_word(set));
}
