//! The sets of a door's attributes, and of the events of a poll.

ghost use Rattle.std.specs.Prelude.{◌≡◌, option_and_then};
ghost use Rattle.line_forms.specs.Enumerated.{value_of_word};
ghost use Rattle.line_forms.specs.FlagWords.{flag_word, bits_of_flags};
ghost use Rattle.line_forms.specs.Sets.{attribute_flags, poll_flags, bits_of_word, with_bits as with_bits_of, poll_of as poll_spelled, poll_word as poll_spelling};

use dk_base::set::PollSet;

/// The bits of each attribute, in the table's order.
pub const ATTRIBUTES: [u32; 8] = [1, 2, 4, 8, 16, 32, 64, 128];

/// The word of an attribute.
pub fn attribute_word(bits: u32) -> &'static str
    ensures { result.now ≡ flag_word attribute_flags bits }
{
    match bits {
        1 => "unref",
        2 => "private",
        4 => "local",
        8 => "revoked",
        16 => "unref-multi",
        32 => "is-unref",
        64 => "refuse-desc",
        128 => "no-cancel",
        _ => "",
    }
}

fn attribute_of(word: &[u8]) -> Option<u32>
    ensures { result ≡ value_of_word (flag_word attribute_flags) (bits_of_flags attribute_flags) word.now }
{
    ATTRIBUTES
        .iter()
        .copied()
        .find(|bits| word == attribute_word(*bits).as_bytes())
}

/// The bits of the attribute that a word names.
#[tactic(auto, using(crate::proofs::FlagSearch::attribute_found))]
fn attribute_bits(word: &[u8]) -> Option<u32>
    ensures { result ≡ bits_of_word attribute_flags word.now }
{
    attribute_of(word)
}

/// A set with these bits more, each at most once.
fn with_bits(set: u32, bits: u32) -> Option<u32>
    ensures { result ≡ with_bits_of set bits }
{
    if set & bits == 0 {
        Some(set | bits)
    } else {
        None
    }
}

/// A set with the attribute that a word names more.
pub fn with_attribute(set: u32, word: &[u8]) -> Option<u32>
    ensures { result ≡ option_and_then (with_bits_of set) (bits_of_word attribute_flags word.now) }
{
    let bits = attribute_bits(word)?;
    with_bits(set, bits)
}

/// The sets of events that have a word, in the table's order.
const POLLS: [u32; 16] = [0, 1, 4, 5, 8, 9, 12, 13, 16, 17, 20, 21, 24, 25, 28, 29];

/// The word of a set of events.
fn poll_bits_word(bits: u32) -> &'static str
    ensures { result.now ≡ flag_word poll_flags bits }
{
    match bits {
        0 => "none",
        1 => "in",
        4 => "out",
        5 => "in+out",
        8 => "err",
        9 => "in+err",
        12 => "out+err",
        13 => "in+out+err",
        16 => "hup",
        17 => "in+hup",
        20 => "out+hup",
        21 => "in+out+hup",
        24 => "err+hup",
        25 => "in+err+hup",
        28 => "out+err+hup",
        29 => "in+out+err+hup",
        _ => "",
    }
}

/// POLL
pub fn poll_word(set: PollSet) -> &'static str
    ensures { result.now ≡ poll_spelling set }
{
    poll_bits_word(set.0)
}

fn poll_bits(word: &[u8]) -> Option<u32>
    ensures { result ≡ value_of_word (flag_word poll_flags) (bits_of_flags poll_flags) word.now }
{
    POLLS
        .iter()
        .copied()
        .find(|bits| word == poll_bits_word(*bits).as_bytes())
}

/// The set of events that a word names.
#[tactic(auto, using(crate::proofs::FlagSearch::poll_found))]
pub fn poll_of(word: &[u8]) -> Option<PollSet>
    ensures { result ≡ poll_spelled word.now }
{
    poll_bits(word).map(PollSet)
}
