//! What every part of a line is made of. Each call adds to the end of a text, in room that was taken before: it takes no memory.

ghost use Rattle.std.specs.Prelude.{◌≡◌, ◌≤◌, ◌+◌, ◌∷◌, ◌++◌, [], decimal, length};
ghost use Rattle.line_forms.specs.Words.{value_word};
ghost use Rattle.trace_text.specs.Taken.{TakesAtMost};

use dk_base::list::Room;
use itoa::Buffer;

pub fn push_word(text: &mut Room<u8>, word: &str)
    requires { length word.now ≤ text.old.spare }
    ensures items { text.new.items ≡ text.old.items ++ word.now }
    ensures room { TakesAtMost text.old text.new (length word.now) }
{
    text.append(word.as_bytes());
}

/// A space, and a word after it.
pub fn push_spaced(text: &mut Room<u8>, word: &[u8])
    requires { length word.now + 1 ≤ text.old.spare }
    ensures items { text.new.items ≡ text.old.items ++ 32 ∷ word.now }
    ensures room { TakesAtMost text.old text.new (length word.now + 1) }
{
    text.push(b' ');
    text.append(word);
}

/// In decimal.
#[tactic(auto, using(std::proofs::lemmas::Fmt::decimal_digit))]
pub fn push_number(text: &mut Room<u8>, number: u64)
    requires { 20 ≤ text.old.spare }
    ensures items { text.new.items ≡ text.old.items ++ decimal number }
    ensures room { TakesAtMost text.old text.new 20 }
{
    if number < 10 {
        text.push(b'0' + number as u8);
        return;
    }
    text.append(Buffer::new().format(number).as_bytes());
}

/// A space, and a number after it.
pub fn push_spaced_number(text: &mut Room<u8>, number: u64)
    requires { 21 ≤ text.old.spare }
    ensures items { text.new.items ≡ text.old.items ++ 32 ∷ decimal number }
    ensures room { TakesAtMost text.old text.new 21 }
{
    text.push(b' ');
    push_number(text, number);
}

/// A word, and a number after it.
pub fn push_counted(text: &mut Room<u8>, word: &str, number: u64)
    requires { length word.now + 20 ≤ text.old.spare }
    ensures items { text.new.items ≡ text.old.items ++ word.now ++ decimal number }
    ensures room { TakesAtMost text.old text.new (length word.now + 20) }
{
    push_word(text, word);
    push_number(text, number);
}

/// In decimal, or `max` where it is the greatest number.
pub fn push_value(text: &mut Room<u8>, value: u64)
    requires { 20 ≤ text.old.spare }
    ensures items { text.new.items ≡ text.old.items ++ value_word value }
    ensures room { TakesAtMost text.old text.new 20 }
{
    if value == u64::MAX {
        push_word(text, "max");
    } else {
        push_number(text, value);
    }
}
