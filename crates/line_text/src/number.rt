//! Numbers in decimal, within their range.
ghost use Rattle.std.specs.Prelude.{◌≡◌, ◌+◌, ◌-◌, ◌*◌, true};
ghost use Rattle.std.specs.List.{list_all};
ghost use Rattle.line_text.specs.Numbers.{is_digit as is_digit_byte, is_decimal as is_decimal_word, value_of, number_in_64_bits, bounded_number as number_of_word};

/// What a word is as a number between two.
#[derive(Clone, Copy)]
pub enum Number {
    Found(u64),
    /// It is a number, but none between the two.
    OutOfRange,
    NoNumber,
}

pub fn is_digit(byte: u8) -> bool
    ensures { result ≡ is_digit_byte byte }
{
    b'0' <= byte && byte <= b'9'
}

fn are_digits(bytes: &[u8]) -> bool
    ensures { result ≡ list_all is_digit_byte bytes.now }
{
    bytes.iter().all(|byte| is_digit(*byte))
}

/// Whether a word is a decimal number without leading zeros.
fn is_decimal(word: &[u8]) -> bool
    ensures { result ≡ is_decimal_word word.now }
{
    match word {
        [] => false,
        [only] => is_digit(*only),
        [first, ..] => *first != b'0' && are_digits(word),
    }
}

/// A number with a digit after it, if that has at most 64 bits.
fn with_digit(number: u64, digit: u8) -> Option<u64>
    requires { is_digit_byte digit ≡ true }
    ensures { result ≡ number_in_64_bits (10 * number + (digit - 48)) }
{
    number.checked_mul(10)?.checked_add(u64::from(digit - b'0'))
}

/// The number that digits spell, if it has at most 64 bits.
fn value(digits: &[u8]) -> Option<u64>
    requires { list_all is_digit_byte digits.now ≡ true }
    ensures { result ≡ number_in_64_bits (value_of digits.now) }
{
    let mut value: u64 = 0;
    for digit in digits {
        value = with_digit(value, *digit)?;
    }
    Some(value)
}

/// What a word is as a number from `low` to `high`, in decimal without leading zeros. A run of digits is a number however
/// long it is.
#[tactic(auto, using(crate::proofs::Digits::digits_of_decimal))]
pub fn bounded_number(word: &[u8], low: u64, high: u64) -> Number
    ensures { result ≡ number_of_word low high word.now }
{
    if !is_decimal(word) {
        return Number::NoNumber;
    }
    match value(word) {
        Some(number) if low <= number && number <= high => Number::Found(number),
        _ => Number::OutOfRange,
    }
}
