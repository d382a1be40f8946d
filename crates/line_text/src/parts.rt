//! Words that are made of parts.

ghost use Rattle.std.specs.Prelude.{◌≡◌, ◌==◌, Some, None, MatchOption, option_copied, position};
ghost use Rattle.line_text.specs.Parts.{parts_at as parts_of_word, part_before_last as front_of_word};

/// Where a byte first stands.
fn place_of(mark: u8, word: &[u8]) -> Option<usize>
    ensures { result ≡ position (λ byte. byte == mark) word.now }
{
    word.iter().position(|byte| *byte == mark)
}

/// What stands before and after the first byte that is this one.
#[tactic(auto, using(crate::proofs::PartsAt::parted_at, crate::proofs::PartsAt::not_parted))]
pub fn parts_at(mark: u8, word: &[u8]) -> Option<(&[u8], &[u8])>
    ensures { MatchOption result (parts_of_word mark word.now ≡ None) (λ parts. parts_of_word mark word.now ≡ Some (parts.0.now, parts.1.now)) }
{
    let place = place_of(mark, word)?;
    Some((&word[..place], &word[place + 1..]))
}

/// What stands before the last byte, where that is this one.
#[tactic(auto, using(crate::proofs::PartsAt::ends_with))]
pub fn part_before_last(mark: u8, word: &[u8]) -> Option<&[u8]>
    ensures { option_copied result ≡ front_of_word mark word.now }
{
    let (last, front) = word.split_last()?;
    if *last != mark {
        return None;
    }
    Some(front)
}
