//! The lines of a text, of which each ends in a line feed.

ghost use Rattle.std.specs.Prelude.{◌≡◌, ◌∷◌, [], ◌<◌, ◌==◌, length, position, MatchOption, IfSome};
ghost use Rattle.history_check.specs.WholeLines.{cut_part, whole_lines};

/// Where the first line feed stands.
fn line_end(text: &[u8]) -> Option<usize>
    ensures { result ≡ position (λ byte. byte == 10) text.now }
{
    text.iter().position(|byte| *byte == b'\n')
}

#[tactic(auto, using(crate::proofs::FirstLine::cut_at, crate::proofs::FirstLine::rest_at, crate::proofs::FirstLine::no_lines, crate::proofs::FirstLine::all_cut))]
/// The first line of a text, without its line feed, and what follows it. Where no line feed stands there is none.
pub(crate) fn next_whole_line(text: &[u8]) -> Option<(&[u8], &[u8])>
    ensures line { MatchOption result (whole_lines text.now ≡ []) (λ found. whole_lines text.now ≡ found.0.now ∷ whole_lines found.1.now) }
    ensures rest { MatchOption result (cut_part text.now ≡ text.now) (λ found. cut_part text.now ≡ cut_part found.1.now) }
    ensures shorter { IfSome result (λ found. length found.1.now < length text.now) }
{
    let end = line_end(text)?;
    Some((&text[..end], &text[end + 1..]))
}
