//! A text, line by line.
ghost use Rattle.std.specs.Prelude.{◌≡◌, ◌∷◌, [], ◌<◌, ◌==◌, length, position, MatchOption, IfSome};
ghost use Rattle.line_text.specs.Lines.{lines_of};

/// Where the first line feed stands.
fn line_end(text: &[u8]) -> Option<usize>
    ensures { result ≡ position (λ byte. byte == 10) text.now }
{
    text.iter().position(|byte| *byte == b'\n')
}

/// The first line of a text, without its line feed, and what follows it. The last line may lack the line feed.
pub fn next_line(text: &[u8]) -> Option<(&[u8], &[u8])>
    ensures line { MatchOption result (text.now ≡ []) (λ found. lines_of text.now ≡ found.0.now ∷ lines_of found.1.now) }
    ensures shorter { IfSome result (λ found. length found.1.now < length text.now) }
{
    if text.is_empty() {
        return None;
    }
    match line_end(text) {
        Some(end) => Some((&text[..end], &text[end + 1..])),
        None => Some((text, &text[text.len()..])),
    }
}
