//! Which lines of a body begin and end blocks.
ghost use Rattle.std.specs.Prelude.{◌≡◌, ◌<◌, ◌+◌, ◌^◌};
ghost use Rattle.line_forms.specs.Words.{depth_after as depth_after_item, kind_of as kind_of_line};

use line_forms::line::{Kind, Line};

/// What a line does to the blocks of its body.
pub fn kind_of(line: &Line) -> Kind
    ensures { result ≡ kind_of_line line.now }
{
    match line {
        Line::Repeat { .. } => Kind::Loop,
        Line::If { .. } => Kind::Test,
        Line::End => Kind::Closing,
        _ => Kind::Act,
    }
}

/// How many blocks are open after a line, where so many are before it; none where the body ends.
pub fn depth_after(depth: u32, kind: Kind) -> Option<u32>
    requires { depth + 1 < 2 ^ 32 }
    ensures { result ≡ depth_after_item depth kind }
{
    match kind {
        Kind::Act => Some(depth),
        Kind::Loop | Kind::Test => Some(depth + 1),
        Kind::Closing => depth.checked_sub(1),
    }
}
