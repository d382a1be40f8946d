//! Lines and their operands are told apart.

ghost use Rattle.line_forms.specs.SameLine.{fd_exact, line_exact, pass_exact, piece_exact};

use crate::line::{FdArg, Line, PassArg, Piece};
use dk_base::exact::Exact;

impl Exact for FdArg {
    ghost exact = { fd_exact };
}

impl Exact for PassArg {
    ghost exact = { pass_exact };
}

impl Exact for Piece {
    ghost exact = { piece_exact };
}

impl Exact for Line {
    ghost exact = { line_exact };
}
