//! The lines by which C declares names, procedures and paths.
ghost use Rattle.std.specs.Prelude.{◌≡◌, IfOk, false};
ghost use Rattle.line_forms.specs.declared.reason.Reason.{Reason as ReasonValue};
ghost use Rattle.line_reader.specs.declared.fault.Fault.TheVariants.{Bad};
ghost use Rattle.kernel_chronicle.specs.Declarations.{declaration_read, is_declaration, reason_number};
ghost use Rattle.history_text.specs.Faults.{is_twice};

use history_text::line::Line;
use history_text::names::Names;
use history_text::place::{Place, Stage};
use history_text::reading::read_line;
use line_forms::reason::Reason;
use line_reader::fault::Fault;
use std::alloc::Global;

pub fn number_of_reason(reason: Reason) -> u32
    ensures { result ≡ reason_number reason }
{
    match reason {
        Reason::Size => 1,
        Reason::Byte => 2,
        Reason::Header => 3,
        Reason::Word => 4,
        Reason::Form => 5,
        Reason::Range => 6,
        Reason::Twice => 7,
        Reason::Many => 8,
        Reason::Unknown => 9,
        Reason::Body => 10,
        Reason::Open => 11,
        Reason::Trace => 12,
    }
}

fn is_declaration(line: &Line) -> bool
    ensures { result ≡ is_declaration line.now }
{
    matches!(
        line,
        Line::Name { .. } | Line::Procedure { .. } | Line::Path { .. }
    )
}

/// What a line declares.
#[tactic(auto, using(crate::proofs::ReadOnce::read_once))]
pub fn declaration(alloc: Global, names: &Names, text: &[u8]) -> Result<Line, Fault>
    ensures read { IfOk result (λ line. declaration_read names.now text.now ≡ Ok line) }
    ensures once { IfOk result (λ line. is_twice names.now line ≡ false) }
    ensures bad { (why : ReasonValue) → result ≡ Err (Bad why) → declaration_read names.now text.now ≡ Err why }
{
    let place = Place {
        stage: Stage::Body,
        late: false,
        full: false,
    };
    match read_line(alloc, names, place, text) {
        Ok(line) => {
            if is_declaration(&line) {
                Ok(line)
            } else {
                Err(Fault::Bad(Reason::Word))
            }
        }
        Err(fault) => Err(fault),
    }
}
