//! The verdict on a text.

ghost use Rattle.std.specs.Prelude.{◌≡◌, ℕ, IfOk, bytes_eq};
ghost use Rattle.spec_histories.specs.Histories.{IsHistory};
ghost use Rattle.history_text.specs.Words.{header};
ghost use Rattle.history_check.specs.Places.{at_start};
ghost use Rattle.history_check.specs.Verdicts.{header_fault as fault_of_header, history_told, place_from, verdict, verdict_from, verdict_without_line};
ghost use Rattle.history_check.specs.WholeLines.{cut_part, whole_lines};

use crate::finding::Finding;
use crate::lines::next_whole_line;
use crate::verdict::Verdict;
use crate::walk::Walk;
use dk_base::error::NoMemory;
use dk_base::list::Bytes;
use history_text::reading::byte_fault;
use line_forms::reason::Reason;
use spec_histories::recorded::RecordsHistory;
use std::alloc::Global;

fn is_header(line: &[u8]) -> bool
    ensures { result ≡ bytes_eq line.now header }
{
    line == b"doors history 1".as_slice()
}

/// What keeps a first line from being that of a history.
fn header_fault(line: &[u8]) -> Option<Reason>
    ensures { result ≡ fault_of_header line.now }
{
    match byte_fault(line) {
        Some(reason) => Some(reason),
        None if is_header(line) => None,
        None => Some(Reason::Header),
    }
}

/// The verdict on a text without a line feed.
fn without_line(text: &[u8]) -> Verdict
    ensures { result ≡ verdict_without_line text.now }
{
    if text.is_empty() {
        Verdict::Bad {
            line: 1,
            reason: Reason::Header,
        }
    } else {
        Verdict::Cut { line: 1 }
    }
}

fn illegal(alloc: Global, line: u64, want: Bytes, have: &[u8]) -> Result<Verdict, NoMemory>
    ensures { IfOk result (λ found. found ≡ Verdict.Illegal line want have.now) }
{
    let have = Bytes::from_slice(alloc, have)?;
    Ok(Verdict::Illegal { line, want, have })
}

/// The verdict on the lines after the first.
fn check_lines<K: RecordsHistory>(alloc: Global, text: &[u8]) -> Result<Verdict, NoMemory>
    ensures verdict { IfOk result (λ found. found ≡ verdict_from 2 at_start (whole_lines text.now) (cut_part text.now)) }
    ensures legal { IfOk result (λ found. (events : ℕ) → found ≡ Verdict.Legal events → IsHistory (place_from at_start (whole_lines text.now)).history) }
{
    let mut walk: Walk<K> = Walk::new(alloc);
    let mut line = 2;
    let mut rest = text;
    while let Some((have, others)) = next_whole_line(rest) {
        match walk.find(alloc, have)? {
            Finding::GoesOn => {
                line += 1;
                rest = others;
            }
            Finding::Bad { reason } => return Ok(Verdict::Bad { line, reason }),
            Finding::Illegal { want } => return illegal(alloc, line, want, have),
        }
    }
    if rest.is_empty() {
        walk.legal(alloc)?;
        Ok(Verdict::Legal {
            events: walk.events(),
        })
    } else {
        Ok(Verdict::Cut { line })
    }
}

/// The verdict on a text: the answer is that of the first line that is bad or illegal. The text is walked once, with one turn of the
/// kernel at each event; of its lines a copy is made only where one is illegal.
pub fn check<K: RecordsHistory>(alloc: Global, text: &[u8]) -> Result<Verdict, NoMemory>
    ensures verdict { IfOk result (λ found. found ≡ verdict text.now) }

    // What a legal text tells is a history that is legal from an opening; `laws::legal_texts` says more of such a text.
    ensures legal { IfOk result (λ found. (events : ℕ) → found ≡ Verdict.Legal events → IsHistory (history_told text.now)) }
{
    match next_whole_line(text) {
        Some((first, rest)) => match header_fault(first) {
            Some(reason) => Ok(Verdict::Bad { line: 1, reason }),
            None => check_lines::<K>(alloc, rest),
        },
        None => Ok(without_line(text)),
    }
}
