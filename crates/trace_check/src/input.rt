//! A script and a trace in one input.

ghost use Rattle.std.specs.Prelude.{◌≡◌, ◌<◌, length, option_copied, IfSome};
ghost use Rattle.spec_traces.specs.Words.{begins_with_trace_line as begins_with_line, script_part, trace_part, trace_place as place_of_line};

/// As many bytes as the line `trace` and its line feed have.
const TRACE_LINE: usize = 6;

/// Whether bytes begin with the line `trace`, which may lack its line feed where they end with it.
fn begins_with_trace_line(bytes: &[u8]) -> bool
    ensures { result ≡ begins_with_line bytes.now }
{
    bytes == b"trace".as_slice() || bytes.starts_with(b"trace\n")
}

/// Where the first line begins that is exactly `trace`.
fn trace_place(input: &[u8]) -> Option<usize>
    ensures place { result ≡ place_of_line input.now }
    ensures within { IfSome result (λ place. place < length input.now) }
{
    let mut begins = true;
    for place in 0..input.len() {
        if begins && begins_with_trace_line(&input[place..]) {
            return Some(place);
        }
        begins = input[place] == b'\n';
    }
    None
}

/// The part of the script and that of the trace: what stands before the first line that is exactly `trace`, and what stands
/// after it. Where there is no such line, all of the input is the script's.
#[tactic(auto, using(std::proofs::lemmas::List::drop_min))]
pub fn parts(input: &[u8]) -> (&[u8], Option<&[u8]>)
    ensures script { result.0.now ≡ script_part input.now }
    ensures trace { option_copied result.1 ≡ trace_part input.now }
{
    match trace_place(input) {
        Some(place) => {
            let behind = (place + TRACE_LINE).min(input.len());
            (&input[..place], Some(&input[behind..]))
        }
        None => (input, None),
    }
}
