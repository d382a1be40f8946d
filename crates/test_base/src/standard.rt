//! The real outside, over readers and writers in memory.

use dk_base::error::Failed;
use dk_base::outside::{Sink, Source};
use dk_base::standard::{StdSink, StdSource};

fn reads<S: Source>(source: &mut S, expected: &[u8]) -> bool {
    let mut buf = [0; 3];
    matches!(source.read(&mut buf), Ok(n) if &buf[..n] == expected)
}

#[test]
fn bytes_are_read(rt: HostRuntime) {
    let mut source = StdSource::new(b"door".as_slice());
    for piece in [b"doo".as_slice(), b"r", b""] {
        assert!(rt; reads(&mut source, piece), "{piece:?}");
    }
}

fn writes<O: Sink>(sink: &mut O, piece: &[u8], expected: Result<usize, Failed>) -> bool {
    sink.write(piece) == expected
}

// A full slice takes nothing.
#[test]
fn a_write_that_takes_nothing_fails(rt: HostRuntime) {
    let mut room = [0; 2];
    let mut sink = StdSink::new(room.as_mut_slice());
    assert!(rt; writes(&mut sink, b"abc", Ok(2)));
    assert!(rt; writes(&mut sink, b"", Ok(0)));
    assert!(rt; writes(&mut sink, b"c", Err(Failed)));
}
