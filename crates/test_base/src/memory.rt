//! Sources and sinks in memory, called through their traits.

use dk_base::error::Failed;
use dk_base::list::{Bytes, CallList};
use dk_base::memory::{MemSink, MemSource};
use dk_base::outside::{Sink, Source};
use std::test::Fail;

/// Whether the next read fails, or gives these bytes.
fn reads<S: Source>(source: &mut S, expected: Result<&[u8], Failed>) -> bool {
    let mut buf = [0; 8];
    match (source.read(&mut buf), expected) {
        (Ok(n), Ok(bytes)) => &buf[..n] == bytes,
        (Err(Failed), Err(Failed)) => true,
        _ => false,
    }
}

/// Whether a write fails, or takes so many bytes.
fn writes<O: Sink>(sink: &mut O, piece: &[u8], expected: Result<usize, Failed>) -> bool {
    sink.write(piece) == expected
}

#[test]
fn the_first_read_fails(rt: HostRuntime) -> Result<(), Fail> {
    let alloc = rt.alloc();
    let bytes = Bytes::from_slice(alloc, b"door")?;
    let mut source = MemSource::new(bytes, CallList::from_slice(alloc, &[1])?);
    assert!(rt; reads(&mut source, Err(Failed)) && source.left() == 4);
    assert!(rt; reads(&mut source, Ok(b"door")) && reads(&mut source, Ok(b"")));
    Ok(())
}

#[test]
fn one_byte_at_a_time(rt: HostRuntime) -> Result<(), Fail> {
    let alloc = rt.alloc();
    let bytes = Bytes::from_slice(alloc, b"ok")?;
    let mut source = MemSource::in_pieces(bytes, 1, CallList::new(alloc));
    for piece in [b"o".as_slice(), b"k", b""] {
        assert!(rt; reads(&mut source, Ok(piece)), "{piece:?}");
    }
    Ok(())
}

#[test]
fn the_third_write_fails(rt: HostRuntime) -> Result<(), Fail> {
    let alloc = rt.alloc();
    let mut sink = MemSink::new(alloc, 100, 5, CallList::from_slice(alloc, &[3])?)?;
    assert!(rt; writes(&mut sink, b"1 s s create", Ok(5)));
    assert!(rt; writes(&mut sink, b" create", Ok(5)));
    assert!(rt; writes(&mut sink, b"te", Err(Failed)) && sink.held() == b"1 s s crea".as_slice());
    Ok(())
}

#[test]
fn a_full_sink_fails(rt: HostRuntime) -> Result<(), Fail> {
    let alloc = rt.alloc();
    let mut sink = MemSink::new(alloc, 3, 5, CallList::new(alloc))?;
    assert!(rt; writes(&mut sink, b"door", Ok(3)));
    assert!(rt; writes(&mut sink, b"r", Err(Failed)) && sink.held() == b"doo".as_slice());
    Ok(())
}
