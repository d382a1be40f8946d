//! Pipes that are empty, full and nearly so, that wrap around, and whose other end has no reference.

use dk_base::error::Errno;
use dk_base::list::Room;
use dk_base::set::PollSet;
use pipe_obj::pipe::Pipe;
use pipe_obj::pipes::Pipes;
use std::alloc::Global;
use std::test::Fail;

/// More bytes than a pipe holds.
const BYTES: [u8; 4097] = [b'x'; 4097];

/// A pipe of so many bytes, whose reading end has so many references, is written to with so many more: what that answers.
const WRITES: [(usize, u64, usize, Result<u32, Errno>); 9] = [
    (0, 1, 0, Ok(0)),
    (0, 1, 4097, Ok(4096)),
    (1, 1, 4096, Ok(4095)),
    (4095, 1, 4096, Ok(1)),
    (4096, 1, 1, Err(Errno::EAGAIN)),
    (4096, 2, 0, Ok(0)),
    (0, 0, 0, Err(Errno::EPIPE)),
    (0, 0, 1, Err(Errno::EPIPE)),
    (4096, 0, 1, Err(Errno::EPIPE)),
];

/// A pipe of so many bytes, whose writing end has so many references, is read into so many places: what that answers.
const READS: [(usize, u64, usize, Result<u32, Errno>); 8] = [
    (0, 1, 1, Err(Errno::EAGAIN)),
    (0, 0, 1, Ok(0)),
    (1, 1, 1, Ok(1)),
    (1, 0, 4096, Ok(1)),
    (4095, 1, 4096, Ok(4095)),
    (4096, 1, 4095, Ok(4095)),
    (4096, 1, 4096, Ok(4096)),
    (4096, 0, 1, Ok(1)),
];

/// A pipe of so many bytes whose other end has so many references: what its reading and its writing end are ready for.
const READY: [(usize, u64, u32, u32); 6] = [
    (0, 1, 0, PollSet::OUT.0),
    (0, 0, PollSet::HUP.0, PollSet::ERR.0),
    (1, 1, PollSet::IN.0, PollSet::OUT.0),
    (4095, 2, PollSet::IN.0, PollSet::OUT.0),
    (4096, 1, PollSet::IN.0, 0),
    (4096, 0, PollSet::IN.0 | PollSet::HUP.0, PollSet::ERR.0),
];

fn pipe_of(alloc: Global, held: usize) -> Option<Pipe> {
    let Ok(mut pipe) = Pipe::new(alloc) else {
        return None;
    };
    let count = pipe.write_fitting(&BYTES[..held.min(BYTES.len())]);
    if count as usize == held {
        Some(pipe)
    } else {
        None
    }
}

fn writes(alloc: Global, held: usize, readers: u64, count: usize) -> Option<Result<u32, Errno>> {
    let mut pipe = pipe_of(alloc, held)?;
    let answer = pipe.write(&BYTES[..count.min(BYTES.len())], readers);
    let added = match answer {
        Ok(n) => n as usize,
        Err(_) => 0,
    };
    if pipe.len() == held.saturating_add(added) {
        Some(answer)
    } else {
        None
    }
}

fn reads(alloc: Global, held: usize, writers: u64, places: usize) -> Option<Result<u32, Errno>> {
    let mut pipe = pipe_of(alloc, held)?;
    let mut into = [0; 4097];
    let answer = pipe.read(&mut into[..places.max(1).min(4097)], writers);
    let gone = match answer {
        Ok(n) => n as usize,
        Err(_) => 0,
    };
    if pipe.len().saturating_add(gone) == held {
        Some(answer)
    } else {
        None
    }
}

fn is_ready(alloc: Global, held: usize, others: u64, reading: u32, writing: u32) -> bool {
    match pipe_of(alloc, held) {
        Some(pipe) => { pipe.ready_in(others).0 == reading && pipe.ready_out(others).0 == writing }
        None => false,
    }
}

#[test]
fn writes_take_what_fits(rt: HostRuntime) {
    for (held, readers, count, expected) in WRITES {
        assert!(rt; writes(rt.alloc(), held, readers, count) == Some(expected));
    }
}

#[test]
fn reads_give_what_is_there(rt: HostRuntime) {
    for (held, writers, places, expected) in READS {
        assert!(rt; reads(rt.alloc(), held, writers, places) == Some(expected));
    }
}

#[test]
fn ends_are_ready(rt: HostRuntime) {
    for (held, others, reading, writing) in READY {
        assert!(rt; is_ready(rt.alloc(), held, others, reading, writing));
    }
}

/// The bytes of a long text, by their places.
fn text_at(place: usize) -> u8 {
    (place % 251) as u8
}

/// Writes the next byte of the text.
fn writes_byte(pipe: &mut Pipe, place: usize) -> bool {
    pipe.write(&[text_at(place)], 1) == Ok(1)
}

/// Reads the next byte of the text.
fn reads_byte(pipe: &mut Pipe, place: usize) -> bool {
    let mut into = [0];
    pipe.read(&mut into, 1) == Ok(1) && into[0] == text_at(place)
}

/// Whether the text goes through a pipe of so many bytes, many times around its ring.
fn passes_text(pipe: &mut Pipe, held: usize) -> bool {
    for place in 0..held {
        if !writes_byte(pipe, place) {
            return false;
        }
    }
    for place in 0..20000 {
        if !(reads_byte(pipe, place) && writes_byte(pipe, held.saturating_add(place))) {
            return false;
        }
    }
    true
}

#[test]
fn bytes_keep_their_order(rt: HostRuntime) -> Result<(), Fail> {
    let mut pipe = Pipe::new(rt.alloc())?;
    assert!(rt; passes_text(&mut pipe, 1));
    let mut full = Pipe::new(rt.alloc())?;
    assert!(rt; passes_text(&mut full, 4096));
    assert!(rt; full.len() == 4096);
    Ok(())
}

/// Whether another pipe is made, under this number.
fn is_made(alloc: Global, pipes: &mut Pipes, number: u32) -> bool {
    if pipes.reserve(alloc).is_err() || pipes.count() >= 2 {
        return false;
    }
    pipes.create() == number
}

/// Whether the oldest bytes of a pipe, at most `max`, are these.
fn gives(alloc: Global, pipes: &mut Pipes, p: u32, max: u32, expected: &[u8]) -> bool {
    let room = pipes.held(p).min(max as usize);
    match Room::with_room(alloc, room) {
        Ok(mut into) => {
            pipes.take_oldest(p, max, &mut into) as usize == expected.len()
                && into.slice() == expected
        }
        Err(_) => false,
    }
}

/// A number that no pipe has reads as an empty pipe.
fn is_empty(alloc: Global, pipes: &mut Pipes, p: u32) -> bool {
    pipes.held(p) == 0
        && pipes.write_refusal(p, b"x", 1).is_none()
        && pipes.write_fitting(p, b"x") == 1
        && pipes.read_refusal(p, 1) == Some(Errno::EAGAIN)
        && gives(alloc, pipes, p, 3, b"")
}

#[test]
fn pipes_have_numbers(rt: HostRuntime) {
    let alloc = rt.alloc();
    let mut pipes = Pipes::new(alloc);
    assert!(rt; is_made(alloc, &mut pipes, 1) && is_made(alloc, &mut pipes, 2));
    assert!(rt; pipes.write_fitting(1, b"one") == 3 && pipes.write_fitting(2, b"second") == 6);
    assert!(rt; pipes.held(1) == 3 && pipes.ready_in(2, 1) == PollSet::IN);
    assert!(rt; gives(alloc, &mut pipes, 2, 3, b"sec"));
    assert!(rt; gives(alloc, &mut pipes, 1, 4, b"one"));
    assert!(rt; pipes.ready_out(1, 0) == PollSet::ERR && pipes.read_refusal(1, 0).is_none());
    assert!(rt; gives(alloc, &mut pipes, 2, 4096, b"ond"));
    assert!(rt; is_empty(alloc, &mut pipes, 0) && is_empty(alloc, &mut pipes, 3));
}
