//! What each op makes of 0, 1, 64 and 8,192 bytes.

use dk_base::error::NoMemory;
use dk_base::list::Bytes;
use dk_base::request::Op;
use std::alloc::Global;
use std::test::Fail;
use work_ops::task::{Task, run};

/// 64 bytes: letters, their neighbours, and bytes above 127.
const TEXT: &[u8] =
    b"@AZ[`az{ The lazy dog, 0123456789; over 2 brown foxes\x00\x7f\x80\xe1\xfa\xff \x0a!!.";

const UPPER: &[u8] =
    b"@AZ[`AZ{ THE LAZY DOG, 0123456789; OVER 2 BROWN FOXES\x00\x7f\x80\xe1\xfa\xff \x0a!!.";

const REVERSED: &[u8] =
    b".!!\x0a \xff\xfa\xe1\x80\x7f\x00sexof nworb 2 revo ;9876543210 ,god yzal ehT {za`[ZA@";

/// An op, a text and how often it stands in the input, and the same of the output.
static TASKS: [(Op, &[u8], u32, &[u8], u32); 16] = [
    (Op::Upper, b"", 1, b"", 1),
    (Op::Upper, b"q", 1, b"Q", 1),
    (Op::Upper, TEXT, 1, UPPER, 1),
    (Op::Upper, TEXT, 128, UPPER, 128),
    (Op::Reverse, b"", 1, b"", 1),
    (Op::Reverse, b"q", 1, b"q", 1),
    (Op::Reverse, TEXT, 1, REVERSED, 1),
    (Op::Reverse, TEXT, 128, REVERSED, 128),
    (Op::Sum, b"", 1, b"0", 1),
    (Op::Sum, b"q", 1, b"113", 1),
    (Op::Sum, TEXT, 1, b"5417", 1),
    (Op::Sum, TEXT, 128, b"693376", 1),
    (
        Op::Digest,
        b"",
        1,
        b"e3b0c44298fc1c149afbf4c8996fb92427ae41e4649b934ca495991b7852b855",
        1,
    ),
    (
        Op::Digest,
        b"q",
        1,
        b"8e35c2cd3bf6641bdb0e2050b76932cbb2e6034a0ddacc1d9bea82a6ba57f7cf",
        1,
    ),
    (
        Op::Digest,
        TEXT,
        1,
        b"ed48609262d2c9d4a5913f689d3a0ca3eff8bbd4ea83349266299e35acaaf3d2",
        1,
    ),
    (
        Op::Digest,
        TEXT,
        128,
        b"dc19f25f1b8b881633218ac832ab959cd109af56562282718edc2af3bbae1d43",
        1,
    ),
];

/// A text so many times.
fn repeated(alloc: Global, text: &[u8], times: u32) -> Result<Bytes, NoMemory> {
    let mut bytes = Bytes::new(alloc);
    for _ in 0..times {
        bytes.append(text)?;
    }
    Ok(bytes)
}

/// Whether the op makes this output of this input, and the task that is done tells both.
fn makes(alloc: Global, op: Op, input: &Bytes, output: &Bytes) -> Result<bool, NoMemory> {
    let done = run(alloc, Task::new(op, input.copy(alloc)?))?;
    let is_told = done.op() == op && done.input() == input && done.is_of(op, input);
    Ok(is_told && done.output() == output && done.into_output() == *output)
}

fn is_made(
    alloc: Global,
    op: Op,
    text: &[u8],
    times: u32,
    made: &[u8],
    made_times: u32,
) -> Result<bool, NoMemory> {
    let input = repeated(alloc, text, times)?;
    let output = repeated(alloc, made, made_times)?;
    makes(alloc, op, &input, &output)
}

#[test]
fn ops_make_their_outputs(rt: HostRuntime) {
    for row in &TASKS {
        let (op, text, times, made, made_times) = *row;
        assert!(rt; is_made(rt.alloc(), op, text, times, made, made_times) == Ok(true));
    }
}
