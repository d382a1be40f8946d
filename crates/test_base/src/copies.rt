//! With ample memory each copy is made.

use dk_base::answer::Answer;
use dk_base::duplicate::Duplicate;
use dk_base::exact::Exact;
use dk_base::list::{Bytes, PassList, Sequence, TidList};
use dk_base::number::Tid;
use dk_base::request::Request;
use std::alloc::Global;
use std::test::Fail;

fn has_request_bytes(request: &Request) -> bool {
    matches!(request, Request::Return { bytes, .. } if bytes.slice() == b"hi".as_slice())
}

fn is_request_copied(alloc: Global, request: &Request) -> bool {
    matches!(request.copy(alloc), Ok(copy) if has_request_bytes(&copy))
}

#[test]
fn a_request_is_copied(rt: HostRuntime) -> Result<(), Fail> {
    let alloc = rt.alloc();
    let request = Request::Return {
        bytes: Bytes::from_slice(alloc, b"hi")?,
        pass: PassList::new(alloc),
    };
    assert!(rt; is_request_copied(alloc, &request));
    Ok(())
}

fn has_answer_bytes(answer: &Answer) -> bool {
    matches!(answer, Answer::Data { bytes } if bytes.slice() == b"hi".as_slice())
}

fn is_answer_copied(alloc: Global, answer: &Answer) -> bool {
    matches!(answer.copy(alloc), Ok(copy) if has_answer_bytes(&copy))
}

#[test]
fn an_answer_is_copied(rt: HostRuntime) -> Result<(), Fail> {
    let alloc = rt.alloc();
    let bytes = Bytes::from_slice(alloc, b"hi")?;
    assert!(rt; is_answer_copied(alloc, &Answer::Data { bytes }));
    Ok(())
}

/// A list of one name.
fn names(alloc: Global, name: &[u8]) -> Result<Sequence<Bytes>, Fail> {
    let mut names = Sequence::new(alloc);
    names.push(Bytes::from_slice(alloc, name)?)?;
    Ok(names)
}

fn is_copied<T: Duplicate + Exact>(alloc: Global, value: &T, other: &T) -> bool {
    matches!(value.duplicate(alloc), Ok(copy) if copy.same(value) && !copy.same(other))
}

#[test]
fn lists_of_names_are_copied_and_compared(rt: HostRuntime) -> Result<(), Fail> {
    let alloc = rt.alloc();
    let doors = names(alloc, b"door")?;
    let ports = names(alloc, b"port")?;
    assert!(rt; is_copied(alloc, &doors, &ports));
    Ok(())
}

#[test]
fn lists_of_threads_are_compared(rt: HostRuntime) -> Result<(), Fail> {
    let alloc = rt.alloc();
    let threads = TidList::from_slice(alloc, &[Tid(1), Tid(2)])?;
    let turned = TidList::from_slice(alloc, &[Tid(2), Tid(1)])?;
    assert!(rt; threads.same(&threads) && !threads.same(&turned));
    Ok(())
}
