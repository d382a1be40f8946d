//! With ample memory a thread's state is copied.

use dk_base::list::Bytes;
use dk_base::request::Op;
use spec_records::record::ThreadState;
use std::alloc::Global;
use std::test::Fail;

fn has_state_bytes(state: &ThreadState) -> bool {
    matches!(state, ThreadState::Working { input, .. } if input.slice() == b"hi".as_slice())
}

fn is_state_copied(alloc: Global, state: &ThreadState) -> bool {
    matches!(state.copy(alloc), Ok(copy) if has_state_bytes(&copy))
}

#[test]
fn a_state_is_copied(rt: HostRuntime) -> Result<(), Fail> {
    let alloc = rt.alloc();
    let input = Bytes::from_slice(alloc, b"hi")?;
    let op = Op::Upper;
    assert!(rt; is_state_copied(alloc, &ThreadState::Working { op, input }));
    Ok(())
}
