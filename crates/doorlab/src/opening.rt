//! Where a history is read from.

use crate::history::answer_history;
use crate::kernel::Recorded;
use crate::status::Status;
use dk_base::standard::{StdSink, StdSource};
use std::rt::Files;
use std::{fs, io};

/// The verdict on the history in a file, or with `-` on the standard input.
pub(crate) fn judge<R>(rt: &R, file: &str) -> Status
where
    R: Input + Print + AllocGlobal + Files,
{
    let mut sink = StdSink::new(io::writer(rt));
    if file == "-" {
        let mut source = StdSource::new(rt.reader());
        return answer_history::<Recorded, _, _>(rt.alloc(), &mut source, &mut sink);
    }
    match fs::open(rt, file) {
        Ok(opened) => {
            let mut source = StdSource::new(opened);
            answer_history::<Recorded, _, _>(rt.alloc(), &mut source, &mut sink)
        }
        Err(_) => Status::NotOpened,
    }
}
