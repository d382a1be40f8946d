//! Room for an answer, which is taken before the kernel is called.

pub use spec_histories::room::AnswerRoom;
