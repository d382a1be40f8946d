//! A kernel as seats ask it.

pub use spec_kernel::answering::Answers;
