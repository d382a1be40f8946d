//! What an `if` knows of the last answer, and whether its test holds.
ghost use Rattle.std.specs.Prelude.{◌≡◌};
ghost use Rattle.thread_machine.specs.LastAnswers.{is_met_in, last_answer as last_answer_of};

use dk_base::answer::Answer;
use dk_base::error::Errno;
use line_forms::line::Cond;

/// What a test asks of the last answer.
#[derive(Clone, Copy, Debug, PartialEq, Eq)]
pub enum LastAnswer {
    Good,
    /// Cancel with yes.
    Yes,
    Failed { errno: Errno },
}

/// What a frame's tests ask.
#[derive(Clone, Copy, Debug, PartialEq, Eq)]
pub struct TestContext {
    pub last: LastAnswer,
    /// Whether a notice began the frame.
    pub notice: bool,
}

impl TestContext {
    /// Whether a test holds.
    pub fn is_met(self, cond: Cond) -> bool
        ensures { result ≡ is_met_in self cond }
    {
        match cond {
            Cond::Good => match self.last {
                LastAnswer::Failed { .. } => false,
                _ => true,
            },
            Cond::Yes => match self.last {
                LastAnswer::Yes => true,
                _ => false,
            },
            Cond::Unref => self.notice,
            Cond::Errno(errno) => match self.last {
                LastAnswer::Failed { errno: other } => other.name() == errno.name(),
                _ => false,
            },
        }
    }
}

/// What a test asks of this answer.
pub fn last_answer(answer: &Answer) -> LastAnswer
    ensures { result ≡ last_answer_of answer.now }
{
    match answer {
        Answer::Failure(errno) => LastAnswer::Failed { errno: *errno },
        Answer::Cancel { yes: true } => LastAnswer::Yes,
        _ => LastAnswer::Good,
    }
}
