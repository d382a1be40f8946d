//! Where a notice stands, and which thread has it.
ghost use Rattle.std.specs.Prelude.{◌≡◌};
ghost use Rattle.spec_records.specs.Words.{is_entered_stage, is_given_stage, is_past_stage, is_waiting_stage};

use dk_base::number::Tid;
use spec_records::record::NoticeStage;

pub fn is_waiting(stage: NoticeStage) -> bool
    ensures { result ≡ is_waiting_stage stage }
{
    matches!(stage, NoticeStage::Waiting)
}

pub fn is_given_to(stage: NoticeStage, t: Tid) -> bool
    ensures { result ≡ is_given_stage t.0 stage }
{
    match stage {
        NoticeStage::Given { to } => to.0 == t.0,
        _ => false,
    }
}

pub fn is_entered_by(stage: NoticeStage, t: Tid) -> bool
    ensures { result ≡ is_entered_stage t.0 stage }
{
    match stage {
        NoticeStage::Entered { by } => by.0 == t.0,
        _ => false,
    }
}

/// Whether a notice at this stage is over, or was dropped before a thread took it.
pub fn is_past(stage: NoticeStage) -> bool
    ensures { result ≡ is_past_stage stage }
{
    matches!(stage, NoticeStage::Over | NoticeStage::Dropped)
}
