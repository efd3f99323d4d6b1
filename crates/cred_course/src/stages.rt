//! The stage that follows an answer.
ghost use Rattle.std.specs.Prelude.{◌≡◌};
ghost use Rattle.cred_model.specs.Course as spec;

use cred_event::{Answer, Content, Stage};

/// The stage after an answer, where no commit came too late.
#[inline(always)]
pub(crate) fn next_stage(content: &Content, stage: Stage, answer: &Answer) -> Option<Stage>
    ensures { result ≡ spec.next_stage content.now stage answer.now }
{
    let ok = answer.is_ok();
    let then = |done, refused| Some(if ok { done } else { refused });
    match (content, stage) {
        (Content::Id { .. }, Stage::First | Stage::Acting) if some_wait(answer) => {
            Some(Stage::Acting)
        }
        (Content::Question { .. }, Stage::First) if ok => Some(Stage::Asking),
        (Content::Question { .. }, Stage::Asking) => Some(Stage::Releasing),
        (Content::Open { .. }, Stage::First) if ok => Some(Stage::Opening),
        (Content::Open { .. }, Stage::Opening) => Some(Stage::Releasing),
        (Content::Fcap { .. }, Stage::First) if ok => Some(Stage::Asking),
        (Content::Fcap { .. }, Stage::Asking) => Some(Stage::Releasing),
        (Content::Signal { .. }, Stage::First) if ok => Some(Stage::TakingTarget),
        (Content::Signal { .. }, Stage::TakingTarget) => then(Stage::Signalling, Stage::Releasing),
        (Content::Signal { .. }, Stage::Signalling) => Some(Stage::ReleasingTarget),
        (Content::Signal { .. }, Stage::ReleasingTarget) => Some(Stage::Releasing),
        (Content::Ptrace { .. }, Stage::First) if ok => Some(Stage::TakingTarget),
        (Content::Ptrace { .. }, Stage::TakingTarget) => then(Stage::Tracing, Stage::Releasing),
        (Content::Ptrace { .. }, Stage::Tracing) => Some(Stage::ReleasingTarget),
        (Content::Ptrace { .. }, Stage::ReleasingTarget) => Some(Stage::Releasing),
        (Content::Change { .. }, Stage::First) if ok => Some(Stage::Preparing),
        (Content::Change { .. }, Stage::Preparing) => then(Stage::Altering, Stage::Releasing),
        (Content::Change { .. }, Stage::Altering) => then(Stage::Committing, Stage::Aborting),
        (Content::Change { .. }, Stage::Committing) => then(Stage::Releasing, Stage::Aborting),
        (Content::Change { .. }, Stage::Aborting) => Some(Stage::Releasing),
        (Content::Change { .. }, Stage::Retrying) => Some(Stage::First),
        (Content::Access { .. }, Stage::First) if ok => Some(Stage::Preparing),
        (Content::Access { .. }, Stage::Preparing) => then(Stage::Altering, Stage::Releasing),
        (Content::Access { .. }, Stage::Altering) => Some(Stage::Overriding),
        (Content::Access { .. }, Stage::Overriding) => then(Stage::TakingAccess, Stage::Aborting),
        (Content::Access { .. }, Stage::TakingAccess) => then(Stage::Asking, Stage::Reverting),
        (Content::Access { .. }, Stage::Asking) => Some(Stage::ReleasingAccess),
        (Content::Access { .. }, Stage::ReleasingAccess) => Some(Stage::Reverting),
        (Content::Access { .. }, Stage::Reverting) => Some(Stage::Releasing),
        (Content::Access { .. }, Stage::Aborting) => Some(Stage::Releasing),
        (Content::OnFile { .. }, Stage::First) if ok => Some(Stage::Calling),
        (Content::OnFile { .. }, Stage::Calling) => Some(Stage::Releasing),
        _ => None,
    }
}

/// Whether the commit came too late.
pub(crate) fn is_stale(stage: Option<Stage>, answer: &Answer) -> bool
    ensures { result ≡ spec.is_stale stage answer.now }
{
    matches!(
        (stage, answer),
        (Some(Stage::Committing), Answer::Stale { .. })
    )
}

/// Whether the answer says that some threads still wait.
#[inline(always)]
pub fn some_wait(answer: &Answer) -> bool
    ensures { result ≡ spec.some_wait answer.now }
{
    match answer {
        Answer::Began { left, .. } | Answer::Acted { left, .. } => *left != 0,
        _ => false,
    }
}
