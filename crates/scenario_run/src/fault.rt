//! Why a run ends early, and why a command isn't done.
use sentry_base::protocol::Refusal;
use std::alloc::AllocError;
use thiserror::Error;

/// Why a run ended before the end of its input. What was printed before stays.
#[derive(Clone, Copy, Debug, Error)]
pub enum ScenarioFault {
    /// The line of this number, from 1, fits no form.
    #[error("line {0}: bad command")]
    BadCommand(u64),
    #[error("out of memory")]
    OutOfMemory,
    #[error("input or output failed")]
    InputOutput,
}

impl ScenarioFault {
    /// The exit status of the program after this fault.
    pub fn status(self) -> u8 {
        match self {
            ScenarioFault::BadCommand(_) => 2,
            ScenarioFault::OutOfMemory => 4,
            ScenarioFault::InputOutput => 5,
        }
    }
}

impl From<AllocError> for ScenarioFault {
    fn from(_: AllocError) -> ScenarioFault {
        ScenarioFault::OutOfMemory
    }
}

/// Why a command has no answer.
#[derive(Clone, Copy)]
pub enum Failure {
    /// The line fits no form.
    BadCommand,
    /// The engine refused the call, or memory was refused on the way to it.
    Refused(Refusal),
    /// The reply isn't one of this call's: no engine replies so.
    OtherReply,
}

impl From<Refusal> for Failure {
    fn from(refusal: Refusal) -> Failure {
        Failure::Refused(refusal)
    }
}

impl From<AllocError> for Failure {
    fn from(_: AllocError) -> Failure {
        Failure::Refused(Refusal::OutOfMemory)
    }
}
