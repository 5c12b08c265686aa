//! Why a run ends early.
ghost use Rattle.std.specs.Prelude.{◌≡◌};
ghost use Rattle.replay_run.specs.Faults.{status_of};

use std::alloc::AllocError;
use thiserror::Error;

/// Why a run ended before the end of its input. What was printed before stays.
#[derive(Clone, Copy, Debug, Error, PartialEq, Eq)]
pub enum ReplayFault {
    /// The line of this number, from 1, spells no command.
    #[error("line {0}: bad command")]
    BadCommand(u64),
    #[error("out of memory")]
    OutOfMemory,
    #[error("input or output failed")]
    InputOutput,
}

impl ReplayFault {
    /// The exit status of the program after this fault.
    pub fn status(self) -> u8
        ensures { result ≡ status_of self }
    {
        match self {
            ReplayFault::BadCommand(_) => 2,
            ReplayFault::OutOfMemory => 4,
            ReplayFault::InputOutput => 5,
        }
    }
}

impl From<AllocError> for ReplayFault {
    ghost use Rattle.std.specs.Prelude.{◌≡◌};
    ghost use Rattle.replay_run.specs.declared.fault.ReplayFault.TheVariants.{OutOfMemory};

    ghost from_gives = { λ _ fault. fault ≡ OutOfMemory };

    fn from(_: AllocError) -> ReplayFault {
        ReplayFault::OutOfMemory
    }
}
