//! Why a call failed, as a number.
ghost use Rattle.std.specs.Prelude.{◌≡◌, ◌<◌, Err};
ghost use Rattle.c_base.specs.Faults.{answer_of, fault_of};

use sentry_base::protocol::Refusal;
use std::alloc::AllocError;

/// Why a call failed. A call that fails changes nothing.
#[derive(Clone, Copy, Debug, Drop, PartialEq, Eq)]
pub enum CallFault {
    /// No memory for an argument, for the call, or for keeping what it hands out.
    OutOfMemory,
    /// The engine has nothing of this number.
    Stale,
    /// The layer of this depth isn't the top one, or is the only one.
    OutOfOrder,
    /// Something still names what is to be given back.
    StillNamed,
    /// The hub still has layers that were pushed.
    ScopesOpen,
    /// The text is no DSN.
    InvalidDsn,
    /// The rate is above 1000000 millionths.
    InvalidRate,
    /// No client has the label.
    ForeignLosses,
    /// All numbers of this kind are used up.
    Full,
    /// A text isn't UTF-8.
    NotUtf8,
    /// A number, a word or a part of a text stands for nothing.
    Unknown,
}

impl CallFault {
    /// 1 to 9 as the engine numbers its refusals, 10 for `NotUtf8`, 11 for `Unknown`.
    #[tactic(auto, unfolding(crate::specs::Faults::answer_of))]
    pub fn number(&self) -> u32
        ensures fits { result < 12 }
        ensures fault { answer_of result ≡ Err self.now }
    {
        match self {
            CallFault::OutOfMemory => 1,
            CallFault::Stale => 2,
            CallFault::OutOfOrder => 3,
            CallFault::StillNamed => 4,
            CallFault::ScopesOpen => 5,
            CallFault::InvalidDsn => 6,
            CallFault::InvalidRate => 7,
            CallFault::ForeignLosses => 8,
            CallFault::Full => 9,
            CallFault::NotUtf8 => 10,
            CallFault::Unknown => 11,
        }
    }
}

impl From<Refusal> for CallFault {
    ghost from_gives = { λ refusal fault. fault ≡ fault_of refusal };

    fn from(refusal: Refusal) -> CallFault {
        match refusal {
            Refusal::OutOfMemory => CallFault::OutOfMemory,
            Refusal::Stale => CallFault::Stale,
            Refusal::OutOfOrder => CallFault::OutOfOrder,
            Refusal::StillNamed => CallFault::StillNamed,
            Refusal::ScopesOpen => CallFault::ScopesOpen,
            Refusal::InvalidDsn(_) => CallFault::InvalidDsn,
            Refusal::InvalidRate => CallFault::InvalidRate,
            Refusal::ForeignLosses => CallFault::ForeignLosses,
            Refusal::Full => CallFault::Full,
        }
    }
}

impl From<AllocError> for CallFault {
    ghost use Rattle.c_base.specs.declared.fault.CallFault.TheVariants.{OutOfMemory};

    ghost from_gives = { λ error fault. fault ≡ OutOfMemory };

    fn from(_: AllocError) -> CallFault {
        CallFault::OutOfMemory
    }
}

/// 0 if the call was made, and otherwise the number of the fault.
#[tactic(auto, unfolding(crate::specs::Faults::answer_of))]
pub fn code(answer: Result<(), CallFault>) -> u32
    ensures fits { result < 12 }
    ensures answer { answer_of result ≡ answer }
{
    match answer {
        Ok(()) => 0,
        Err(fault) => fault.number(),
    }
}
