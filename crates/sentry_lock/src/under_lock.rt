//! A core as it lies under its lock.
use crate::locked::Core;
use std::marker::Model;

/// A core as it lies under its lock. It may go to another thread, where the processors, the callbacks and the transports
/// may, and may be read by several threads.
///
/// A check proves `Send` of most types by itself, from their fields. Of a core that takes a proof by hand, since its
/// events hold values that lead back to themselves. Rattle reads such a proof only of a struct with `also_owns`, so this
/// one has it, and owns nothing beside the core. Contracts see the core.
#[derive(Drop)]
pub struct UnderLock<P, C, T> {
    pub core: Core<P, C, T>,
}

impl<P, C, T> Model for UnderLock<P, C, T> {
    ghost use Rattle.std.specs.Borrow.{ftrue};
    ghost use Rattle.std.specs.Coded.{codes};
    ghost use Rattle.sentry_lock.specs.declared.locked.Core.{Core};
    ghost use Rattle.sentry_plain.specs.Values.{data_code};

    ghost Value = { Core P C T };

    ghost coded = { Prim.hlevel (codes, data_code) };

    ghost view = { λ under. under.core };

    ghost also_owns = { λ _. ftrue };
}

// The proof is in `proofs/under_lock/UnderLock/TheSendSync`.
unsafe impl<P: Send + Sync, C: Send + Sync, T: Send + Sync> Send for UnderLock<P, C, T> {}

impl<P, C, T> UnderLock<P, C, T> {
    pub(crate) fn new(core: Core<P, C, T>) -> UnderLock<P, C, T> {
        UnderLock { core }
    }
}
