//! What the keys of transactions and spans have in common.
ghost use Rattle.std.specs.Prelude.{◌≡◌, IfErr, OnOk};
ghost use Rattle.sentry_hub.specs.Handles.{Ends, EndsNot, Finishes, FinishesNot};

use sentry_base::protocol::{HubKey, Refusal, SpanKey, TransactionKey, TransactionOrSpanKey};
use sentry_lock::{CoreLock, SharedCore};

/// The key of a transaction, of a span, or of what is either.
pub trait HandleKey: Copy + Drop {
    ghost use Rattle.sentry_base.specs.declared.protocol.keys.TransactionOrSpanKey.{TransactionOrSpanKey};

    ghost span_key: { Self → TransactionOrSpanKey };

    /// The key of nothing: no core gives it.
    fn of_nothing() -> Self;

    /// The key as that of what is either.
    fn span_key(self) -> TransactionOrSpanKey
        ensures { result ≡ span_key self };

    /// Finishes what the key names, a transaction on this hub. `moment` is in nanoseconds since the epoch.
    ///
    /// `Stale`: it isn't held, or the hub isn't, which a span doesn't ask for. `OutOfMemory`.
    fn finish<L: CoreLock>(
        self,
        core: &SharedCore<L>,
        hub: HubKey,
        moment: u64,
    ) -> Result<(), Refusal>
        ensures done { OnOk result (Finishes L.Processor L.Callbacks L.Transport hub moment (span_key self)) }
        ensures refused { IfErr result (FinishesNot L.Processor L.Callbacks L.Transport hub moment (span_key self)) };

    /// Finishes what the key names, as `finish` does, and forgets it, in one hold of the lock.
    ///
    /// `Stale`, `OutOfMemory`: as of `finish`. `StillNamed`: a layer of a hub names it, or a span of the transaction is
    /// held; it is finished then, and stays.
    fn end<L: CoreLock>(self, core: &SharedCore<L>, hub: HubKey, moment: u64) -> Result<(), Refusal>
        ensures done { OnOk result (Ends L.Processor L.Callbacks L.Transport hub moment (span_key self)) }
        ensures refused { IfErr result (EndsNot L.Processor L.Callbacks L.Transport hub moment (span_key self)) };
}

impl HandleKey for TransactionKey {
    ghost use Rattle.sentry_base.specs.declared.protocol.keys.TransactionOrSpanKey.TheVariants as key;

    ghost span_key = { key.Transaction };

    fn of_nothing() -> TransactionKey {
        TransactionKey {
            tag: u64::MAX,
            number: u64::MAX,
        }
    }

    fn span_key(self) -> TransactionOrSpanKey {
        TransactionOrSpanKey::Transaction(self)
    }

    fn finish<L: CoreLock>(
        self,
        core: &SharedCore<L>,
        hub: HubKey,
        moment: u64,
    ) -> Result<(), Refusal> {
        core.finish_transaction(self, hub, moment)
    }

    fn end<L: CoreLock>(
        self,
        core: &SharedCore<L>,
        hub: HubKey,
        moment: u64,
    ) -> Result<(), Refusal> {
        core.end_transaction(self, hub, moment)
    }
}

impl HandleKey for SpanKey {
    ghost use Rattle.sentry_base.specs.declared.protocol.keys.TransactionOrSpanKey.TheVariants as key;

    ghost span_key = { key.Span };

    fn of_nothing() -> SpanKey {
        SpanKey {
            tag: u64::MAX,
            number: u64::MAX,
        }
    }

    fn span_key(self) -> TransactionOrSpanKey {
        TransactionOrSpanKey::Span(self)
    }

    fn finish<L: CoreLock>(
        self,
        core: &SharedCore<L>,
        _hub: HubKey,
        moment: u64,
    ) -> Result<(), Refusal> {
        core.finish_span(self, moment)
    }

    fn end<L: CoreLock>(
        self,
        core: &SharedCore<L>,
        _hub: HubKey,
        moment: u64,
    ) -> Result<(), Refusal> {
        core.end_span(self, moment)
    }
}

impl HandleKey for TransactionOrSpanKey {
    ghost span_key = { λ key. key };

    fn of_nothing() -> TransactionOrSpanKey {
        TransactionOrSpanKey::Transaction(TransactionKey::of_nothing())
    }

    fn span_key(self) -> TransactionOrSpanKey {
        self
    }

    fn finish<L: CoreLock>(
        self,
        core: &SharedCore<L>,
        hub: HubKey,
        moment: u64,
    ) -> Result<(), Refusal> {
        match self {
            TransactionOrSpanKey::Transaction(key) => core.finish_transaction(key, hub, moment),
            TransactionOrSpanKey::Span(key) => core.finish_span(key, moment),
        }
    }

    fn end<L: CoreLock>(
        self,
        core: &SharedCore<L>,
        hub: HubKey,
        moment: u64,
    ) -> Result<(), Refusal> {
        match self {
            TransactionOrSpanKey::Transaction(key) => core.end_transaction(key, hub, moment),
            TransactionOrSpanKey::Span(key) => core.end_span(key, moment),
        }
    }
}
