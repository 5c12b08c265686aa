//! What transactions and spans have in common: a key, and a share of the core that holds what it names.
ghost use Rattle.std.specs.Prelude.{◌≡◌, ◌⊎◌, ℕ, [], false, IfErr, IfNone, IfOk, None, OnOk, map, true};
ghost use Rattle.sentry_base.specs.declared.protocol.keys.TransactionOrSpanKey.TheVariants as key_of;
ghost use Rattle.sentry_calls.specs.declared.call.Call.TheVariants as group;
ghost use Rattle.sentry_lock.specs.Answers.{LockAnswers, LockAnswersWithoutMemory, LockRefuses, LockRefusesWithoutMemory};
ghost use Rattle.sentry_lock.specs.CallLists.{LockMakesEach};
ghost use Rattle.sentry_span_edits.specs.Reads as reads;
ghost use Rattle.sentry_span_edits.specs.Setters as setters;
ghost use Rattle.sentry_spans.specs.Discards as discards;
ghost use Rattle.sentry_spans.specs.Spans as spans;
ghost use Rattle.sentry_trace.specs.TraceHeaders.{headers_left};
ghost use Rattle.sentry_hub.specs.DataEdits.{EditsData};
ghost use Rattle.sentry_hub.specs.Handles.{Ends, EndsNot, Finishes, FinishesNot, context_of_zeros};

use crate::hub::Hub;
use crate::leftovers::forget_with_spans;
use crate::performance::{Data, EndError, HandleKey, calls};
use sentry_base::clock::Clock;
use sentry_base::protocol::{
    Fresh, HubKey, Refusal, Request, SpanId, SpanKey, SpanStatus, TraceContext, TraceId,
    TransactionKey, TransactionOrSpanKey, ValueMap,
};
use sentry_batches::ToValue;
use sentry_lock::{CoreLock, IntoSpanKey, SharedCore};
use sentry_thread_hub::ThreadHub;
use sentry_trace::headers::TraceHeadersIter;
use std::alloc::{AllocError, Global};
use std::marker::Model;

/// A transaction or a span, by its key and a share of the core that holds it. A clone of the value is the same
/// transaction or span, and values are equal if their keys are. Contracts see the key, and whether the value
/// names something.
///
/// A transaction or span is held until it is discarded, also once it is finished.
///
/// Work that `in_transaction` or `in_span` runs although nothing could be begun is lent one that names nothing: its setters
/// do nothing, it has no headers, data or status, zeros are its ids, and its children name nothing too.
pub struct Handle<L, N> {
    // None where it names nothing.
    core: Option<SharedCore<L>>,
    alloc: Global,
    key: N,
}

/// A transaction.
pub type Transaction<L> = Handle<L, TransactionKey>;

/// A span.
pub type Span<L> = Handle<L, SpanKey>;

/// What is a transaction or a span. Its key tells which.
pub type TransactionOrSpan<L> = Handle<L, TransactionOrSpanKey>;

impl<L: Drop, N: Drop> Drop for Handle<L, N> {
    fn drop(self) {
        let Handle {
            core: _,
            alloc: _,
            key: _,
        } = self;
    }
}

impl<L, N> Model for Handle<L, N> {
    ghost use Rattle.std.specs.Prelude.{Bool, is_some};

    ghost Value = { N × Bool };

    ghost view = { λ handle. (handle.key, is_some handle.core) };
}

impl<L: Drop, N: Copy> Clone for Handle<L, N> {
    ghost is_clone = { λ old new. new ≡ old };

    fn clone(&self) -> Result<Handle<L, N>, AllocError> {
        Ok(Handle {
            core: self.core.clone()?,
            alloc: self.alloc,
            key: self.key,
        })
    }
}

impl<L, N: PartialEq> PartialEq for Handle<L, N> {
    ghost use Rattle.std.specs.Cmp.{on_per};

    ghost eq = { λ one other. N.eq one.0 other.0 };

    ghost laws = { on_per (λ handle. handle.0) N.laws };

    fn eq(&self, other: &Handle<L, N>) -> bool {
        self.key == other.key
    }
}

impl<L, N: Eq> Eq for Handle<L, N> {
    ghost use Rattle.std.specs.Cmp.{on_equiv};

    ghost laws = { on_equiv (λ handle. handle.0) N.Eq.laws };
}

impl<L, N: HandleKey> IntoSpanKey for &Handle<L, N> {
    ghost use Rattle.std.specs.Prelude.{Some};

    ghost span_key = { λ handle. Some (N.span_key handle.now.0) };

    fn into_span_key(self) -> Option<TransactionOrSpanKey> {
        Some(self.key.span_key())
    }
}

impl<L> From<Transaction<L>> for TransactionOrSpan<L> {
    ghost from_gives = { λ transaction made. made ≡ (key_of.Transaction transaction.0, transaction.1) };

    fn from(transaction: Transaction<L>) -> TransactionOrSpan<L> {
        transaction.into_either()
    }
}

impl<L> From<Span<L>> for TransactionOrSpan<L> {
    ghost from_gives = { λ span made. made ≡ (key_of.Span span.0, span.1) };

    fn from(span: Span<L>) -> TransactionOrSpan<L> {
        span.into_either()
    }
}

impl<L, N: HandleKey> Handle<L, N> {
    // The same, as what is either.
    fn into_either(self) -> TransactionOrSpan<L>
        ensures { result ≡ (N.span_key self.0, self.1) }
    {
        let Handle { core, alloc, key } = self;
        Handle {
            core,
            alloc,
            key: key.span_key(),
        }
    }
}

// What is said of what names nothing.
fn context_of_zeros(alloc: Global) -> TraceContext
    ensures { result ≡ context_of_zeros }
{
    TraceContext {
        trace_id: TraceId([0; 16]),
        span_id: SpanId([0; 8]),
        parent_span_id: None,
        op: None,
        description: None,
        status: None,
        origin: None,
        data_: ValueMap::new(alloc),
    }
}

fn no_headers(alloc: Global) -> TraceHeadersIter
    ensures { headers_left result ≡ [] }
{
    let mut headers = TraceHeadersIter::new(String::new(alloc));
    drop(headers.next());
    headers
}

impl<L: CoreLock, N: HandleKey> Handle<L, N> {
    /// The transaction or the span of a key, which need not be held.
    ///
    /// An allocation may fail.
    pub fn new(core: &SharedCore<L>, key: N) -> Result<Handle<L, N>, AllocError>
        ensures { IfOk result (λ made. made ≡ (key, true)) }
    {
        Ok(Handle::of_key(core.clone()?, key))
    }

    // The same over a share.
    pub(crate) fn of_key(core: SharedCore<L>, key: N) -> Handle<L, N>
        ensures { result ≡ (key, true) }
    {
        let alloc = core.allocator();
        Handle {
            core: Some(core),
            alloc,
            key,
        }
    }

    // One that names nothing.
    pub(crate) fn of_nothing(alloc: Global) -> Handle<L, N>
        ensures { result.1 ≡ false }
    {
        Handle {
            core: None,
            alloc,
            key: N::of_nothing(),
        }
    }

    /// The key.
    pub fn key(&self) -> N
        ensures { result ≡ self.now.0 }
    {
        self.key
    }

    // The core that holds it, if it names something.
    pub(super) fn core(&self) -> Option<&SharedCore<L>>
        ensures { IfNone result (self.now.1 ≡ false) }
    {
        match &self.core {
            None => None,
            Some(core) => Some(core),
        }
    }

    fn span_key(&self) -> TransactionOrSpanKey
        ensures { result ≡ N.span_key self.now.0 }
    {
        self.key.span_key()
    }

    /// Sets data, of a transaction while it is unfinished. It replaces a value with the same key.
    ///
    /// `Stale`: it isn't held. `OutOfMemory`.
    pub fn set_data<V: ToValue + Drop>(&self, key: &str, value: V) -> Result<(), Refusal>
        ensures done { IfOk result (λ reply. (self.now.1 ≡ false)
            ⊎ LockAnswers L.Processor L.Callbacks L.Transport reply (setters.set_data (N.span_key self.now.0) key.now (V.value value))) }
        ensures refused { IfErr result (λ refusal. (refusal ≡ Refusal.OutOfMemory)
            ⊎ LockRefuses L.Processor L.Callbacks L.Transport refusal (setters.set_data (N.span_key self.now.0) key.now (V.value value))) }
    {
        let Some(core) = &self.core else {
            return Ok(());
        };
        let value = value.to_value(self.alloc)?;
        core.set_data(self.span_key(), key, value)
    }

    /// Sets a tag, of a transaction while it is unfinished. It replaces a tag with the same key.
    ///
    /// `Stale`: it isn't held. `OutOfMemory`.
    pub fn set_tag(&self, key: &str, value: &str) -> Result<(), Refusal>
        ensures done { IfOk result (λ reply. (self.now.1 ≡ false)
            ⊎ LockAnswers L.Processor L.Callbacks L.Transport reply (setters.set_tag (N.span_key self.now.0) key.now value.now)) }
        ensures refused { IfErr result (λ refusal. LockRefuses L.Processor L.Callbacks L.Transport
            refusal (setters.set_tag (N.span_key self.now.0) key.now value.now)) }
    {
        match &self.core {
            None => Ok(()),
            Some(core) => core.set_tag(self.span_key(), key, value),
        }
    }

    /// The place of the transaction in its trace, with its operation, status, origin and data. That of a span is its
    /// transaction's.
    ///
    /// `Stale`: it isn't held. `OutOfMemory`.
    pub fn get_trace_context(&self) -> Result<TraceContext, Refusal>
        ensures done { IfOk result (λ reply. ((self.now.1 ≡ false) × (reply ≡ context_of_zeros))
            ⊎ LockAnswers L.Processor L.Callbacks L.Transport reply (reads.get_trace_context (N.span_key self.now.0))) }
        ensures refused { IfErr result (λ refusal. LockRefuses L.Processor L.Callbacks L.Transport
            refusal (reads.get_trace_context (N.span_key self.now.0))) }
    {
        match &self.core {
            None => Ok(context_of_zeros(self.alloc)),
            Some(core) => core.get_trace_context(self.span_key()),
        }
    }

    /// The status, if one is set. It takes no memory.
    ///
    /// `Stale`: it isn't held.
    pub fn get_status(&self) -> Result<Option<SpanStatus>, Refusal>
        ensures done { IfOk result (λ reply. ((self.now.1 ≡ false) × (reply ≡ None))
            ⊎ LockAnswersWithoutMemory L.Processor L.Callbacks L.Transport reply (reads.get_status (N.span_key self.now.0))) }
        ensures refused { IfErr result (λ refusal. LockRefusesWithoutMemory L.Processor L.Callbacks L.Transport
            refusal (reads.get_status (N.span_key self.now.0))) }
    {
        match &self.core {
            None => Ok(None),
            Some(core) => core.get_status(self.span_key()),
        }
    }

    /// Sets the status, also once it is finished.
    ///
    /// `Stale`: it isn't held. `OutOfMemory`.
    pub fn set_status(&self, status: SpanStatus) -> Result<(), Refusal>
        ensures done { IfOk result (λ reply. (self.now.1 ≡ false)
            ⊎ LockAnswers L.Processor L.Callbacks L.Transport reply (setters.set_status (N.span_key self.now.0) status)) }
        ensures refused { IfErr result (λ refusal. LockRefuses L.Processor L.Callbacks L.Transport
            refusal (setters.set_status (N.span_key self.now.0) status)) }
    {
        match &self.core {
            None => Ok(()),
            Some(core) => core.set_status(self.span_key(), status),
        }
    }

    /// Sets the operation, also once it is finished.
    ///
    /// `Stale`: it isn't held. `OutOfMemory`.
    pub fn set_op(&self, op: &str) -> Result<(), Refusal>
        ensures done { IfOk result (λ reply. (self.now.1 ≡ false)
            ⊎ LockAnswers L.Processor L.Callbacks L.Transport reply (setters.set_op (N.span_key self.now.0) op.now)) }
        ensures refused { IfErr result (λ refusal. LockRefuses L.Processor L.Callbacks L.Transport
            refusal (setters.set_op (N.span_key self.now.0) op.now)) }
    {
        match &self.core {
            None => Ok(()),
            Some(core) => core.set_op(self.span_key(), op),
        }
    }

    /// Sets the name of a transaction, while it is unfinished, or the description of a span, which may be empty.
    ///
    /// `Stale`: it isn't held. `OutOfMemory`.
    pub fn set_name(&self, name: &str) -> Result<(), Refusal>
        ensures done { IfOk result (λ reply. (self.now.1 ≡ false)
            ⊎ LockAnswers L.Processor L.Callbacks L.Transport reply (setters.set_name (N.span_key self.now.0) name.now)) }
        ensures refused { IfErr result (λ refusal. LockRefuses L.Processor L.Callbacks L.Transport
            refusal (setters.set_name (N.span_key self.now.0) name.now)) }
    {
        match &self.core {
            None => Ok(()),
            Some(core) => core.set_name(self.span_key(), name),
        }
    }

    /// Sets the request of a transaction, while it is unfinished, or the data that a span has of a request: a body that
    /// is JSON of whole numbers of 64 bits becomes a value, and any other body a text.
    ///
    /// `Stale`: it isn't held. `OutOfMemory`.
    pub fn set_request(&self, request: Request) -> Result<(), Refusal>
        ensures done { IfOk result (λ reply. (self.now.1 ≡ false)
            ⊎ LockAnswers L.Processor L.Callbacks L.Transport reply (setters.set_request (N.span_key self.now.0) request)) }
        ensures refused { IfErr result (λ refusal. LockRefuses L.Processor L.Callbacks L.Transport
            refusal (setters.set_request (N.span_key self.now.0) request)) }
    {
        match &self.core {
            None => Ok(()),
            Some(core) => core.set_request(self.span_key(), request),
        }
    }

    /// The headers that pass the trace on to the next service.
    ///
    /// `Stale`: it isn't held. `OutOfMemory`.
    pub fn iter_headers(&self) -> Result<TraceHeadersIter, Refusal>
        ensures done { IfOk result (λ reply. ((self.now.1 ≡ false) × (headers_left reply ≡ []))
            ⊎ LockAnswers L.Processor L.Callbacks L.Transport reply (reads.iter_headers (N.span_key self.now.0))) }
        ensures refused { IfErr result (λ refusal. LockRefuses L.Processor L.Callbacks L.Transport
            refusal (reads.iter_headers (N.span_key self.now.0))) }
    {
        match &self.core {
            None => Ok(no_headers(self.alloc)),
            Some(core) => core.iter_headers(self.span_key()),
        }
    }

    /// Whether it is sampled: tracing was enabled when the transaction started, and it was sampled. It takes no memory.
    ///
    /// `Stale`: it isn't held.
    pub fn is_sampled(&self) -> Result<bool, Refusal>
        ensures done { IfOk result (λ reply. ((self.now.1 ≡ false) × (reply ≡ false))
            ⊎ LockAnswersWithoutMemory L.Processor L.Callbacks L.Transport reply (reads.is_sampled (N.span_key self.now.0))) }
        ensures refused { IfErr result (λ refusal. LockRefusesWithoutMemory L.Processor L.Callbacks L.Transport
            refusal (reads.is_sampled (N.span_key self.now.0))) }
    {
        match &self.core {
            None => Ok(false),
            Some(core) => core.is_sampled(self.span_key()),
        }
    }

    /// Lends the closure a copy of the data, with its setters. These are called once it has answered, in order, up to
    /// the first that is refused. The closure runs without the lock, and its answer is the answer.
    ///
    /// `Stale`: it isn't held. `OutOfMemory`, also where the closure answers it: then no setter is called.
    pub fn data<A: Drop, F: FnOnce(&mut Data) -> Result<A, AllocError> + Drop>(
        &self,
        edit: F,
    ) -> Result<A, Refusal>
        requires { F.IsAlwaysCallable edit }
        ensures { IfOk result (λ answer. EditsData L.Transport L.Processor.gives L.Callbacks.meanings F.FnOnce
            edit self.now.1 (N.span_key self.now.0) answer) }
    {
        let copy = self.copy_data()?;
        let mut data = Data::new(self.alloc, self.span_key(), copy);
        let answer = edit(&mut data)?;
        self.make_all(data)?;
        Ok(answer)
    }

    fn copy_data(&self) -> Result<ValueMap, Refusal>
        ensures done { IfOk result (λ reply. ((self.now.1 ≡ false) × (reply ≡ []))
            ⊎ LockAnswers L.Processor L.Callbacks L.Transport reply (reads.read_data (N.span_key self.now.0))) }
        ensures refused { IfErr result (λ refusal. LockRefuses L.Processor L.Callbacks L.Transport
            refusal (reads.read_data (N.span_key self.now.0))) }
    {
        match &self.core {
            None => Ok(ValueMap::new(self.alloc)),
            Some(core) => core.data(self.span_key()),
        }
    }

    // Makes the calls of setters.
    fn make_all(&self, lent: Data) -> Result<(), Refusal>
        ensures { OnOk result ((self.now.1 ≡ false)
            ⊎ LockMakesEach L.Transport L.Processor.gives L.Callbacks.meanings (map group.Span lent.calls)) }
    {
        match &self.core {
            None => Ok(()),
            Some(core) => calls::make_all(core, lent.into_calls()),
        }
    }

    /// Starts a child. An empty description is none. A program that forgets to discard the child leaves it in the core
    /// for as long as that lasts, also once it is finished: `in_span` discards it.
    ///
    /// `Stale`: it isn't held. `Full`: the numbers are used up. `OutOfMemory`.
    pub fn start_child(&self, op: &str, description: &str, fresh: Fresh) -> Result<Span<L>, Refusal>
        ensures done { IfOk result (λ child. ((self.now.1 ≡ false) × (child.1 ≡ false))
            ⊎ ((child.1 ≡ true) × LockAnswers L.Processor L.Callbacks L.Transport child.0
            (spans.start_child (N.span_key self.now.0) op.now description.now fresh))) }
        ensures refused { IfErr result (λ refusal. (refusal ≡ Refusal.OutOfMemory)
            ⊎ LockRefuses L.Processor L.Callbacks L.Transport refusal (spans.start_child (N.span_key self.now.0) op.now description.now fresh)) }
    {
        let Some(core) = &self.core else {
            return Ok(Handle::of_nothing(self.alloc));
        };
        let share = core.clone()?;
        match core.start_child(self.span_key(), op, description, fresh) {
            Ok(key) => Ok(Handle::of_key(share, key)),
            Err(refusal) => Err(refusal),
        }
    }

    /// The same as `start_child`, with an id and a start in nanoseconds since the epoch.
    ///
    /// `Stale`: it isn't held. `Full`: the numbers are used up. `OutOfMemory`.
    pub fn start_child_with_details(
        &self,
        op: &str,
        description: &str,
        id: SpanId,
        start: u64,
    ) -> Result<Span<L>, Refusal>
        ensures done { IfOk result (λ child. ((self.now.1 ≡ false) × (child.1 ≡ false))
            ⊎ ((child.1 ≡ true) × LockAnswers L.Processor L.Callbacks L.Transport child.0
            (spans.start_child_with_details (N.span_key self.now.0) op.now description.now id start))) }
        ensures refused { IfErr result (λ refusal. (refusal ≡ Refusal.OutOfMemory)
            ⊎ LockRefuses L.Processor L.Callbacks L.Transport refusal (spans.start_child_with_details (N.span_key self.now.0) op.now description.now id start)) }
    {
        let Some(core) = &self.core else {
            return Ok(Handle::of_nothing(self.alloc));
        };
        let share = core.clone()?;
        let span = self.span_key();
        match core.start_child_with_details(span, op, description, id, start) {
            Ok(key) => Ok(Handle::of_key(share, key)),
            Err(refusal) => Err(refusal),
        }
    }

    /// Finishes it at the moment of the thread's clock, for the first time.
    ///
    /// A transaction is finished under the top scope of the thread's current hub. If it was sampled, it is sent by its
    /// client, with the spans that it kept. A span comes to the spans of its transaction while that is unfinished, or is
    /// lost if the transaction keeps no more.
    ///
    /// `Stale`: it isn't held, or the hub isn't, which a span doesn't ask for. `OutOfMemory`.
    pub fn finish<K: Clock, G>(&self, thread: &mut ThreadHub<Hub<L>, K, G>) -> Result<(), Refusal>
        ensures done { OnOk result ((self.now.1 ≡ false) ⊎ ((moment : ℕ)
            × Finishes L.Processor L.Callbacks L.Transport thread.old.current moment (N.span_key self.now.0))) }
        ensures refused { IfErr result (λ refusal. (moment : ℕ)
            × FinishesNot L.Processor L.Callbacks L.Transport thread.old.current moment (N.span_key self.now.0) refusal) }
        ensures main { thread.new.main ≡ thread.old.main }
        ensures current { thread.new.current ≡ thread.old.current }
    {
        let moment = thread.clock.now();
        self.finish_on(thread.current.key(), moment)
    }

    // The same at a moment, a transaction on this hub.
    pub(crate) fn finish_on(&self, hub: HubKey, moment: u64) -> Result<(), Refusal>
        ensures done { OnOk result ((self.now.1 ≡ false)
            ⊎ Finishes L.Processor L.Callbacks L.Transport hub moment (N.span_key self.now.0)) }
        ensures refused { IfErr result (FinishesNot L.Processor L.Callbacks L.Transport hub moment (N.span_key self.now.0)) }
    {
        match &self.core {
            None => Ok(()),
            Some(core) => self.key.finish(core, hub, moment),
        }
    }

    /// Finishes it, as `finish` does, and forgets it, as `discard` does, in one hold of the lock. A refusal hands the value
    /// back.
    ///
    /// `Stale`: it isn't held, or the hub isn't, which a span doesn't ask for. `OutOfMemory`. `StillNamed`: a layer of a
    /// hub names it, or a span of the transaction is held; it is finished then, and stays.
    pub fn end<K: Clock, G>(
        self,
        thread: &mut ThreadHub<Hub<L>, K, G>,
    ) -> Result<(), EndError<Handle<L, N>>>
        ensures done { OnOk result ((self.1 ≡ false) ⊎ ((moment : ℕ)
            × Ends L.Processor L.Callbacks L.Transport thread.old.current moment (N.span_key self.0))) }
        ensures refused { IfErr result (λ error. (moment : ℕ)
            × EndsNot L.Processor L.Callbacks L.Transport thread.old.current moment (N.span_key self.0) error.refusal) }
        ensures back { IfErr result (λ error. error.span ≡ self) }
        ensures main { thread.new.main ≡ thread.old.main }
        ensures current { thread.new.current ≡ thread.old.current }
    {
        let moment = thread.clock.now();
        match self.end_on(thread.current.key(), moment) {
            Ok(()) => Ok(()),
            Err(refusal) => Err(EndError {
                refusal,
                span: self,
            }),
        }
    }

    // The same at a moment, a transaction on this hub.
    pub(crate) fn end_on(&self, hub: HubKey, moment: u64) -> Result<(), Refusal>
        ensures done { OnOk result ((self.now.1 ≡ false)
            ⊎ Ends L.Processor L.Callbacks L.Transport hub moment (N.span_key self.now.0)) }
        ensures refused { IfErr result (EndsNot L.Processor L.Callbacks L.Transport hub moment (N.span_key self.now.0)) }
    {
        match &self.core {
            None => Ok(()),
            Some(core) => self.key.end(core, hub, moment),
        }
    }

    /// Forgets it. It records no loss. It takes no memory.
    ///
    /// `Stale`: it isn't held. `StillNamed`: a layer of a hub names it, or a span of the transaction is held.
    pub fn discard(&self) -> Result<(), Refusal>
        ensures done { IfOk result (λ reply. (self.now.1 ≡ false)
            ⊎ LockAnswersWithoutMemory L.Processor L.Callbacks L.Transport reply (discards.discard (N.span_key self.now.0))) }
        ensures refused { IfErr result (λ refusal. LockRefusesWithoutMemory L.Processor L.Callbacks L.Transport
            refusal (discards.discard (N.span_key self.now.0))) }
    {
        match &self.core {
            None => Ok(()),
            Some(core) => core.discard(self.span_key()),
        }
    }

    // Forgets it, and the spans that are held of a transaction.
    pub(crate) fn discard_with_spans(&self) -> Result<(), Refusal> {
        match (&self.core, self.span_key()) {
            (None, _) => Ok(()),
            (Some(core), TransactionOrSpanKey::Transaction(key)) => forget_with_spans(core, key),
            (Some(core), span) => core.discard(span),
        }
    }
}
