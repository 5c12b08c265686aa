//! An engine under its lock, and what was made on it.
use crate::guards::Guards;
use crate::words::Words;
use sentry_base::protocol::{HubKey, Refusal, TransactionOrSpanKey};
use sentry_engine::call::Reply;
use sentry_hub::Hub;
use sentry_lock::{CoreLock, SharedCore};
use sentry_plain::Table;
use sentry_scope::Scope;
use sentry_span_table::SpanTable;
use sentry_trace::headers::TraceHeadersIter;
use std::alloc::Global;

/// What a call on a core under this lock replies.
pub(crate) type LockReply<L> = Reply<<L as CoreLock>::Processor, <L as CoreLock>::Callbacks>;

/// How the calls on transactions and spans are made.
#[derive(Clone, Copy)]
pub enum SpanCalls {
    /// By `Transaction` and `Span`.
    Own,
    /// By `TransactionOrSpan`, where it has the call.
    Either,
    /// As `Own`, but data and tags are set by closures that are lent the data.
    Lent,
}

/// An engine under its lock, and what was made on it. What acts on it is generic in the lock: that is proved faster than
/// at the types of one.
pub struct Locked<L> {
    pub(crate) alloc: Global,
    pub(crate) core: SharedCore<L>,
    /// By the number of the client for which they were made.
    pub(crate) words: Table<Words>,
    /// All hubs that were made, in order: the place of each is its number.
    pub(crate) hubs: Vec<Hub<L>>,
    pub(crate) guards: Guards,
    pub(crate) span_calls: SpanCalls,
}

impl<L: Drop> Drop for Locked<L> {
    fn drop(self) {
        let Locked {
            alloc: _,
            core: _,
            words: _,
            hubs: _,
            guards: _,
            span_calls: _,
        } = self;
    }
}

impl<L: CoreLock> Locked<L> {
    /// Nothing was made on the core so far.
    pub fn new(alloc: Global, core: SharedCore<L>, span_calls: SpanCalls) -> Locked<L> {
        Locked {
            alloc,
            core,
            words: Table::new(alloc),
            hubs: Vec::new(alloc),
            guards: Guards::new(alloc),
            span_calls,
        }
    }

    /// The hub of a key, which need not be held.
    ///
    /// `Stale`: no hub of this key was made, so that there is none to make the call on.
    pub(crate) fn hub(&self, key: HubKey) -> Result<&Hub<L>, Refusal> {
        let Ok(place) = usize::try_from(key.number) else {
            return Err(Refusal::Stale);
        };
        self.hubs.get(place).ok_or(Refusal::Stale)
    }

    // The headers of a transaction or a span that is held.
    fn headers_of_span(
        &self,
        span: TransactionOrSpanKey,
    ) -> Result<Option<TraceHeadersIter>, Refusal> {
        match self.iter_headers(span) {
            Ok(headers) => Ok(Some(headers)),
            Err(Refusal::Stale) => Ok(None),
            Err(refusal) => Err(refusal),
        }
    }

    /// The headers that pass on the trace of the active span of a scope, or else that of the scope itself.
    pub(crate) fn headers_of_scope(
        &self,
        scope: &Scope<L::Processor>,
    ) -> Result<TraceHeadersIter, Refusal> {
        if let Some(span) = scope.get_span() {
            if let Some(headers) = self.headers_of_span(span)? {
                return Ok(headers);
            }
        }
        let no_spans = SpanTable::new(self.alloc);
        Ok(scope.iter_trace_propagation_headers(&no_spans)?)
    }
}
