//! Flushes of a client's queues.
ghost use Rattle.std.specs.Prelude.{◌≡◌, true, false, is_some, IfOk, OnErr, Some, None};
ghost use Rattle.sentry_telemetry.specs.declared.flushes.Flush.{Flush};
ghost use Rattle.sentry_plain.specs.Tables.{value_at};
ghost use Rattle.sentry_options.specs.declared.clientoptions.plain.PlainOptions.{PlainOptions};
ghost use Rattle.sentry_telemetry.specs.declared.flushes.Flush.TheVariants.{All, Due};
ghost use Rattle.sentry_telemetry.specs.Flushes.{is_flushed, is_closing, session_envelopes, flushed_logs, flushed_metrics};
ghost use Rattle.sentry_telemetry.specs.Flushes.{flush_sessions, flush_histories, after_flush, flush_queues};
ghost use Rattle.sentry_state.specs.Worlds.{ClientHistory, QueueHistories, stored_client, stored_queues};
ghost use Rattle.sentry_state.specs.Changes.{ChangesClient};
ghost use Rattle.sentry_sending.specs.Sending.{Sends};

use crate::prepared_envelopes::prepare_envelopes;
use sentry_base::protocol::{ClientKey, Envelope, Log, Metric};
use sentry_batches::tick::LastTick;
use sentry_options::Callbacks;
use sentry_plain::Items;
use sentry_sending::sending::mark_sent;
use sentry_state::{ClientState, Queues, Sent, State};
use std::alloc::{AllocError, Global};

/// After how many nanoseconds a tick flushes the ended sessions of a client.
pub const SESSION_INTERVAL: u64 = 60_000_000_000;

/// Which queues of a client are flushed.
#[derive(Clone, Copy)]
pub enum Flush {
    /// All of them.
    All,
    /// Those whose last due tick lies their interval or more before this moment, which is then that of their last one.
    Due(u64),
    /// All of them, for the last time: the client is closed.
    Closing,
}

/// What was taken out of the batches of a client.
#[derive(Drop)]
pub struct Batches {
    pub logs: Option<Items<Log>>,
    pub metrics: Option<Items<Metric>>,
}

impl Flush {
    // Whether it is one of a queue of this interval, whose last due tick came at this moment.
    fn flushes(self, interval: u64, last_tick: LastTick) -> bool
        ensures { result ≡ is_flushed self interval last_tick.0 }
    {
        match self {
            Flush::All | Flush::Closing => true,
            Flush::Due(now) => last_tick.is_due(interval, now),
        }
    }

    fn is_closing(self) -> bool
        ensures { result ≡ is_closing self }
    {
        matches!(self, Flush::Closing)
    }
}

// The envelopes of the ended sessions that wait, if they are flushed.
fn session_envelopes(
    queues: &Queues,
    alloc: Global,
    flush: Flush,
) -> Result<Items<Envelope>, AllocError>
    ensures { IfOk result (λ envelopes. envelopes ≡
        session_envelopes (is_flushed flush SESSION_INTERVAL queues.now.session_tick.0) queues.now.sessions) }
{
    if !flush.flushes(SESSION_INTERVAL, queues.session_tick) {
        return Ok(Items::new(alloc));
    }
    let envelopes = queues.sessions.envelopes()?;
    Ok(envelopes)
}

// Whether a log or a metric waits. If not, no flush hands one out.
fn has_batch(queues: &Queues) -> bool
    ensures logs { (options : PlainOptions) (before : QueueHistories) (flush : Flush) →
        queues.now ≡ stored_queues options before → result ≡ false → flushed_logs options.max_batch_items flush before ≡ None }
    ensures metrics { (options : PlainOptions) (before : QueueHistories) (flush : Flush) →
        queues.now ≡ stored_queues options before → result ≡ false → flushed_metrics options.max_batch_items flush before ≡ None }
{
    queues.logs.len() != 0 || queues.metrics.len() != 0
}

// Forgets the ended sessions that wait, if a tick at this moment is due.
fn tick_sessions(queues: &mut Queues, now: u64)
    ensures { (options : PlainOptions) (before : QueueHistories) → queues.old ≡ stored_queues options before →
        queues.new ≡ stored_queues options (flush_sessions (Due now) before) }
{
    if queues.session_tick.tick(SESSION_INTERVAL, now) {
        queues.sessions.mark_flushed();
    }
}

// Flushes those queues whose tick at this moment is due.
fn flush_due(queues: &mut Queues, now: u64) -> Batches
    ensures queues { (options : PlainOptions) (before : QueueHistories) → queues.old ≡ stored_queues options before →
        queues.new ≡ stored_queues options (flush_histories (Due now) before) }
    ensures logs { (options : PlainOptions) (before : QueueHistories) → queues.old ≡ stored_queues options before →
        result.logs ≡ flushed_logs options.max_batch_items (Due now) before }
    ensures metrics { (options : PlainOptions) (before : QueueHistories) → queues.old ≡ stored_queues options before →
        result.metrics ≡ flushed_metrics options.max_batch_items (Due now) before }
{
    tick_sessions(queues, now);
    Batches {
        logs: queues.logs.tick(now),
        metrics: queues.metrics.tick(now),
    }
}

// Flushes all queues.
fn flush_all(queues: &mut Queues) -> Batches
    ensures queues { (options : PlainOptions) (before : QueueHistories) → queues.old ≡ stored_queues options before →
        queues.new ≡ stored_queues options (flush_histories All before) }
    ensures logs { (options : PlainOptions) (before : QueueHistories) → queues.old ≡ stored_queues options before →
        result.logs ≡ flushed_logs options.max_batch_items All before }
    ensures metrics { (options : PlainOptions) (before : QueueHistories) → queues.old ≡ stored_queues options before →
        result.metrics ≡ flushed_metrics options.max_batch_items All before }
{
    queues.sessions.mark_flushed();
    Batches {
        logs: queues.logs.take(),
        metrics: queues.metrics.take(),
    }
}

// Takes out what a flush hands out of the batches. The sessions that it flushes are forgotten: their envelopes were
// made before.
fn flush_queues_of(queues: &mut Queues, flush: Flush) -> Batches
    ensures queues { (options : PlainOptions) (before : QueueHistories) → queues.old ≡ stored_queues options before →
        queues.new ≡ stored_queues options (flush_histories flush before) }
    ensures logs { (options : PlainOptions) (before : QueueHistories) → queues.old ≡ stored_queues options before →
        result.logs ≡ flushed_logs options.max_batch_items flush before }
    ensures metrics { (options : PlainOptions) (before : QueueHistories) → queues.old ≡ stored_queues options before →
        result.metrics ≡ flushed_metrics options.max_batch_items flush before }
{
    match flush {
        Flush::All | Flush::Closing => flush_all(queues),
        Flush::Due(now) => flush_due(queues, now),
    }
}

// The same of a client. The last flush closes it, and empties its slot.
fn flush_client<C>(client: &mut ClientState<C>, flush: Flush) -> Batches
    ensures client { (state : ClientHistory C) → client.old ≡ stored_client state →
        client.new ≡ stored_client (after_flush flush state) }
    ensures logs { (state : ClientHistory C) → client.old ≡ stored_client state →
        result.logs ≡ flushed_logs state.options.plain.max_batch_items flush state.queues }
    ensures metrics { (state : ClientHistory C) → client.old ≡ stored_client state →
        result.metrics ≡ flushed_metrics state.options.plain.max_batch_items flush state.queues }
{
    let closing = flush.is_closing();
    client.occupied &= !closing;
    client.closed |= closing;
    flush_queues_of(&mut client.queues, flush)
}

// Takes out of the queues of a client that is held what a flush hands out.
fn take_flushed<P: Drop, C: Callbacks>(
    state: &mut State<P, C>,
    number: u64,
    flush: Flush,
) -> Batches
    requires { is_some (value_at state.old.clients number) ≡ true }
    ensures in_world { ChangesClient state.old state.new number (after_flush flush) }
    ensures logs { (client : ClientHistory C) → value_at state.old.clients number ≡ Some (stored_client client) →
        result.logs ≡ flushed_logs client.options.plain.max_batch_items flush client.queues }
    ensures metrics { (client : ClientHistory C) → value_at state.old.clients number ≡ Some (stored_client client) →
        result.metrics ≡ flushed_metrics client.options.plain.max_batch_items flush client.queues }
{
    let Some(client) = state.clients.get_mut(number) else {
        unreachable!()
    };
    flush_client(client, flush)
}

/// Sends what a flush hands out of the queues of a client. If out of memory, nothing has changed.
#[tactic(auto, unfolding(crate::specs::Flushes::flush_queues))]
pub fn flush_queues<P: Drop, C: Callbacks>(
    state: &mut State<P, C>,
    key: ClientKey,
    flush: Flush,
) -> Result<Sent, AllocError>
    ensures in_world { IfOk result (λ sent. Sends state.old state.new sent (flush_queues flush key)) }
    ensures err { OnErr result (state.new ≡ state.old) }
{
    let Some(client) = state.client_at(key) else {
        return Ok(Items::new(state.alloc));
    };
    if client.closed {
        return Ok(Items::new(state.alloc));
    }
    if !client.occupied {
        take_flushed(state, key.number, flush);
        return Ok(Items::new(state.alloc));
    }
    let label = client.label;
    let sessions = session_envelopes(&client.queues, state.alloc, flush)?;
    if sessions.is_empty() && !has_batch(&client.queues) {
        take_flushed(state, key.number, flush);
        return Ok(Items::new(state.alloc));
    }
    let prepared = prepare_envelopes(state, key, label, sessions)?;
    let batches = take_flushed(state, key.number, flush);
    let sent = prepared.finish(batches);
    mark_sent(state, label, &sent);
    Ok(sent)
}
