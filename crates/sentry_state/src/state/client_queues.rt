//! What comes to the queues of a client.
ghost use Rattle.std.specs.Prelude.{◌≡◌, ◌&&◌, IfOk, OnOk, OnErr, Some, true, is_some};
ghost use Rattle.sentry_plain.specs.Tables.{value_at};
ghost use Rattle.sentry_batches.specs.Batches.{accept, batch_on, next_fills_queue};
ghost use Rattle.sentry_sessions.specs.QueueSteps.{fills_queue};
ghost use Rattle.sentry_sessions.specs.SessionQueues.{enqueued, envelopes_on};
ghost use Rattle.sentry_sessions.specs.Sessions.{update_of};
ghost use Rattle.sentry_sessions.specs.SessionSteps.{close};
ghost use Rattle.sentry_sessions.specs.declared.session.record.Session.{Session};
ghost use Rattle.sentry_sessions.specs.TakenSessions.{taken_envelopes, HasRoom};
ghost use Rattle.sentry_state.specs.declared.state.ClientState.{ClientState};
ghost use Rattle.sentry_state.specs.Changes.{ChangesClient, with_client_entry, with_log_entry, with_metric_entry};
ghost use Rattle.sentry_state.specs.Worlds.{ClientHistory, stored_client};

use crate::state::{ClientState, State};
use sentry_base::protocol::{Log, Metric, SessionStatus, SessionUpdate};
use sentry_options::Callbacks;
use sentry_plain::Items;
use sentry_sessions::TakenSessions;
use std::alloc::AllocError;

impl<C> ClientState<C> {
    /// Whether the next log makes the batch leave.
    pub fn next_log_fills_queue(&self) -> bool
        ensures { result ≡ (self.now.occupied && next_fills_queue self.now.queues.logs) }
    {
        self.occupied && self.queues.logs.next_fills_queue()
    }

    /// Whether the next metric makes the batch leave.
    pub fn next_metric_fills_queue(&self) -> bool
        ensures { result ≡ (self.now.occupied && next_fills_queue self.now.queues.metrics) }
    {
        self.occupied && self.queues.metrics.next_fills_queue()
    }
}

impl<P: Drop, C: Callbacks> State<P, C> {
    /// Puts the last update of a session that is held, and closed now, into the queue of a client that is held. If out of
    /// memory, nothing has changed.
    #[tactic(auto, using(sentry_plain::proofs::ChangeLemmas::changed_same))]
    pub fn enqueue_closed(
        &mut self,
        number: u64,
        session: u64,
        status: Option<SessionStatus>,
        now: u64,
    ) -> Result<(), AllocError>
        requires client { is_some (value_at self.old.clients number) ≡ true }
        requires session { is_some (value_at self.old.sessions session) ≡ true }
        ensures in_world { OnOk result ((held : Session) → value_at self.old.sessions session ≡ Some held →
            ChangesClient self.old self.new number (with_client_entry (enqueued (update_of (close status now held))))) }
        ensures hubs { self.new.hubs ≡ self.old.hubs }
        ensures next { self.new.next ≡ self.old.next }
        ensures err { OnErr result (self.new ≡ self.old) }
    {
        let Some(held) = self.sessions.get(session) else {
            unreachable!()
        };
        let Some(client) = self.clients.get_mut(number) else {
            unreachable!()
        };
        client.queues.sessions.mark_closed(held, status, now)?;
        Ok(())
    }

    /// Takes out all that waits in the queue of a client that is held, and the last update of a session, which sends it.
    /// If out of memory, nothing has changed.
    #[tactic(auto, using(sentry_plain::proofs::ChangeLemmas::changed_same))]
    pub fn take_sessions(
        &mut self,
        number: u64,
        update: SessionUpdate,
    ) -> Result<TakenSessions, AllocError>
        requires held { is_some (value_at self.old.clients number) ≡ true }
        requires sends { (client : ClientState C) → value_at self.old.clients number ≡ Some client →
            fills_queue update client.queues.sessions ≡ true }
        ensures in_world { OnOk result (ChangesClient self.old self.new number (with_client_entry (enqueued update))) }
        ensures sent { IfOk result (λ taken. (client : ClientHistory C) →
            value_at self.old.clients number ≡ Some (stored_client client) →
            taken_envelopes taken ≡ envelopes_on client.options.plain.session_mode update client.queues.sessions) }
        ensures room { IfOk result HasRoom }
        ensures hubs { self.new.hubs ≡ self.old.hubs }
        ensures next { self.new.next ≡ self.old.next }
        ensures err { OnErr result (self.new ≡ self.old) }
    {
        let Some(client) = self.clients.get_mut(number) else {
            unreachable!()
        };
        let taken = client.queues.sessions.take_on(update)?;
        Ok(taken)
    }

    /// Puts a log into the batch of a client that is held. Returns all that are queued, if they are then as
    /// many as the client's limit says. If out of memory, nothing has changed.
    #[tactic(auto, using(sentry_plain::proofs::ChangeLemmas::changed_same))]
    pub fn enqueue_log(&mut self, number: u64, log: Log) -> Result<Option<Items<Log>>, AllocError>
        requires { is_some (value_at self.old.clients number) ≡ true }
        ensures in_world { OnOk result (ChangesClient self.old self.new number (with_log_entry (accept log))) }
        ensures batch { IfOk result (λ batch. (client : ClientHistory C) →
            value_at self.old.clients number ≡ Some (stored_client client) →
            batch ≡ batch_on client.options.plain.max_batch_items (accept log) client.queues.logs) }
        ensures err { OnErr result (self.new ≡ self.old) }
    {
        let Some(client) = self.clients.get_mut(number) else {
            unreachable!()
        };
        let batch = client.queues.logs.enqueue(log)?;
        Ok(batch)
    }

    /// The same of a metric.
    #[tactic(auto, using(sentry_plain::proofs::ChangeLemmas::changed_same))]
    pub fn enqueue_metric(
        &mut self,
        number: u64,
        metric: Metric,
    ) -> Result<Option<Items<Metric>>, AllocError>
        requires { is_some (value_at self.old.clients number) ≡ true }
        ensures in_world { OnOk result (ChangesClient self.old self.new number (with_metric_entry (accept metric))) }
        ensures batch { IfOk result (λ batch. (client : ClientHistory C) →
            value_at self.old.clients number ≡ Some (stored_client client) →
            batch ≡ batch_on client.options.plain.max_batch_items (accept metric) client.queues.metrics) }
        ensures err { OnErr result (self.new ≡ self.old) }
    {
        let Some(client) = self.clients.get_mut(number) else {
            unreachable!()
        };
        let batch = client.queues.metrics.enqueue(metric)?;
        Ok(batch)
    }
}
