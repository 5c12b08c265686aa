//! The calls on logs and metrics.
ghost use Rattle.sentry_state.specs.Outcomes.{Does};
ghost use Rattle.sentry_calls.specs.Telemetry as call;

use crate::engine::{Engine, Out};
use sentry_base::protocol::{ClientKey, HubKey, Log, MetricDraft, Refusal};
use sentry_options::Callbacks;
use sentry_scope::Scope;
use sentry_telemetry::telemetry::{client_log, client_metric, keep_log, keep_metric};

impl<P: Drop, C: Callbacks> Engine<P, C> {
    /// Captures a log of a client, under a scope: it gets what the scope and the client fill in, goes through
    /// `before_send_log`, and waits with the client's other logs. When they are as many as the option
    /// `max_batch_items` says, all are sent, in an envelope with the pending report as its last item. A log that the
    /// callback drops counts as lost, also where the client is closed or has no transport; a closed client drops any
    /// other log, which is not counted.
    ///
    /// `Stale`: the client isn't held, or the span of the scope isn't. `OutOfMemory`.
    #[tactic(auto, unfolding(sentry_calls::specs::Telemetry::client_capture_log))]
    pub fn client_capture_log(
        &mut self,
        client: ClientKey,
        log: Log,
        scope: &Scope<P>,
    ) -> Result<Out<()>, Refusal>
        ensures { Does self.old self.new result (call.client_capture_log C.meanings client log scope.now) }
    {
        let Some(held) = self.state.client_at(client) else {
            return Err(Refusal::Stale);
        };
        if !self.state.holds_span(scope.span) {
            return Err(Refusal::Stale);
        }
        let label = held.label;
        let made = client_log(held, self.state.span_table(), scope, log)?;
        let sent = keep_log(&mut self.state, client, label, made)?;
        Ok(Out { reply: (), sent })
    }

    /// Captures a metric of a client, under a scope, as `client_capture_log` does a log, with `before_send_metric`.
    /// `now` is its moment in nanoseconds since the epoch.
    ///
    /// `Stale`: the client isn't held, or the span of the scope isn't. `OutOfMemory`.
    #[tactic(auto, unfolding(sentry_calls::specs::Telemetry::client_capture_metric))]
    pub fn client_capture_metric(
        &mut self,
        client: ClientKey,
        draft: MetricDraft,
        scope: &Scope<P>,
        now: u64,
    ) -> Result<Out<()>, Refusal>
        ensures { Does self.old self.new result (call.client_capture_metric C.meanings client draft scope.now now) }
    {
        let Some(held) = self.state.client_at(client) else {
            return Err(Refusal::Stale);
        };
        if !self.state.holds_span(scope.span) {
            return Err(Refusal::Stale);
        }
        let label = held.label;
        let spans = self.state.span_table();
        let made = client_metric(held, spans, scope, now, draft)?;
        let sent = keep_metric(&mut self.state, client, label, made)?;
        Ok(Out { reply: (), sent })
    }

    /// Captures a log on a hub, under the client and the scope of its top layer, as `client_capture_log` does. Without
    /// a client nothing happens.
    ///
    /// `Stale`: the hub isn't held. `OutOfMemory`.
    #[tactic(auto, unfolding(sentry_calls::specs::Telemetry::capture_log))]
    pub fn capture_log(&mut self, hub: HubKey, log: Log) -> Result<Out<()>, Refusal>
        ensures { Does self.old self.new result (call.capture_log C.meanings hub log) }
    {
        let Some(held) = self.state.hub_at(hub) else {
            return Err(Refusal::Stale);
        };
        let Some(key) = held.stack.top.client else {
            return Ok(self.state.out(()));
        };
        let Some(client) = self.state.client_at(key) else {
            return Ok(self.state.out(()));
        };
        let label = client.label;
        let (spans, scope) = (self.state.span_table(), &held.stack.top.scope);
        let made = client_log(client, spans, scope, log)?;
        let sent = keep_log(&mut self.state, key, label, made)?;
        Ok(Out { reply: (), sent })
    }

    /// Captures a metric on a hub, under the client and the scope of its top layer, as `client_capture_metric` does.
    /// `now` is its moment in nanoseconds since the epoch. Without a client nothing happens.
    ///
    /// `Stale`: the hub isn't held. `OutOfMemory`.
    #[tactic(auto, unfolding(sentry_calls::specs::Telemetry::capture_metric))]
    pub fn capture_metric(
        &mut self,
        hub: HubKey,
        draft: MetricDraft,
        now: u64,
    ) -> Result<Out<()>, Refusal>
        ensures { Does self.old self.new result (call.capture_metric C.meanings hub draft now) }
    {
        let Some(held) = self.state.hub_at(hub) else {
            return Err(Refusal::Stale);
        };
        let Some(key) = held.stack.top.client else {
            return Ok(self.state.out(()));
        };
        let Some(client) = self.state.client_at(key) else {
            return Ok(self.state.out(()));
        };
        let label = client.label;
        let (spans, scope) = (self.state.span_table(), &held.stack.top.scope);
        let made = client_metric(client, spans, scope, now, draft)?;
        let sent = keep_metric(&mut self.state, key, label, made)?;
        Ok(Out { reply: (), sent })
    }
}
