//! Calls on clients that are made by methods of their own, and those with guards of layers: each is the engine's, beside a
//! share of the transports.

ghost use Rattle.std.specs.Prelude.{◌≡◌, Ok, Err, IfOk, IfErr, option_copied};
ghost use Rattle.sentry_calls.specs.Clients as clients;
ghost use Rattle.sentry_calls.specs.Layers as layers;
ghost use Rattle.sentry_calls.specs.Telemetry as telemetry;
ghost use Rattle.sentry_state.specs.Outcomes.{Does};
ghost use Rattle.sentry_lock.specs.Locked.{DrainsAll, DrainsAndDoes, Replies};

use crate::handed::Handed;
use crate::locked::Core;
use sentry_base::callbacks::EventCallback;
use sentry_base::protocol::{
    ClientKey, Envelope, Event, Fresh, HubKey, Log, MetricDraft, Refusal, Uuid,
};
use sentry_engine::ScopeGuard;
use sentry_options::Callbacks;
use sentry_plain::Boxed;
use sentry_scope::Scope;

impl<P: EventCallback + Drop, C: Callbacks, T: Drop> Core<P, C, T> {
    /// The event as a client would send it.
    pub(crate) fn prepare_event(
        &mut self,
        client: ClientKey,
        event: Event,
        scope: Option<&Scope<P>>,
        fresh: Fresh,
    ) -> Result<Option<Boxed<Event>>, Refusal>
        ensures done { IfOk result (λ reply. Replies self.old.engine self.new.engine reply
            (clients.prepare_event P.gives C.meanings client event (option_copied scope.entry) fresh)) }
        ensures refused { IfErr result (λ refusal. Does self.old.engine self.new.engine
            (Err refusal) (clients.prepare_event P.gives C.meanings client event (option_copied scope.entry) fresh)) }
        ensures drainers { self.new.drainers ≡ self.old.drainers }
        ensures labels { self.new.next_label ≡ self.old.next_label }
    {
        let out = self.engine.prepare_event(client, event, scope, fresh)?;
        Ok(out.reply)
    }

    /// Captures an event of a client.
    pub(crate) fn client_capture_event(
        &mut self,
        client: ClientKey,
        event: Event,
        scope: Option<&Scope<P>>,
        fresh: Fresh,
    ) -> Result<Handed<Uuid, T>, Refusal>
        ensures done { IfOk result (λ handed. DrainsAndDoes self.old.tag self.old.engine self.new.engine
            self.old.drainers self.new.drainers (Ok handed.out) (clients.client_capture_event P.gives C.meanings client event (option_copied scope.entry) fresh)) }
        ensures refused { IfErr result (λ _.
            DrainsAll self.old.tag self.old.engine self.new.engine self.old.drainers self.new.drainers) }
        ensures labels { self.new.next_label ≡ self.old.next_label }
    {
        let transports = self.drained()?;
        let out = self
            .engine
            .client_capture_event(client, event, scope, fresh)?;
        Ok(Handed {
            out,
            transports: Some(transports),
        })
    }

    /// Captures a log of a client.
    pub(crate) fn client_capture_log(
        &mut self,
        client: ClientKey,
        log: Log,
        scope: &Scope<P>,
    ) -> Result<Handed<(), T>, Refusal>
        ensures done { IfOk result (λ handed. DrainsAndDoes self.old.tag self.old.engine self.new.engine
            self.old.drainers self.new.drainers (Ok handed.out) (telemetry.client_capture_log C.meanings client log scope.now)) }
        ensures refused { IfErr result (λ _.
            DrainsAll self.old.tag self.old.engine self.new.engine self.old.drainers self.new.drainers) }
        ensures labels { self.new.next_label ≡ self.old.next_label }
    {
        let transports = self.drained()?;
        let out = self.engine.client_capture_log(client, log, scope)?;
        Ok(Handed {
            out,
            transports: Some(transports),
        })
    }

    /// Captures a metric of a client.
    pub(crate) fn client_capture_metric(
        &mut self,
        client: ClientKey,
        draft: MetricDraft,
        scope: &Scope<P>,
        now: u64,
    ) -> Result<Handed<(), T>, Refusal>
        ensures done { IfOk result (λ handed. DrainsAndDoes self.old.tag self.old.engine self.new.engine
            self.old.drainers self.new.drainers (Ok handed.out) (telemetry.client_capture_metric C.meanings client draft scope.now now)) }
        ensures refused { IfErr result (λ _.
            DrainsAll self.old.tag self.old.engine self.new.engine self.old.drainers self.new.drainers) }
        ensures labels { self.new.next_label ≡ self.old.next_label }
    {
        let transports = self.drained()?;
        let out = self
            .engine
            .client_capture_metric(client, draft, scope, now)?;
        Ok(Handed {
            out,
            transports: Some(transports),
        })
    }

    /// Sends an envelope of a client.
    pub(crate) fn send_envelope(
        &mut self,
        client: ClientKey,
        envelope: Envelope,
    ) -> Result<Handed<(), T>, Refusal>
        ensures done { IfOk result (λ handed. DrainsAndDoes self.old.tag self.old.engine self.new.engine
            self.old.drainers self.new.drainers (Ok handed.out) (clients.send_envelope client envelope)) }
        ensures refused { IfErr result (λ _.
            DrainsAll self.old.tag self.old.engine self.new.engine self.old.drainers self.new.drainers) }
        ensures labels { self.new.next_label ≡ self.old.next_label }
    {
        let transports = self.drained()?;
        let out = self.engine.send_envelope(client, envelope)?;
        Ok(Handed {
            out,
            transports: Some(transports),
        })
    }

    /// Flushes the queues of a client.
    pub(crate) fn flush(&mut self, client: ClientKey) -> Result<Handed<(), T>, Refusal>
        ensures done { IfOk result (λ handed. DrainsAndDoes self.old.tag self.old.engine self.new.engine
            self.old.drainers self.new.drainers (Ok handed.out) (clients.flush client)) }
        ensures refused { IfErr result (λ _.
            DrainsAll self.old.tag self.old.engine self.new.engine self.old.drainers self.new.drainers) }
        ensures labels { self.new.next_label ≡ self.old.next_label }
    {
        let transports = self.drained()?;
        let out = self.engine.flush(client)?;
        Ok(Handed {
            out,
            transports: Some(transports),
        })
    }

    /// Tells a client the moment.
    pub(crate) fn tick(&mut self, client: ClientKey, now: u64) -> Result<Handed<(), T>, Refusal>
        ensures done { IfOk result (λ handed. DrainsAndDoes self.old.tag self.old.engine self.new.engine
            self.old.drainers self.new.drainers (Ok handed.out) (clients.tick client now)) }
        ensures refused { IfErr result (λ _.
            DrainsAll self.old.tag self.old.engine self.new.engine self.old.drainers self.new.drainers) }
        ensures labels { self.new.next_label ≡ self.old.next_label }
    {
        let transports = self.drained()?;
        let out = self.engine.tick(client, now)?;
        Ok(Handed {
            out,
            transports: Some(transports),
        })
    }

    /// Closes a client.
    pub(crate) fn close(&mut self, client: ClientKey) -> Result<Handed<(), T>, Refusal>
        ensures done { IfOk result (λ handed. DrainsAndDoes self.old.tag self.old.engine self.new.engine
            self.old.drainers self.new.drainers (Ok handed.out) (clients.close client)) }
        ensures refused { IfErr result (λ _.
            DrainsAll self.old.tag self.old.engine self.new.engine self.old.drainers self.new.drainers) }
        ensures labels { self.new.next_label ≡ self.old.next_label }
    {
        let transports = self.drained()?;
        let out = self.engine.close(client)?;
        Ok(Handed {
            out,
            transports: Some(transports),
        })
    }

    /// Pushes a copy of a hub's top layer.
    pub(crate) fn push_scope(&mut self, hub: HubKey) -> Result<ScopeGuard, Refusal>
        ensures done { IfOk result (λ reply. Replies self.old.engine self.new.engine reply
            (layers.push_scope hub)) }
        ensures refused { IfErr result (λ refusal. Does self.old.engine self.new.engine
            (Err refusal) (layers.push_scope hub)) }
        ensures drainers { self.new.drainers ≡ self.old.drainers }
        ensures labels { self.new.next_label ≡ self.old.next_label }
    {
        let out = self.engine.push_scope(hub)?;
        Ok(out.reply)
    }

    /// Removes the layer that a guard stands for.
    pub(crate) fn pop_scope(
        &mut self,
        guard: ScopeGuard,
        now: u64,
    ) -> Result<Handed<(), T>, (Refusal, ScopeGuard)>
        ensures done { IfOk result (λ handed. DrainsAndDoes self.old.tag self.old.engine self.new.engine
            self.old.drainers self.new.drainers (Ok handed.out) (layers.pop_scope guard.0 guard.1 now)) }
        ensures refused { IfErr result (λ refused.
            DrainsAll self.old.tag self.old.engine self.new.engine self.old.drainers self.new.drainers × (refused.1 ≡ guard)) }
        ensures labels { self.new.next_label ≡ self.old.next_label }
    {
        let Ok(transports) = self.drained() else {
            return Err((Refusal::OutOfMemory, guard));
        };
        let out = self.engine.pop_scope(guard, now)?;
        Ok(Handed {
            out,
            transports: Some(transports),
        })
    }
}
