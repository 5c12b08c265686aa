//! Calls on hubs that are made by methods of their own: no value of a call or of a reply is made for them.

ghost use Rattle.std.specs.Prelude.{◌≡◌, Ok, Err, IfOk, IfErr};
ghost use Rattle.sentry_calls.specs.Active.{if_active};
ghost use Rattle.sentry_calls.specs.Hubs as hubs;
ghost use Rattle.sentry_calls.specs.Layers as layers;
ghost use Rattle.sentry_calls.specs.Sessions as sessions;
ghost use Rattle.sentry_calls.specs.Telemetry as telemetry;
ghost use Rattle.sentry_events.specs.Captures as captures;
ghost use Rattle.sentry_state.specs.Breadcrumbs.{add_breadcrumbs};
ghost use Rattle.sentry_state.specs.Outcomes.{Does, DoesWithoutMemory};
ghost use Rattle.sentry_lock.specs.Locked.{DrainsAll, DrainsAndDoes, Replies, RepliesWithoutMemory};

use crate::handed::Handed;
use crate::locked::Core;
use sentry_base::callbacks::EventCallback;
use sentry_base::protocol::{
    Breadcrumb, ClientKey, ErrorLink, Event, Fresh, HubKey, Level, Log, MetricDraft, Refusal,
    SessionStatus, Uuid,
};
use sentry_options::Callbacks;
use sentry_plain::Few;
use sentry_scope::{Scope, ScopeEdit};

impl<P: EventCallback + Drop, C: Callbacks, T: Drop> Core<P, C, T> {
    /// Captures an event on a hub.
    pub(crate) fn capture_event(
        &mut self,
        hub: HubKey,
        event: Event,
        fresh: Fresh,
    ) -> Result<Handed<Uuid, T>, Refusal>
        ensures done { IfOk result (λ handed. DrainsAndDoes self.old.tag self.old.engine self.new.engine
            self.old.drainers self.new.drainers (Ok handed.out) (captures.capture_event P.gives C.meanings hub event fresh)) }
        ensures refused { IfErr result (λ _.
            DrainsAll self.old.tag self.old.engine self.new.engine self.old.drainers self.new.drainers) }
        ensures labels { self.new.next_label ≡ self.old.next_label }
    {
        let transports = self.drained()?;
        let out = self.engine.capture_event(hub, event, fresh)?;
        Ok(Handed {
            out,
            transports: Some(transports),
        })
    }

    /// Captures a message on a hub.
    pub(crate) fn capture_message(
        &mut self,
        hub: HubKey,
        message: &str,
        level: Level,
        fresh: Fresh,
    ) -> Result<Handed<Uuid, T>, Refusal>
        ensures done { IfOk result (λ handed. DrainsAndDoes self.old.tag self.old.engine self.new.engine
            self.old.drainers self.new.drainers (Ok handed.out) (hubs.capture_message P.gives C.meanings hub message.now level fresh)) }
        ensures refused { IfErr result (λ _.
            DrainsAll self.old.tag self.old.engine self.new.engine self.old.drainers self.new.drainers) }
        ensures labels { self.new.next_label ≡ self.old.next_label }
    {
        let transports = self.drained()?;
        let out = self.engine.capture_message(hub, message, level, fresh)?;
        Ok(Handed {
            out,
            transports: Some(transports),
        })
    }

    /// Captures an error on a hub, by its links, outermost first.
    pub(crate) fn capture_error(
        &mut self,
        hub: HubKey,
        links: &[ErrorLink],
        fresh: Fresh,
    ) -> Result<Handed<Uuid, T>, Refusal>
        ensures done { IfOk result (λ handed. DrainsAndDoes self.old.tag self.old.engine self.new.engine
            self.old.drainers self.new.drainers (Ok handed.out) (hubs.capture_error P.gives C.meanings hub links.now fresh)) }
        ensures refused { IfErr result (λ _.
            DrainsAll self.old.tag self.old.engine self.new.engine self.old.drainers self.new.drainers) }
        ensures labels { self.new.next_label ≡ self.old.next_label }
    {
        let transports = self.drained()?;
        let out = self.engine.capture_error(hub, links, fresh)?;
        Ok(Handed {
            out,
            transports: Some(transports),
        })
    }

    /// Captures a log on a hub.
    pub(crate) fn capture_log(&mut self, hub: HubKey, log: Log) -> Result<Handed<(), T>, Refusal>
        ensures done { IfOk result (λ handed. DrainsAndDoes self.old.tag self.old.engine self.new.engine
            self.old.drainers self.new.drainers (Ok handed.out) (telemetry.capture_log C.meanings hub log)) }
        ensures refused { IfErr result (λ _.
            DrainsAll self.old.tag self.old.engine self.new.engine self.old.drainers self.new.drainers) }
        ensures labels { self.new.next_label ≡ self.old.next_label }
    {
        let transports = self.drained()?;
        let out = self.engine.capture_log(hub, log)?;
        Ok(Handed {
            out,
            transports: Some(transports),
        })
    }

    /// Captures a metric on a hub.
    pub(crate) fn capture_metric(
        &mut self,
        hub: HubKey,
        draft: MetricDraft,
        now: u64,
    ) -> Result<Handed<(), T>, Refusal>
        ensures done { IfOk result (λ handed. DrainsAndDoes self.old.tag self.old.engine self.new.engine
            self.old.drainers self.new.drainers (Ok handed.out) (telemetry.capture_metric C.meanings hub draft now)) }
        ensures refused { IfErr result (λ _.
            DrainsAll self.old.tag self.old.engine self.new.engine self.old.drainers self.new.drainers) }
        ensures labels { self.new.next_label ≡ self.old.next_label }
    {
        let transports = self.drained()?;
        let out = self.engine.capture_metric(hub, draft, now)?;
        Ok(Handed {
            out,
            transports: Some(transports),
        })
    }

    /// Makes calls of setters on the top scope of a hub.
    pub(crate) fn configure(
        &mut self,
        hub: HubKey,
        edits: Vec<ScopeEdit<P>>,
        now: u64,
    ) -> Result<Handed<(), T>, Refusal>
        ensures done { IfOk result (λ handed. DrainsAndDoes self.old.tag self.old.engine self.new.engine
            self.old.drainers self.new.drainers (Ok handed.out) (hubs.configure hub edits.items now)) }
        ensures refused { IfErr result (λ _.
            DrainsAll self.old.tag self.old.engine self.new.engine self.old.drainers self.new.drainers) }
        ensures labels { self.new.next_label ≡ self.old.next_label }
    {
        let transports = self.drained()?;
        let out = self.engine.configure(hub, edits, now)?;
        Ok(Handed {
            out,
            transports: Some(transports),
        })
    }

    /// Starts a session on a hub.
    pub(crate) fn start_session(
        &mut self,
        hub: HubKey,
        fresh: Fresh,
    ) -> Result<Handed<(), T>, Refusal>
        ensures done { IfOk result (λ handed. DrainsAndDoes self.old.tag self.old.engine self.new.engine
            self.old.drainers self.new.drainers (Ok handed.out) (sessions.start_session hub fresh)) }
        ensures refused { IfErr result (λ _.
            DrainsAll self.old.tag self.old.engine self.new.engine self.old.drainers self.new.drainers) }
        ensures labels { self.new.next_label ≡ self.old.next_label }
    {
        self.drain_and_make_ready()?;
        let out = self.engine.start_session(hub, fresh)?;
        let transports = self.routes.take_for(&out.sent);
        Ok(Handed { out, transports })
    }

    /// The same, if the hub is active.
    pub(crate) fn start_active_session(
        &mut self,
        hub: HubKey,
        fresh: Fresh,
    ) -> Result<Handed<(), T>, Refusal>
        ensures done { IfOk result (λ handed. DrainsAndDoes self.old.tag self.old.engine self.new.engine
            self.old.drainers self.new.drainers (Ok handed.out) (if_active hub (sessions.start_session hub fresh))) }
        ensures refused { IfErr result (λ _.
            DrainsAll self.old.tag self.old.engine self.new.engine self.old.drainers self.new.drainers) }
        ensures labels { self.new.next_label ≡ self.old.next_label }
    {
        self.drain_and_make_ready()?;
        let out = self.engine.start_active_session(hub, fresh)?;
        let transports = self.routes.take_for(&out.sent);
        Ok(Handed { out, transports })
    }

    /// Ends the session of a hub with a status.
    pub(crate) fn end_session_with_status(
        &mut self,
        hub: HubKey,
        status: SessionStatus,
        now: u64,
    ) -> Result<Handed<(), T>, Refusal>
        ensures done { IfOk result (λ handed. DrainsAndDoes self.old.tag self.old.engine self.new.engine
            self.old.drainers self.new.drainers (Ok handed.out) (sessions.end_session_with_status hub status now)) }
        ensures refused { IfErr result (λ _.
            DrainsAll self.old.tag self.old.engine self.new.engine self.old.drainers self.new.drainers) }
        ensures labels { self.new.next_label ≡ self.old.next_label }
    {
        self.drain_and_make_ready()?;
        let out = self.engine.end_session_with_status(hub, status, now)?;
        let transports = self.routes.take_for(&out.sent);
        Ok(Handed { out, transports })
    }

    /// The same, if the hub is active.
    pub(crate) fn end_active_session(
        &mut self,
        hub: HubKey,
        status: SessionStatus,
        now: u64,
    ) -> Result<Handed<(), T>, Refusal>
        ensures done { IfOk result (λ handed. DrainsAndDoes self.old.tag self.old.engine self.new.engine
            self.old.drainers self.new.drainers (Ok handed.out) (if_active hub (sessions.end_session_with_status hub status now))) }
        ensures refused { IfErr result (λ _.
            DrainsAll self.old.tag self.old.engine self.new.engine self.old.drainers self.new.drainers) }
        ensures labels { self.new.next_label ≡ self.old.next_label }
    {
        self.drain_and_make_ready()?;
        let out = self.engine.end_active_session(hub, status, now)?;
        let transports = self.routes.take_for(&out.sent);
        Ok(Handed { out, transports })
    }

    /// Gives a hub back.
    pub(crate) fn release_hub(&mut self, hub: HubKey, now: u64) -> Result<Handed<(), T>, Refusal>
        ensures done { IfOk result (λ handed. DrainsAndDoes self.old.tag self.old.engine self.new.engine
            self.old.drainers self.new.drainers (Ok handed.out) (layers.release_hub hub now)) }
        ensures refused { IfErr result (λ _.
            DrainsAll self.old.tag self.old.engine self.new.engine self.old.drainers self.new.drainers) }
        ensures labels { self.new.next_label ≡ self.old.next_label }
    {
        let transports = self.drained()?;
        let out = self.engine.release_hub(hub, now)?;
        Ok(Handed {
            out,
            transports: Some(transports),
        })
    }

    /// Adds breadcrumbs to the trail of a hub.
    pub(crate) fn add_breadcrumbs(
        &mut self,
        hub: HubKey,
        breadcrumbs: Few<Breadcrumb>,
    ) -> Result<(), Refusal>
        ensures done { IfOk result (λ reply. Replies self.old.engine self.new.engine reply
            (add_breadcrumbs C.meanings hub breadcrumbs)) }
        ensures refused { IfErr result (λ refusal. Does self.old.engine self.new.engine
            (Err refusal) (add_breadcrumbs C.meanings hub breadcrumbs)) }
        ensures drainers { self.new.drainers ≡ self.old.drainers }
        ensures labels { self.new.next_label ≡ self.old.next_label }
    {
        let out = self.engine.add_breadcrumbs(hub, breadcrumbs)?;
        Ok(out.reply)
    }

    /// Adds a hub with one layer.
    pub(crate) fn new_hub(
        &mut self,
        client: Option<ClientKey>,
        scope: Scope<P>,
    ) -> Result<HubKey, Refusal>
        ensures done { IfOk result (λ reply. Replies self.old.engine self.new.engine reply
            (hubs.new_hub client scope)) }
        ensures refused { IfErr result (λ refusal. Does self.old.engine self.new.engine
            (Err refusal) (hubs.new_hub client scope)) }
        ensures drainers { self.new.drainers ≡ self.old.drainers }
        ensures labels { self.new.next_label ≡ self.old.next_label }
    {
        let out = self.engine.new_hub(client, scope)?;
        Ok(out.reply)
    }

    /// Adds a hub with a copy of the top layer of another one.
    pub(crate) fn new_hub_from_top(&mut self, hub: HubKey) -> Result<HubKey, Refusal>
        ensures done { IfOk result (λ reply. Replies self.old.engine self.new.engine reply
            (layers.new_hub_from_top hub)) }
        ensures refused { IfErr result (λ refusal. Does self.old.engine self.new.engine
            (Err refusal) (layers.new_hub_from_top hub)) }
        ensures drainers { self.new.drainers ≡ self.old.drainers }
        ensures labels { self.new.next_label ≡ self.old.next_label }
    {
        let out = self.engine.new_hub_from_top(hub)?;
        Ok(out.reply)
    }

    /// Gives the top layer of a hub another client, or none.
    pub(crate) fn bind_client(
        &mut self,
        hub: HubKey,
        client: Option<ClientKey>,
    ) -> Result<(), Refusal>
        ensures done { IfOk result (λ reply. RepliesWithoutMemory self.old.engine self.new.engine reply
            (layers.bind_client hub client)) }
        ensures refused { IfErr result (λ refusal. DoesWithoutMemory self.old.engine self.new.engine
            (Err refusal) (layers.bind_client hub client)) }
        ensures drainers { self.new.drainers ≡ self.old.drainers }
        ensures labels { self.new.next_label ≡ self.old.next_label }
    {
        let out = self.engine.bind_client(hub, client)?;
        Ok(out.reply)
    }
}
