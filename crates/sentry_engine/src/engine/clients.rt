//! The calls on clients.
ghost use Rattle.std.specs.Prelude.{◌≡◌, Ok, [], nat_lt};
ghost use Rattle.std.specs.Option.{option_copied};
ghost use Rattle.sentry_state.specs.Outcomes.{Does, DoesWithoutMemory};
ghost use Rattle.sentry_state.specs.Worlds.{World, Stands};
ghost use Rattle.sentry_calls.specs.Clients.{holds_active_span};
ghost use Rattle.sentry_calls.specs.Clients as call;

use crate::engine::{Engine, Out};
use sentry_base::callbacks::EventCallback;
use sentry_base::protocol::{
    ClientKey, Draw, Envelope, Event, Fresh, Label, Refusal, SampleRate, Uuid,
};
use sentry_events::captures::{
    capture, captured_envelopes, captured_id, drop_unsent, note_capture, record_lost_event,
};
use sentry_options::{Callbacks, ClientOptions};
use sentry_pipeline::pipeline::prepare_event;
use sentry_plain::{Boxed, Items, Shared};
use sentry_scope::Scope;
use sentry_state::state::clients::{clone_of, new_client};
use sentry_telemetry::flushes::{Flush, flush_queues};
use sentry_texts::dsn::Dsn;
use std::alloc::Global;

impl<P: Drop, C: Callbacks> Engine<P, C> {
    /// Adds a client with these options, after the `setup` of its integrations, and answers its key. Its losses go to
    /// the book of the label. `transport` says whether there is one to send its envelopes, which it does if the options
    /// have a DSN before any `setup`. `now` is the moment in nanoseconds since the epoch. It is that of an event which
    /// goes through the integrations, so that they say what logs tell of the operating system by default.
    ///
    /// `ForeignLosses`: the label has another tag than the engine. `Full`: the numbers are used up. `OutOfMemory`.
    #[tactic(auto, unfolding(sentry_calls::specs::Clients::add_client))]
    pub fn add_client(
        &mut self,
        options: ClientOptions<C>,
        transport: bool,
        label: Label,
        now: u64,
    ) -> Result<Out<ClientKey>, Refusal>
        ensures { Does self.old self.new result (call.add_client C.meanings options transport label now) }
    {
        if label.tag != self.state.tag {
            return Err(Refusal::ForeignLosses);
        }
        if self.state.next.client == u64::MAX {
            return Err(Refusal::Full);
        }
        let number = self.state.next.client;
        let client = new_client(self.state.alloc, options, transport, label, now)?;
        self.state.insert_client_and_book(number, client)?;
        self.state.next.client = number + 1;
        Ok(
            self.state.out(ClientKey {
                tag: self.state.tag,
                number,
            }),
        )
    }

    /// Adds a client with the options, the label and the transport of another, and answers its key. Their options and
    /// callbacks are shared. Its queues are its own: nothing waits in them, and `now`, in nanoseconds since the epoch,
    /// is the moment from which ticks count. A clone of a closed client sends nothing.
    ///
    /// `Stale`: the client isn't held. `Full`: the numbers are used up. `OutOfMemory`.
    #[tactic(auto, unfolding(sentry_calls::specs::Clients::clone_client))]
    pub fn clone_client(&mut self, client: ClientKey, now: u64) -> Result<Out<ClientKey>, Refusal>
        ensures { Does self.old self.new result (call.clone_client client now) }
    {
        let Some(held) = self.state.client_at(client) else {
            return Err(Refusal::Stale);
        };
        if self.state.next.client == u64::MAX {
            return Err(Refusal::Full);
        }
        let number = self.state.next.client;
        let clone = clone_of(self.state.alloc, held, now)?;
        self.state.insert_client(number, clone)?;
        self.state.next.client = number + 1;
        Ok(
            self.state.out(ClientKey {
                tag: self.state.tag,
                number,
            }),
        )
    }

    /// Gives a client back, which no layer of a hub names and under which no session and no transaction goes on. What
    /// waits in its queues is sent, as by `flush`. Its key is stale from then on. With the last client of a label go the losses that are
    /// pending under it.
    ///
    /// `Stale`: the client isn't held. `StillNamed`: a layer of a hub names it, a session that goes on started under it,
    /// or it will send a transaction that is unfinished. `OutOfMemory`.
    #[tactic(auto, unfolding(sentry_calls::specs::Clients::drop_client))]
    pub fn drop_client(&mut self, client: ClientKey) -> Result<Out<()>, Refusal>
        ensures { Does self.old self.new result (call.drop_client client) }
    {
        let Some(held) = self.state.client_at(client) else {
            return Err(Refusal::Stale);
        };
        let label = held.label;
        if self.state.hubs.is_client_named(client) {
            return Err(Refusal::StillNamed);
        }
        if self.state.has_session_of(client) {
            return Err(Refusal::StillNamed);
        }
        if self.state.span_table().has_transaction_of(client) {
            return Err(Refusal::StillNamed);
        }
        let sent = flush_queues(&mut self.state, client, Flush::All)?;
        self.state.remove_client(client.number);
        self.state.remove_unused_book(label);
        Ok(Out { reply: (), sent })
    }

    /// The options of a client, as a share: after the `setup` of its integrations, which are among them.
    ///
    /// `Stale`: the client isn't held. `OutOfMemory`.
    #[tactic(auto, unfolding(sentry_calls::specs::Clients::options))]
    pub fn options(&self, client: ClientKey) -> Result<Out<Shared<ClientOptions<C>>>, Refusal>
        ensures { Does self.now self.now result (call.options client) }
    {
        let Some(held) = self.state.client_at(client) else {
            return Err(Refusal::Stale);
        };
        let options = held.options.clone()?;
        Ok(self.state.out(options))
    }

    /// Where a client sends to, if anywhere.
    ///
    /// `Stale`: the client isn't held. `OutOfMemory`.
    #[tactic(auto, unfolding(sentry_calls::specs::Clients::dsn))]
    pub fn dsn(&self, client: ClientKey) -> Result<Out<Option<Dsn>>, Refusal>
        ensures { Does self.now self.now result (call.dsn client) }
    {
        let Some(held) = self.state.client_at(client) else {
            return Err(Refusal::Stale);
        };
        let dsn = held.options.get().plain.dsn.clone()?;
        Ok(self.state.out(dsn))
    }

    /// Whether a client has a DSN, now and when it was added, and a transport.
    ///
    /// `Stale`: the client isn't held.
    #[tactic(auto, unfolding(sentry_calls::specs::Clients::is_enabled))]
    pub fn is_enabled(&self, client: ClientKey) -> Result<Out<bool>, Refusal>
        ensures { DoesWithoutMemory self.now self.now result (call.is_enabled client) }
    {
        let Some(held) = self.state.client_at(client) else {
            return Err(Refusal::Stale);
        };
        Ok(self.state.out(held.is_enabled()))
    }

    /// Whether what has this draw is sent at this rate. It takes no memory, and is never refused.
    #[tactic(auto, unfolding(sentry_calls::specs::Clients::sample_should_send))]
    pub fn sample_should_send(&self, rate: SampleRate, draw: Draw) -> Result<Out<bool>, Refusal>
        ensures does { DoesWithoutMemory self.now self.now result (call.sample_should_send rate draw) }
        ensures answers { result ≡ Ok (record { reply = nat_lt draw rate; sent = [] }) }
    {
        Ok(self.state.out(rate.keeps(draw)))
    }

    /// Sends an envelope, with the pending report as its last item. Without a transport nothing is sent.
    ///
    /// `Stale`: the client isn't held. `OutOfMemory`.
    #[tactic(auto, unfolding(sentry_calls::specs::Clients::send_envelope))]
    pub fn send_envelope(
        &mut self,
        client: ClientKey,
        mut envelope: Envelope,
    ) -> Result<Out<()>, Refusal>
        ensures { Does self.old self.new result (call.send_envelope client envelope) }
    {
        let Some(held) = self.state.client_at(client) else {
            return Err(Refusal::Stale);
        };
        if !held.occupied {
            return Ok(self.state.out(()));
        }
        let label = held.label;
        envelope.add_report(self.state.pending_report(label)?)?;
        let mut sent = Vec::with_capacity(self.state.alloc, 1)?;
        sent.push_reserved((client, envelope));
        self.state.mark_reported(label);
        Ok(Out {
            reply: (),
            sent: Items::from_vec(sent),
        })
    }
}

impl<P: EventCallback + Drop, C: Callbacks> Engine<P, C> {
    // Whether what the scope names as active is held, where there is a scope.
    fn holds_active_span(&self, scope: Option<&Scope<P>>) -> bool
        ensures { (world : World P C) → Stands self.now world →
            result ≡ holds_active_span world (option_copied scope.entry) }
    {
        match scope {
            None => true,
            Some(scope) => self.state.holds_span(scope.span),
        }
    }

    /// Captures an event of a client, under a scope, if one is given: it goes through the pipeline, and out in an
    /// envelope, with the pending report as its last item. Its id is the reply; the nil id if it was not sent.
    ///
    /// `Stale`: the client isn't held, or the span of the scope isn't. `OutOfMemory`.
    #[tactic(auto, unfolding(sentry_calls::specs::Clients::client_capture_event))]
    pub fn client_capture_event(
        &mut self,
        client: ClientKey,
        event: Event,
        scope: Option<&Scope<P>>,
        fresh: Fresh,
    ) -> Result<Out<Uuid>, Refusal>
        ensures { Does self.old self.new result
            (call.client_capture_event P.gives C.meanings client event (option_copied scope.entry) fresh) }
    {
        let Some(held) = self.state.client_at(client) else {
            return Err(Refusal::Stale);
        };
        if !self.holds_active_span(scope) {
            return Err(Refusal::Stale);
        }
        let label = held.label;
        let mut event = Some(Boxed::new(self.state.alloc, event)?);
        let spans = self.state.span_table();
        let preparation = capture(self.state.alloc, held, spans, scope, fresh, &mut event)?;
        drop_unsent(&preparation, &mut event);
        let reply = captured_id(&event);
        let sent = captured_envelopes(&self.state, client, label, None, scope, &mut event)?;
        note_capture(&mut self.state, label, preparation);
        Ok(Out { reply, sent })
    }

    /// Prepares an event as the client would send it, under a scope, if one is given. Returns `None` if it would not be
    /// sent; then it counts as lost.
    ///
    /// `Stale`: the client isn't held, or the span of the scope isn't. `OutOfMemory`.
    #[tactic(auto, unfolding(sentry_calls::specs::Clients::prepare_event))]
    pub fn prepare_event(
        &mut self,
        client: ClientKey,
        event: Event,
        scope: Option<&Scope<P>>,
        fresh: Fresh,
    ) -> Result<Out<Option<Boxed<Event>>>, Refusal>
        ensures { Does self.old self.new result
            (call.prepare_event P.gives C.meanings client event (option_copied scope.entry) fresh) }
    {
        let Some(held) = self.state.client_at(client) else {
            return Err(Refusal::Stale);
        };
        if !self.holds_active_span(scope) {
            return Err(Refusal::Stale);
        }
        let label = held.label;
        let mut event = Some(Boxed::new(self.state.alloc, event)?);
        let preparation = prepare_event(
            self.state.alloc,
            held.options.get(),
            &held.sdk,
            self.state.span_table(),
            scope,
            fresh,
            &mut event,
        )?;
        match preparation.loss_reason() {
            None => Ok(self.state.out(event)),
            Some(reason) => {
                record_lost_event(&mut self.state, label, reason);
                Ok(self.state.out(None))
            }
        }
    }
}
