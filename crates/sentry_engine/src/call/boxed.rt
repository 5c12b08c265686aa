//! The calls that take a large argument out of its box. Each has a function of its own, so that no other call makes
//! room for what it takes out.
ghost use Rattle.std.specs.Prelude.{◌≡◌, option_copied};
ghost use Rattle.sentry_calls.specs.Clients as clients;
ghost use Rattle.sentry_calls.specs.Hubs as hubs;
ghost use Rattle.sentry_state.specs.Outcomes.{Does};

use crate::engine::{Engine, Out};
use sentry_base::callbacks::EventCallback;
use sentry_base::protocol::{ClientKey, Event, Fresh, HubKey, Label, Refusal, Uuid};
use sentry_options::{Callbacks, ClientOptions};
use sentry_plain::Boxed;
use sentry_scope::Scope;

// The scope in a box, if there is one.
fn lent_scope<P>(scope: &Option<Boxed<Scope<P>>>) -> Option<&Scope<P>>
    ensures { option_copied result ≡ scope.now }
{
    match scope {
        None => None,
        Some(scope) => Some(scope.get()),
    }
}

impl<P: Drop, C: Callbacks> Engine<P, C> {
    // The same as `add_client`, of options in a box.
    pub(super) fn add_boxed_client(
        &mut self,
        options: Boxed<ClientOptions<C>>,
        transport: bool,
        label: Label,
        now: u64,
    ) -> Result<Out<ClientKey>, Refusal>
        ensures { Does self.old self.new result (clients.add_client C.meanings options transport label now) }
    {
        self.add_client(options.into_inner(), transport, label, now)
    }

    // The same as `new_hub`, of a scope in a box.
    pub(super) fn new_boxed_hub(
        &mut self,
        client: Option<ClientKey>,
        scope: Boxed<Scope<P>>,
    ) -> Result<Out<HubKey>, Refusal>
        ensures { Does self.old self.new result (hubs.new_hub client scope) }
    {
        self.new_hub(client, scope.into_inner())
    }
}

impl<P: EventCallback + Drop, C: Callbacks> Engine<P, C> {
    // The same as `prepare_event`, of an event in a box.
    pub(super) fn prepare_boxed_event(
        &mut self,
        client: ClientKey,
        event: Boxed<Event>,
        scope: &Option<Boxed<Scope<P>>>,
        fresh: Fresh,
    ) -> Result<Out<Option<Boxed<Event>>>, Refusal>
        ensures { Does self.old self.new result
            (clients.prepare_event P.gives C.meanings client event scope.now fresh) }
    {
        self.prepare_event(client, event.into_inner(), lent_scope(scope), fresh)
    }

    // The same as `client_capture_event`, of an event in a box.
    pub(super) fn client_capture_boxed_event(
        &mut self,
        client: ClientKey,
        event: Boxed<Event>,
        scope: &Option<Boxed<Scope<P>>>,
        fresh: Fresh,
    ) -> Result<Out<Uuid>, Refusal>
        ensures { Does self.old self.new result
            (clients.client_capture_event P.gives C.meanings client event scope.now fresh) }
    {
        self.client_capture_event(client, event.into_inner(), lent_scope(scope), fresh)
    }
}
