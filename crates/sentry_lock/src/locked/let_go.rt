//! What calls let go and a caller's code drops: event processors, and the callbacks of a client. A share of it is held until
//! the lock is free.

use crate::locked::Core;
use sentry_base::callbacks::EventCallback;
use sentry_base::protocol::{ClientKey, HubKey};
use sentry_engine::call::{Call, ClientCall, HubCall};
use sentry_engine::{EventProcessors, one_clears};
use sentry_options::{Callbacks, ClientOptions};
use sentry_plain::{Boxed, Shared};
use sentry_scope::{Scope, ScopeEdit};

/// A share of what a call may let go, to be dropped once the lock is free.
#[derive(Drop)]
pub(crate) enum LetGo<P, C> {
    Nothing,
    Processors(EventProcessors<P>),
    Options(Shared<ClientOptions<C>>),
}

/// The processors of a scope that a call takes.
pub(crate) fn processors_in<P: Drop, C>(scope: &Scope<P>) -> LetGo<P, C> {
    match scope.processors.clone() {
        Ok(processors) => LetGo::Processors(processors),
        Err(_) => LetGo::Nothing,
    }
}

fn processors_in_box<P: Drop, C>(scope: Option<&Boxed<Scope<P>>>) -> LetGo<P, C> {
    match scope {
        Some(scope) => processors_in(scope.get()),
        None => LetGo::Nothing,
    }
}

impl<P: EventCallback + Drop, C: Callbacks, T: Drop> Core<P, C, T> {
    /// The processors of the top layer of a hub.
    pub(crate) fn processors_of(&self, hub: HubKey) -> LetGo<P, C> {
        match self.engine.event_processors(hub) {
            Ok(processors) => LetGo::Processors(processors),
            Err(_) => LetGo::Nothing,
        }
    }

    /// The same, if one of the edits clears the scope.
    pub(crate) fn processors_cleared(&self, hub: HubKey, edits: &[ScopeEdit<P>]) -> LetGo<P, C> {
        if !one_clears(edits) {
            return LetGo::Nothing;
        }
        self.processors_of(hub)
    }

    fn options_of(&self, client: ClientKey) -> LetGo<P, C> {
        match self.engine.options(client) {
            Ok(out) => LetGo::Options(out.reply),
            Err(_) => LetGo::Nothing,
        }
    }

    fn let_go_by_client_call(&self, call: &ClientCall<P, C>) -> LetGo<P, C> {
        match call {
            ClientCall::PrepareEvent { scope, .. } | ClientCall::ClientCaptureEvent { scope, .. } =>
                { processors_in_box(scope.as_ref()) }
            ClientCall::ClientCaptureLog { scope, .. }
            | ClientCall::ClientCaptureMetric { scope, .. } => processors_in(scope.get()),
            ClientCall::DropClient(client) => self.options_of(*client),
            _ => LetGo::Nothing,
        }
    }

    fn let_go_by_hub_call(&self, call: &HubCall<P>) -> LetGo<P, C> {
        match call {
            HubCall::NewHub { scope, .. } => processors_in(scope.get()),
            HubCall::Configure { hub, edits, .. } => {
                self.processors_cleared(*hub, edits.as_slice())
            }
            HubCall::PopScope { hub, .. } | HubCall::ReleaseHub { hub, .. } => {
                self.processors_of(*hub)
            }
            _ => LetGo::Nothing,
        }
    }

    /// What a call as a value may let go, or takes with a scope.
    pub(crate) fn let_go_by(&self, call: &Call<P, C>) -> LetGo<P, C> {
        match call {
            Call::Client(call) => self.let_go_by_client_call(call),
            Call::Hub(call) => self.let_go_by_hub_call(call),
            Call::Span(_) => LetGo::Nothing,
        }
    }
}
