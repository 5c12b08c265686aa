//! What is done with hubs.
use crate::answer::Answer;
use crate::callbacks::Handler;
use crate::caller::{CallReply, Caller};
use crate::fault::Failure;
use crate::scenario::{Scenario, client_key, hub_key};
use scenario_commands::hubs::HubCommand;
use sentry_engine::call::{Call, HubCall};
use sentry_plain::Boxed;
use sentry_scope::Scope;

impl<E: Caller> Scenario<E> {
    /// Does a command on hubs.
    pub fn perform_on_hub<'a>(&mut self, command: HubCommand) -> Result<Answer<'a>, Failure> {
        match command {
            HubCommand::Add(client) => self.add_hub(client),
            HubCommand::Copy { hub, client } => self.copy_hub(hub, client),
            HubCommand::Bound(hub) => self.ask_hub(hub, HubCall::Client(hub_key(hub))),
            HubCommand::IsActive(hub) => self.ask_hub(hub, HubCall::IsActive(hub_key(hub))),
            HubCommand::LastEvent(hub) => self.ask_hub(hub, HubCall::LastEventId(hub_key(hub))),
        }
    }

    // A hub with a new scope.
    fn add_hub<'a>(&mut self, client: Option<u64>) -> Result<Answer<'a>, Failure> {
        let scope = Boxed::new(self.alloc, self.new_scope())?;
        self.add_hub_with(client, scope)
    }

    // A hub with a copy of the top scope of another.
    fn copy_hub<'a>(&mut self, hub: u64, client: Option<u64>) -> Result<Answer<'a>, Failure> {
        match self.ask(Call::Hub(HubCall::Scope(hub_key(hub))))? {
            CallReply::Scope(scope) => self.add_hub_with(client, scope),
            _other => Err(Failure::OtherReply),
        }
    }

    fn add_hub_with<'a>(
        &mut self,
        client: Option<u64>,
        scope: Boxed<Scope<Handler>>,
    ) -> Result<Answer<'a>, Failure> {
        let client = client.map(client_key);
        self.call_hub(HubCall::NewHub { client, scope })
    }
}
