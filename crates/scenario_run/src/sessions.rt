//! What is done with the sessions of hubs.
use crate::answer::Answer;
use crate::caller::Caller;
use crate::fault::Failure;
use crate::scenario::{Scenario, hub_key};
use scenario_commands::sessions::SessionCommand;
use sentry_engine::call::HubCall;

impl<E: Caller> Scenario<E> {
    /// Does a command on the session of a hub.
    pub fn perform_on_session<'a>(
        &mut self,
        command: SessionCommand,
    ) -> Result<Answer<'a>, Failure> {
        match command {
            SessionCommand::Start(hub) => {
                let fresh = self.fresh();
                let hub = hub_key(hub);
                self.call_hub(HubCall::StartSession { hub, fresh })
            }
            SessionCommand::End { hub, status } => {
                let now = self.moment();
                let hub = hub_key(hub);
                self.call_hub(HubCall::EndSessionWithStatus { hub, status, now })
            }
        }
    }
}
