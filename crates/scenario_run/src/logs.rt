//! How logs are captured.
use crate::answer::Answer;
use crate::attributes::attributes;
use crate::caller::Caller;
use crate::fault::Failure;
use crate::scenario::{Scenario, client_key, hub_key};
use scenario_commands::attributes::Capturer;
use scenario_commands::logs::LogCommand;
use sentry_base::protocol::Log;
use sentry_engine::call::{ClientCall, HubCall};
use sentry_plain::Boxed;
use std::alloc::AllocError;

impl<E: Caller> Scenario<E> {
    /// Captures the log that a line asks for.
    pub fn capture_log<'a>(&mut self, command: &LogCommand<'_>) -> Result<Answer<'a>, Failure> {
        let log = self.log(command)?;
        let log = Boxed::new(self.alloc, log)?;
        match command.capturer {
            Capturer::Hub(hub) => {
                let hub = hub_key(hub);
                self.call_hub(HubCall::CaptureLog { hub, log })
            }
            Capturer::Client(client) => {
                let scope = Boxed::new(self.alloc, self.new_scope())?;
                let client = client_key(client);
                self.call_client(ClientCall::ClientCaptureLog { client, log, scope })
            }
        }
    }
}

impl<E> Scenario<E> {
    // The log, at the moment of the line.
    fn log(&self, command: &LogCommand<'_>) -> Result<Log, AllocError> {
        let mut log = Log::new(self.alloc, command.level, command.body, self.moment())?;
        log.attributes = attributes(self.alloc, command.attribute)?;
        Ok(log)
    }
}
