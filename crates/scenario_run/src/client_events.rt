//! How a message is handed to a client itself, without a scope.
ghost use Rattle.std.specs.Prelude.{◌≡◌, IfOk};
ghost use Rattle.sentry_events.specs.Captures.{message_event};

use crate::answer::Answer;
use crate::caller::Caller;
use crate::fault::Failure;
use crate::scenario::{Scenario, client_key};
use scenario_commands::client_events::{Act, ClientEventCommand};
use sentry_base::protocol::{Event, Level, Uuid};
use sentry_engine::call::ClientCall;
use sentry_plain::{Boxed, Text};
use std::alloc::{AllocError, Global};

// The event that a hub captures of the same message.
fn message_event(
    alloc: Global,
    message: &str,
    level: Level,
    id: Uuid,
    now: u64,
) -> Result<Event, AllocError>
    ensures { IfOk result (λ event. event ≡ message_event message.now level id now) }
{
    let mut event = Event::new(alloc, id, now)?;
    event.message = Some(Text::new(alloc, message)?);
    event.level = level;
    Ok(event)
}

impl<E: Caller> Scenario<E> {
    /// Hands the event of a message to a client.
    pub fn hand_event<'a>(
        &mut self,
        command: &ClientEventCommand<'_>,
    ) -> Result<Answer<'a>, Failure> {
        let ClientEventCommand {
            act,
            client,
            level,
            message,
        } = *command;
        let fresh = self.fresh();
        let event = message_event(self.alloc, message, level, fresh.uuid, fresh.now)?;
        let event = Boxed::new(self.alloc, event)?;
        match act {
            Act::Prepare => self.ask_client(
                client,
                ClientCall::PrepareEvent {
                    client: client_key(client),
                    event,
                    scope: None,
                    fresh,
                },
            ),
            Act::Send => self.call_client(ClientCall::ClientCaptureEvent {
                client: client_key(client),
                event,
                scope: None,
                fresh,
            }),
        }
    }
}
