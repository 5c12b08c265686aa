//! Lines that hand a message to a client itself, without a scope: `prepare` and `send`.
use crate::words::Words;
use sentry_base::protocol::Level;

/// A message for a client, and what the client does with its event.
#[derive(Clone, Copy)]
pub struct ClientEventCommand<'a> {
    pub act: Act,
    pub client: u64,
    pub level: Level,
    pub message: &'a str,
}

/// What the client does with the event.
#[derive(Clone, Copy)]
pub enum Act {
    /// `prepare C LEVEL REST`
    Prepare,
    /// `send C LEVEL REST`
    Send,
}

impl<'a> ClientEventCommand<'a> {
    /// The command of this name, read from the words that follow it.
    pub fn read(name: &str, mut words: Words<'a>) -> Option<ClientEventCommand<'a>> {
        let act = match name {
            "prepare" => Act::Prepare,
            "send" => Act::Send,
            _ => return None,
        };
        let command = ClientEventCommand {
            act,
            client: words.number(),
            level: words.level(),
            message: words.rest(),
        };
        words.end()?;
        Some(command)
    }
}
