//! Lines on hubs: `hub`, `copy`, `bound`, `active` and `last`.
use crate::words::Words;

/// What a line asks of a hub.
#[derive(Clone, Copy)]
pub enum HubCommand {
    /// `hub C` or `hub -`
    Add(Option<u64>),
    /// `copy H C` or `copy H -`
    Copy { hub: u64, client: Option<u64> },
    /// `bound H`
    Bound(u64),
    /// `active H`
    IsActive(u64),
    /// `last H`
    LastEvent(u64),
}

impl HubCommand {
    /// The command of this name, read from the words that follow it.
    pub fn read(name: &str, mut words: Words<'_>) -> Option<HubCommand> {
        let command = match name {
            "hub" => HubCommand::Add(words.number_or_none()),
            "copy" => HubCommand::Copy {
                hub: words.number(),
                client: words.number_or_none(),
            },
            "bound" => HubCommand::Bound(words.number()),
            "active" => HubCommand::IsActive(words.number()),
            "last" => HubCommand::LastEvent(words.number()),
            _ => return None,
        };
        words.end()?;
        Some(command)
    }
}
