//! Lines on the layers of hubs: `push`, `pop`, `top`, `release` and `bind`.
use crate::words::Words;

/// What a line asks of the layers of a hub.
#[derive(Clone, Copy)]
pub enum LayerCommand {
    /// `push H`
    Push(u64),
    /// `pop H`, or `pop H DEPTH`
    Pop { hub: u64, depth: Option<u64> },
    /// `top H`
    Top(u64),
    /// `release H`
    Release(u64),
    /// `bind H C` or `bind H -`
    Bind { hub: u64, client: Option<u64> },
}

impl LayerCommand {
    /// The command of this name, read from the words that follow it.
    pub fn read(name: &str, mut words: Words<'_>) -> Option<LayerCommand> {
        let hub = words.number();
        let command = match name {
            "push" => LayerCommand::Push(hub),
            "pop" => LayerCommand::Pop {
                hub,
                depth: words.number_if_any(),
            },
            "top" => LayerCommand::Top(hub),
            "release" => LayerCommand::Release(hub),
            "bind" => LayerCommand::Bind {
                hub,
                client: words.number_or_none(),
            },
            _ => return None,
        };
        words.end()?;
        Some(command)
    }
}
