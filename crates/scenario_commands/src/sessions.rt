//! Lines on the sessions of hubs: `session`, `end` and `endwith`.
use crate::words::Words;
use sentry_base::protocol::SessionStatus;

/// What a line asks of the session of a hub.
#[derive(Clone, Copy)]
pub enum SessionCommand {
    /// `session H`
    Start(u64),
    /// `endwith H STATUS`, or `end H` for a session that exited
    End { hub: u64, status: SessionStatus },
}

impl SessionCommand {
    /// The command of this name, read from the words that follow it.
    pub fn read(name: &str, mut words: Words<'_>) -> Option<SessionCommand> {
        let hub = words.number();
        let command = match name {
            "session" => SessionCommand::Start(hub),
            "end" => SessionCommand::End {
                hub,
                status: SessionStatus::Exited,
            },
            "endwith" => SessionCommand::End {
                hub,
                status: read_status(&mut words),
            },
            _ => return None,
        };
        words.end()?;
        Some(command)
    }
}

fn read_status(words: &mut Words<'_>) -> SessionStatus {
    match words.word() {
        "ok" => SessionStatus::Ok,
        "exited" => SessionStatus::Exited,
        "crashed" => SessionStatus::Crashed,
        "abnormal" => SessionStatus::Abnormal,
        _ => words.wrong(SessionStatus::Ok),
    }
}
