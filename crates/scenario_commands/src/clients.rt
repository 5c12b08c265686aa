//! Lines on clients and on sampling: `client`, `options`, `clientdsn`, `enabled`, `flush`, `tick`, `close`, `clone`,
//! `drop` and `sample`.
use crate::options::OptionWords;
use crate::words::{Words, small};
use sentry_base::protocol::Draw;

/// What a line asks of a client, or of the engine's sampling.
#[derive(Clone, Copy)]
pub enum ClientCommand<'a> {
    /// `client RELEASE OPTION=VALUE ..`
    Add {
        release: Option<&'a str>,
        options: OptionWords<'a>,
    },
    /// `options C`
    Options(u64),
    /// `clientdsn C`
    Dsn(u64),
    /// `enabled C`
    IsEnabled(u64),
    /// `flush C`
    Flush(u64),
    /// `tick C`
    Tick(u64),
    /// `close C`
    Close(u64),
    /// `clone C`
    Clone(u64),
    /// `drop C`
    Drop(u64),
    /// `sample MILLIONTHS DRAW`
    Sample {
        millionths: u32,
        draw: Draw,
    },
}

impl<'a> ClientCommand<'a> {
    /// The command of this name, read from the words that follow it.
    pub fn read(name: &str, words: Words<'a>) -> Option<ClientCommand<'a>> {
        match name {
            "client" => read_add(words),
            "sample" => read_sample(words),
            _ => read_on_client(name, words),
        }
    }
}

fn read_add(mut words: Words<'_>) -> Option<ClientCommand<'_>> {
    let release = words.word_or_none();
    let options = OptionWords::read(words.rest_if_any())?;
    words.end()?;
    Some(ClientCommand::Add { release, options })
}

fn read_sample(mut words: Words<'_>) -> Option<ClientCommand<'_>> {
    let millionths = small(words.number());
    let draw = words.draw();
    words.end()?;
    Some(ClientCommand::Sample { millionths, draw })
}

// The forms of one client alone.
fn read_on_client<'a>(name: &str, mut words: Words<'a>) -> Option<ClientCommand<'a>> {
    let client = words.number();
    let command = match name {
        "options" => ClientCommand::Options(client),
        "clientdsn" => ClientCommand::Dsn(client),
        "enabled" => ClientCommand::IsEnabled(client),
        "flush" => ClientCommand::Flush(client),
        "tick" => ClientCommand::Tick(client),
        "close" => ClientCommand::Close(client),
        "clone" => ClientCommand::Clone(client),
        "drop" => ClientCommand::Drop(client),
        _ => return None,
    };
    words.end()?;
    Some(command)
}
