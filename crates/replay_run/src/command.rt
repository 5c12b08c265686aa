//! Commands, and the lines that spell them.
ghost use Rattle.std.specs.Prelude.{◌≡◌, IfOk, IfSome, IfNone};
ghost use Rattle.replay_run.specs.Reading.{client_of, hub_of, tag_of, message_of, empty_of, release_of};
ghost use Rattle.replay_run.specs.Reading.{session_of, end_of, flush_of, log_of, close_of};
ghost use Rattle.replay_run.specs.Reading.{form_of, command_of};
ghost use Rattle.replay_run.specs.Commands.{Spells};
ghost use Rattle.replay_run.specs.declared.command.Command.{Command};
ghost use Rattle.sentry_plain.specs.Texts.{Bytes};

use crate::word::{cut, is_word, parse_level, parse_number};
use sentry_base::protocol::Level;
use sentry_plain::Text;
use std::alloc::{AllocError, Global};

/// What a line asks for. Clients and hubs are named by their numbers.
#[derive(Drop)]
pub enum Command {
    /// Adds a client, of this release or of none.
    Client(Option<Text>),
    /// Adds a hub on the client of this number.
    Hub(u64),
    /// Sets a tag on a hub.
    Tag { hub: u64, key: Text, value: Text },
    /// Captures a message on a hub.
    Message { hub: u64, level: Level, text: Text },
    /// Sends an empty envelope of the client of this number.
    Empty(u64),
    /// Gives the hub of this number back.
    Release(u64),
    /// Starts a session on the hub of this number.
    Session(u64),
    /// Ends the session of the hub of this number, as exited.
    End(u64),
    /// Sends what waits in the queues of the client of this number.
    Flush(u64),
    /// Captures a log on a hub, at the level info.
    Log { hub: u64, text: Text },
    /// Closes the client of this number.
    Close(u64),
}

#[tactic(auto, unfolding(crate::specs::Reading::client_of))]
fn parse_client(alloc: Global, text: &str) -> Result<Option<Command>, AllocError>
    ensures { IfOk result (λ found. found ≡ client_of text.now) }
{
    if text == "-" {
        return Ok(Some(Command::Client(None)));
    }
    if !is_word(text) {
        return Ok(None);
    }
    Ok(Some(Command::Client(Some(Text::new(alloc, text)?))))
}

#[tactic(auto, unfolding(crate::specs::Reading::hub_of))]
fn parse_hub(text: &str) -> Option<Command>
    ensures { result ≡ hub_of text.now }
{
    Some(Command::Hub(parse_number(text)?))
}

#[tactic(auto, unfolding(crate::specs::Reading::tag_of))]
fn parse_tag(alloc: Global, text: &str) -> Result<Option<Command>, AllocError>
    ensures { IfOk result (λ found. found ≡ tag_of text.now) }
{
    let Some((hub, rest)) = cut(text) else {
        return Ok(None);
    };
    let Some(hub) = parse_number(hub) else {
        return Ok(None);
    };
    let Some((key, value)) = cut(rest) else {
        return Ok(None);
    };
    if key.is_empty() {
        return Ok(None);
    }
    let key = Text::new(alloc, key)?;
    let value = Text::new(alloc, value)?;
    Ok(Some(Command::Tag { hub, key, value }))
}

#[tactic(auto, unfolding(crate::specs::Reading::message_of))]
fn parse_message(alloc: Global, text: &str) -> Result<Option<Command>, AllocError>
    ensures { IfOk result (λ found. found ≡ message_of text.now) }
{
    let Some((hub, rest)) = cut(text) else {
        return Ok(None);
    };
    let Some(hub) = parse_number(hub) else {
        return Ok(None);
    };
    let Some((word, rest)) = cut(rest) else {
        return Ok(None);
    };
    let Some(level) = parse_level(word) else {
        return Ok(None);
    };
    let text = Text::new(alloc, rest)?;
    Ok(Some(Command::Message { hub, level, text }))
}

#[tactic(auto, unfolding(crate::specs::Reading::empty_of))]
fn parse_empty(text: &str) -> Option<Command>
    ensures { result ≡ empty_of text.now }
{
    Some(Command::Empty(parse_number(text)?))
}

#[tactic(auto, unfolding(crate::specs::Reading::release_of))]
fn parse_release(text: &str) -> Option<Command>
    ensures { result ≡ release_of text.now }
{
    Some(Command::Release(parse_number(text)?))
}

#[tactic(auto, unfolding(crate::specs::Reading::session_of))]
fn parse_session(text: &str) -> Option<Command>
    ensures { result ≡ session_of text.now }
{
    Some(Command::Session(parse_number(text)?))
}

#[tactic(auto, unfolding(crate::specs::Reading::end_of))]
fn parse_end(text: &str) -> Option<Command>
    ensures { result ≡ end_of text.now }
{
    Some(Command::End(parse_number(text)?))
}

#[tactic(auto, unfolding(crate::specs::Reading::flush_of))]
fn parse_flush(text: &str) -> Option<Command>
    ensures { result ≡ flush_of text.now }
{
    Some(Command::Flush(parse_number(text)?))
}

#[tactic(auto, unfolding(crate::specs::Reading::log_of))]
fn parse_log(alloc: Global, text: &str) -> Result<Option<Command>, AllocError>
    ensures { IfOk result (λ found. found ≡ log_of text.now) }
{
    let Some((hub, rest)) = cut(text) else {
        return Ok(None);
    };
    let Some(hub) = parse_number(hub) else {
        return Ok(None);
    };
    let text = Text::new(alloc, rest)?;
    Ok(Some(Command::Log { hub, text }))
}

#[tactic(auto, unfolding(crate::specs::Reading::close_of))]
fn parse_close(text: &str) -> Option<Command>
    ensures { result ≡ close_of text.now }
{
    Some(Command::Close(parse_number(text)?))
}

#[tactic(auto, unfolding(crate::specs::Reading::form_of, crate::specs::Reading::command_of))]
fn parse_text(alloc: Global, line: &str) -> Result<Option<Command>, AllocError>
    ensures { IfOk result (λ found. found ≡ command_of line.now) }
{
    let Some((word, rest)) = cut(line) else {
        return Ok(None);
    };
    match word {
        "client" => parse_client(alloc, rest),
        "hub" => Ok(parse_hub(rest)),
        "tag" => parse_tag(alloc, rest),
        "message" => parse_message(alloc, rest),
        "empty" => Ok(parse_empty(rest)),
        "release" => Ok(parse_release(rest)),
        "session" => Ok(parse_session(rest)),
        "end" => Ok(parse_end(rest)),
        "flush" => Ok(parse_flush(rest)),
        "log" => parse_log(alloc, rest),
        "close" => Ok(parse_close(rest)),
        _ => Ok(None),
    }
}

/// A line spells at most one command.
pub fn line_spells_at_most_one_command()
    ensures { (line : Bytes) (a b : Command) → Spells line a → Spells line b → a ≡ b }
{}

/// The command that a line spells, if it spells one.
pub fn parse_command(alloc: Global, line: &[u8]) -> Result<Option<Command>, AllocError>
    ensures found { IfOk result (λ found. IfSome found (λ command. Spells line.now command)) }
    ensures none { IfOk result (λ found. IfNone found ((command : _) → Spells line.now command → ⊥)) }
{
    match str::from_utf8(line) {
        Ok(line) => parse_text(alloc, line),
        Err(_) => Ok(None),
    }
}
