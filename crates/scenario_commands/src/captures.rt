//! Lines that capture an event on a hub: `message`, `exception`, `error` and `rich`.
use crate::words::Words;
use sentry_base::protocol::Level;

/// What a line captures on a hub.
#[derive(Clone, Copy)]
pub struct CaptureCommand<'a> {
    pub hub: u64,
    pub capture: Capture<'a>,
}

/// An event to be captured.
#[derive(Clone, Copy)]
pub enum Capture<'a> {
    /// `message H LEVEL REST`
    Message(Message<'a>),
    /// `exception H LEVEL HANDLED REST`
    Exception {
        level: Level,
        handled: Option<bool>,
        value: &'a str,
    },
    /// `error H REST`
    Error(&'a str),
    /// `rich H LEVEL REST`
    Rich(Message<'a>),
}

/// A message at a level.
#[derive(Clone, Copy)]
pub struct Message<'a> {
    pub level: Level,
    pub text: &'a str,
}

impl<'a> CaptureCommand<'a> {
    /// The command of this name, read from the words that follow it.
    pub fn read(name: &str, mut words: Words<'a>) -> Option<CaptureCommand<'a>> {
        let hub = words.number();
        let capture = match name {
            "message" => Capture::Message(read_message(&mut words)),
            "exception" => read_exception(&mut words),
            "error" => Capture::Error(words.rest()),
            "rich" => Capture::Rich(read_message(&mut words)),
            _ => return None,
        };
        words.end()?;
        Some(CaptureCommand { hub, capture })
    }
}

fn read_message<'a>(words: &mut Words<'a>) -> Message<'a> {
    Message {
        level: words.level(),
        text: words.rest(),
    }
}

fn read_exception<'a>(words: &mut Words<'a>) -> Capture<'a> {
    Capture::Exception {
        level: words.level(),
        handled: read_handled(words),
        value: words.rest(),
    }
}

fn read_handled(words: &mut Words<'_>) -> Option<bool> {
    match words.word() {
        "true" => Some(true),
        "false" => Some(false),
        "-" => None,
        _ => words.wrong(None),
    }
}
