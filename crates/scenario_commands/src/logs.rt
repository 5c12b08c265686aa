//! Lines that capture a log: `log`, `logkey` and `sendlog`.
use crate::attributes::{AttributeWords, Capturer};
use crate::words::Words;
use sentry_base::protocol::LogLevel;

/// What a line captures.
#[derive(Clone, Copy)]
pub struct LogCommand<'a> {
    pub capturer: Capturer,
    pub level: LogLevel,
    pub attribute: Option<AttributeWords<'a>>,
    pub body: &'a str,
}

impl<'a> LogCommand<'a> {
    /// The command of this name, read from the words that follow it.
    pub fn read(name: &str, mut words: Words<'a>) -> Option<LogCommand<'a>> {
        let number = words.number();
        let command = match name {
            "log" => read_plain(Capturer::Hub(number), &mut words),
            "logkey" => read_with_attribute(Capturer::Hub(number), &mut words),
            "sendlog" => read_at_level(Capturer::Client(number), &mut words),
            _ => return None,
        };
        words.end()?;
        Some(command)
    }
}

// `log H REST`, from REST on.
fn read_plain<'a>(capturer: Capturer, words: &mut Words<'a>) -> LogCommand<'a> {
    LogCommand {
        capturer,
        level: LogLevel::Info,
        attribute: None,
        body: words.rest(),
    }
}

// `logkey H LOGLEVEL KEY VALUE REST`, from LOGLEVEL on.
fn read_with_attribute<'a>(capturer: Capturer, words: &mut Words<'a>) -> LogCommand<'a> {
    LogCommand {
        capturer,
        level: read_level(words),
        attribute: Some(AttributeWords {
            key: words.word(),
            value: words.word(),
        }),
        body: words.rest(),
    }
}

// `sendlog C LOGLEVEL REST`, from LOGLEVEL on.
fn read_at_level<'a>(capturer: Capturer, words: &mut Words<'a>) -> LogCommand<'a> {
    LogCommand {
        capturer,
        level: read_level(words),
        attribute: None,
        body: words.rest(),
    }
}

fn read_level(words: &mut Words<'_>) -> LogLevel {
    match words.word() {
        "trace" => LogLevel::Trace,
        "debug" => LogLevel::Debug,
        "info" => LogLevel::Info,
        "warn" => LogLevel::Warn,
        "error" => LogLevel::Error,
        "fatal" => LogLevel::Fatal,
        _ => words.wrong(LogLevel::Info),
    }
}
