//! Lines on texts alone: `dsn`, `debugtype`, `sensitive` and `scrub`.
use crate::words::Words;

/// What a line asks of a text.
#[derive(Clone, Copy)]
pub enum TextCommand<'a> {
    /// `dsn REST`
    Dsn(&'a str),
    /// `debugtype REST`
    DebugType(&'a str),
    /// `sensitive REST`
    Sensitive(&'a str),
    /// `scrub URL`
    Scrub(&'a str),
}

impl<'a> TextCommand<'a> {
    /// The command of this name, read from the words that follow it.
    pub fn read(name: &str, mut words: Words<'a>) -> Option<TextCommand<'a>> {
        let command = match name {
            "dsn" => TextCommand::Dsn(words.rest()),
            "debugtype" => TextCommand::DebugType(words.rest()),
            "sensitive" => TextCommand::Sensitive(words.rest()),
            "scrub" => TextCommand::Scrub(words.word()),
            _ => return None,
        };
        words.end()?;
        Some(command)
    }
}
