//! Lines on headers: `header`, `parse` and `headers`.
use crate::words::Words;

/// What a line does with headers.
#[derive(Clone, Copy)]
pub enum HeaderCommand<'a> {
    /// `header NAME REST`
    Keep { name: &'a str, value: &'a str },
    /// `parse`
    Parse,
    /// `headers H`
    OfHub(u64),
}

impl<'a> HeaderCommand<'a> {
    /// The command of this name, read from the words that follow it.
    pub fn read(name: &str, mut words: Words<'a>) -> Option<HeaderCommand<'a>> {
        let command = match name {
            "header" => HeaderCommand::Keep {
                name: words.word(),
                value: words.rest(),
            },
            "parse" => HeaderCommand::Parse,
            "headers" => HeaderCommand::OfHub(words.number()),
            _ => return None,
        };
        words.end()?;
        Some(command)
    }
}
