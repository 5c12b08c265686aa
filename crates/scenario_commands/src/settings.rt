//! Lines that set what later lines are handed: `at` and `draw`.
use crate::words::Words;
use sentry_base::protocol::Draw;

/// What a line sets for those that follow.
#[derive(Clone, Copy)]
pub enum Setting {
    /// `at NANOSECONDS` is their moment; `at -` gives each its own again.
    Moment(Option<u64>),
    /// `draw NUMBER`
    Draw(Draw),
}

impl Setting {
    /// The setting of this name, read from the words that follow it.
    pub fn read(name: &str, mut words: Words<'_>) -> Option<Setting> {
        let setting = match name {
            "at" => Setting::Moment(words.number_or_none()),
            "draw" => Setting::Draw(words.draw()),
            _ => return None,
        };
        words.end()?;
        Some(setting)
    }
}
