//! The words of a line.
ghost use Rattle.std.specs.Prelude.{◌≡◌};
ghost use Rattle.std.specs.Option.{option_map};
ghost use Rattle.replay_run.specs.Reading.{cut, number_of, level_of, is_word};

use sentry_base::protocol::Level;

/// The text before the first space, and the text after it.
pub fn cut(text: &str) -> Option<(&str, &str)>
    ensures { option_map (λ parts. (parts.0.now, parts.1.now)) result ≡ cut text.now }
{
    text.split_once(' ')
}

/// The number below 2^64 that a text spells in decimal digits, if it spells one.
pub fn parse_number(text: &str) -> Option<u64>
    ensures { result ≡ number_of text.now }
{
    if text.starts_with('+') {
        return None;
    }
    text.parse().ok()
}

/// The level that a word names, if it names one.
#[tactic(auto, unfolding(crate::specs::Reading::level_of))]
pub fn parse_level(word: &str) -> Option<Level>
    ensures { result ≡ level_of word.now }
{
    match word {
        "debug" => Some(Level::Debug),
        "info" => Some(Level::Info),
        "warning" => Some(Level::Warning),
        "error" => Some(Level::Error),
        "fatal" => Some(Level::Fatal),
        _ => None,
    }
}

/// Whether a text has at least one byte, and no space.
pub fn is_word(text: &str) -> bool
    ensures { result ≡ is_word text.now }
{
    !text.is_empty() && cut(text).is_none()
}
