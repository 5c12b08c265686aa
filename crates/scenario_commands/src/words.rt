//! The words of a line.
use crate::attributes::AttributeWords;
use crate::spans::SpanName;
use sentry_base::protocol::{Draw, Level};

/// The word that stands for none.
const NONE: &str = "-";

/// What is left of a line to be read. A word is followed by one space, or by the end of the line. A word that isn't what
/// is asked for is noted, and something else is read in its place: `end` tells in the end.
#[derive(Clone, Copy)]
pub struct Words<'a> {
    /// None where no space follows the last word that was read.
    left: Option<&'a str>,
    /// Whether some word wasn't what was asked for.
    is_wrong: bool,
}

impl<'a> Words<'a> {
    /// All of a line.
    pub fn new(line: &'a str) -> Words<'a> {
        Words {
            left: Some(line),
            is_wrong: false,
        }
    }

    /// That no word was wrong, and nothing is left.
    pub fn end(self) -> Option<()> {
        if self.is_wrong || self.left.is_some() {
            return None;
        }
        Some(())
    }

    /// Notes that a word is wrong, and gives what is read in its place.
    pub fn wrong<T: Copy>(&mut self, instead: T) -> T {
        self.is_wrong = true;
        instead
    }

    /// The next word, which isn't empty.
    pub fn word(&mut self) -> &'a str {
        match self.next_word() {
            None | Some("") => self.wrong(""),
            Some(word) => word,
        }
    }

    // The next word, or none where nothing is left.
    fn next_word(&mut self) -> Option<&'a str> {
        let left = self.left?;
        let (word, left) = match left.split_once(' ') {
            Some((word, left)) => (word, Some(left)),
            None => (left, None),
        };
        self.left = left;
        Some(word)
    }

    /// All that is left, which may be empty or hold spaces.
    pub fn rest(&mut self) -> &'a str {
        match self.rest_if_any() {
            Some(rest) => rest,
            None => self.wrong(""),
        }
    }

    /// All that is left, or none where nothing is.
    pub fn rest_if_any(&mut self) -> Option<&'a str> {
        self.left.take()
    }

    /// All that is left, which may be `-` for none.
    pub fn rest_or_none(&mut self) -> Option<&'a str> {
        match self.rest() {
            NONE => None,
            rest => Some(rest),
        }
    }

    /// The next word, which may be `-` for none.
    pub fn word_or_none(&mut self) -> Option<&'a str> {
        match self.word() {
            NONE => None,
            word => Some(word),
        }
    }

    /// The next word, as a number.
    pub fn number(&mut self) -> u64 {
        let word = self.word();
        self.number_of(word)
    }

    // A word, as a number.
    fn number_of(&mut self, word: &str) -> u64 {
        match number(word) {
            Some(number) => number,
            None => self.wrong(0),
        }
    }

    /// The next word, as a number or `-` for none.
    pub fn number_or_none(&mut self) -> Option<u64> {
        match self.word() {
            NONE => None,
            word => Some(self.number_of(word)),
        }
    }

    /// The next word, as a number, or none where nothing is left.
    pub fn number_if_any(&mut self) -> Option<u64> {
        match self.left {
            None => None,
            Some(_) => Some(self.number()),
        }
    }

    /// The next word, as a transaction or a span.
    pub fn span(&mut self) -> SpanName {
        let word = self.word();
        self.span_of(word)
    }

    // A word, as a transaction or a span: `tN` or `sN`.
    fn span_of(&mut self, word: &str) -> SpanName {
        if let Some(digits) = word.strip_prefix("t") {
            return SpanName::Transaction(self.number_of(digits));
        }
        match word.strip_prefix("s") {
            Some(digits) => SpanName::Span(self.number_of(digits)),
            None => self.wrong(SpanName::Span(0)),
        }
    }

    /// The next word, as a transaction or a span, or `-` for none.
    pub fn span_or_none(&mut self) -> Option<SpanName> {
        match self.word() {
            NONE => None,
            word => Some(self.span_of(word)),
        }
    }

    /// The next word, as a whole number that may be below 0.
    pub fn integer(&mut self) -> i64 {
        match integer(self.word()) {
            Some(integer) => integer,
            None => self.wrong(0),
        }
    }

    /// The next word and all that is left after it, as an attribute, or none where nothing is left.
    pub fn attribute_if_any(&mut self) -> Option<AttributeWords<'a>> {
        match self.left {
            None => None,
            Some(_) => Some(AttributeWords {
                key: self.word(),
                value: self.rest(),
            }),
        }
    }

    /// The next word, as a draw, which is a number below 1000000.
    pub fn draw(&mut self) -> Draw {
        match Draw::new(small(self.number())) {
            Some(draw) => draw,
            None => self.wrong(Draw::new(0).unwrap()),
        }
    }

    /// The next word, as a level.
    pub fn level(&mut self) -> Level {
        let word = self.word();
        self.level_of(word)
    }

    // A word, as a level.
    fn level_of(&mut self, word: &str) -> Level {
        match word {
            "debug" => Level::Debug,
            "info" => Level::Info,
            "warning" => Level::Warning,
            "error" => Level::Error,
            "fatal" => Level::Fatal,
            _ => self.wrong(Level::Info),
        }
    }

    /// The next word, as a level or `-` for none.
    pub fn level_or_none(&mut self) -> Option<Level> {
        match self.word() {
            NONE => None,
            word => Some(self.level_of(word)),
        }
    }
}

/// The number that a word of decimal digits spells, up to 2^64-1.
pub fn number(word: &str) -> Option<u64> {
    if word.starts_with('+') {
        return None;
    }
    word.parse().ok()
}

// The number that a word of decimal digits spells, perhaps after a `-`, from -2^63 to 2^63-1.
fn integer(word: &str) -> Option<i64> {
    if word.starts_with('+') {
        return None;
    }
    word.parse().ok()
}

/// A number as one of 32 bits, or the largest of those.
pub fn small(number: u64) -> u32 {
    u32::try_from(number).unwrap_or(u32::MAX)
}
