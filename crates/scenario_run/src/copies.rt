//! Copies of the texts that a line names.
use sentry_base::protocol::Value;
use sentry_plain::Text;
use std::alloc::{AllocError, Global};

/// Copies texts. A refusal of memory is noted, and an empty text is given in place of the copy: `finish` tells in the end.
#[derive(Clone, Copy)]
pub struct Copies {
    alloc: Global,
    /// Whether memory was refused for a copy.
    is_refused: bool,
}

impl Copies {
    /// No copies.
    pub fn new(alloc: Global) -> Copies {
        Copies {
            alloc,
            is_refused: false,
        }
    }

    /// What was made of copies, or the refusal of one of them.
    pub fn finish<T: Drop>(self, made: T) -> Result<T, AllocError> {
        if self.is_refused {
            return Err(AllocError);
        }
        Ok(made)
    }

    /// A copy of a text.
    pub fn text(&mut self, text: &str) -> Text {
        match Text::new(self.alloc, text) {
            Ok(copy) => copy,
            Err(_) => {
                self.is_refused = true;
                Text::empty(self.alloc)
            }
        }
    }

    /// A copy of a text, or none of none.
    pub fn text_if_any(&mut self, text: Option<&str>) -> Option<Text> {
        match text {
            Some(text) => Some(self.text(text)),
            None => None,
        }
    }

    /// A value that is a copy of a text.
    pub fn value(&mut self, text: &str) -> Value {
        Value::Text(self.text(text))
    }
}
