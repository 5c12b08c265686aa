//! Lists, maps, what may be absent, and plain texts and numbers.
use crate::Shown;
use sentry_plain::{Items, Shared, Text, TextMap};
use std::alloc::AllocError;
use std::collections::btree_map::Iter;

/// What stands for an absent value, and for a list or a map that is empty.
pub const NONE: &str = "-";

impl Shown for Text {
    fn push_to(&self, text: &mut String) -> Result<(), AllocError> {
        text.push_str(self.as_str())
    }
}

impl Shown for u64 {
    fn push_to(&self, text: &mut String) -> Result<(), AllocError> {
        let number = *self;
        write!(text, "{number}")
    }
}

impl<T: Shown> Shown for Option<T> {
    fn push_to(&self, text: &mut String) -> Result<(), AllocError> {
        match self {
            Some(value) => value.push_to(text),
            None => text.push_str(NONE),
        }
    }
}

impl<T: Shown> Shown for Shared<T> {
    fn push_to(&self, text: &mut String) -> Result<(), AllocError> {
        self.get().push_to(text)
    }
}

/// Puts a label and a value at the end of the text.
pub fn push_labeled<T: Shown>(text: &mut String, label: &str, value: &T) -> Result<(), AllocError> {
    text.push_str(label)?;
    value.push_to(text)
}

/// Puts values at the end of the text, with a separator between them.
pub fn push_joined<T: Shown>(
    text: &mut String,
    values: &[T],
    separator: &str,
) -> Result<(), AllocError> {
    let mut before = "";
    for value in values {
        push_labeled(text, before, value)?;
        before = separator;
    }
    Ok(())
}

/// The same after a label, with `-` for the empty list.
pub fn push_list<T: Shown>(
    text: &mut String,
    label: &str,
    values: &Items<T>,
    separator: &str,
) -> Result<(), AllocError> {
    text.push_str(label)?;
    if values.is_empty() {
        return text.push_str(NONE);
    }
    push_joined(text, values.as_slice(), separator)
}

/// How the entries of a map are written.
#[derive(Clone, Copy)]
pub struct MapStyle {
    /// Between a key and its value.
    pub between: &'static str,
    /// Between two entries.
    pub separator: &'static str,
}

/// `key=value`, joined by commas.
pub const PLAIN: MapStyle = MapStyle {
    between: "=",
    separator: ",",
};

fn push_entry<V: Shown>(
    text: &mut String,
    before: &str,
    key: &str,
    between: &str,
    value: &V,
) -> Result<(), AllocError> {
    text.push_str(before)?;
    text.push_str(key)?;
    push_labeled(text, between, value)
}

/// Puts entries at the end of the text, or `-` where there is none.
pub fn push_entries<V: Shown>(
    text: &mut String,
    entries: Iter<'_, String, V>,
    style: MapStyle,
) -> Result<(), AllocError> {
    let mut before = None;
    for (key, value) in entries {
        push_entry(
            text,
            before.unwrap_or(""),
            key.as_str(),
            style.between,
            value,
        )?;
        before = Some(style.separator);
    }
    match before {
        Some(_) => Ok(()),
        None => text.push_str(NONE),
    }
}

/// Puts a map of texts to values at the end of the text.
pub fn push_map<V: Shown>(
    text: &mut String,
    map: &TextMap<V>,
    style: MapStyle,
) -> Result<(), AllocError> {
    let mut before = None;
    for (key, value) in map.iter() {
        push_entry(text, before.unwrap_or(""), key, style.between, value)?;
        before = Some(style.separator);
    }
    match before {
        Some(_) => Ok(()),
        None => text.push_str(NONE),
    }
}
