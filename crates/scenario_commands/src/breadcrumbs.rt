//! Lines that add breadcrumbs: `crumb` and `crumbs`.
use crate::words::Words;

/// Breadcrumbs for the top scope of a hub.
#[derive(Clone, Copy)]
pub struct BreadcrumbCommand<'a> {
    pub hub: u64,
    pub messages: Messages<'a>,
}

/// The messages of breadcrumbs.
#[derive(Clone, Copy)]
pub enum Messages<'a> {
    /// `crumb H REST`: one, the whole text.
    One(&'a str),
    /// `crumbs H REST`: the words of the text. The empty text has none.
    Words(&'a str),
}

impl<'a> BreadcrumbCommand<'a> {
    /// The command of this name, read from the words that follow it.
    pub fn read(name: &str, mut words: Words<'a>) -> Option<BreadcrumbCommand<'a>> {
        let hub = words.number();
        let text = words.rest();
        let messages = match name {
            "crumb" => Messages::One(text),
            "crumbs" => Messages::Words(text),
            _ => return None,
        };
        words.end()?;
        Some(BreadcrumbCommand { hub, messages })
    }
}
