//! Strings as plain values.
ghost use Rattle.std.specs.Prelude.{◌≡◌, string_bytes};

use std::marker::Model;

/// A string that is given back as it was made. Contracts see the list of its bytes, and no capacity.
#[derive(Debug)]
pub struct PlainString {
    string: String,
}

impl Drop for PlainString {
    fn drop(self) {
        let PlainString { string: _ } = self;
    }
}

impl Model for PlainString {
    ghost use Rattle.sentry_plain.specs.Texts.{Bytes};
    ghost use Rattle.std.specs.String.{string_bytes};

    ghost Value = { Bytes };

    ghost view = { λ a. string_bytes a.string };
}

impl PlainString {
    /// The value of a string. It takes no memory.
    pub fn new(string: String) -> PlainString
        ensures { result ≡ string_bytes string }
    {
        PlainString { string }
    }

    /// Returns the string. It takes no memory.
    pub fn into_string(self) -> String
        ensures { string_bytes result ≡ self }
    {
        let PlainString { string } = self;
        string
    }
}
