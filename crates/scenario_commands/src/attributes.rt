//! Who captures a log or a metric of a line, and its attribute.

/// Who captures it, by number.
#[derive(Clone, Copy)]
pub enum Capturer {
    Hub(u64),
    /// A client itself, under a new scope.
    Client(u64),
}

/// An attribute that a line names.
#[derive(Clone, Copy)]
pub struct AttributeWords<'a> {
    pub key: &'a str,
    pub value: &'a str,
}
