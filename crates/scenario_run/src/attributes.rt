//! The attributes of a log or a metric of a line, and the scope under which a client captures it.
use crate::callbacks::Handler;
use crate::copies::Copies;
use crate::scenario::Scenario;
use scenario_commands::attributes::AttributeWords;
use sentry_base::protocol::LogAttribute;
use sentry_plain::TextMap;
use sentry_scope::Scope;
use std::alloc::{AllocError, Global};

/// The attributes of a log or a metric whose line names one of them, or none.
pub fn attributes(
    alloc: Global,
    attribute: Option<AttributeWords<'_>>,
) -> Result<TextMap<LogAttribute>, AllocError> {
    let mut attributes = TextMap::new(alloc);
    let Some(AttributeWords { key, value }) = attribute else {
        return Ok(attributes);
    };
    let mut copies = Copies::new(alloc);
    let value = LogAttribute(copies.value(value));
    attributes.insert(copies.text(key), value)?;
    copies.finish(attributes)
}

impl<E> Scenario<E> {
    /// A new scope, with the ids of the line.
    pub fn new_scope(&self) -> Scope<Handler> {
        let fresh = self.fresh();
        Scope::new(self.alloc, fresh.trace_id, fresh.span_id)
    }
}
