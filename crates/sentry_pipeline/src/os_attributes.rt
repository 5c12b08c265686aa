//! What the integrations of a client say of the operating system, which is among the default attributes of its logs.
ghost use Rattle.std.specs.Prelude.{◌≡◌, IfOk, option_copied};
ghost use Rattle.sentry_pipeline.specs.Pipeline.{os_of, enriched_event, os_attributes};

use sentry_base::protocol::{Context, Event, Uuid};
use sentry_options::{Callbacks, ClientOptions};
use sentry_plain::Text;
use std::alloc::{AllocError, Global};

/// The name and the version of the operating system, as far as they are known.
#[derive(Drop, PartialEq)]
pub struct OsAttributes {
    pub name: Option<Text>,
    pub version: Option<Text>,
}

impl Clone for OsAttributes {
    ghost is_clone = { λ old new. new ≡ old };

    fn clone(&self) -> Result<OsAttributes, AllocError> {
        Ok(OsAttributes {
            name: self.name.clone()?,
            version: self.version.clone()?,
        })
    }
}

// What a context says of the operating system.
fn os_of(context: Option<&Context>) -> Result<OsAttributes, AllocError>
    ensures { IfOk result (λ os. os ≡ os_of (option_copied context.entry)) }
{
    match context {
        Some(Context::Os { name, version }) => Ok(OsAttributes {
            name: name.clone()?,
            version: version.clone()?,
        }),
        _ => Ok(OsAttributes {
            name: None,
            version: None,
        }),
    }
}

// An event of this moment, after each integration in turn. One that drops it leaves it as it was.
fn enriched_event<C: Callbacks>(
    alloc: Global,
    options: &ClientOptions<C>,
    now: u64,
) -> Result<Event, AllocError>
    ensures { IfOk result (λ event. event ≡ enriched_event C.meanings options.now now) }
{
    let event = Event::new(alloc, Uuid::nil(), now)?;
    let event = options.callbacks.enrich_event(event, &options.plain)?;
    Ok(event)
}

/// What the integrations of a client say of the operating system: the context `os` of an event of this moment, in
/// nanoseconds since the epoch, after each integration in turn. One that drops the event leaves it as it was.
pub fn os_attributes<C: Callbacks>(
    alloc: Global,
    options: &ClientOptions<C>,
    now: u64,
) -> Result<OsAttributes, AllocError>
    ensures { IfOk result (λ os. os ≡ os_attributes C.meanings options.now now) }
{
    let event = enriched_event(alloc, options, now)?;
    let os = os_of(event.contexts.get("os"))?;
    Ok(os)
}
