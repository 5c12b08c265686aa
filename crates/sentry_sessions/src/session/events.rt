//! What an event means to a session.
ghost use Rattle.std.specs.Prelude.{◌≡◌};
ghost use Rattle.sentry_sessions.specs.Sessions.{is_crash, is_error, is_error_level, is_unhandled};

use sentry_base::protocol::{Event, Exception, Level};

fn is_error_level(level: Level) -> bool
    ensures { result ≡ is_error_level level }
{
    match level {
        Level::Error | Level::Fatal => true,
        Level::Debug | Level::Info | Level::Warning => false,
    }
}

// Whether the event is an error: by its level, or since it has an exception.
pub fn is_error(event: &Event) -> bool
    ensures { result ≡ is_error event.now }
{
    is_error_level(event.level) || !event.exception.is_empty()
}

// Whether the program did not handle the exception.
fn is_unhandled(exception: &Exception) -> bool
    ensures { result ≡ is_unhandled exception.now }
{
    match &exception.mechanism {
        Some(mechanism) => match mechanism.handled {
            Some(handled) => !handled,
            None => false,
        },
        None => false,
    }
}

// Whether the program did not handle one of the event's exceptions.
pub fn is_crash(event: &Event) -> bool
    ensures { result ≡ is_crash event.now }
{
    for exception in event.exception.as_slice() {
        if is_unhandled(exception) {
            return true;
        }
    }
    false
}
