//! A clock that needs no system.
use sentry_core::Clock;

/// A clock that is a nanosecond further each time that it is asked.
#[derive(Drop)]
pub struct Steps(pub u64);

impl Clock for Steps {
    fn now(&mut self) -> u64 {
        self.0 = self.0.saturating_add(1);
        self.0
    }
}
