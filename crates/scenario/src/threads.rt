//! The hubs of a thread, as calls that ask for a clock or a current hub take them.
use sentry_base::clock::Clock;
use sentry_hub::Hub;
use sentry_thread_hub::{Refused, ThreadHub};
use std::alloc::AllocError;

/// A clock that stands at a moment.
#[derive(Drop)]
pub(crate) struct Stopped(u64);

impl Clock for Stopped {
    fn now(&mut self) -> u64 {
        self.0
    }
}

/// The hubs of a thread. Nothing is drawn in it.
pub(crate) type Thread<L> = ThreadHub<Hub<L>, Stopped, ()>;

/// The hubs of a thread whose current hub is this one, and whose clock stands at this moment.
pub(crate) fn thread_of<L: Drop>(hub: &Hub<L>, moment: u64) -> Result<Thread<L>, AllocError> {
    Ok(ThreadHub {
        main: hub.clone()?,
        current: hub.clone()?,
        clock: Stopped(moment),
        generator: (),
        request: None,
        refused: Refused::nothing(),
    })
}
