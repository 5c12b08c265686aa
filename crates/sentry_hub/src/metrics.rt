//! Metrics that are captured on the current hub.
ghost use Rattle.std.specs.Prelude.{◌≡◌};

use crate::hub::Hub;
use sentry_base::clock::Clock;
use sentry_base::protocol::Refusal;
use sentry_batches::metrics::{IntoProtocolMetric, TypedMetric};
use sentry_lock::CoreLock;
use sentry_thread_hub::ThreadHub;

/// The method `capture` of counters, gauges and distributions.
pub trait CaptureMetric {
    /// Captures the metric on the current hub of the thread, at the moment of its clock.
    ///
    /// `Stale`: the hub isn't held. `OutOfMemory`.
    fn capture<L: CoreLock, K: Clock, G>(
        self,
        thread: &mut ThreadHub<Hub<L>, K, G>,
    ) -> Result<(), Refusal>
        ensures main { thread.new.main ≡ thread.old.main }
        ensures current { thread.new.current ≡ thread.old.current };
}

impl<U> CaptureMetric for TypedMetric<U> {
    fn capture<L: CoreLock, K: Clock, G>(
        self,
        thread: &mut ThreadHub<Hub<L>, K, G>,
    ) -> Result<(), Refusal> {
        let now = thread.clock.now();
        thread.current.capture_metric(self, now)
    }
}
