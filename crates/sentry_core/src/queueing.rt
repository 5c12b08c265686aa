//! A transport that queues envelopes in front of another one, with limits by category, its core, and a thread that pumps
//! it.
pub use sentry_transport::laws::envelopes_add_up;
pub use sentry_transport::pump::Pump;
pub use sentry_transport::queueing::{QueueCore, queue_keeps_order};
pub use sentry_transport::{DEFAULT_CAPACITY, QueueTransport};
