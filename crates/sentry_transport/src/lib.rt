//! What sends envelopes: transports, what makes them, and one that queues envelopes in front of another, with limits by
//! category, and a thread that pumps it.
#![tactic(auto)]

pub mod laws;
pub mod pump;
pub mod queue_transport;
pub mod queueing;
pub mod send_queue;
pub mod timed_queue;
pub mod transport;

pub use queue_transport::{DEFAULT_CAPACITY, QueueTransport};
pub use transport::{BoxedTransport, NoOpTransport, Transport, TransportFactory, TransportOptions};
