//! Sessions: runs of a program, or requests, of which the server is told how they went.

mod aggregates;
mod calls;
mod counting;
mod events;
mod laws;
mod queue;
mod record;
mod taken;

pub use calls::session_attributes;
pub use laws::{ended_status_stays, queue_is_short};
pub use queue::SessionQueue;
pub use record::{Session, SessionStart};
pub use taken::TakenSessions;
