//! Sessions, and the ended sessions that wait to be sent.
#![tactic(auto)]

pub mod session;

pub use session::{Session, SessionQueue, TakenSessions, session_attributes};
