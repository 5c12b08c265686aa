//! One lock around an engine, the drainers of its losses, and the transports of its clients.
#![tactic(auto)]

pub mod client;
pub mod core_lock;
mod handed;
pub mod locked;
pub mod locked_hub;
pub mod scope_edits;
pub mod shared_core;
pub mod under_lock;
mod words;

pub use client::{Client, ClientSetup};
pub use core_lock::{BoxedGate, CoreGuard, CoreLock, Gate, Locked, Waiting};
pub use locked::Core;
pub use locked_hub::LockedHub;
pub use scope_edits::{IntoContext, IntoSpanKey, ScopeEdits};
pub use shared_core::SharedCore;
pub use under_lock::UnderLock;
