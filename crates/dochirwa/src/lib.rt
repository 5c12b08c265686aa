//! The C interface: an engine behind a pointer. Each call takes the pointer, numbers and bytes, and answers 0, or the
//! number of a fault: 1 to 11 as `CallFault` numbers them, 12 that the engine is closed, 13 that it is open already. A
//! call that fails changes nothing. C makes one call at a time on an engine.
#![tactic(auto)]

mod captures;
mod clients;
mod envelopes;
mod hubs;
mod opening;
mod posting;
mod scopes;
mod seat;
mod spans;
mod unboxed;

/// The version of the library: 10000 times the first number, 100 times the second, and the third.
pub const VERSION: u32 = 200;

/// The answer where no memory is left for an engine, as `CallFault::OutOfMemory` is numbered.
pub const OUT_OF_MEMORY: u32 = 1;

/// The answer of a call on an engine that is closed.
pub const CLOSED: u32 = 12;

/// The answer where an engine is to be opened that is open.
pub const ALREADY_OPEN: u32 = 13;
