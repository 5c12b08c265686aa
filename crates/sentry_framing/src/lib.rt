//! The lines of Sentry's envelope format, without a record of Sentry: members of JSON, moments without floats, items
//! with payloads of any bytes, and the receiver.
//!
//! Promised: a receiver that is written from the rules of the format alone (`specs/Receiver.antt`) reads each item
//! back, whatever bytes its payload has, and `split_envelope` is that receiver. The digits of seconds, and of a
//! fraction, are the nanoseconds that they were made from; the date of a moment is that of its day. What a failed write
//! leaves is a beginning of the bytes, once.
#![tactic(auto)]

pub mod headers;
pub mod lines;
pub mod members;
pub mod moments;
pub mod raw;
pub mod receiver;
pub mod sending;
