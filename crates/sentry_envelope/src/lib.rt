//! Sentry's envelope format: the JSON of each record, and the bytes of an envelope.
//!
//! Promised of `to_vec` and `to_writer`, for every envelope: the bytes are `envelope_text` (`specs/Envelopes.antt`). A
//! receiver that is written from the rules of the format alone reads the header from them, and exactly these items in
//! their order, whatever bytes the payloads have. A payload of JSON reads back as that JSON, if it nests no deeper than
//! 128. `to_writer` works an item at a time; after an error a beginning of the bytes stands written, once.
#![tactic(auto)]

mod aggregates;
mod attributes;
mod breadcrumbs;
mod contexts;
mod envelopes;
mod events;
mod ids;
mod items;
mod logs;
mod metrics;
mod own_members;
mod reports;
mod requests;
mod sdks;
mod sessions;
mod spans;
mod statuses;
mod texts;
mod transactions;
mod users;
mod values;
mod write_json;

pub use envelopes::{to_vec, to_vec_with_stacktraces, to_writer};
pub use sentry_framing::raw::{RawEnvelope, RawItem};
pub use sentry_framing::receiver::split_envelope;
