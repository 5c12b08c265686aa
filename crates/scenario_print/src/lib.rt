//! How `scenario` prints: the text of each record is its impl of `Shown`, and an envelope or a reply is one line.
#![tactic(auto)]

mod bytes;
mod contexts;
mod envelopes;
mod events;
mod lists;
mod options;
mod replies;
mod sessions;
mod telemetry;
mod transactions;
mod values;

pub use bytes::push_bytes;
pub use envelopes::push_envelope;
pub use replies::{
    push_dsn_answer, push_last_event, push_line, push_line_if_any, push_line_of,
    push_parsed_headers, push_report,
};
use std::alloc::AllocError;

/// What is printed of a value. Where memory is refused, a part of it may stand in the text.
pub trait Shown {
    /// Puts it at the end of the text.
    fn push_to(&self, text: &mut String) -> Result<(), AllocError>;
}
