//! What transports record lost data with, and how a client takes it from them.
pub use sentry_client_reports::{
    CountedDrainer, Drained, Drainer, LossBook, LossStep, LossWords, Recorder, TransportLossReason,
    TransportLossReason as Reason, View, books_balance, drains_count, machine_keeps, machine_moves,
    shares_add_up, wrong_steps_break,
};
