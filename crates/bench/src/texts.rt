//! The texts of turns: short ones, which lie in place, and ones of 30 to 45 bytes.
use crate::hub::Thread;
use sentry_core::protocol::Refusal;
use sentry_core::{Clock, logger_info};
use sentry_lock::CoreLock;

/// What turns write, known where they are compiled.
pub trait Texts {
    /// The key of a tag, without the digit at its end.
    fn key() -> &'static str;
    /// The key of the first tag.
    fn first_key() -> &'static str;

    fn value() -> &'static str;

    fn other_value() -> &'static str;

    fn message() -> &'static str;
    /// The message of a breadcrumb.
    fn step() -> &'static str;
    /// The name of a counter.
    fn counter() -> &'static str;

    fn transaction() -> &'static str;

    fn transaction_operation() -> &'static str;

    fn span_operation() -> &'static str;

    fn span_description() -> &'static str;

    fn capture_log<L: CoreLock, K: Clock + Drop>(thread: &mut Thread<L, K>) -> Result<(), Refusal>;
}

pub struct Short;

impl Texts for Short {
    fn key() -> &'static str {
        "key"
    }

    fn first_key() -> &'static str {
        "key0"
    }

    fn value() -> &'static str {
        "value"
    }

    fn other_value() -> &'static str {
        "other"
    }

    fn message() -> &'static str {
        "hello world"
    }

    fn step() -> &'static str {
        "step"
    }

    fn counter() -> &'static str {
        "orders"
    }

    fn transaction() -> &'static str {
        "GET /checkout"
    }

    fn transaction_operation() -> &'static str {
        "http.server"
    }

    fn span_operation() -> &'static str {
        "db.query"
    }

    fn span_description() -> &'static str {
        "select"
    }

    fn capture_log<L: CoreLock, K: Clock + Drop>(thread: &mut Thread<L, K>) -> Result<(), Refusal> {
        logger_info!(thread, "hello world")
    }
}

pub struct Long;

impl Texts for Long {
    fn key() -> &'static str {
        "the.name.of.a.tag.of.forty.bytes.and.key"
    }

    fn first_key() -> &'static str {
        "the.name.of.a.tag.of.forty.bytes.and.key0"
    }

    fn value() -> &'static str {
        "what a tag says in thirty-three bytes"
    }

    fn other_value() -> &'static str {
        "what another one says in its bytes"
    }

    fn message() -> &'static str {
        "the order 41 was paid for by its customer"
    }

    fn step() -> &'static str {
        "the customer opened the list of orders"
    }

    fn counter() -> &'static str {
        "orders.of.customers.with.a.discount"
    }

    fn transaction() -> &'static str {
        "GET /shops/{shop}/orders/{order}/checkout"
    }

    fn transaction_operation() -> &'static str {
        "http.server.request.of.a.customer"
    }

    fn span_operation() -> &'static str {
        "db.query.of.orders.with.their.lines"
    }

    fn span_description() -> &'static str {
        "select * from orders where customer = ?"
    }

    fn capture_log<L: CoreLock, K: Clock + Drop>(thread: &mut Thread<L, K>) -> Result<(), Refusal> {
        logger_info!(thread, "the order 41 was paid for by its customer")
    }
}
