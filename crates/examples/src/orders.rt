//! Orders, and what is told of each.
use anyhow::Result;
use sentry_core::generic::{CoreLock, Transaction};
use sentry_core::metrics::{CaptureMetric, counter, distribution};
use sentry_core::protocol::{SpanStatus, Unit};
use sentry_core::threads::{Task, WorkerThread};
use sentry_core::{
    IncomingRequest, RequestOptions, Text, add_breadcrumb, capture_error, configure_scope,
    in_new_hub, in_request_with, in_span, logger_error, logger_info, set_tag, user,
};
use std::time::Clock;
use thiserror::Error;

/// What a customer wants.
#[derive(Clone, Copy)]
pub struct Order {
    number: u64,
    customer: &'static str,
    amount: i64,
}

const ORDERS: [Order; 3] = [
    Order {
        number: 1,
        customer: "ada",
        amount: 40,
    },
    Order {
        number: 2,
        customer: "eve",
        amount: 4000,
    },
    Order {
        number: 3,
        customer: "bob",
        amount: 7,
    },
];

#[derive(Debug, Drop, Error)]
enum CardError {
    #[error("the limit is {limit}")]
    OverLimit { limit: i64 },
}

#[derive(Debug, Drop, Error)]
enum OrderError {
    #[error("order {number} was not paid")]
    NotPaid { number: u64, source: CardError },
}

/// All orders of a worker, on a hub of its own.
pub fn serve_orders<R: Clock + Drop, L: CoreLock>(rt: R, task: Task<L, u64>) -> Result<()> {
    let (mut thread, worker) = task.start(rt);
    in_new_hub(&mut thread, |thread| -> Result<()> {
        serve_all(thread, worker)
    })
}

fn serve_all<R: Clock + Drop, L: CoreLock>(
    thread: &mut WorkerThread<L, R>,
    worker: u64,
) -> Result<()> {
    set_tag(thread, "worker", worker)?;
    for order in ORDERS {
        let request = IncomingRequest::new("POST", "/orders", &[]);
        let options = RequestOptions::new().session(true);
        in_request_with(
            thread,
            "POST /orders",
            &request,
            options,
            |thread, transaction| { serve_order(thread, transaction, &order) },
        )?;
    }
    Ok(())
}

// The status of the response.
fn serve_order<R: Clock + Drop, L: CoreLock>(
    thread: &mut WorkerThread<L, R>,
    transaction: &Transaction<L>,
    order: &Order,
) -> Result<u16> {
    let alloc = thread.current.allocator();
    let customer = user(alloc).username(order.customer).build()?;
    configure_scope(thread, |scope| scope.set_user(Some(customer)))?;
    set_tag(thread, "order", order.number)?;
    add_breadcrumb(thread, ("order", "the order was read"))?;
    logger_info!(
        thread,
        amount = order.amount,
        "order {} of {}",
        order.number,
        order.customer
    )?;
    in_span(
        thread,
        transaction,
        "db.query",
        "reserve",
        |_, _| -> Result<()> { Ok(()) },
    )?;
    let paid = in_span(
        thread,
        transaction,
        "http.client",
        "pay",
        |thread, span| -> Result<bool> {
            let Err(error) = pay(order) else {
                return Ok(true);
            };
            let OrderError::NotPaid { source, .. } = &error;
            capture_error(thread, (&error, source))?;
            logger_error!(thread, "order {} failed", order.number)?;
            span.set_status(SpanStatus::FailedPrecondition)?;
            Ok(false)
        },
    )?;
    counter(alloc, "orders", 1)?
        .attribute("paid", paid)?
        .capture(thread)?;
    let euro = Unit::Other(Text::new(alloc, "euro")?);
    distribution(alloc, "amount", order.amount)?
        .unit(euro)
        .capture(thread)?;
    Ok(if paid { 200 } else { 402 })
}

fn pay(order: &Order) -> Result<(), OrderError> {
    if order.amount > 1000 {
        let source = CardError::OverLimit { limit: 1000 };
        return Err(OrderError::NotPaid {
            number: order.number,
            source,
        });
    }
    Ok(())
}
