//! A transaction that is sent with its children.
use crate::hub::Thread;
use crate::texts::Texts;
use sentry_core::protocol::Refusal;
use sentry_core::{Clock, start_transaction, transaction_context};
use sentry_hub::performance::Transaction;
use sentry_lock::CoreLock;

// A child that is finished, and then given back. Its transaction keeps what it was.
fn add_child<T: Texts, L: CoreLock, K: Clock + Drop>(
    thread: &mut Thread<L, K>,
    transaction: &Transaction<L>,
) -> Result<(), Refusal> {
    let child = transaction.start_child(
        T::span_operation(),
        T::span_description(),
        thread.fresh_span(),
    )?;
    child.end(thread)?;
    Ok(())
}

/// Sends a transaction with ten children, and gives it back.
pub fn send_transaction<T: Texts, L: CoreLock, K: Clock + Drop>(
    thread: &mut Thread<L, K>,
) -> Result<bool, Refusal> {
    let context = transaction_context(thread, T::transaction(), T::transaction_operation())?;
    let transaction = start_transaction(thread, context)?;
    for _ in 0..10 {
        add_child::<T, L, K>(thread, &transaction)?;
    }
    transaction.end(thread)?;
    Ok(true)
}
