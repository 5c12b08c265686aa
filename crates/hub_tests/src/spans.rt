//! The data of transactions and spans as closures are lent it, and values of which some are equal.
use crate::workshop::{Bench, Thread, at, fresh, set_tag};
use sentry_core::TransactionContext;
use sentry_core::protocol::{Refusal, SpanId, TraceId, Value};
use sentry_hub::performance::{Span, Transaction, TransactionOrSpan};
use sentry_lock::CoreLock;
use std::alloc::AllocError;
use std::test::Fail;

// Sets data and a tag of a transaction and of a span by closures. Answers how many data the copy of the first has, and
// whether that of the other has these.
fn edit<L: CoreLock>(
    transaction: &Transaction<L>,
    span: &Span<L>,
) -> Result<(usize, bool), Refusal> {
    let count = transaction.data(|data| {
        data.set_data("color", 1u64)?;
        data.set_tag("os", "linux")?;
        Ok(data.iter().count())
    })?;
    let is_there = span.data(|data| {
        data.set_data("color", Value::Int(1))?;
        data.set_tag("db", "old")?;
        Ok(data.get("color").is_some())
    })?;
    Ok((count, is_there))
}

// Edits both twice, finishes them at the seconds 50 and 59, the transaction a second time, and edits both once more.
fn edit_thrice<L: CoreLock>(
    thread: &mut Thread<L>,
    transaction: &Transaction<L>,
    span: &Span<L>,
) -> Result<[(usize, bool); 3], Refusal> {
    let first = edit(transaction, span)?;
    let second = edit(transaction, span)?;
    span.finish_with_timestamp(at(50))?;
    TransactionOrSpan::from(transaction.clone()?).finish_with_timestamp(thread, at(59))?;
    transaction.finish_with_timestamp(thread, at(70))?;
    Ok([first, second, edit(transaction, span)?])
}

// Whether clones are equal to a transaction and a span, and whether these are equal as what is either.
fn compare<L: CoreLock>(
    transaction: &Transaction<L>,
    span: &Span<L>,
) -> Result<(bool, bool), AllocError> {
    let (whole, part) = (transaction.clone()?, span.clone()?);
    let is_same = whole == *transaction && part == *span;
    let (one, other) = (
        TransactionOrSpan::from(whole),
        TransactionOrSpan::from(part),
    );
    Ok((is_same && one == one.clone()?, one == other))
}

// What edits answer, and comparisons, of a transaction with a span.
type Found = ([(usize, bool); 3], (bool, bool));

// The current hub alone is given a tag, which the transaction takes on.
fn trace<L: CoreLock>(thread: &mut Thread<L>) -> Result<Found, Refusal> {
    set_tag(&thread.current, "a", "1")?;
    let alloc = thread.current.core().allocator();
    let context = TransactionContext::new(
        alloc,
        "order",
        "http",
        TraceId([1; 16]),
        SpanId([2; 8]),
    )?;
    let transaction = thread.current.start_transaction(context, fresh(1))?;
    let span = transaction.start_child("op", "", fresh(2))?;
    let edited = edit_thrice(thread, &transaction, &span)?;
    Ok((edited, compare(&transaction, &span)?))
}

#[test]
fn data_is_lent_as_a_copy_with_its_setters(rt: HostRuntime) -> Result<(), Fail> {
    let mut bench = Bench::apart(rt, rt.alloc())?;
    let found = trace(&mut bench.thread)?;
    let sent = bench.finish()?;
    let expected = "; transaction 1 since 1 until 59 a=1 os=linux, span until 50 db=old";
    // a finished transaction has no data, a finished span keeps its own
    let edited = [(0, false), (1, true), (0, true)];
    assert_eq!(rt; (found, sent.as_str()), ((edited, (true, false)), expected));
    Ok(())
}
