//! The turns that a thread makes on its current hub.
use crate::hub::Thread;
use crate::texts::Texts;
use crate::traces::send_transaction;
use sentry_core::metrics::{CaptureMetric, counter};
use sentry_core::protocol::Refusal;
use sentry_core::{
    Breadcrumb, Clock, Level, Text, add_breadcrumb, capture_message, configure_scope, end_session,
    start_session, with_scope,
};
use sentry_lock::CoreLock;
use std::alloc::{AllocError, Global};

/// What a turn does.
#[derive(Clone, Copy)]
pub enum HubTurn {
    /// Pushes a layer, sets a tag and pops the layer, on a scope with ten tags.
    Scope,
    /// Sends a message under the scope of the hub.
    Message,
    /// The same under a scope with ten tags.
    TaggedMessage,
    /// Adds a breadcrumb: after the first hundred the oldest has to go each time.
    Breadcrumb,
    /// Captures a log. They are sent by the hundred.
    Log,
    /// Captures a counter. They are sent by the hundred.
    Counter,
    /// Starts and ends a session. The ends are sent by the hundred.
    Session,
    /// Sends a transaction with ten children.
    Transaction,
}

fn allocator_of<L: CoreLock, K: Clock + Drop>(thread: &Thread<L, K>) -> Global {
    thread.current.allocator()
}

// Ten tags for the scope of the current hub.
fn set_ten_tags<T: Texts, L: CoreLock, K: Clock + Drop>(
    thread: &mut Thread<L, K>,
) -> Result<(), Refusal> {
    for number in 0..10u64 {
        let name = T::key();
        let key = format!(in allocator_of(thread); "{name}{number}")?;
        configure_scope(thread, |scope| scope.set_tag(key.as_str(), T::value()))?;
    }
    Ok(())
}

/// Sets on the current hub what a turn needs.
pub fn prepare<T: Texts, L: CoreLock, K: Clock + Drop>(
    thread: &mut Thread<L, K>,
    turn: HubTurn,
) -> Result<(), Refusal> {
    match turn {
        HubTurn::Scope | HubTurn::TaggedMessage => set_ten_tags::<T, L, K>(thread),
        _other => Ok(()),
    }
}

// A layer with a tag more, on which nothing is done.
fn push_tag_and_pop<T: Texts, L: CoreLock, K: Clock + Drop>(
    thread: &mut Thread<L, K>,
) -> Result<bool, Refusal> {
    with_scope(
        thread,
        |scope| scope.set_tag(T::first_key(), T::other_value()),
        |_thread| (),
    )?;
    Ok(true)
}

fn send_message<T: Texts, L: CoreLock, K: Clock + Drop>(
    thread: &mut Thread<L, K>,
) -> Result<bool, Refusal> {
    let id = capture_message(thread, T::message(), Level::Info)?;
    Ok(!id.is_nil())
}

fn breadcrumb<T: Texts>(alloc: Global, now: u64) -> Result<Breadcrumb, AllocError> {
    let mut breadcrumb = Breadcrumb::new(alloc, now)?;
    breadcrumb.message = Some(Text::new(alloc, T::step())?);
    Ok(breadcrumb)
}

fn add_step<T: Texts, L: CoreLock, K: Clock + Drop>(
    thread: &mut Thread<L, K>,
) -> Result<bool, Refusal> {
    let breadcrumb = breadcrumb::<T>(allocator_of(thread), thread.clock.now())?;
    add_breadcrumb(thread, breadcrumb)?;
    Ok(true)
}

fn capture_log<T: Texts, L: CoreLock, K: Clock + Drop>(
    thread: &mut Thread<L, K>,
) -> Result<bool, Refusal> {
    T::capture_log(thread)?;
    Ok(true)
}

fn capture_counter<T: Texts, L: CoreLock, K: Clock + Drop>(
    thread: &mut Thread<L, K>,
) -> Result<bool, Refusal> {
    counter(allocator_of(thread), T::counter(), 1)?.capture(thread)?;
    Ok(true)
}

fn hold_session<L: CoreLock, K: Clock + Drop>(thread: &mut Thread<L, K>) -> Result<bool, Refusal> {
    start_session(thread)?;
    end_session(thread)?;
    Ok(true)
}

// Answers whether it did what it was to do: a message may not be sent.
fn make_one<T: Texts, L: CoreLock, K: Clock + Drop>(
    thread: &mut Thread<L, K>,
    turn: HubTurn,
) -> Result<bool, Refusal> {
    match turn {
        HubTurn::Scope => push_tag_and_pop::<T, L, K>(thread),
        HubTurn::Message | HubTurn::TaggedMessage => send_message::<T, L, K>(thread),
        HubTurn::Breadcrumb => add_step::<T, L, K>(thread),
        HubTurn::Log => capture_log::<T, L, K>(thread),
        HubTurn::Counter => capture_counter::<T, L, K>(thread),
        HubTurn::Session => hold_session(thread),
        HubTurn::Transaction => send_transaction::<T, L, K>(thread),
    }
}

/// Makes so many turns, and answers how many did what they were to do.
pub fn make_turns<T: Texts, L: CoreLock, K: Clock + Drop>(
    thread: &mut Thread<L, K>,
    turn: HubTurn,
    turns: u64,
) -> Result<u64, Refusal> {
    let mut made = 0u64;
    for _ in 0..turns {
        made = made.wrapping_add(u64::from(make_one::<T, L, K>(thread, turn)?));
    }
    Ok(made)
}
