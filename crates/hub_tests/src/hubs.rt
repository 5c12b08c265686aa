//! The hubs of a thread: guards, closures that are lent them, and a thread beside another.
use crate::workshop::{Bench, Minute, Thread, fresh, set_tag, unbind_client};
use sentry_core::Level;
use sentry_core::protocol::Refusal;
use sentry_hub::Hub;
use sentry_lock::CoreLock;
use sentry_thread_hub::{HubSwitchGuard, ThreadHub};
use std::test::Fail;

// Switches to the hub 1, and from that to the hub 2. Answers the number of the current hub under both guards, under one
// of them, and after both.
fn switch<L: CoreLock>(thread: &mut Thread<L>) -> Result<[u64; 3], Refusal> {
    let outer = Hub::new_from_top(&thread.current)?;
    let inner = Hub::new_from_top(&outer)?;
    let mut guard = HubSwitchGuard::new(thread, outer);
    let mut within = HubSwitchGuard::new(guard.thread_hub(), inner);
    let first = within.thread_hub().current.key().number;
    drop(within);
    let second = guard.thread_hub().current.key().number;
    drop(guard);
    Ok([first, second, thread.current.key().number])
}

#[test]
fn guards_restore_the_hub_of_before(rt: HostRuntime) -> Result<(), Fail> {
    let mut bench = Bench::new(rt, rt.alloc())?;
    let current = switch(&mut bench.thread)?;
    drop(bench);
    assert_eq!(rt; current, [2, 1, 0]);
    Ok(())
}

// Whether a closure is lent the current hub if that is active; false if it doesn't run.
fn is_lent<L: CoreLock>(thread: &mut Thread<L>) -> Result<bool, Refusal> {
    Hub::with_active(thread, |hub, thread| hub.key() == thread.current.key())
}

// Whether a closure runs while another hub is the current one, which it is lent.
fn is_run_under<L: CoreLock>(thread: &mut Thread<L>) -> Result<bool, Refusal> {
    let hub = Hub::new_from_top(&thread.current)?;
    let (before, key) = (thread.current.key(), hub.key());
    let lent = Hub::run(hub, thread, |hub, thread| (hub.key(), thread.current.key()))?;
    Ok(lent == (key, key) && thread.current.key() == before)
}

// The same of the current hub while it has a client, and when it has none any more. At last, whether one is lent any hub.
fn ask<L: CoreLock>(thread: &mut Thread<L>) -> Result<[bool; 4], Refusal> {
    let other = is_run_under(thread)?;
    let first = is_lent(thread)?;
    unbind_client(&thread.current)?;
    let second = is_lent(thread)?;
    let any = Hub::with(thread, |hub, thread| hub.key() == thread.current.key())?;
    Ok([other, first, second, any])
}

#[test]
fn closures_are_lent_an_active_hub(rt: HostRuntime) -> Result<(), Fail> {
    let mut bench = Bench::new(rt, rt.alloc())?;
    let are_lent = ask(&mut bench.thread)?;
    drop(bench);
    assert_eq!(rt; are_lent, [true, true, false, true]);
    Ok(())
}

// Sends a message in a thread whose current hub is made from the top of this one's main hub. Answers the numbers of its
// hubs.
fn send_beside<L: CoreLock>(thread: &Thread<L>) -> Result<[u64; 2], Refusal> {
    set_tag(&thread.main, "a", "1")?;
    let beside: Thread<L> = ThreadHub::from_main(Hub::main(thread)?, Minute, [4; 32])?;
    beside
        .current
        .capture_message("beside", Level::Info, fresh(1))?;
    Ok([beside.main.key().number, beside.current.key().number])
}

#[test]
fn a_thread_beside_another_has_a_hub_of_its_own(rt: HostRuntime) -> Result<(), Fail> {
    let bench = Bench::new(rt, rt.alloc())?;
    let numbers = send_beside(&bench.thread)?;
    let sent = bench.finish()?;
    let expected = "; event 1 Info at 1 beside a=1";
    assert_eq!(rt; (numbers, sent.as_str()), ([0, 1], expected));
    Ok(())
}
