//! Guards of the hubs of a thread, where a hub is a number.
use sentry_thread_hub::{Refused, ThreadHub, run_under_both};
use std::test::Fail;

/// The hubs of a thread, with a number in the place of a clock.
type Thread = ThreadHub<u64, u64, ()>;

#[test]
fn the_inner_of_two_guards_has_the_current_hub(rt: HostRuntime) -> Result<(), Fail> {
    let mut thread = Thread {
        main: 1,
        current: 1,
        clock: 0,
        generator: (),
        request: None,
        refused: Refused::nothing(),
    };
    run_under_both(
        &mut thread,
        2,
        3,
        |thread: &mut Thread| thread.clock = thread.current,
    );
    assert!(rt; thread.clock == 3 && thread.current == 1);
    Ok(())
}
