//! Threads that work on hubs of one core.
use crate::boxed::{Generator, Seed};
use crate::system::SystemClock;
use rand_core::{Rng, SeedableRng};
use sentry_base::clock::Clock;
use sentry_base::protocol::Refusal;
use sentry_hub::Hub;
use sentry_lock::CoreLock;
use sentry_thread_hub::{Refused, ThreadHub};
use std::alloc::AllocError;
use std::rt::Clock as TellTime;
use std::thread::{Threads, map_vec};

/// The hubs of a thread that `for_each` starts, over any lock: what runs in threads is generic in the lock.
pub type WorkerThread<L, R> = ThreadHub<Hub<L>, SystemClock<R>, Generator>;

/// What a thread of `for_each` works on, and what its hubs are made of.
#[derive(Drop)]
pub struct Task<L, T> {
    main: Hub<L>,
    current: Hub<L>,
    seed: Seed,
    item: T,
}

impl<L: CoreLock, T: Drop> Task<L, T> {
    /// The hubs of the thread, by the clock of the system, and the item. The current hub is the one that was current where
    /// `for_each` was called: `in_new_hub` runs work on a copy of it.
    pub fn start<R: TellTime + Drop>(self, rt: R) -> (WorkerThread<L, R>, T) {
        let Task {
            main,
            current,
            seed,
            item,
        } = self;
        let thread = ThreadHub {
            main,
            current,
            clock: SystemClock(rt),
            generator: Generator::from_seed(seed),
            request: None,
            refused: Refused::nothing(),
        };
        (thread, item)
    }
}

fn make_tasks<L: CoreLock, K, G: Rng, T: Drop>(
    thread: &mut ThreadHub<Hub<L>, K, G>,
    items: Vec<T>,
) -> Result<Vec<Task<L, T>>, AllocError> {
    let mut tasks = Vec::new(thread.current.allocator());
    for item in items {
        let mut seed = [0; 32];
        thread.generator.fill_bytes(&mut seed);
        tasks.push(Task {
            main: Hub::current(thread)?,
            current: Hub::current(thread)?,
            seed,
            item,
        })?;
    }
    Ok(tasks)
}

/// Works on each item in a thread of its own, until all are done. The answers are those of the work, in the order of the
/// items. Ids are drawn from seeds of this thread.
///
/// `OutOfMemory`, also where the system has no thread: then not every item was worked on.
pub fn for_each<
    R: Threads + Sync,
    L: CoreLock + Send + Sync + 'static,
    K,
    G: Rng,
    T: Send + Drop,
    A: Send + Drop,
    F: Fn(Task<L, T>) -> A + Sync,
>(rt: &R, thread: &mut ThreadHub<Hub<L>, K, G>, items: Vec<T>, work: F) -> Result<Vec<A>, Refusal>
where
    L::Processor: Send + Sync + 'static,
    L::Callbacks: Send + Sync + 'static,
    L::Transport: Send + Sync + 'static,
    requires { F.IsAlwaysCallable work }
{
    let tasks = make_tasks(thread, items)?;
    let answers = map_vec(rt, tasks, &work)?;
    Ok(answers)
}
