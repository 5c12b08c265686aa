//! Items that come in batches and are taken one by one.
ghost use Rattle.std.specs.Prelude.{◌≡◌, ◌<◌, ◌++◌, ◌∷◌, [], None, true, drop, OnOk, IfNone, IfSome, vec_len, vec_capacity};
ghost use Rattle.c_base.specs.Queues.{noted, waiting, IsTurned};

use sentry_plain::Items;
use std::alloc::{AllocError, Global};
use std::mem;

/// The items of one batch that are still to be taken: the first, and those after it, of which the next is the last; and
/// the note that goes with each of them.
pub struct Batch<T, N> {
    first: T,
    rest: Vec<T>,
    note: N,
}

impl<T: Drop, N: Drop> Drop for Batch<T, N> {
    fn drop(self) {
        let Batch {
            first: _,
            rest: _,
            note: _,
        } = self;
    }
}

/// Items in the order in which they came. A batch is kept without taking memory once there is room for one.
pub struct Queue<T, N> {
    // The batch of which items are taken.
    begun: Option<Batch<T, N>>,
    // The batches after it. The next is the last of these.
    next: Vec<Batch<T, N>>,
    // The batches after these, in order.
    later: Vec<Batch<T, N>>,
}

impl<T: Drop, N: Drop> Drop for Queue<T, N> {
    fn drop(self) {
        let Queue {
            begun: _,
            next: _,
            later: _,
        } = self;
    }
}

impl<T: Drop, N: Drop> Queue<T, N> {
    /// An empty queue. It takes no memory.
    pub fn new(alloc: Global) -> Queue<T, N>
        ensures { waiting result ≡ [] }
    {
        Queue {
            begun: None,
            next: Vec::new(alloc),
            later: Vec::new(alloc),
        }
    }

    /// The allocator of the queue.
    pub fn allocator(&self) -> Global {
        *self.later.allocator()
    }

    /// Makes room for one more batch.
    pub fn make_room(&mut self) -> Result<(), AllocError>
        ensures same { waiting self.new ≡ waiting self.old }
        ensures room { OnOk result (vec_len self.new.later < vec_capacity self.new.later) }
    {
        self.later.reserve(1)
    }

    /// Appends the items of a batch, each with this note.
    pub fn keep(&mut self, items: Items<T>, note: N)
        requires { vec_len self.old.later < vec_capacity self.old.later }
        ensures { waiting self.new ≡ waiting self.old ++ noted note items }
    {
        let mut rest = items.into_vec();
        rest.reverse();
        let Some(first) = rest.pop() else {
            return;
        };
        self.later.push_reserved(Batch { first, rest, note });
    }

    // Whether there is none, by a look at three lengths.
    fn is_empty(&self) -> bool
        ensures { result ≡ true → waiting self.now ≡ [] }
    {
        self.begun.is_none() && self.next.is_empty() && self.later.is_empty()
    }

    /// Forgets all items.
    pub fn clear(&mut self)
        ensures { waiting self.new ≡ [] }
    {
        if self.is_empty() {
            return;
        }
        self.begun = None;
        self.next.clear();
        self.later.clear();
    }

    // Turns to the later batches where no other is next.
    fn refill(&mut self)
        ensures same { waiting self.new ≡ waiting self.old }
        ensures begun { self.new.begun ≡ self.old.begun }
        ensures refilled { self.new.next.items ≡ [] → self.new.later.items ≡ [] }
    {
        if !self.next.is_empty() {
            return;
        }
        mem::swap(&mut self.next, &mut self.later);
        self.next.reverse();
    }

    /// Begins the next batch where none is begun.
    pub fn turn(&mut self)
        ensures same { waiting self.new ≡ waiting self.old }
        ensures turned { IsTurned self.new }
    {
        if self.begun.is_some() {
            return;
        }
        self.refill();
        self.begun = self.next.pop();
    }

    /// The first item, of the batch that is begun, with its note.
    pub fn first(&self) -> Option<(&T, &N)>
        ensures none { IfNone result (self.now.begun ≡ None) }
        ensures some { IfSome result (λ it. waiting self.now ≡ (it.0.now, it.1.now) ∷ drop 1 (waiting self.now)) }
    {
        match &self.begun {
            None => None,
            Some(batch) => Some((&batch.first, &batch.note)),
        }
    }

    /// Takes the first item off, where a batch is begun if any item waits.
    pub fn remove_first(&mut self)
        requires { IsTurned self.old }
        ensures { waiting self.new ≡ drop 1 (waiting self.old) }
    {
        let Some(mut batch) = self.begun.take() else {
            return;
        };
        if let Some(item) = batch.rest.pop() {
            batch.first = item;
            self.begun = Some(batch);
        }
    }
}
