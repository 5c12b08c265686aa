//! The lock of a core, as one trait with the types of the core, and the lock with what waits for it.
ghost use Rattle.std.specs.Prelude.{◌≡◌, IfErr, IfOk, Err};
ghost use Rattle.std.specs.Sync.Mutex.{mutex_guard_value};
ghost use Rattle.sentry_calls.specs.Losses as losses;
ghost use Rattle.sentry_state.specs.Outcomes.{Does};
ghost use Rattle.sentry_lock.specs.Answers.{DrainsLabel, EndsLabel, IsForeign};
ghost use Rattle.sentry_lock.specs.Locked.{Replies};

use crate::locked::Core;
use crate::under_lock::UnderLock;
use sentry_base::callbacks::EventCallback;
use sentry_base::protocol::{ClientReport, Label, Losses, Refusal};
use sentry_options::Callbacks;
use sentry_transport::Transport;
use std::alloc::{AllocError, Global};
use std::convert::Infallible;
use std::hint::spin_loop;
use std::sync::{Mutex, MutexGuard, Wait};

/// What waits for a lock, by a runtime that it keeps.
pub trait Gate {
    /// Waits until the gate is free, and takes it.
    fn enter<'a>(&self, gate: &'a Mutex<()>) -> MutexGuard<'a, ()>;

    /// Waits for ever.
    fn never(&self) -> Infallible;
}

/// Waits by a runtime.
#[derive(Drop)]
pub struct Waiting<R>(pub R);

impl<R: Wait> Gate for Waiting<R> {
    fn enter<'a>(&self, gate: &'a Mutex<()>) -> MutexGuard<'a, ()> {
        gate.lock(&self.0)
    }

    fn never(&self) -> Infallible {
        for _ in self.0.forever() {}
        unreachable!()
    }
}

/// What waits, in a box, which hides the runtime.
pub type BoxedGate = Box<dyn Gate + Send + Sync + Drop>;

/// Forwards both calls.
impl Gate for BoxedGate {
    fn enter<'a>(&self, gate: &'a Mutex<()>) -> MutexGuard<'a, ()> {
        Gate::enter(&**self, gate)
    }

    fn never(&self) -> Infallible {
        Gate::never(&**self)
    }
}

/// What holds the lock of a core. It is given up when this is dropped.
pub struct CoreGuard<'a, U> {
    pub(crate) under: MutexGuard<'a, U>,
    gate: MutexGuard<'a, ()>,
}

impl<U> Drop for CoreGuard<'_, U> {
    fn drop(self) {
        let CoreGuard { under, gate } = self;
        drop(under);
        drop(gate);
    }
}

impl<P: EventCallback + Drop, C: Callbacks, T: Drop> CoreGuard<'_, UnderLock<P, C, T>> {
    /// As `SharedCore::drain_and_absorb`, in this hold of the lock.
    ///
    /// `ForeignLosses`: no client that is held names the label.
    pub fn drain_and_absorb(&mut self, label: Label) -> Result<Option<Losses>, Refusal>
        ensures done { IfOk result (λ drained. DrainsLabel (mutex_guard_value self.old.under)
            (mutex_guard_value self.new.under) label drained) }
        ensures refused { IfErr result (λ refusal. IsForeign (mutex_guard_value self.old.under)
            (mutex_guard_value self.new.under) label refusal) }
    {
        self.under.core.drain_and_absorb(label)
    }

    /// As `SharedCore::take_report`, in this hold of the lock.
    ///
    /// `ForeignLosses`: no client that is held names the label. `OutOfMemory`.
    pub fn take_report(&mut self, label: Label) -> Result<Option<ClientReport>, Refusal>
        ensures done { IfOk result (λ report. Replies (mutex_guard_value self.old.under).engine
            (mutex_guard_value self.new.under).engine report (losses.take_report label)) }
        ensures refused { IfErr result (λ refusal. Does (mutex_guard_value self.old.under).engine
            (mutex_guard_value self.new.under).engine (Err refusal) (losses.take_report label)) }
        ensures drainers { (mutex_guard_value self.new.under).drainers ≡ (mutex_guard_value self.old.under).drainers }
    {
        self.under.core.take_report(label)
    }

    /// As `SharedCore::close_losses`, in this hold of the lock.
    ///
    /// `ForeignLosses`: no client that is held names the label.
    pub fn close_losses(&mut self, label: Label) -> Result<bool, Refusal>
        ensures done { IfOk result (λ ended. EndsLabel (mutex_guard_value self.old.under)
            (mutex_guard_value self.new.under) label ended) }
        ensures refused { IfErr result (λ refusal. IsForeign (mutex_guard_value self.old.under)
            (mutex_guard_value self.new.under) label refusal) }
    {
        self.under.core.close_losses(label)
    }
}

/// The lock of a core. It keeps what waits for it, so that no call is handed a runtime. What is generic in the processors,
/// callbacks and transports of a core is generic in its lock alone.
pub trait CoreLock: Drop {
    type Processor: EventCallback + Drop;

    type Callbacks: Callbacks;

    type Transport: Transport + Drop;

    /// Takes the lock. While the guard is held every other call on this core waits.
    fn lock(&self) -> CoreGuard<'_, UnderLock<Self::Processor, Self::Callbacks, Self::Transport>>;
}

/// A core under its lock, and what waits for the lock. Whoever takes the core has entered the gate.
pub struct Locked<P, C, T, W> {
    gate: Mutex<()>,
    // Two lines of a cache, so that those who try the gate don't take from whoever is in it what lies beside it.
    apart: [u64; 16],
    core: Mutex<UnderLock<P, C, T>>,
    wait: W,
}

impl<P: Drop, C: Drop, T: Drop, W: Drop> Drop for Locked<P, C, T, W> {
    fn drop(self) {
        let Locked {
            gate: _,
            apart: _,
            core: _,
            wait: _,
        } = self;
    }
}

impl<P: EventCallback + Drop, C: Callbacks, T: Transport + Drop, W: Gate + Drop> Locked<
    P,
    C,
    T,
    W,
> {
    /// A core that holds nothing. The keys of its engine carry the tag, by which those of another one are refused.
    ///
    /// An allocation may fail.
    pub fn new(wait: W, alloc: Global, tag: u64) -> Result<Locked<P, C, T, W>, AllocError> {
        let core = Mutex::new(UnderLock::new(Core::new(alloc, tag)?));
        Ok(Locked {
            gate: Mutex::new(()),
            apart: [0; 16],
            core,
            wait,
        })
    }
}

// How often the gate is tried before a thread sleeps at it, some 20 microseconds, and how long it rests between two tries.
// Whoever leaves the gate has to wake a thread that sleeps, which takes longer than most calls hold the lock.
const TRIES: u32 = 1_000;

const RESTS: u32 = 2;

impl<P: EventCallback + Drop, C: Callbacks, T: Transport + Drop, W: Gate + Drop> Locked<
    P,
    C,
    T,
    W,
> {
    // Enters the gate: by trying for a while, and then by what waits.
    fn enter(&self) -> MutexGuard<'_, ()> {
        for _ in 0..TRIES {
            if let Some(gate) = self.gate.try_lock() {
                return gate;
            }
            for _ in 0..RESTS {
                spin_loop();
            }
        }
        self.wait.enter(&self.gate)
    }
}

impl<P: EventCallback + Drop, C: Callbacks, T: Transport + Drop, W: Gate + Drop> CoreLock
    for Locked<P, C, T, W> {
    type Processor = P;

    type Callbacks = C;

    type Transport = T;

    fn lock(&self) -> CoreGuard<'_, UnderLock<P, C, T>> {
        let gate = self.enter();
        match self.core.try_lock() {
            Some(under) => CoreGuard { under, gate },
            // Whoever holds the core has entered the gate, and no one waits for the core itself.
            None => match self.wait.never() {},
        }
    }
}
