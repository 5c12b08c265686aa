//! The lock, and the calls that take it.
ghost use Rattle.std.specs.Prelude.{◌≡◌, ◌⊎◌, ◌+◌, ◌≤◌, IfErr, IfOk, OnOk, true, length, vec_len};
ghost use Rattle.std.specs.List.{list_all};
ghost use Rattle.std.specs.Vec.{vec_capacity};
ghost use Rattle.sentry_calls.specs.Hubs as hubs;
ghost use Rattle.sentry_calls.specs.Layers as layers;
ghost use Rattle.sentry_calls.specs.Losses as losses;
ghost use Rattle.sentry_calls.specs.Steps.{needs, step};
ghost use Rattle.sentry_lock.specs.Answers.{LockAnswers, LockDrainsAndAnswers, LockDrainsLabel, LockEndsLabel, LockGivesLabel, LockHasNoLabel, LockHolds, LockIsForeign, LockMakes, LockMakesNot, LockRefuses};
ghost use Rattle.sentry_lock.specs.CallLists.{LockMakesEach, LockRefusesOne};
ghost use Rattle.sentry_lock.specs.Setups.{IsRecorderOf};
ghost use Rattle.sentry_lock.specs.ValueCalls.{can_hand_out, is_ordinary_call};

mod spans;

use crate::client::{Client, ClientSetup};
use crate::core_lock::{CoreGuard, CoreLock, Gate, Locked};
use crate::handed::Handed;
use crate::locked::let_go::{LetGo, processors_in};
use crate::under_lock::UnderLock;
use sentry_base::callbacks::EventCallback;
use sentry_base::protocol::{ClientKey, ClientReport, HubKey, Label, Losses, Refusal};
use sentry_engine::call::{Call, Reply};
use sentry_engine::{Held, ScopeGuard};
use sentry_options::{Callbacks, ClientOptions};
use sentry_scope::Scope;
use sentry_transport::Transport;
use std::alloc::{AllocError, Global};
use std::fmt;
use std::fmt::Debug;
use std::sync::Arc;

/// A share of a core under its lock. Its clones share it, also with other threads.
///
/// Each call waits while another one holds the lock. Over a gate in a box (`BoxedGate`) no type says so. Over `Waiting<R>`
/// each function that calls has the bound `R: Wait`, which does.
///
/// Each call that can hand out envelopes first drains and absorbs the losses of each label that a held client names, in
/// the order of the labels; then it makes the engine's call; then, without the lock, it hands the envelopes to their
/// transports. What was absorbed stays so if the call is refused.
///
/// The processors and callbacks of a layer, a hub or a client that goes are dropped once the lock is free; what a refused
/// call was handed may be dropped under it.
pub struct SharedCore<L> {
    core: Arc<L>,
    alloc: Global,
}

impl<L: Drop> Drop for SharedCore<L> {
    fn drop(self) {
        let SharedCore { core: _, alloc: _ } = self;
    }
}

impl<L: Drop> Clone for SharedCore<L> {
    fn clone(&self) -> Result<SharedCore<L>, AllocError> {
        Ok(SharedCore {
            core: self.core.clone()?,
            alloc: self.alloc,
        })
    }
}

impl<P: EventCallback + Drop, C: Callbacks, T: Transport + Drop, W: Gate + Drop> SharedCore<
    Locked<P, C, T, W>,
> {
    /// A core that holds nothing. The keys of its engine carry the tag, by which those of another one are refused.
    ///
    /// An allocation may fail.
    pub fn new(
        wait: W,
        alloc: Global,
        tag: u64,
    ) -> Result<SharedCore<Locked<P, C, T, W>>, AllocError> {
        let core = Arc::new(alloc, Locked::new(wait, alloc, tag)?)?;
        Ok(SharedCore { core, alloc })
    }
}

/// What it holds, by `held`.
impl<L: CoreLock> Debug for SharedCore<L> {
    fn fmt<W: fmt::Write>(&self, f: &mut fmt::Formatter<W>) -> fmt::Result {
        Debug::fmt(&self.held(), f)
    }
}

impl<L: CoreLock> SharedCore<L> {
    /// The allocator of the core.
    pub fn allocator(&self) -> Global
        ensures { result ≡ self.now.alloc }
    {
        self.alloc
    }

    /// Takes the lock. While the guard is held every other call on this core waits.
    pub fn lock(&self) -> CoreGuard<'_, UnderLock<L::Processor, L::Callbacks, L::Transport>> {
        self.core.lock()
    }

    /// How many clients, hubs, layers, transactions, spans and sessions it holds: what a program has not given back.
    pub fn held(&self) -> Held
        ensures { LockHolds L.Processor L.Callbacks L.Transport result }
    {
        let mut guard = self.lock();
        let core = &mut guard.under.core;
        core.held()
    }

    /// Makes the label and the words of a client that is to be added with these options.
    ///
    /// `Full`: the labels are used up. `OutOfMemory`.
    pub fn client_setup(
        &self,
        options: ClientOptions<L::Callbacks>,
    ) -> Result<ClientSetup<L, L::Callbacks>, Refusal>
        ensures options { IfOk result (λ setup. setup.options ≡ options) }
        ensures label { IfOk result (λ setup. LockGivesLabel L.Processor L.Callbacks L.Transport setup.label) }
        ensures recorder { IfOk result (λ setup. IsRecorderOf setup.recorder setup.drainer) }
        ensures refused { IfErr result (λ refusal. (refusal ≡ Refusal.OutOfMemory)
            ⊎ LockHasNoLabel L.Processor L.Callbacks L.Transport refusal) }
    {
        let share = self.clone()?;
        let taken = self.lock().under.core.take_label();
        match taken {
            Ok(label) => ClientSetup::new(share, self.alloc, options, label),
            Err(refusal) => Err(refusal),
        }
    }

    /// The client of a key, which need not be held.
    ///
    /// An allocation may fail.
    pub fn client(&self, key: ClientKey) -> Result<Client<L>, AllocError>
        ensures { IfOk result (λ client. client ≡ key) }
    {
        Client::of_key(self, key)
    }

    // The lock is free again when it returns.
    fn called(
        &self,
        call: Call<L::Processor, L::Callbacks>,
    ) -> Result<Handed<Reply<L::Processor, L::Callbacks>, L::Transport>, Refusal>
        requires { is_ordinary_call call ≡ true }
        ensures done { IfOk result (λ handed. LockMakes L.Transport (can_hand_out call) (needs call)
            handed.out.reply (step L.Processor.gives L.Callbacks.meanings call)) }
        ensures refused { IfErr result (λ refusal. LockMakesNot L.Transport (can_hand_out call) (needs call)
            refusal (step L.Processor.gives L.Callbacks.meanings call)) }
    {
        let mut guard = self.lock();
        let core = &mut guard.under.core;
        let let_go = core.let_go_by(&call);
        let made = core.drain_and_apply(call);
        drop(guard);
        drop(let_go);
        match made {
            Ok(handed) => Ok(handed),
            Err(refusal) => Err(refusal),
        }
    }

    /// Makes one call and answers its reply. The call adds no client, absorbs nothing, and flushes or closes none:
    /// `Client` has the last two.
    ///
    /// The refusals of the engine's call; `OutOfMemory`.
    pub fn call(
        &self,
        call: Call<L::Processor, L::Callbacks>,
    ) -> Result<Reply<L::Processor, L::Callbacks>, Refusal>
        requires { is_ordinary_call call ≡ true }
        ensures done { IfOk result (λ reply. LockMakes L.Transport (can_hand_out call) (needs call)
            reply (step L.Processor.gives L.Callbacks.meanings call)) }
        ensures refused { IfErr result (λ refusal. LockMakesNot L.Transport (can_hand_out call) (needs call)
            refusal (step L.Processor.gives L.Callbacks.meanings call)) }
    {
        match self.called(call) {
            Ok(handed) => Ok(handed.deliver()),
            Err(refusal) => Err(refusal),
        }
    }

    // Makes the calls up to the first refusal, and answers that. What they hand out goes to the end of one list, what they
    // may let go to the end of the other. The lock is free again when it returns.
    fn all_called(
        &self,
        calls: Vec<Call<L::Processor, L::Callbacks>>,
        all: &mut Vec<Handed<Reply<L::Processor, L::Callbacks>, L::Transport>>,
        let_go: &mut Vec<LetGo<L::Processor, L::Callbacks>>,
    ) -> Result<(), Refusal>
        requires ordinary { list_all is_ordinary_call calls.items ≡ true }
        requires room { vec_len all.old + length calls.items ≤ vec_capacity all.old }
        requires room_beside { vec_len let_go.old + length calls.items ≤ vec_capacity let_go.old }
        ensures done { OnOk result (LockMakesEach L.Transport L.Processor.gives L.Callbacks.meanings calls.items) }
        ensures refused { IfErr result (λ refusal. LockRefusesOne L.Transport
            L.Processor.gives L.Callbacks.meanings calls.items refusal) }
    {
        self.lock().under.core.apply_all(calls, all, let_go)
    }

    /// Makes the calls in order, in one hold of the lock, up to the first that is refused, and answers that refusal. The
    /// replies are dropped; the envelopes go out when the lock is free.
    ///
    /// The refusals of the engine's calls; `OutOfMemory`.
    pub fn call_all(&self, calls: Vec<Call<L::Processor, L::Callbacks>>) -> Result<(), Refusal>
        requires { list_all is_ordinary_call calls.items ≡ true }
        ensures done { OnOk result (LockMakesEach L.Transport L.Processor.gives L.Callbacks.meanings calls.items) }
        ensures refused { IfErr result (λ refusal. (refusal ≡ Refusal.OutOfMemory)
            ⊎ LockRefusesOne L.Transport L.Processor.gives L.Callbacks.meanings calls.items refusal) }
    {
        let mut all = Vec::with_capacity(self.alloc, calls.len())?;
        let mut let_go = Vec::with_capacity(self.alloc, calls.len())?;
        let answer = self.all_called(calls, &mut all, &mut let_go);
        for handed in all {
            drop(handed.deliver());
        }
        answer
    }

    /// Drains the words of a label once, absorbs what that gave, and returns it; `None` if the words were ended. It takes
    /// no memory.
    ///
    /// `ForeignLosses`: no client that is held names the label.
    pub fn drain_and_absorb(&self, label: Label) -> Result<Option<Losses>, Refusal>
        ensures done { IfOk result (λ drained.
            LockDrainsLabel L.Processor L.Callbacks L.Transport label drained) }
        ensures refused { IfErr result (λ refusal.
            LockIsForeign L.Processor L.Callbacks L.Transport label refusal) }
    {
        self.lock().under.core.drain_and_absorb(label)
    }

    /// Returns a report of the losses that are pending under a label, which then count as reported, or `None` if there
    /// are none. What its words hold is not in it: drain them first.
    ///
    /// `ForeignLosses`: no client that is held names the label. `OutOfMemory`.
    pub fn take_report(&self, label: Label) -> Result<Option<ClientReport>, Refusal>
        ensures done { IfOk result (λ report. LockAnswers L.Processor L.Callbacks L.Transport
            report (losses.take_report label)) }
        ensures refused { IfErr result (λ refusal. LockRefuses L.Processor L.Callbacks L.Transport
            refusal (losses.take_report label)) }
    {
        self.lock().under.core.take_report(label)
    }

    /// Ends the words of a label, absorbs what still stood in them, and answers true; or answers false and changes
    /// nothing while a recorder of them is held. True also if they were ended before. It takes no memory.
    ///
    /// `ForeignLosses`: no client that is held names the label.
    pub fn close_losses(&self, label: Label) -> Result<bool, Refusal>
        ensures done { IfOk result (λ ended. LockEndsLabel L.Processor L.Callbacks L.Transport label ended) }
        ensures refused { IfErr result (λ refusal.
            LockIsForeign L.Processor L.Callbacks L.Transport label refusal) }
    {
        self.lock().under.core.close_losses(label)
    }

    /// Adds a hub with one layer, of a client or none and a scope, and answers its key.
    ///
    /// `Stale`: the client isn't held, or the span of the scope isn't. `Full`: the numbers are used up. `OutOfMemory`.
    pub fn new_hub(
        &self,
        client: Option<ClientKey>,
        scope: Scope<L::Processor>,
    ) -> Result<HubKey, Refusal>
        ensures done { IfOk result (λ reply. LockAnswers L.Processor L.Callbacks L.Transport
            reply (hubs.new_hub client scope)) }
        ensures refused { IfErr result (λ refusal. LockRefuses L.Processor L.Callbacks L.Transport
            refusal (hubs.new_hub client scope)) }
    {
        // By this share the processors of a scope that is refused are dropped without the lock.
        let let_go: LetGo<L::Processor, L::Callbacks> = processors_in(&scope);
        let added = self.lock().under.core.new_hub(client, scope);
        drop(let_go);
        added
    }

    /// Pushes a copy of a hub's top layer onto it. The guard stands for the new layer.
    ///
    /// `Stale`: the hub isn't held. `OutOfMemory`.
    pub fn push_scope(&self, hub: HubKey) -> Result<ScopeGuard, Refusal>
        ensures done { IfOk result (λ reply. LockAnswers L.Processor L.Callbacks L.Transport
            reply (layers.push_scope hub)) }
        ensures refused { IfErr result (λ refusal. LockRefuses L.Processor L.Callbacks L.Transport
            refusal (layers.push_scope hub)) }
    {
        self.lock().under.core.push_scope(hub)
    }

    /// Removes the layer that a guard stands for. `now` is the moment in nanoseconds since the epoch. Each refusal hands
    /// the guard back.
    ///
    /// `Stale`: the hub isn't held. `OutOfOrder`: the guard's layer isn't the top one, or is the only one.
    /// `OutOfMemory`.
    pub fn pop_scope(&self, guard: ScopeGuard, now: u64) -> Result<(), (Refusal, ScopeGuard)>
        ensures done { IfOk result (λ reply. LockDrainsAndAnswers L.Processor L.Callbacks L.Transport
            reply (layers.pop_scope guard.0 guard.1 now)) }
        ensures back { IfErr result (λ refused. refused.1 ≡ guard) }
    {
        let mut held = self.lock();
        let core = &mut held.under.core;
        let let_go = core.processors_of(guard.hub());
        let handed = core.pop_scope(guard, now)?;
        drop(held);
        drop(let_go);
        Ok(handed.deliver())
    }
}
