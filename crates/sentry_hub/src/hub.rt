//! A hub, by its key and a share of the core that holds it.
ghost use Rattle.std.specs.Prelude.{◌≡◌, ◌⊎◌, false, IfErr, IfOk, MatchOption, option_copied};
ghost use Rattle.sentry_calls.specs.Hubs as hubs;
ghost use Rattle.sentry_calls.specs.Layers as layers;
ghost use Rattle.sentry_lock.specs.Answers.{LockAnswers, LockAnswersWithoutMemory, LockRefuses};

mod calls;
mod captures;
mod integrations;
mod scopes;
mod threads;

pub(crate) use scopes::refuse_scope;
pub use scopes::{PopScopeError, WithScopeError};
use sentry_base::protocol::{ClientKey, HubKey, Refusal};
use sentry_lock::{Client, CoreLock, LockedHub, SharedCore};
use sentry_scope::Scope;
use sentry_thread_hub::MakeFromTop;
use std::alloc::{AllocError, Global};
use std::marker::Model;

/// A hub, by its key and a share of the core that holds it. A clone of the value is the same hub. Contracts see the key.
///
/// A hub is held until it is released: that the values of it are dropped does not release it.
pub struct Hub<L> {
    core: SharedCore<L>,
    key: HubKey,
}

impl<L: Drop> Drop for Hub<L> {
    fn drop(self) {
        let Hub { core: _, key: _ } = self;
    }
}

impl<L> Model for Hub<L> {
    ghost use Rattle.sentry_base.specs.declared.protocol.keys.HubKey.{HubKey};

    ghost Value = { HubKey };

    ghost view = { λ hub. hub.key };
}

impl<L: Drop> Clone for Hub<L> {
    ghost is_clone = { λ old new. new ≡ old };

    fn clone(&self) -> Result<Hub<L>, AllocError> {
        Ok(Hub {
            core: self.core.clone()?,
            key: self.key,
        })
    }
}

// The key of a client, if there is one.
fn key_of<L: CoreLock>(client: Option<&Client<L>>) -> Option<ClientKey>
    ensures { result ≡ option_copied client.entry }
{
    match client {
        None => None,
        Some(client) => Some(client.key()),
    }
}

impl<L: CoreLock> Hub<L> {
    /// A hub with one layer, of a client or none and a scope.
    ///
    /// `Stale`: the client isn't held, or the span of the scope isn't. `Full`: the numbers are used up. `OutOfMemory`.
    pub fn new(
        core: &SharedCore<L>,
        client: Option<&Client<L>>,
        scope: Scope<L::Processor>,
    ) -> Result<Hub<L>, Refusal>
        ensures done { IfOk result (λ hub. LockAnswers L.Processor L.Callbacks L.Transport
            hub (hubs.new_hub (option_copied client.entry) scope)) }
        ensures refused { IfErr result (λ refusal. (refusal ≡ Refusal.OutOfMemory)
            ⊎ LockRefuses L.Processor L.Callbacks L.Transport refusal (hubs.new_hub (option_copied client.entry) scope)) }
    {
        let share = core.clone()?;
        match core.new_hub(key_of(client), scope) {
            Ok(key) => Ok(Hub { core: share, key }),
            Err(refusal) => Err(refusal),
        }
    }

    // A hub with one layer, of no client and a scope.
    pub(crate) fn without_client(
        core: &SharedCore<L>,
        scope: Scope<L::Processor>,
    ) -> Result<Hub<L>, Refusal> {
        let share = core.clone()?;
        let key = core.new_hub(None, scope)?;
        Ok(Hub { core: share, key })
    }

    /// A hub with one layer, of the client of the other one's top layer and a copy of its scope. A program that forgets
    /// to release the hub leaves it in the core for as long as that lasts, and its client and session can't be dropped or
    /// end with it: `in_new_hub` releases it.
    ///
    /// `Stale`: the other hub isn't held. `Full`: the numbers are used up. `OutOfMemory`.
    pub fn new_from_top(other: &Hub<L>) -> Result<Hub<L>, Refusal>
        ensures done { IfOk result (λ hub. LockAnswers L.Processor L.Callbacks L.Transport
            hub (layers.new_hub_from_top other.now)) }
        ensures refused { IfErr result (λ refusal. (refusal ≡ Refusal.OutOfMemory)
            ⊎ LockRefuses L.Processor L.Callbacks L.Transport refusal (layers.new_hub_from_top other.now)) }
    {
        let core = other.core.clone()?;
        match other.lock().new_hub_from_top() {
            Ok(key) => Ok(Hub { core, key }),
            Err(refusal) => Err(refusal),
        }
    }

    /// The key of the hub.
    pub fn key(&self) -> HubKey
        ensures { result ≡ self.now }
    {
        self.key
    }

    // Makes the value one of the hub of this key in the same core.
    pub(crate) fn set_key(&mut self, key: HubKey)
        ensures { self.new ≡ key }
    {
        self.key = key;
    }

    // The same, of a value that is handed in.
    pub(crate) fn with_key(self, key: HubKey) -> Hub<L>
        ensures { result ≡ key }
    {
        let Hub { core, key: _ } = self;
        Hub { core, key }
    }

    /// The allocator of the core.
    pub fn allocator(&self) -> Global {
        self.core.allocator()
    }

    /// The core that holds it.
    pub fn core(&self) -> &SharedCore<L> {
        &self.core
    }

    // Takes the lock for one call on the hub.
    pub(crate) fn lock(&self) -> LockedHub<'_, L::Processor, L::Callbacks, L::Transport>
        ensures { result.hub ≡ self.now }
    {
        self.core.lock_hub(self.key)
    }

    // The same if the hub is active.
    pub(crate) fn lock_active(
        &self,
    ) -> Result<Option<LockedHub<'_, L::Processor, L::Callbacks, L::Transport>>, Refusal>
        ensures { IfOk result (λ found. MatchOption found
            (LockAnswersWithoutMemory L.Processor L.Callbacks L.Transport false (hubs.is_active self.now))
            (λ locked. locked.hub ≡ self.now)) }
    {
        self.core.lock_active(self.key)
    }
}

/// For the hubs of a thread that are made from those of another one.
impl<L: CoreLock> MakeFromTop for Hub<L> {
    fn make_from_top(other: &Hub<L>) -> Result<Hub<L>, Refusal> {
        Hub::new_from_top(other)
    }
}
