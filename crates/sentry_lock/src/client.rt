//! A client: its key, and a share of the core that holds it.
ghost use Rattle.std.specs.Option.{is_some};
ghost use Rattle.std.specs.Prelude.{◌≡◌, ◌⊎◌, IfErr, IfOk, Ok, nat_lt, option_copied};
ghost use Rattle.sentry_base.specs.Losses.{no_losses};
ghost use Rattle.sentry_calls.specs.Clients as clients;
ghost use Rattle.sentry_calls.specs.Telemetry as telemetry;
ghost use Rattle.sentry_lock.specs.Answers.{LockAddsNot, LockAnswers, LockAnswersWithoutMemory, LockDrainsAndAnswers, LockRefuses, LockRefusesWithoutMemory};

mod setup;

use crate::core_lock::CoreLock;
use crate::handed::{Ending, Handed, reply_of};
use crate::shared_core::SharedCore;
use sentry_base::protocol::{
    ClientKey, Draw, Envelope, Event, Fresh, Label, Log, Refusal, SampleRate, Uuid,
};
use sentry_batches::metrics::IntoProtocolMetric;
use sentry_client_reports::CountedDrainer;
use sentry_options::ClientOptions;
use sentry_plain::{Boxed, Shared};
use sentry_scope::Scope;
use sentry_texts::dsn::Dsn;
pub use setup::ClientSetup;
use std::alloc::{AllocError, Global};
use std::marker::Model;

// A share of a transport, which calls are made on without the lock.
fn share_of<T: Drop>(alloc: Global, transport: Option<T>) -> Result<Option<Shared<T>>, AllocError>
    ensures { IfOk result (λ share. share ≡ transport) }
{
    match transport {
        None => Ok(None),
        Some(transport) => Ok(Some(Shared::new(alloc, transport)?)),
    }
}

// Takes the lock and adds a client with what its setup has.
fn add_client<L: CoreLock>(
    core: &SharedCore<L>,
    options: ClientOptions<L::Callbacks>,
    transport: Option<Shared<L::Transport>>,
    label: Label,
    drainer: CountedDrainer,
    now: u64,
) -> Result<ClientKey, Refusal>
    requires label { drainer.part.label ≡ label }
    requires none { drainer.taken ≡ no_losses }
    ensures done { IfOk result (λ key. LockAnswers L.Processor L.Callbacks L.Transport key
        (clients.add_client L.Callbacks.meanings options (is_some transport) label now)) }
    ensures refused { IfErr result (λ refusal. (refusal ≡ Refusal.OutOfMemory)
        ⊎ LockAddsNot L.Processor L.Callbacks L.Transport label refusal
        (clients.add_client L.Callbacks.meanings options (is_some transport) label now)) }
{
    let mut guard = core.lock();
    let added = guard
        .under
        .core
        .add_client(options, transport, label, drainer, now);
    match added {
        Ok(out) => Ok(out.reply),
        Err(refusal) => Err(refusal),
    }
}

/// A client, by its key and a share of the core that holds it. A clone of the value is the same client; `clone_client`
/// makes another one. Contracts see the key.
pub struct Client<L> {
    core: SharedCore<L>,
    key: ClientKey,
}

impl<L: Drop> Drop for Client<L> {
    fn drop(self) {
        let Client { core: _, key: _ } = self;
    }
}

impl<L> Model for Client<L> {
    ghost use Rattle.sentry_base.specs.declared.protocol.keys.ClientKey.{ClientKey};

    ghost Value = { ClientKey };

    ghost view = { λ client. client.key };
}

impl<L: Drop> Clone for Client<L> {
    ghost is_clone = { λ old new. new ≡ old };

    fn clone(&self) -> Result<Client<L>, AllocError> {
        Ok(Client {
            core: self.core.clone()?,
            key: self.key,
        })
    }
}

impl<L: CoreLock> Client<L> {
    // The client of a key.
    pub(crate) fn of_key(core: &SharedCore<L>, key: ClientKey) -> Result<Client<L>, AllocError>
        ensures { IfOk result (λ client. client ≡ key) }
    {
        Ok(Client {
            core: core.clone()?,
            key,
        })
    }

    /// Adds a client to the core that its setup was made by, after the `setup` of its integrations. It sends its
    /// envelopes by the transport, if there is one and the options have a DSN. `now` is the moment in nanoseconds since
    /// the epoch.
    ///
    /// `Full`: the numbers are used up. `OutOfMemory`. Then the transport is dropped without the lock, and the options
    /// under it.
    pub fn with_options(
        setup: ClientSetup<L, L::Callbacks>,
        transport: Option<L::Transport>,
        now: u64,
    ) -> Result<Client<L>, Refusal>
        ensures done { IfOk result (λ client. LockAnswers L.Processor L.Callbacks L.Transport client
            (clients.add_client L.Callbacks.meanings setup.options (is_some transport) setup.label now)) }
        ensures refused { IfErr result (λ refusal. (refusal ≡ Refusal.OutOfMemory)
            ⊎ LockAddsNot L.Processor L.Callbacks L.Transport setup.label refusal
            (clients.add_client L.Callbacks.meanings setup.options (is_some transport) setup.label now)) }
    {
        let ClientSetup {
            core,
            options,
            label,
            recorder: _,
            drainer,
        } = setup;
        let share = share_of(core.allocator(), transport)?;
        // So that a transport that is refused outlasts the lock.
        let kept = share.clone()?;
        let added = add_client(&core, options, share, label, drainer, now);
        drop(kept);
        match added {
            Ok(key) => Ok(Client { core, key }),
            Err(refusal) => Err(refusal),
        }
    }

    /// The same as `with_options`.
    pub fn from_config(
        setup: ClientSetup<L, L::Callbacks>,
        transport: Option<L::Transport>,
        now: u64,
    ) -> Result<Client<L>, Refusal>
        ensures done { IfOk result (λ client. LockAnswers L.Processor L.Callbacks L.Transport client
            (clients.add_client L.Callbacks.meanings setup.options (is_some transport) setup.label now)) }
        ensures refused { IfErr result (λ refusal. (refusal ≡ Refusal.OutOfMemory)
            ⊎ LockAddsNot L.Processor L.Callbacks L.Transport setup.label refusal
            (clients.add_client L.Callbacks.meanings setup.options (is_some transport) setup.label now)) }
    {
        Client::with_options(setup, transport, now)
    }

    /// The key of the client.
    pub fn key(&self) -> ClientKey
        ensures { result ≡ self.now }
    {
        self.key
    }

    /// The core that holds it.
    pub fn core(&self) -> &SharedCore<L> {
        &self.core
    }

    /// The options, as a share: after the `setup` of the integrations, which are among them.
    ///
    /// `Stale`: the client isn't held. `OutOfMemory`.
    pub fn options(&self) -> Result<Shared<ClientOptions<L::Callbacks>>, Refusal>
        ensures done { IfOk result (λ reply. LockAnswers L.Processor L.Callbacks L.Transport
            reply (clients.options self.now)) }
        ensures refused { IfErr result (λ refusal. LockRefuses L.Processor L.Callbacks L.Transport
            refusal (clients.options self.now)) }
    {
        let mut guard = self.core.lock();
        let core = &mut guard.under.core;
        reply_of(core.engine().options(self.key))
    }

    /// Where the client sends to, if anywhere.
    ///
    /// `Stale`: the client isn't held. `OutOfMemory`.
    pub fn dsn(&self) -> Result<Option<Dsn>, Refusal>
        ensures done { IfOk result (λ reply. LockAnswers L.Processor L.Callbacks L.Transport
            reply (clients.dsn self.now)) }
        ensures refused { IfErr result (λ refusal. LockRefuses L.Processor L.Callbacks L.Transport
            refusal (clients.dsn self.now)) }
    {
        let mut guard = self.core.lock();
        let core = &mut guard.under.core;
        reply_of(core.engine().dsn(self.key))
    }

    /// Whether the client has a DSN, now and when it was added, and a transport. It takes no memory.
    ///
    /// `Stale`: the client isn't held.
    pub fn is_enabled(&self) -> Result<bool, Refusal>
        ensures done { IfOk result (λ reply. LockAnswersWithoutMemory L.Processor L.Callbacks L.Transport
            reply (clients.is_enabled self.now)) }
        ensures refused { IfErr result (λ refusal. LockRefusesWithoutMemory L.Processor L.Callbacks L.Transport
            refusal (clients.is_enabled self.now)) }
    {
        let mut guard = self.core.lock();
        let core = &mut guard.under.core;
        reply_of(core.engine().is_enabled(self.key))
    }

    /// Whether what has this draw is sent at this rate. It takes no lock and no memory, and is never refused.
    pub fn sample_should_send(&self, rate: SampleRate, draw: Draw) -> Result<bool, Refusal>
        ensures { result ≡ Ok (nat_lt draw rate) }
    {
        Ok(rate.keeps(draw))
    }

    /// The event as the client would send it under a scope, if one is given; `None` if it is dropped, which counts as a
    /// loss.
    ///
    /// `Stale`: the client isn't held, or the span of the scope isn't. `OutOfMemory`.
    pub fn prepare_event(
        &self,
        event: Event,
        scope: Option<&Scope<L::Processor>>,
        fresh: Fresh,
    ) -> Result<Option<Boxed<Event>>, Refusal>
        ensures done { IfOk result (λ reply. LockAnswers L.Processor L.Callbacks L.Transport
            reply (clients.prepare_event L.Processor.gives L.Callbacks.meanings self.now event (option_copied scope.entry) fresh)) }
        ensures refused { IfErr result (λ refusal. LockRefuses L.Processor L.Callbacks L.Transport
            refusal (clients.prepare_event L.Processor.gives L.Callbacks.meanings self.now event (option_copied scope.entry) fresh)) }
    {
        self.core
            .lock()
            .under
            .core
            .prepare_event(self.key, event, scope, fresh)
    }

    /// Captures an event under a scope, if one is given. Its id is the reply; the nil id if it was not sent.
    ///
    /// `Stale`: the client isn't held, or the span of the scope isn't. `OutOfMemory`.
    pub fn capture_event(
        &self,
        event: Event,
        scope: Option<&Scope<L::Processor>>,
        fresh: Fresh,
    ) -> Result<Uuid, Refusal>
        ensures { IfOk result (λ reply. LockDrainsAndAnswers L.Processor L.Callbacks L.Transport
            reply (clients.client_capture_event L.Processor.gives L.Callbacks.meanings self.now event (option_copied scope.entry) fresh)) }
    {
        let mut guard = self.core.lock();
        let core = &mut guard.under.core;
        let handed = core.client_capture_event(self.key, event, scope, fresh)?;
        drop(guard);
        Ok(handed.deliver())
    }

    /// Captures a log under a scope.
    ///
    /// `Stale`: the client isn't held, or the span of the scope isn't. `OutOfMemory`.
    pub fn capture_log(&self, log: Log, scope: &Scope<L::Processor>) -> Result<(), Refusal>
        ensures { IfOk result (λ reply. LockDrainsAndAnswers L.Processor L.Callbacks L.Transport
            reply (telemetry.client_capture_log L.Callbacks.meanings self.now log scope.now)) }
    {
        let mut guard = self.core.lock();
        let core = &mut guard.under.core;
        let handed = core.client_capture_log(self.key, log, scope)?;
        drop(guard);
        Ok(handed.deliver())
    }

    /// Captures a metric under a scope. `now` is its moment in nanoseconds since the epoch.
    ///
    /// `Stale`: the client isn't held, or the span of the scope isn't. `OutOfMemory`.
    pub fn capture_metric<M: IntoProtocolMetric>(
        &self,
        metric: M,
        scope: &Scope<L::Processor>,
        now: u64,
    ) -> Result<(), Refusal>
        ensures { IfOk result (λ reply. LockDrainsAndAnswers L.Processor L.Callbacks L.Transport
            reply (telemetry.client_capture_metric L.Callbacks.meanings self.now (M.draft_of metric) scope.now now)) }
    {
        let draft = metric.into_draft();
        let mut guard = self.core.lock();
        let core = &mut guard.under.core;
        let handed = core.client_capture_metric(self.key, draft, scope, now)?;
        drop(guard);
        Ok(handed.deliver())
    }

    /// Sends an envelope, with the pending report as its last item. Without a transport nothing is sent.
    ///
    /// `Stale`: the client isn't held. `OutOfMemory`.
    pub fn send_envelope(&self, envelope: Envelope) -> Result<(), Refusal>
        ensures { IfOk result (λ reply. LockDrainsAndAnswers L.Processor L.Callbacks L.Transport
            reply (clients.send_envelope self.now envelope)) }
    {
        let mut guard = self.core.lock();
        let handed = guard.under.core.send_envelope(self.key, envelope)?;
        drop(guard);
        Ok(handed.deliver())
    }

    /// Sends what waits in the queues, and then calls the transport's `flush`, once, with the timeout, in nanoseconds,
    /// or with the option `shutdown_timeout` if none is given. Answers what that gave; true if the client has no
    /// transport, or was closed.
    ///
    /// `Stale`: the client isn't held. `OutOfMemory`.
    pub fn flush(&self, timeout: Option<u64>) -> Result<bool, Refusal>
        ensures { IfOk result (λ _. LockDrainsAndAnswers L.Processor L.Callbacks L.Transport tt (clients.flush self.now)) }
    {
        let mut guard = self.core.lock();
        let core = &mut guard.under.core;
        let option = core.engine().shutdown_timeout(self.key);
        let handed = core.flush(self.key)?;
        drop(guard);
        Ok(self.ended(handed, option, timeout, Ending::Flush))
    }

    /// Closes the client: what waits in its queues is sent, and nothing comes to them any more. Then it calls the
    /// transport's `shutdown`, once, with the timeout, in nanoseconds, or with the option `shutdown_timeout` if none is
    /// given. Answers what that gave; true if the client has no transport, or was closed before. Its clones are not
    /// closed.
    ///
    /// `Stale`: the client isn't held. `OutOfMemory`.
    pub fn close(&self, timeout: Option<u64>) -> Result<bool, Refusal>
        ensures { IfOk result (λ _. LockDrainsAndAnswers L.Processor L.Callbacks L.Transport tt (clients.close self.now)) }
    {
        let mut guard = self.core.lock();
        let core = &mut guard.under.core;
        let option = core.engine().shutdown_timeout(self.key);
        let handed = core.close(self.key)?;
        drop(guard);
        Ok(self.ended(handed, option, timeout, Ending::Shutdown))
    }

    // Delivers, and then ends at the transport, unless the slot of the client was empty before the call: then there is
    // no timeout by the options.
    fn ended(
        &self,
        handed: Handed<(), L::Transport>,
        option: Option<u64>,
        timeout: Option<u64>,
        ending: Ending,
    ) -> bool {
        match option {
            None => {
                handed.deliver();
                true
            }
            Some(option) => handed.deliver_and_end(self.key, ending, timeout.unwrap_or(option)),
        }
    }

    /// Tells the client the moment, in nanoseconds since the epoch: what is due is sent.
    ///
    /// `Stale`: the client isn't held. `OutOfMemory`.
    pub fn tick(&self, now: u64) -> Result<(), Refusal>
        ensures { IfOk result (λ reply. LockDrainsAndAnswers L.Processor L.Callbacks L.Transport
            reply (clients.tick self.now now)) }
    {
        let mut guard = self.core.lock();
        let handed = guard.under.core.tick(self.key, now)?;
        drop(guard);
        Ok(handed.deliver())
    }

    /// Adds a client with the options, the label and the transport of this one. `now` is the moment in nanoseconds since
    /// the epoch.
    ///
    /// `Stale`: the client isn't held. `Full`: the numbers are used up. `OutOfMemory`.
    pub fn clone_client(&self, now: u64) -> Result<Client<L>, Refusal>
        ensures done { IfOk result (λ client. LockAnswers L.Processor L.Callbacks L.Transport
            client (clients.clone_client self.now now)) }
        ensures refused { IfErr result (λ refusal. (refusal ≡ Refusal.OutOfMemory)
            ⊎ LockRefuses L.Processor L.Callbacks L.Transport refusal (clients.clone_client self.now now)) }
    {
        let core = self.core.clone()?;
        let cloned = self.core.lock().under.core.clone_client(self.key, now);
        match cloned {
            Ok(key) => Ok(Client { core, key }),
            Err(refusal) => Err(refusal),
        }
    }

    /// Gives the client back, which no layer of a hub names and under which no session and no transaction goes on. What
    /// waits in its queues is sent.
    ///
    /// `Stale`: the client isn't held. `StillNamed`: a layer of a hub names it, a session that goes on started under it,
    /// or it will send a transaction that is unfinished. `OutOfMemory`.
    pub fn drop_client(&self) -> Result<(), Refusal>
        ensures { IfOk result (λ reply. LockDrainsAndAnswers L.Processor L.Callbacks L.Transport
            reply (clients.drop_client self.now)) }
    {
        // By this share the callbacks are dropped without the lock.
        let _options = self.options()?;
        let mut guard = self.core.lock();
        let handed = guard.under.core.drop_client(self.key)?;
        drop(guard);
        Ok(handed.deliver())
    }
}
