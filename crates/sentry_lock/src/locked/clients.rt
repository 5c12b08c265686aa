//! Clients that come and go, with their transports and the drainers of their losses.

ghost use Rattle.std.specs.Prelude.{◌≡◌, ◌+◌, ◌-◌, ◌^◌, ◌⊎◌, ℕ, List, None, Ok, Err, Some, IfOk, IfErr, OnOk, OnErr, false, is_ok, true};
ghost use Rattle.std.specs.Option.{is_some, option_map};
ghost use Rattle.sentry_base.specs.Losses.{no_losses};
ghost use Rattle.sentry_calls.specs.Clients as clients;
ghost use Rattle.sentry_plain.specs.Tables.{value_at, put, replace_at, without};
ghost use Rattle.sentry_state.specs.Books.{has_book};
ghost use Rattle.sentry_state.specs.Outcomes.{Does};
ghost use Rattle.sentry_state.specs.Worlds.{World, Stands};
ghost use Rattle.sentry_state.specs.declared.state.State.{State};
ghost use Rattle.sentry_lock.specs.Answers.{AddsNot};
ghost use Rattle.sentry_lock.specs.Locked.{DrainsAll, ForgetsDropped, Replies};
ghost use Rattle.sentry_lock.specs.Routes.{AddsTransport, ForgetsTransport, transports_with};
ghost use Rattle.sentry_lock.specs.ValueCalls.{dropped_label};
ghost use Rattle.sentry_lock.specs.Words.{AddsDrainer, Drainers};

use crate::handed::{Handed, TransportTable, Transports};
use crate::locked::Core;
use sentry_base::callbacks::EventCallback;
use sentry_base::protocol::{ClientKey, Label, Refusal};
use sentry_client_reports::CountedDrainer;
use sentry_engine::call::{Call, ClientCall};
use sentry_engine::{Engine, Out};
use sentry_options::{Callbacks, ClientOptions};
use sentry_plain::{Shared, Table};
use std::alloc::{AllocError, Global};

// The transports with one more, under this number.
fn with_transport<T: Drop>(
    alloc: Global,
    transports: &TransportTable<T>,
    number: u64,
    transport: Option<Shared<T>>,
) -> Result<TransportTable<T>, AllocError> {
    let Some(transport) = transport else {
        return transports.clone();
    };
    let mut table = transports.get().clone()?;
    table.insert(number, transport)?;
    Shared::new(alloc, table)
}

// The transports without the one under this number.
fn without_transport<T: Drop>(
    alloc: Global,
    transports: &TransportTable<T>,
    number: u64,
) -> Result<TransportTable<T>, AllocError> {
    let mut table = transports.get().clone()?;
    drop(table.remove(number));
    Shared::new(alloc, table)
}

// A share of the transport under this number.
fn share_at<T: Drop>(
    transports: &TransportTable<T>,
    number: u64,
) -> Result<Option<Shared<T>>, AllocError>
    ensures { IfOk result (λ share. share ≡ value_at transports.now number) }
{
    match transports.get().get(number) {
        Some(transport) => Ok(Some(transport.clone()?)),
        None => Ok(None),
    }
}

// Puts the transport of a client that is to come, if it has one.
fn put_transport<T: Drop>(
    transports: &mut Table<Shared<T>>,
    number: u64,
    transport: Option<Shared<T>>,
) -> Result<(), AllocError>
    ensures ok { OnOk result (transports.new ≡ transports_with transports.old number transport) }
    ensures err { OnErr result (transports.new ≡ transports.old) }
{
    let Some(transport) = transport else {
        return Ok(());
    };
    transports.insert(number, transport)
}

// Adds a client with its transport. If it is refused, its transport is forgotten.
fn add_with<P: EventCallback + Drop, C: Callbacks, T: Drop>(
    engine: &mut Engine<P, C>,
    transports: &mut Table<Shared<T>>,
    options: ClientOptions<C>,
    transport: Option<Shared<T>>,
    label: Label,
    now: u64,
) -> Result<Out<ClientKey>, Refusal>
    ensures done { IfOk result (λ out. Does engine.old engine.new (Ok out)
        (clients.add_client C.meanings options (is_some transport) label now)) }
    ensures refused { IfErr result (λ _. engine.new ≡ engine.old) }
    ensures refusal { IfErr result (λ refusal. (refusal ≡ Refusal.OutOfMemory)
        ⊎ Does engine.old engine.old (Err refusal)
        (clients.add_client C.meanings options (is_some transport) label now)) }
    ensures added { OnOk result (AddsTransport engine.old transport transports.old transports.new) }
    ensures forgotten { OnErr result (ForgetsTransport transport transports.old transports.new) }
{
    let has_transport = transport.is_some();
    let number = engine.next_client();
    put_transport(transports, number, transport)?;
    match engine.add_client(options, has_transport, label, now) {
        Ok(out) => Ok(out),
        Err(refusal) => {
            drop(transports.remove(number));
            Err(refusal)
        }
    }
}

// Clones a client, with a share of its transport. If it is refused, the share is forgotten.
fn clone_with<P: EventCallback + Drop, C: Callbacks, T: Drop>(
    engine: &mut Engine<P, C>,
    transports: &mut Table<Shared<T>>,
    client: ClientKey,
    share: Option<Shared<T>>,
    now: u64,
) -> Result<Out<ClientKey>, Refusal>
    requires { (world : World P C) → Stands engine.old world → is_ok (clients.clone_client client now world).answer ≡ true }
    ensures does { Does engine.old engine.new result (clients.clone_client client now) }
    ensures added { OnOk result (AddsTransport engine.old share transports.old transports.new) }
    ensures forgotten { OnErr result (ForgetsTransport share transports.old transports.new) }
{
    let clone = engine.next_client();
    put_transport(transports, clone, share)?;
    match engine.clone_client(client, now) {
        Ok(out) => Ok(out),
        Err(refusal) => {
            drop(transports.remove(clone));
            Err(refusal)
        }
    }
}

// Drops a client, and takes its transport.
fn drop_with<P: EventCallback + Drop, C: Callbacks, T: Drop>(
    engine: &mut Engine<P, C>,
    transports: &mut Table<Shared<T>>,
    client: ClientKey,
) -> Result<Handed<(), T>, Refusal>
    ensures done { IfOk result (λ handed. Does engine.old engine.new (Ok handed.out) (clients.drop_client client)) }
    ensures refused { IfErr result (λ _. engine.new ≡ engine.old) }
    ensures taken { IfOk result (λ handed. handed.transports ≡ option_map Transports.One (value_at transports.old client.number)) }
    ensures forgotten { OnOk result (transports.new ≡ without transports.old client.number) }
    ensures kept { OnErr result (transports.new ≡ transports.old) }
{
    let out = engine.drop_client(client)?;
    let transports = match transports.remove(client.number) {
        Some(transport) => Some(Transports::One(transport)),
        None => None,
    };
    Ok(Handed { out, transports })
}

impl<P: EventCallback + Drop, C: Callbacks, T: Drop> Core<P, C, T> {
    /// The label of the next client. Each is given once.
    ///
    /// `Full`: the labels are used up.
    pub(crate) fn take_label(&mut self) -> Result<Label, Refusal>
        ensures engine { self.new.engine ≡ self.old.engine }
        ensures drainers { self.new.drainers ≡ self.old.drainers }
        ensures taken { IfOk result (λ label. (label.tag ≡ self.old.tag) × (label.number ≡ self.old.next_label)
            × (self.new.next_label ≡ self.old.next_label + 1)) }
        ensures full { IfErr result (λ refusal. (refusal ≡ Refusal.Full) × (self.old.next_label ≡ 2 ^ 64 - 1)) }
    {
        if self.next_label == u64::MAX {
            return Err(Refusal::Full);
        }
        let label = Label {
            tag: self.tag,
            number: self.next_label,
        };
        self.next_label += 1;
        Ok(label)
    }

    // The transports as they are once the call is done, if it changes them.
    pub(super) fn transports_after(
        &self,
        call: &Call<P, C>,
    ) -> Result<Option<TransportTable<T>>, AllocError> {
        let Call::Client(call) = call else {
            return Ok(None);
        };
        match call {
            ClientCall::CloneClient { client, now: _ } => {
                let share = share_at(&self.routes.transports, client.number)?;
                let number = self.engine.next_client();
                Ok(Some(with_transport(self.alloc, &self.routes.transports, number, share)?))
            }
            ClientCall::DropClient(client) => Ok(Some(without_transport(
                self.alloc,
                &self.routes.transports,
                client.number,
            )?)),
            _ => Ok(None),
        }
    }

    // The label of the client that a call drops.
    pub(super) fn dropped_label(&self, call: &Call<P, C>) -> Option<Label>
        ensures { (world : World P C) → Stands self.now.engine world → result ≡ dropped_label call.now world }
    {
        match call {
            Call::Client(ClientCall::DropClient(client)) => self.engine.client_label(*client),
            _ => None,
        }
    }

    // Makes a place for the drainer of a label: after the engine's call nothing may fail.
    fn make_place(&mut self, number: u64) -> Result<(), AllocError>
        ensures engine { self.new.engine ≡ self.old.engine }
        ensures tag { self.new.tag ≡ self.old.tag }
        ensures place { IfOk result (λ _. value_at self.new.drainers number ≡ Some None) }
        ensures made { OnOk result (self.new.drainers ≡ put self.old.drainers number None) }
        ensures refused { OnErr result (self.new.drainers ≡ self.old.drainers) }
        ensures transports { self.new.routes.transports ≡ self.old.routes.transports }
        ensures labels { self.new.next_label ≡ self.old.next_label }
    {
        self.drainers.insert(number, None)?;
        Ok(())
    }

    // Forgets the place of a drainer, whose client was refused.
    fn forget_place(&mut self, number: u64)
        ensures engine { self.new.engine ≡ self.old.engine }
        ensures drainers { self.new.drainers ≡ without self.old.drainers number }
        ensures transports { self.new.routes.transports ≡ self.old.routes.transports }
        ensures labels { self.new.next_label ≡ self.old.next_label }
    {
        drop(self.drainers.remove(number));
    }

    // Adds a client, whose drainer has a place.
    fn add_at_place(
        &mut self,
        options: ClientOptions<C>,
        transport: Option<Shared<T>>,
        label: Label,
        drainer: CountedDrainer,
        now: u64,
    ) -> Result<Out<ClientKey>, Refusal>
        requires tag { label.tag ≡ self.old.tag }
        requires free { (world : World P C) → Stands self.old.engine world → false ≡ has_book world label }
        requires place { value_at self.old.drainers label.number ≡ Some None }
        requires label { drainer.part.label ≡ label }
        requires none { drainer.taken ≡ no_losses }
        ensures done { IfOk result (λ out. Does self.old.engine self.new.engine (Ok out)
            (clients.add_client C.meanings options (is_some transport) label now)) }
        ensures taken { OnOk result (self.new.drainers ≡ replace_at self.old.drainers label.number (Some drainer)) }
        ensures refused { IfErr result (λ _. (self.new.engine ≡ self.old.engine)
            × (self.new.drainers ≡ self.old.drainers)) }
        ensures refusal { IfErr result (λ refusal. (refusal ≡ Refusal.OutOfMemory)
            ⊎ Does self.old.engine self.old.engine (Err refusal)
            (clients.add_client C.meanings options (is_some transport) label now)) }
        ensures added { OnOk result (AddsTransport self.old.engine transport
            self.old.routes.transports self.new.routes.transports) }
        ensures forgotten { OnErr result (ForgetsTransport transport
            self.old.routes.transports self.new.routes.transports) }
        ensures labels { self.new.next_label ≡ self.old.next_label }
    {
        self.routes.ready = None;
        match self.routes.transports.make_mut() {
            Ok(transports) => {
                match add_with(&mut self.engine, transports, options, transport, label, now) {
                    Ok(out) => {
                        self.drainers.set(label.number, Some(drainer));
                        Ok(out)
                    }
                    Err(refusal) => Err(refusal),
                }
            }
            Err(error) => Err(Refusal::from(error)),
        }
    }

    /// Adds a client with the drainer of its words and its transport, and answers its key. `now` is the moment in
    /// nanoseconds since the epoch.
    ///
    /// `ForeignLosses`: the label has another tag, or a client that is held names it. `Full`: the numbers are used up.
    /// `OutOfMemory`.
    pub(crate) fn add_client(
        &mut self,
        options: ClientOptions<C>,
        transport: Option<Shared<T>>,
        label: Label,
        drainer: CountedDrainer,
        now: u64,
    ) -> Result<Out<ClientKey>, Refusal>
        requires label { drainer.part.label ≡ label }
        requires none { drainer.taken ≡ no_losses }
        ensures done { IfOk result (λ out. Does self.old.engine self.new.engine (Ok out)
            (clients.add_client C.meanings options (is_some transport) label now)) }
        ensures drainer { OnOk result (AddsDrainer self.old.drainers self.new.drainers label.number drainer) }
        ensures refused { IfErr result (λ _. (self.new.engine ≡ self.old.engine)
            × ((self.new.drainers ≡ self.old.drainers)
            ⊎ (self.new.drainers ≡ without (put self.old.drainers label.number None) label.number))) }
        ensures refusal { IfErr result (λ refusal. (refusal ≡ Refusal.OutOfMemory)
            ⊎ AddsNot self.old label refusal
            (clients.add_client C.meanings options (is_some transport) label now)) }
        ensures added { OnOk result (AddsTransport self.old.engine transport
            self.old.routes.transports self.new.routes.transports) }
        ensures forgotten { OnErr result (ForgetsTransport transport
            self.old.routes.transports self.new.routes.transports) }
        ensures labels { self.new.next_label ≡ self.old.next_label }
    {
        if label.tag != self.tag || self.engine.has_book(label) {
            return Err(Refusal::ForeignLosses);
        }
        if self.engine.next_client() == u64::MAX {
            return Err(Refusal::Full);
        }
        self.make_place(label.number)?;
        match self.add_at_place(options, transport, label, drainer, now) {
            Ok(out) => Ok(out),
            Err(refusal) => {
                self.forget_place(label.number);
                Err(refusal)
            }
        }
    }

    // Whether a client is held, and a number left for its clone.
    fn check_clone(&self, client: ClientKey) -> Result<(), Refusal>
        ensures made { OnOk result ((world : World P C) → Stands self.now.engine world → (now : ℕ)
            → is_ok (clients.clone_client client now world).answer ≡ true) }
        ensures refused { IfErr result (λ refusal. (now : ℕ) → Does self.now.engine self.now.engine
            (Err refusal) (clients.clone_client client now)) }
    {
        let Some(_) = self.engine.client_label(client) else {
            return Err(Refusal::Stale);
        };
        if self.engine.next_client() == u64::MAX {
            return Err(Refusal::Full);
        }
        Ok(())
    }

    /// Adds a client with the options, the label and the transport of another one, and answers its key.
    pub(crate) fn clone_client(&mut self, client: ClientKey, now: u64) -> Result<ClientKey, Refusal>
        ensures done { IfOk result (λ reply. Replies self.old.engine self.new.engine reply
            (clients.clone_client client now)) }
        ensures refused { IfErr result (λ refusal. Does self.old.engine self.new.engine
            (Err refusal) (clients.clone_client client now)) }
        ensures added { OnOk result (AddsTransport self.old.engine (value_at self.old.routes.transports client.number)
            self.old.routes.transports self.new.routes.transports) }
        ensures forgotten { OnErr result (ForgetsTransport (value_at self.old.routes.transports client.number)
            self.old.routes.transports self.new.routes.transports) }
        ensures drainers { self.new.drainers ≡ self.old.drainers }
        ensures labels { self.new.next_label ≡ self.old.next_label }
    {
        if let Err(refusal) = self.check_clone(client) {
            return Err(refusal);
        }
        let share = share_at(&self.routes.transports, client.number)?;
        self.routes.ready = None;
        match self.routes.transports.make_mut() {
            Ok(transports) => match clone_with(&mut self.engine, transports, client, share, now) {
                Ok(out) => Ok(out.reply),
                Err(refusal) => Err(refusal),
            },
            Err(error) => Err(Refusal::from(error)),
        }
    }

    /// Gives a client back, with its transport, and with the drainer of its label unless another client names that. Only
    /// while envelopes are on their way does it ask for memory before it may be refused as `StillNamed`.
    #[tactic(auto, unfolding(crate::specs::Locked::DrainsAll))]
    pub(crate) fn drop_client(&mut self, client: ClientKey) -> Result<Handed<(), T>, Refusal>
        ensures done { IfOk result (λ handed. (between : State P C) × (drained : Drainers)
            × DrainsAll self.old.tag self.old.engine between self.old.drainers drained
            × Does between self.new.engine (Ok handed.out) (clients.drop_client client)
            × ForgetsDropped (Call.Client (ClientCall.DropClient client)) between self.new.engine drained
            self.new.drainers) }
        ensures refused { IfErr result (λ _.
            DrainsAll self.old.tag self.old.engine self.new.engine self.old.drainers self.new.drainers) }
        ensures labels { self.new.next_label ≡ self.old.next_label }
    {
        self.drain_each_label();
        let label = self.engine.client_label(client);
        self.routes.ready = None;
        match self.routes.transports.make_mut() {
            Ok(transports) => match drop_with(&mut self.engine, transports, client) {
                Ok(handed) => {
                    self.forget_dropped(label);
                    Ok(handed)
                }
                Err(refusal) => Err(refusal),
            },
            Err(error) => Err(Refusal::from(error)),
        }
    }
}
