//! Calls on clients.
use crate::locked::{LockReply, Locked};
use crate::words::Words;
use scenario_run::TAG;
use sentry_base::protocol::{ClientKey, Label, Losses, Refusal};
use sentry_engine::call::{ClientCall, Reply};
use sentry_lock::{Client, CoreLock};
use sentry_options::ClientOptions;
use std::alloc::AllocError;

impl<L: CoreLock> Locked<L> {
    /// The client of a key, which need not be held.
    pub(crate) fn client(&self, key: ClientKey) -> Result<Client<L>, AllocError> {
        self.core.client(key)
    }

    /// Makes a call that copies a client, drops one, or sends what waits. `add_client` adds one.
    pub(crate) fn change_client(
        &mut self,
        call: ClientCall<L::Processor, L::Callbacks>,
    ) -> Result<LockReply<L>, Refusal> {
        match call {
            ClientCall::CloneClient { client, now } => {
                let clone = self.client(client)?.clone_client(now)?;
                Ok(Reply::Client(clone.key()))
            }
            ClientCall::DropClient(key) => {
                self.client(key)?.drop_client()?;
                Ok(Reply::Done)
            }
            ClientCall::Flush(key) => {
                self.client(key)?.flush(None)?;
                Ok(Reply::Done)
            }
            ClientCall::Close(key) => {
                self.client(key)?.close(None)?;
                Ok(Reply::Done)
            }
            ClientCall::Tick { client, now } => {
                self.client(client)?.tick(now)?;
                Ok(Reply::Done)
            }
            ClientCall::Absorb { label, losses } => self.absorb(label.number, losses.get()),
            ClientCall::TakeReport(label) => self.take_report(label.number),
            call => self.send_by_client(call),
        }
    }

    // A call by which a client sends something.
    fn send_by_client(
        &self,
        call: ClientCall<L::Processor, L::Callbacks>,
    ) -> Result<LockReply<L>, Refusal> {
        match call {
            ClientCall::ClientCaptureEvent {
                client,
                event,
                scope,
                fresh,
            } => {
                let client = self.client(client)?;
                let scope = scope.as_ref().map(|scope| scope.get());
                let id = client.capture_event(event.into_inner(), scope, fresh)?;
                Ok(Reply::Event(id))
            }
            ClientCall::SendEnvelope { client, envelope } => {
                self.client(client)?.send_envelope(envelope)?;
                Ok(Reply::Done)
            }
            ClientCall::ClientCaptureLog { client, log, scope } => {
                let client = self.client(client)?;
                client.capture_log(log.into_inner(), scope.get())?;
                Ok(Reply::Done)
            }
            ClientCall::ClientCaptureMetric {
                client,
                draft,
                scope,
                now,
            } => {
                let client = self.client(client)?;
                client.capture_metric(draft.into_inner(), scope.get(), now)?;
                Ok(Reply::Done)
            }
            call => self.ask_client(call),
        }
    }

    // A call that changes nothing but losses.
    fn ask_client(
        &self,
        call: ClientCall<L::Processor, L::Callbacks>,
    ) -> Result<LockReply<L>, Refusal> {
        match call {
            ClientCall::Options(key) => Ok(Reply::Options(self.client(key)?.options()?)),
            ClientCall::Dsn(key) => Ok(Reply::Dsn(self.client(key)?.dsn()?)),
            ClientCall::IsEnabled(key) => { Ok(Reply::Decision(self.client(key)?.is_enabled()?)) }
            ClientCall::PrepareEvent {
                client,
                event,
                scope,
                fresh,
            } => {
                let client = self.client(client)?;
                let scope = scope.as_ref().map(|scope| scope.get());
                let event = client.prepare_event(event.into_inner(), scope, fresh)?;
                Ok(Reply::Prepared(event))
            }
            // It asks for no client, so that any will do.
            ClientCall::SampleShouldSend { rate, draw } => {
                let client = self.client(ClientKey {
                    tag: TAG,
                    number: 0,
                })?;
                Ok(Reply::Decision(client.sample_should_send(rate, draw)?))
            }
            // the calls of the two functions above, and that of the next
            _other => Err(Refusal::Stale),
        }
    }

    /// Adds a client, whose words get this number. The words get their place before that: after it nothing is refused.
    pub(crate) fn add_client(
        &mut self,
        options: ClientOptions<L::Callbacks>,
        transport: Option<L::Transport>,
        number: u64,
        now: u64,
    ) -> Result<ClientKey, Refusal> {
        let mut setup = self.core.client_setup(options)?;
        let recorder = match setup.transport_options()? {
            None => None,
            Some(options) => options.client_report_recorder,
        };
        let label = setup.label();
        self.words.insert(number, Words { label, recorder })?;
        // It makes the client by `with_options`.
        let client = Client::from_config(setup, transport, now)?;
        Ok(client.key())
    }

    // Records losses in the words of a client, where they stay until the next call that can hand out envelopes. The drain
    // before that tells whether a client has the label.
    fn absorb(&mut self, number: u64, losses: &Losses) -> Result<LockReply<L>, Refusal> {
        self.drain(number)?;
        let Some(words) = self.words.get_mut(number) else {
            return Err(Refusal::ForeignLosses);
        };
        words.record(losses)?;
        Ok(Reply::Done)
    }

    // Drains the words of a client, and answers its label.
    fn drain(&self, number: u64) -> Result<Label, Refusal> {
        let Some(words) = self.words.get(number) else {
            return Err(Refusal::ForeignLosses);
        };
        let label = words.label;
        self.core.drain_and_absorb(label)?;
        Ok(label)
    }

    fn take_report(&self, number: u64) -> Result<LockReply<L>, Refusal> {
        let label = self.drain(number)?;
        let report = self.core.take_report(label)?;
        Ok(Reply::Report(report))
    }
}
