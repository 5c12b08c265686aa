//! The calls on clients, as values.
ghost use Rattle.sentry_calls.specs.Steps.{client_step, client_needs};
ghost use Rattle.sentry_state.specs.Outcomes.{DoesWith};

use crate::call::{Answer, ClientCall, replies};
use crate::engine::Engine;
use sentry_base::callbacks::EventCallback;
use sentry_options::Callbacks;

impl<P: EventCallback + Drop, C: Callbacks> Engine<P, C> {
    // Makes a call on a client, by the method of its name.
    #[tactic(auto, unfolding(sentry_calls::specs::Steps::client_step))]
    pub(super) fn apply_client_call(&mut self, call: ClientCall<P, C>) -> Answer<P, C>
        ensures { DoesWith (client_needs call) self.old self.new result (client_step P.gives C.meanings call) }
    {
        match call {
            ClientCall::AddClient {
                options,
                transport,
                label,
                now,
            } => replies::client(self.add_boxed_client(options, transport, label, now)),
            ClientCall::Options(client) => replies::options(self.options(client)),
            ClientCall::Dsn(client) => replies::dsn(self.dsn(client)),
            ClientCall::IsEnabled(client) => replies::decision(self.is_enabled(client)),
            ClientCall::SampleShouldSend { rate, draw } => {
                replies::decision(self.sample_should_send(rate, draw))
            }
            ClientCall::PrepareEvent {
                client,
                event,
                scope,
                fresh,
            } => replies::prepared(self.prepare_boxed_event(client, event, &scope, fresh)),
            ClientCall::ClientCaptureEvent {
                client,
                event,
                scope,
                fresh,
            } => replies::event(self.client_capture_boxed_event(client, event, &scope, fresh)),
            ClientCall::SendEnvelope { client, envelope } => {
                replies::done(self.send_envelope(client, envelope))
            }
            ClientCall::ClientCaptureLog { client, log, scope } => {
                replies::done(self.client_capture_log(client, log.into_inner(), scope.get()))
            }
            ClientCall::ClientCaptureMetric {
                client,
                draft,
                scope,
                now,
            } => replies::done(self.client_capture_metric(
                client,
                draft.into_inner(),
                scope.get(),
                now,
            )),
            ClientCall::Flush(client) => replies::done(self.flush(client)),
            ClientCall::Tick { client, now } => replies::done(self.tick(client, now)),
            ClientCall::Close(client) => replies::done(self.close(client)),
            ClientCall::CloneClient { client, now } => replies::client(self.clone_client(
                client, now,
            )),
            ClientCall::DropClient(client) => replies::done(self.drop_client(client)),
            ClientCall::TakeReport(label) => replies::report(self.take_report(label)),
            ClientCall::Absorb { label, losses } => replies::done(self.absorb_losses(
                label,
                losses.get(),
            )),
        }
    }
}
