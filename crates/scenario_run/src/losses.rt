//! What is done with losses and reports.
use crate::answer::Answer;
use crate::caller::Caller;
use crate::fault::Failure;
use crate::scenario::{Scenario, client_key};
use scenario_commands::losses::{Kind, LossCommand};
use scenario_commands::quantities::losses_of_words;
use sentry_base::protocol::{Envelope, Losses};
use sentry_client_reports::{LossWords, TransportLossReason};
use sentry_engine::call::{Call, ClientCall};
use sentry_plain::Boxed;

impl<E: Caller> Scenario<E> {
    /// Does a command on losses, reports or envelopes.
    pub fn perform_on_losses<'a>(
        &mut self,
        command: LossCommand<'_>,
    ) -> Result<Answer<'a>, Failure> {
        match command {
            LossCommand::Lose {
                client,
                kind,
                reason,
            } => self.lose(client, kind, reason),
            LossCommand::Absorb { client, quantities } => self.absorb(client, quantities),
            LossCommand::Report(client) => {
                let label = self.label(client);
                self.ask_client(client, ClientCall::TakeReport(label))
            }
            LossCommand::Empty(client) => self.send_empty(client),
        }
    }

    // The loss goes through words of the client's label: it is recorded, drained and absorbed. A client that isn't held
    // has no transport that could lose anything.
    fn lose<'a>(
        &mut self,
        client: u64,
        kind: Kind,
        reason: TransportLossReason,
    ) -> Result<Answer<'a>, Failure> {
        self.decide(Call::Client(ClientCall::IsEnabled(client_key(client))))?;
        let (mut recorder, mut drainer) = LossWords::new(self.alloc, self.label(client))?;
        recorder.record_lost_data(&kind, reason);
        let (label, losses) = drainer.drain().into_parts();
        let losses = Boxed::new(self.alloc, losses)?;
        self.call_client(ClientCall::Absorb { label, losses })
    }

    // Quantities of the line's own go into the book of the client's label.
    fn absorb<'a>(&mut self, client: u64, quantities: Option<&str>) -> Result<Answer<'a>, Failure> {
        let losses = match quantities {
            Some(words) => losses_of_words(words).ok_or(Failure::BadCommand)?,
            None => Losses::none(),
        };
        let losses = Boxed::new(self.alloc, losses)?;
        let label = self.label(client);
        self.call_client(ClientCall::Absorb { label, losses })
    }

    fn send_empty<'a>(&mut self, client: u64) -> Result<Answer<'a>, Failure> {
        let envelope = Envelope::new(self.alloc);
        let client = client_key(client);
        self.call_client(ClientCall::SendEnvelope { client, envelope })
    }
}
