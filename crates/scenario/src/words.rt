//! The words of clients, by which losses come from without.
use sentry_base::protocol::{Label, LossSource, Losses, Reason, Refusal};
use sentry_client_reports::{Recorder, TransportLossReason};

/// The label of a client, and the recorder of its words; none if the client has no DSN, and so no transport that could
/// lose anything.
#[derive(Drop)]
pub struct Words {
    pub label: Label,
    pub recorder: Option<Recorder>,
}

/// These quantities, under their own reasons.
#[derive(Clone, Copy)]
struct Quantities(Losses);

impl LossSource for Quantities {
    ghost losses_under = { λ it reason. it.0.quantities };

    fn losses(&self, _reason: Reason) -> Losses {
        self.0
    }
}

impl Words {
    /// Records losses. It takes no memory.
    ///
    /// `ForeignLosses`: there is no recorder.
    pub fn record(&mut self, losses: &Losses) -> Result<(), Refusal> {
        let Words { label: _, recorder } = self;
        match recorder {
            Some(recorder) => {
                recorder.record_lost_data(&Quantities(*losses), TransportLossReason::SendError);
                Ok(())
            }
            None => Err(Refusal::ForeignLosses),
        }
    }
}
