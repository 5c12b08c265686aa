//! The calls on losses.
ghost use Rattle.std.specs.Prelude.{◌≡◌, IfErr};
ghost use Rattle.sentry_state.specs.Outcomes.{Does, DoesWithoutMemory};
ghost use Rattle.sentry_engine.specs.Replies.{without_value};
ghost use Rattle.sentry_calls.specs.Losses as call;

use crate::engine::{Engine, Out};
use sentry_base::protocol::{ClientReport, Label, Losses, Refusal};
use sentry_client_reports::Drained;
use sentry_options::Callbacks;

impl<P: Drop, C: Callbacks> Engine<P, C> {
    /// Returns a report of the losses that are pending under a label, which then count as reported, or `None` if there
    /// are none.
    ///
    /// `ForeignLosses`: no client of this engine names the label. `OutOfMemory`.
    #[tactic(auto, unfolding(sentry_calls::specs::Losses::take_report))]
    pub fn take_report(&mut self, label: Label) -> Result<Out<Option<ClientReport>>, Refusal>
        ensures { Does self.old self.new result (call.take_report label) }
    {
        if !self.state.has_book(label) {
            return Err(Refusal::ForeignLosses);
        }
        let report = self.state.pending_report(label)?;
        self.state.mark_reported(label);
        Ok(self.state.out(report))
    }

    /// The same as `absorb`, of plain numbers: a caller that has taken the losses apart sees to it that they count once.
    ///
    /// `ForeignLosses`: no client of this engine names the label.
    #[tactic(auto, unfolding(sentry_calls::specs::Losses::absorb))]
    pub fn absorb_losses(&mut self, label: Label, losses: &Losses) -> Result<Out<()>, Refusal>
        ensures { DoesWithoutMemory self.old self.new result (call.absorb label losses.now.quantities) }
    {
        if !self.state.has_book(label) {
            return Err(Refusal::ForeignLosses);
        }
        self.state.absorb_drained(label, losses);
        Ok(self.state.out(()))
    }

    /// Adds drained losses to those that are pending under their label. It takes no memory.
    ///
    /// `ForeignLosses`: no client of this engine names the label; the losses are handed back.
    pub fn absorb(&mut self, drained: Drained) -> Result<Out<()>, (Refusal, Drained)>
        ensures does { DoesWithoutMemory self.old self.new (without_value result)
            (call.absorb drained.0 drained.1.quantities) }
        ensures back { IfErr result (λ refused. refused.1 ≡ drained) }
    {
        match self.absorb_losses(drained.label(), drained.losses()) {
            Ok(out) => {
                drained.into_parts();
                Ok(out)
            }
            Err(refusal) => Err((refusal, drained)),
        }
    }
}
