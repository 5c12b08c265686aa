//! What a client is made of.

ghost use Rattle.std.specs.Prelude.{◌≡◌, None, IfOk, IfErr, MatchOption};
ghost use Rattle.sentry_base.specs.Losses.{no_losses};
ghost use Rattle.sentry_base.specs.declared.protocol.refusal.Refusal.TheVariants.{OutOfMemory};
ghost use Rattle.sentry_lock.specs.Setups.{IsRecorderOf, options_with};

use crate::shared_core::SharedCore;
use sentry_base::protocol::{Label, Refusal};
use sentry_client_reports::{CountedDrainer, LossWords, Recorder};
use sentry_options::ClientOptions;
use sentry_transport::TransportOptions;
use std::alloc::Global;

/// What a client is made of: the core that will hold it, its options, its label, and the words of its losses, from
/// which nothing was drained.
#[derive(Drop)]
pub struct ClientSetup<L, C> {
    pub(crate) core: SharedCore<L>,
    pub(crate) options: ClientOptions<C>,
    pub(crate) label: Label,
    pub(crate) recorder: Option<Recorder>,
    pub(crate) drainer: CountedDrainer,
    ghost labelled: { drainer.part.label ≡ label },
    ghost none: { drainer.taken ≡ no_losses },
}

impl<L: Drop, C: Drop> ClientSetup<L, C> {
    // With new words of this label.
    pub(crate) fn new(
        core: SharedCore<L>,
        alloc: Global,
        options: ClientOptions<C>,
        label: Label,
    ) -> Result<ClientSetup<L, C>, Refusal>
        ensures options { IfOk result (λ setup. setup.options ≡ options) }
        ensures label { IfOk result (λ setup. setup.label ≡ label) }
        ensures recorder { IfOk result (λ setup. IsRecorderOf setup.recorder setup.drainer) }
        ensures refused { IfErr result (λ refusal. refusal ≡ OutOfMemory) }
    {
        let (recorder, drainer) = LossWords::new(alloc, label)?;
        Ok(ClientSetup {
            core,
            options,
            label,
            recorder: Some(recorder),
            drainer: CountedDrainer::new(drainer),
        })
    }

    /// The label that the client's losses are counted under.
    pub fn label(&self) -> Label
        ensures { result ≡ self.now.label }
    {
        self.label
    }

    /// The options of the client's transport, with the recorder of the words. `None` if the client has no DSN, and the
    /// second time.
    ///
    /// `OutOfMemory`: they can be asked for again.
    pub fn transport_options(&mut self) -> Result<Option<TransportOptions>, Refusal>
        ensures made { IfOk result (λ made. made ≡ options_with self.old.recorder self.old.options) }
        ensures left { IfOk result (λ made.
            MatchOption made (self.new.recorder ≡ self.old.recorder) (λ _. self.new.recorder ≡ None)) }
        ensures refused { IfErr result (λ refusal. (refusal ≡ OutOfMemory)
            × (self.new.recorder ≡ self.old.recorder)) }
        ensures options { self.new.options ≡ self.old.options }
        ensures label { self.new.label ≡ self.old.label }
        ensures drainer { self.new.drainer ≡ self.old.drainer }
    {
        if self.recorder.is_none() {
            return Ok(None);
        }
        let Some(mut options) = TransportOptions::try_from_client_options(&self.options)? else {
            return Ok(None);
        };
        options.client_report_recorder = self.recorder.take();
        Ok(Some(options))
    }
}
