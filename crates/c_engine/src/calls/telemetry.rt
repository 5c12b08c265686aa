//! The calls on logs and metrics.
ghost use Rattle.sentry_calls.specs.Telemetry as call;
ghost use Rattle.c_engine.specs.Calls.{Calls, anything};
ghost use Rattle.c_records.specs.Filters.{filter_meanings};
ghost use Rattle.c_engine.specs.Keys.{hub_key};

use crate::outbox_engine::{OutboxEngine, hub_key};
use c_base::fault::CallFault;
use sentry_base::protocol::{Log, MetricDraft};

impl OutboxEngine {
    /// Captures a log.
    #[tactic(auto, using(crate::proofs::Calling::called, crate::proofs::Calling::refused, crate::proofs::Calling::unasked))]
    pub(crate) fn send_log(&mut self, hub: u64, log: Log) -> Result<(), CallFault>
        ensures { Calls self.old self.new result anything (call.capture_log filter_meanings (hub_key hub) log) }
    {
        self.outbox.make_room()?;
        let out = self.engine.capture_log(hub_key(hub), log)?;
        self.outbox.keep(out.sent);
        Ok(())
    }

    /// Captures a metric.
    #[tactic(auto, using(crate::proofs::Calling::called, crate::proofs::Calling::refused, crate::proofs::Calling::unasked))]
    pub(crate) fn send_metric(
        &mut self,
        hub: u64,
        draft: MetricDraft,
        now: u64,
    ) -> Result<(), CallFault>
        ensures { Calls self.old self.new result anything
            (call.capture_metric filter_meanings (hub_key hub) draft now) }
    {
        self.outbox.make_room()?;
        let out = self.engine.capture_metric(hub_key(hub), draft, now)?;
        self.outbox.keep(out.sent);
        Ok(())
    }
}
