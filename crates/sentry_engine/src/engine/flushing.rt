//! The calls that flush the queues of clients.
ghost use Rattle.sentry_state.specs.Outcomes.{Does};
ghost use Rattle.sentry_calls.specs.Clients as call;

use crate::engine::{Engine, Out};
use sentry_base::protocol::{ClientKey, Refusal};
use sentry_options::Callbacks;
use sentry_telemetry::flushes::{Flush, flush_queues};

impl<P: Drop, C: Callbacks> Engine<P, C> {
    /// Sends what waits in the queues of a client: the ended sessions, then the logs, then the metrics. Without a
    /// transport it is dropped.
    ///
    /// `Stale`: the client isn't held. `OutOfMemory`.
    #[tactic(auto, unfolding(sentry_calls::specs::Clients::flush))]
    pub fn flush(&mut self, client: ClientKey) -> Result<Out<()>, Refusal>
        ensures { Does self.old self.new result (call.flush client) }
    {
        if self.state.client_at(client).is_none() {
            return Err(Refusal::Stale);
        }
        let sent = flush_queues(&mut self.state, client, Flush::All)?;
        Ok(Out { reply: (), sent })
    }

    /// Tells a client the moment, in nanoseconds since the epoch. What waits in a queue is sent, as by `flush`, if its
    /// last due tick, or the making of the client, lies an interval or more before the moment: a minute for ended
    /// sessions, and five seconds for logs and for metrics. The moment is then that of its last due tick, also where
    /// nothing waited. A moment before that of the last due tick changes nothing.
    ///
    /// `Stale`: the client isn't held. `OutOfMemory`.
    #[tactic(auto, unfolding(sentry_calls::specs::Clients::tick))]
    pub fn tick(&mut self, client: ClientKey, now: u64) -> Result<Out<()>, Refusal>
        ensures { Does self.old self.new result (call.tick client now) }
    {
        if self.state.client_at(client).is_none() {
            return Err(Refusal::Stale);
        }
        let sent = flush_queues(&mut self.state, client, Flush::Due(now))?;
        Ok(Out { reply: (), sent })
    }

    /// Closes a client: what waits in its queues is sent, as by `flush`. After that nothing comes to them any more, and
    /// nothing is sent through its transport. A second `close`, a `flush` and a `tick` then change nothing. Its clones
    /// are not closed.
    ///
    /// `Stale`: the client isn't held. `OutOfMemory`.
    #[tactic(auto, unfolding(sentry_calls::specs::Clients::close))]
    pub fn close(&mut self, client: ClientKey) -> Result<Out<()>, Refusal>
        ensures { Does self.old self.new result (call.close client) }
    {
        if self.state.client_at(client).is_none() {
            return Err(Refusal::Stale);
        }
        let sent = flush_queues(&mut self.state, client, Flush::Closing)?;
        Ok(Out { reply: (), sent })
    }
}
