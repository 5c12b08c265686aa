//! One call as a value, and a list of calls.
ghost use Rattle.std.specs.Prelude.{◌≡◌, IfOk, IfErr};
ghost use Rattle.sentry_base.specs.declared.protocol.refusal.Refusal.TheVariants.{OutOfMemory};
ghost use Rattle.sentry_calls.specs.Steps.{step, needs};
ghost use Rattle.sentry_engine.specs.Ends.{AtEnd, EndsIn};
ghost use Rattle.sentry_laws.specs.OwnCalls.{IsIsolated, KeepsOptions};
ghost use Rattle.sentry_laws.specs.PushPop.{PushesAreUndone};
ghost use Rattle.sentry_laws.specs.Reachable.{
  NumbersAreFree,
  BooksAreOfClients,
  ClientsAreHeld,
  ActiveSpansAreHeld,
  SessionsAreNamed,
};
ghost use Rattle.sentry_laws.specs.Reports.{LabelsAddUp};
ghost use Rattle.sentry_laws.specs.LossesByCalls.{RecordsLossesByCalls, CallsAddUp};
ghost use Rattle.sentry_laws.specs.SentItems.{SendsAcceptedLogs, SendsAcceptedMetrics};
ghost use Rattle.sentry_laws.specs.SentItems.{SendsLogsAtEachCall, SendsMetricsAtEachCall};
ghost use Rattle.sentry_laws.specs.Accepted.{AcceptsLogsByCalls, AcceptsMetricsByCalls};
ghost use Rattle.sentry_laws.specs.Closed.{ClosedByCalls};
ghost use Rattle.sentry_laws.specs.Sessions.{SecondEndsAreSilent};
ghost use Rattle.sentry_laws.specs.Traces.{KeptSpansAreInTrace, HeldSpansAreInTrace, SentSpansAreInTrace};
ghost use Rattle.sentry_laws.specs.FinishedTraces.{FinishedHaveTrace};
ghost use Rattle.sentry_laws.specs.Statuses.{SessionsKeepStatus};
ghost use Rattle.sentry_laws.specs.Updates.{StatusesStay};
ghost use Rattle.sentry_state.specs.Outcomes.{DoesWith};
ghost use Rattle.sentry_state.specs.Worlds.{World, Stands, first_world};

mod boxed;
mod clients;
mod hubs;
mod replies;

use crate::engine::Engine;
use sentry_base::callbacks::EventCallback;
use sentry_base::protocol::Refusal;
pub use sentry_calls::call::{Answer, Call, ClientCall, HubCall, Reply, SpanCall, SpanReply};
use sentry_options::Callbacks;
use std::alloc::Global;

impl<P: EventCallback + Drop, C: Callbacks> Engine<P, C> {
    /// Makes one call, by the method of its name.
    pub fn apply(&mut self, call: Call<P, C>) -> Answer<P, C>
        ensures { DoesWith (needs call) self.old self.new result (step P.gives C.meanings call) }
    {
        match call {
            Call::Client(call) => self.apply_client_call(call),
            Call::Hub(call) => self.apply_hub_call(call),
            Call::Span(call) => replies::span(self.apply_span_call(call)),
        }
    }

    /// Makes the calls in turn on a new engine, and answers it with one answer a call.
    ///
    /// The laws of `sentry_laws` hold of these calls and answers: a hub shows what its own calls did (`hubs`), options
    /// of clients stay (`options`), accepted logs and metrics are sent (`logs`, `metrics`), and none waits after a close
    /// (`closed`), spans are in the trace of their transaction (`traces`), also those that are sent (`sent`), reports add
    /// up (`reports`) to what the calls lose (`losses`), a pop undoes its push (`layers`), the status of a session that
    /// ended stays (`status`, `kept`), a second end is silent (`once`), and what is named is held, as each session that is
    /// held is named (`worlds`). `runs_split` takes a run apart.
    ///
    /// `OutOfMemory`: no memory for the list of answers; then no call was made.
    pub fn run(
        alloc: Global,
        tag: u64,
        calls: Vec<Call<P, C>>,
    ) -> Result<(Engine<P, C>, Vec<Answer<P, C>>), Refusal>
        ensures ran { IfOk result (λ end. (last : World P C) × Stands end.0 last
            × EndsIn P.gives C.meanings tag calls.items end.1.items last) }
        ensures hubs { IfOk result (λ end. AtEnd P.gives C.meanings tag calls.items end.1.items
            (λ last run. IsIsolated C.meanings calls.items end.1.items last)) }
        ensures options { IfOk result (λ end. AtEnd P.gives C.meanings tag calls.items end.1.items
            (λ last run. KeepsOptions C.meanings calls.items end.1.items last)) }
        ensures logs { IfOk result (λ end. AtEnd P.gives C.meanings tag calls.items end.1.items
            (λ last run. SendsAcceptedLogs calls.items end.1.items last
            × SendsLogsAtEachCall P.gives C.meanings (first_world tag) calls.items end.1.items last run
            × AcceptsLogsByCalls P.gives C.meanings (first_world tag) calls.items end.1.items last run)) }
        ensures metrics { IfOk result (λ end. AtEnd P.gives C.meanings tag calls.items end.1.items
            (λ last run. SendsAcceptedMetrics calls.items end.1.items last
            × SendsMetricsAtEachCall P.gives C.meanings (first_world tag) calls.items end.1.items last run
            × AcceptsMetricsByCalls P.gives C.meanings (first_world tag) calls.items end.1.items last run)) }
        ensures closed { IfOk result (λ end. AtEnd P.gives C.meanings tag calls.items end.1.items
            (λ last run. ClosedByCalls calls.items end.1.items last)) }
        ensures traces { IfOk result (λ end. AtEnd P.gives C.meanings tag calls.items end.1.items
            (λ last run. KeptSpansAreInTrace last × HeldSpansAreInTrace last)) }
        ensures sent { IfOk result (λ end. AtEnd P.gives C.meanings tag calls.items end.1.items
            (λ last run. SentSpansAreInTrace calls.items end.1.items
            × FinishedHaveTrace P.gives C.meanings (first_world tag) calls.items end.1.items last run)) }
        ensures reports { IfOk result (λ end. AtEnd P.gives C.meanings tag calls.items end.1.items
            (λ last run. LabelsAddUp P.gives C.meanings (first_world tag) calls.items end.1.items last run)) }
        ensures losses { IfOk result (λ end. AtEnd P.gives C.meanings tag calls.items end.1.items
            (λ last run. RecordsLossesByCalls P.gives C.meanings (first_world tag) calls.items end.1.items last run
            × CallsAddUp P.gives C.meanings (first_world tag) calls.items end.1.items last run)) }
        ensures worlds { IfOk result (λ end. AtEnd P.gives C.meanings tag calls.items end.1.items
            (λ last run. NumbersAreFree last × BooksAreOfClients last × ClientsAreHeld last
            × ActiveSpansAreHeld last × SessionsAreNamed last)) }
        ensures layers { IfOk result (λ end. AtEnd P.gives C.meanings tag calls.items end.1.items
            (λ last run. PushesAreUndone P.gives C.meanings (first_world tag) calls.items end.1.items last run)) }
        ensures status { IfOk result (λ end. AtEnd P.gives C.meanings tag calls.items end.1.items
            (λ last run. StatusesStay P.gives C.meanings (first_world tag) calls.items end.1.items last run)) }
        ensures kept { IfOk result (λ end. AtEnd P.gives C.meanings tag calls.items end.1.items
            (λ last run. SessionsKeepStatus P.gives C.meanings (first_world tag) calls.items end.1.items last run)) }
        ensures once { IfOk result (λ end. AtEnd P.gives C.meanings tag calls.items end.1.items
            (λ last run. SecondEndsAreSilent P.gives C.meanings (first_world tag) calls.items end.1.items last run)) }
        ensures refused { IfErr result (λ refusal. refusal ≡ OutOfMemory) }
    {
        let mut engine = Engine::new(alloc, tag);
        let mut answers = Vec::with_capacity(alloc, calls.len())?;
        for call in calls {
            let answer = engine.apply(call);
            answers.push_reserved(answer);
        }
        Ok((engine, answers))
    }
}
