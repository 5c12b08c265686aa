//! What a caller of `Engine::run` can promise by the laws of whole runs.

ghost use Rattle.std.specs.Prelude.{IfOk};
ghost use Rattle.sentry_engine.specs.Ends.{EndsIn};
ghost use Rattle.sentry_laws.specs.LossesByCalls.{CallsAddUp};
ghost use Rattle.sentry_laws.specs.OwnCalls.{IsIsolated, KeepsOptions};
ghost use Rattle.sentry_laws.specs.PushPop.{PushesAreUndone};
ghost use Rattle.sentry_laws.specs.Reachable.{SessionsAreNamed};
ghost use Rattle.sentry_laws.specs.Reports.{LabelsAddUp};
ghost use Rattle.sentry_laws.specs.SentItems.{SendsLogsAtEachCall, SendsMetricsAtEachCall};
ghost use Rattle.sentry_laws.specs.Sessions.{SecondEndsAreSilent};
ghost use Rattle.sentry_laws.specs.Traces.{KeptSpansAreInTrace};
ghost use Rattle.sentry_laws.specs.Updates.{StatusesStay};
ghost use Rattle.sentry_state.specs.Worlds.{World, Stands, first_world};

use sentry_base::callbacks::EventCallback;
use sentry_base::protocol::Refusal;
use sentry_engine::Engine;
use sentry_engine::call::{Answer, Call};
use sentry_options::Callbacks;
use std::alloc::Global;

/// Makes the calls on a new engine. In a world that it stands for, each hub has the layers that its own calls gave it.
pub fn run_calls<P: EventCallback + Drop, C: Callbacks>(
    alloc: Global,
    tag: u64,
    calls: Vec<Call<P, C>>,
) -> Result<(Engine<P, C>, Vec<Answer<P, C>>), Refusal>
    ensures { IfOk result (λ end. (last : World P C) × Stands end.0 last
        × IsIsolated C.meanings calls.items end.1.items last) }
{
    let end = Engine::run(alloc, tag, calls)?;
    Ok(end)
}

/// Makes the calls on a new engine. The run with its answers ends in a world that the engine stands for, and each law
/// holds of this run.
pub fn run_promises<P: EventCallback + Drop, C: Callbacks>(
    alloc: Global,
    tag: u64,
    calls: Vec<Call<P, C>>,
) -> Result<(Engine<P, C>, Vec<Answer<P, C>>), Refusal>
    ensures options { IfOk result (λ end. (last : World P C) × Stands end.0 last
        × KeepsOptions C.meanings calls.items end.1.items last) }
    ensures logs { IfOk result (λ end. (last : World P C) × Stands end.0 last
        × (run : EndsIn P.gives C.meanings tag calls.items end.1.items last)
        × SendsLogsAtEachCall P.gives C.meanings (first_world tag) calls.items end.1.items last run) }
    ensures metrics { IfOk result (λ end. (last : World P C) × Stands end.0 last
        × (run : EndsIn P.gives C.meanings tag calls.items end.1.items last)
        × SendsMetricsAtEachCall P.gives C.meanings (first_world tag) calls.items end.1.items last run) }
    ensures traces { IfOk result (λ end. (last : World P C) × Stands end.0 last × KeptSpansAreInTrace last) }
    ensures reports { IfOk result (λ end. (last : World P C) × Stands end.0 last
        × (run : EndsIn P.gives C.meanings tag calls.items end.1.items last)
        × LabelsAddUp P.gives C.meanings (first_world tag) calls.items end.1.items last run) }
    ensures losses { IfOk result (λ end. (last : World P C) × Stands end.0 last
        × (run : EndsIn P.gives C.meanings tag calls.items end.1.items last)
        × CallsAddUp P.gives C.meanings (first_world tag) calls.items end.1.items last run) }
    ensures worlds { IfOk result (λ end. (last : World P C) × Stands end.0 last × SessionsAreNamed last) }
    ensures layers { IfOk result (λ end. (last : World P C) × Stands end.0 last
        × (run : EndsIn P.gives C.meanings tag calls.items end.1.items last)
        × PushesAreUndone P.gives C.meanings (first_world tag) calls.items end.1.items last run) }
    ensures status { IfOk result (λ end. (last : World P C) × Stands end.0 last
        × (run : EndsIn P.gives C.meanings tag calls.items end.1.items last)
        × StatusesStay P.gives C.meanings (first_world tag) calls.items end.1.items last run) }
    ensures once { IfOk result (λ end. (last : World P C) × Stands end.0 last
        × (run : EndsIn P.gives C.meanings tag calls.items end.1.items last)
        × SecondEndsAreSilent P.gives C.meanings (first_world tag) calls.items end.1.items last run) }
{
    let end = Engine::run(alloc, tag, calls)?;
    Ok(end)
}
