//! Laws of whole runs.
ghost use Rattle.std.specs.Prelude.{◌≡◌, List};
ghost use Rattle.sentry_base.specs.Callbacks.{Partial};
ghost use Rattle.sentry_base.specs.declared.protocol.refusal.Refusal.{Refusal};
ghost use Rattle.std.specs.Prelude.{Result, ℕ};
ghost use Rattle.sentry_options.specs.Meanings.{Meanings};
ghost use Rattle.sentry_state.specs.declared.state.Out.{Out};
ghost use Rattle.sentry_state.specs.Worlds.{World, starting_world};
ghost use Rattle.sentry_calls.specs.declared.call.Call.{Call};
ghost use Rattle.sentry_calls.specs.declared.call.Reply.{Reply};
ghost use Rattle.sentry_calls.specs.Runs.{Run};
ghost use Rattle.sentry_laws.specs.OwnCalls.{IsIsolated, KeepsOptions, OwnAloneSuffice};
ghost use Rattle.sentry_laws.specs.Losses.{BooksBalance, AbsorbedStays};
ghost use Rattle.sentry_laws.specs.Reports.{ReportsAddUp};
ghost use Rattle.sentry_laws.specs.LossesByCalls.{RecordsLossesByCalls, CallsAddUp};
ghost use Rattle.sentry_laws.specs.Reachable.{NumbersAreFree, BooksAreOfClients, ClientsAreHeld, ActiveSpansAreHeld};
ghost use Rattle.sentry_laws.specs.Reachable.{SessionsAreNamed};
ghost use Rattle.sentry_laws.specs.PartsOfRuns.{RunsSplit};
ghost use Rattle.sentry_laws.specs.PushPop.{PopUndoesPush};
ghost use Rattle.sentry_laws.specs.Wrong.{DerivedHubLeavesMaker, SilentFlushIsRefused};
ghost use Rattle.sentry_laws.specs.Wrong.{LaterCrashIsRefused, OutlivingSessionIsRefused};
ghost use Rattle.sentry_laws.specs.Wrong.{KeptLogIsRefused, OverwrittenStatusIsRefused, ForeignSpanIsRefused};
ghost use Rattle.sentry_laws.specs.Sessions.{EndsOnce};
ghost use Rattle.sentry_laws.specs.Traces.{KeptSpansAreInTrace, HeldSpansAreInTrace, SentSpansAreInTrace};
ghost use Rattle.sentry_laws.specs.FinishedTraces.{FinishedHaveTrace};
ghost use Rattle.sentry_laws.specs.SentItems.{SendsAcceptedLogs, SendsAcceptedMetrics};
ghost use Rattle.sentry_laws.specs.SentItems.{SendsLogsAtEachCall, SendsMetricsAtEachCall};
ghost use Rattle.sentry_laws.specs.Closed.{ClosedByCalls};
ghost use Rattle.sentry_laws.specs.Accepted.{AcceptsLogsByCalls, AcceptsMetricsByCalls};
ghost use Rattle.sentry_laws.specs.Updates.{StatusStays};
ghost use Rattle.sentry_laws.specs.Statuses.{SessionsKeepStatus};

/// After any run, each hub has the layers that its own accepted calls give it, and each client that is held has the
/// options with which it was added.
pub fn hubs_are_isolated<P, C>()
    ensures layers { (gives : P → Partial) (meanings : C → Meanings) (tag start : ℕ) (calls : List (Call P C))
        (answers : List (Result (Out (Reply P C)) Refusal)) (last : World P C)
        → Run gives meanings (starting_world tag start) calls answers last → IsIsolated meanings calls answers last }
    ensures options { (gives : P → Partial) (meanings : C → Meanings) (tag start : ℕ) (calls : List (Call P C))
        (answers : List (Result (Out (Reply P C)) Refusal)) (last : World P C)
        → Run gives meanings (starting_world tag start) calls answers last → KeepsOptions meanings calls answers last }
{}

/// After any run, each client whose slot is occupied sent the logs that it accepted, in order and in batches of one up
/// to its `max_batch_items`, but for those in its queue. So it is after each call before which the slot was occupied,
/// also where the call closes or drops the client, and then nothing waits. A client accepts a log exactly where a call
/// captures one for it that passes its callback, while it isn't closed. The same holds of metrics. A client is closed
/// exactly if an accepted `close` of it came before; from then on nothing of it waits, whether or not it has a transport.
pub fn accepted_items_are_sent<P, C>()
    ensures logs { (gives : P → Partial) (meanings : C → Meanings) (tag start : ℕ) (calls : List (Call P C))
        (answers : List (Result (Out (Reply P C)) Refusal)) (last : World P C)
        → Run gives meanings (starting_world tag start) calls answers last → SendsAcceptedLogs calls answers last }
    ensures metrics { (gives : P → Partial) (meanings : C → Meanings) (tag start : ℕ) (calls : List (Call P C))
        (answers : List (Result (Out (Reply P C)) Refusal)) (last : World P C)
        → Run gives meanings (starting_world tag start) calls answers last → SendsAcceptedMetrics calls answers last }
    ensures each_log { (gives : P → Partial) (meanings : C → Meanings) (tag start : ℕ) (calls : List (Call P C))
        (answers : List (Result (Out (Reply P C)) Refusal)) (last : World P C)
        (run : Run gives meanings (starting_world tag start) calls answers last)
        → SendsLogsAtEachCall gives meanings (starting_world tag start) calls answers last run }
    ensures each_metric { (gives : P → Partial) (meanings : C → Meanings) (tag start : ℕ) (calls : List (Call P C))
        (answers : List (Result (Out (Reply P C)) Refusal)) (last : World P C)
        (run : Run gives meanings (starting_world tag start) calls answers last)
        → SendsMetricsAtEachCall gives meanings (starting_world tag start) calls answers last run }
    ensures accepted_logs { (gives : P → Partial) (meanings : C → Meanings) (tag start : ℕ) (calls : List (Call P C))
        (answers : List (Result (Out (Reply P C)) Refusal)) (last : World P C)
        (run : Run gives meanings (starting_world tag start) calls answers last)
        → AcceptsLogsByCalls gives meanings (starting_world tag start) calls answers last run }
    ensures accepted_metrics { (gives : P → Partial) (meanings : C → Meanings) (tag start : ℕ) (calls : List (Call P C))
        (answers : List (Result (Out (Reply P C)) Refusal)) (last : World P C)
        (run : Run gives meanings (starting_world tag start) calls answers last)
        → AcceptsMetricsByCalls gives meanings (starting_world tag start) calls answers last run }
    ensures closed { (gives : P → Partial) (meanings : C → Meanings) (tag start : ℕ) (calls : List (Call P C))
        (answers : List (Result (Out (Reply P C)) Refusal)) (last : World P C)
        → Run gives meanings (starting_world tag start) calls answers last → ClosedByCalls calls answers last }
{}

/// After a push, whatever comes then, and the pop of the new layer a hub has the layers that it had before.
pub fn pop_undoes_push<P, C>()
    ensures { (gives : P → Partial) (meanings : C → Meanings) → PopUndoesPush gives meanings }
{}

/// A session that stays held keeps a status that isn't `Ok`. Each update that a call hands out or queues came to a queue
/// before, or has the id of a session that was held before the call, and its status unless that was `Ok`, or it has the
/// id of a session that the call starts. So it is whatever ids the caller passes. Of the updates with one id that a run
/// hands out or queues, none that follows one with another status than `Ok` has another status, if at most one session
/// starts with it. Once the session of a layer was ended, whether or not the layer named one, each further end on that
/// layer sends nothing and changes nothing, until a session starts on it.
pub fn ended_sessions_stay_ended<P, C>()
    ensures status { (gives : P → Partial) (meanings : C → Meanings) → StatusStays gives meanings }
    ensures kept { (gives : P → Partial) (meanings : C → Meanings) (tag start : ℕ) (calls : List (Call P C))
        (answers : List (Result (Out (Reply P C)) Refusal)) (last : World P C)
        (run : Run gives meanings (starting_world tag start) calls answers last)
        → SessionsKeepStatus gives meanings (starting_world tag start) calls answers last run }
    ensures once { (gives : P → Partial) (meanings : C → Meanings) → EndsOnce gives meanings }
{}

/// What the laws refuse: a hub that writes into the hub that it was made from, a flush that hands out nothing, a close
/// that leaves a log waiting, a session that crashes after it exited, one whose status is overwritten, a span in another
/// trace than its envelope's, and a session that is still held where no hub is left.
pub fn wrong_runs_are_refused<P, C>()
    ensures isolation { (meanings : C → Meanings) → DerivedHubLeavesMaker P C meanings }
    ensures logs { SilentFlushIsRefused P C }
    ensures closed { KeptLogIsRefused P C }
    ensures status { LaterCrashIsRefused }
    ensures kept { OverwrittenStatusIsRefused P C }
    ensures traces { ForeignSpanIsRefused }
    ensures sessions { OutlivingSessionIsRefused P C }
{}

/// A run of some calls and then of others is a run of the first and then one of the others.
pub fn runs_split<P, C>()
    ensures { (gives : P → Partial) (meanings : C → Meanings) → RunsSplit gives meanings }
{}

/// Whatever came to a book of losses: at each index, what its reports told and what is pending is what was recorded and
/// absorbed, modulo 2^64.
pub fn books_balance()
    ensures { BooksBalance }
{}

/// A hub that was made from no other has the layers that the calls on it alone give it, under the same options of
/// clients: calls on other hubs can be left out.
pub fn own_calls_suffice<P, C>()
    ensures { (meanings : C → Meanings) → OwnAloneSuffice P C meanings }
{}

/// In every world that calls lead to: the next numbers and all that come after them are free, a label has a book of
/// losses exactly where a client has the label, what layers name is held: clients, transactions and spans; and a session
/// that is held is named by a layer.
pub fn worlds_are_consistent<P, C>()
    ensures numbers { (gives : P → Partial) (meanings : C → Meanings) (tag start : ℕ) (calls : List (Call P C))
        (answers : List (Result (Out (Reply P C)) Refusal)) (last : World P C)
        → Run gives meanings (starting_world tag start) calls answers last → NumbersAreFree last }
    ensures books { (gives : P → Partial) (meanings : C → Meanings) (tag start : ℕ) (calls : List (Call P C))
        (answers : List (Result (Out (Reply P C)) Refusal)) (last : World P C)
        → Run gives meanings (starting_world tag start) calls answers last → BooksAreOfClients last }
    ensures clients { (gives : P → Partial) (meanings : C → Meanings) (tag start : ℕ) (calls : List (Call P C))
        (answers : List (Result (Out (Reply P C)) Refusal)) (last : World P C)
        → Run gives meanings (starting_world tag start) calls answers last → ClientsAreHeld last }
    ensures spans { (gives : P → Partial) (meanings : C → Meanings) (tag start : ℕ) (calls : List (Call P C))
        (answers : List (Result (Out (Reply P C)) Refusal)) (last : World P C)
        → Run gives meanings (starting_world tag start) calls answers last → ActiveSpansAreHeld last }
    ensures sessions { (gives : P → Partial) (meanings : C → Meanings) (tag start : ℕ) (calls : List (Call P C))
        (answers : List (Result (Out (Reply P C)) Refusal)) (last : World P C)
        → Run gives meanings (starting_world tag start) calls answers last → SessionsAreNamed last }
{}

/// After any run, each span that a transaction keeps has its trace id; and each span that is held belongs to a
/// transaction that is held, and has its trace id. Each span of a transaction that was sent is in the trace that the
/// header of its envelope names. A transaction that finishes is sent with a context `trace` that is a place in that
/// trace, unless the top scope of the hub has a context `trace`, which then takes its place.
pub fn spans_are_in_trace<P, C>()
    ensures kept { (gives : P → Partial) (meanings : C → Meanings) (tag start : ℕ) (calls : List (Call P C))
        (answers : List (Result (Out (Reply P C)) Refusal)) (last : World P C)
        → Run gives meanings (starting_world tag start) calls answers last → KeptSpansAreInTrace last }
    ensures held { (gives : P → Partial) (meanings : C → Meanings) (tag start : ℕ) (calls : List (Call P C))
        (answers : List (Result (Out (Reply P C)) Refusal)) (last : World P C)
        → Run gives meanings (starting_world tag start) calls answers last → HeldSpansAreInTrace last }
    ensures sent { (gives : P → Partial) (meanings : C → Meanings) (tag start : ℕ) (calls : List (Call P C))
        (answers : List (Result (Out (Reply P C)) Refusal)) (last : World P C)
        → Run gives meanings (starting_world tag start) calls answers last → SentSpansAreInTrace calls answers }
    ensures finished { (gives : P → Partial) (meanings : C → Meanings) (tag start : ℕ) (calls : List (Call P C))
        (answers : List (Result (Out (Reply P C)) Refusal)) (last : World P C)
        (run : Run gives meanings (starting_world tag start) calls answers last)
        → FinishedHaveTrace gives meanings (starting_world tag start) calls answers last run }
{}

/// After any run, for each label that a client has and each index of losses: what the reports of the label told, since
/// when a client has had it without a break, and what is pending is what was recorded and absorbed, modulo 2^64.
pub fn reports_add_up<P, C>()
    ensures { (gives : P → Partial) (meanings : C → Meanings) → ReportsAddUp gives meanings }
{}

/// Each call but `AddClient` and `Absorb` leaves what each book of losses absorbed, and begins no book.
pub fn absorbed_losses_stay<P, C>()
    ensures { (gives : P → Partial) (meanings : C → Meanings) → AbsorbedStays gives meanings }
{}

/// At each call of a run: what came to the book of each label that a client then has, reports aside, is what came
/// before, and what the call loses under the label or absorbs; a refused call brings nothing. So after a run what the
/// reports of such a label told, since when a client has had it without a break, and what is pending is what the calls
/// brought, modulo 2^64.
pub fn losses_are_recorded<P, C>()
    ensures calls { (gives : P → Partial) (meanings : C → Meanings) (tag start : ℕ) (calls : List (Call P C))
        (answers : List (Result (Out (Reply P C)) Refusal)) (last : World P C)
        (run : Run gives meanings (starting_world tag start) calls answers last)
        → RecordsLossesByCalls gives meanings (starting_world tag start) calls answers last run }
    ensures sums { (gives : P → Partial) (meanings : C → Meanings) (tag start : ℕ) (calls : List (Call P C))
        (answers : List (Result (Out (Reply P C)) Refusal)) (last : World P C)
        (run : Run gives meanings (starting_world tag start) calls answers last)
        → CallsAddUp gives meanings (starting_world tag start) calls answers last run }
{}
