//! Laws of whole runs: functions that do nothing, whose contracts hold of every list of calls of an engine.
pub use sentry_laws::laws::{
    absorbed_losses_stay, accepted_items_are_sent, books_balance, ended_sessions_stay_ended,
    hubs_are_isolated, losses_are_recorded, own_calls_suffice, pop_undoes_push, reports_add_up,
    runs_split, spans_are_in_trace, worlds_are_consistent, wrong_runs_are_refused,
};
