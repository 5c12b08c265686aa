//! Names that edits of a scope give transactions.
ghost use Rattle.sentry_calls.specs.Hubs.{with_renames};
ghost use Rattle.sentry_state.specs.Worlds.{World, Stands};

use sentry_base::protocol::TransactionKey;
use sentry_options::Callbacks;
use sentry_plain::{Items, Text};
use sentry_scope::rename_transactions;
use sentry_state::State;

// Gives transactions other names, in turn, each while it is unfinished. It takes no memory.
pub(super) fn rename_all<P: Drop, C: Callbacks>(
    state: &mut State<P, C>,
    renames: Items<(TransactionKey, Text)>,
)
    ensures { (world : World P C) → Stands state.old world → Stands state.new (with_renames renames world) }
{
    rename_transactions(&mut state.spans, renames);
}
