//! How a session starts in place of another.
ghost use Rattle.std.specs.Prelude.{◌≡◌, ◌<◌, ◌-◌, ◌^◌, IfOk, OnErr, Some, true, is_some, []};
ghost use Rattle.sentry_plain.specs.Tables.{value_at};
ghost use Rattle.sentry_sessions.specs.Sessions.{session_of};
ghost use Rattle.sentry_sessions.specs.declared.session.record.SessionStart.{SessionStart};
ghost use Rattle.sentry_hub_table.specs.declared.hub.HubState.{HubState};
ghost use Rattle.sentry_state.specs.Worlds.{World, Stands};
ghost use Rattle.sentry_sending.specs.Sending.{replace_session};

use crate::session_ends::release_session;
use sentry_base::protocol::SessionKey;
use sentry_options::Callbacks;
use sentry_plain::Items;
use sentry_sessions::Session;
use sentry_state::{Sent, State};
use std::alloc::AllocError;

// Gives up the count of a name, if there is one, where no layer has it any more.
fn forget_name<P: Drop, C: Callbacks>(state: &mut State<P, C>, name: Option<SessionKey>)
    ensures { state.new ≡ state.old }
{
    if let Some(key) = name {
        state.hubs.forget_session(key.number);
    }
}

/// Holds a session under the next number: the top layer of a hub that is held names it, and gives up the one that it
/// named. If out of memory, or if the number is taken, nothing has changed.
#[tactic(auto, using(sentry_state::proofs::Keeping::without_put))]
pub fn replace_session<P: Drop, C: Callbacks>(
    state: &mut State<P, C>,
    hub: u64,
    session: Session,
    now: u64,
) -> Result<Sent, AllocError>
    requires left { state.old.next.session < 2 ^ 64 - 1 }
    requires held { is_some (value_at state.old.hubs hub) ≡ true }
    ensures in_world { IfOk result (λ sent. (world : World P C) (held : HubState P) (start : SessionStart) →
        Stands state.old world → value_at state.old.hubs hub ≡ Some held → session ≡ session_of start [] →
        (sent ≡ (replace_session hub held now start world).sent)
        × Stands state.new (replace_session hub held now start world).after) }
    ensures err { OnErr result (state.new ≡ state.old) }
{
    let number = state.next.session;
    if let Some(_held) = state.sessions.get(number) {
        return Err(AllocError);
    }
    // So that a layer can name it without memory.
    state.hubs.expect_session(number)?;
    state.sessions.insert(number, session)?;
    let Some(held) = state.hubs.get(hub) else {
        unreachable!()
    };
    let before = held.stack.top.session;
    if state.named_session(before).is_none() {
        // The earlier session has ended, so the layer's name is written once.
        state.name_next_session(hub);
        forget_name(state, before);
        return Ok(Items::new(state.alloc));
    }
    match release_session(state, hub, now) {
        Ok(sent) => {
            state.name_next_session(hub);
            Ok(sent)
        }
        Err(error) => {
            state.remove_session(number);
            Err(error)
        }
    }
}
