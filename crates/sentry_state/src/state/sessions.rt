//! How sessions are named and change.
ghost use Rattle.std.specs.Prelude.{◌≡◌, ◌<◌, ◌+◌, ◌-◌, ◌^◌, Some, true, is_some};
ghost use Rattle.std.specs.Bool.{OnTrue};
ghost use Rattle.sentry_plain.specs.Tables.{value_at, replace_at, without};
ghost use Rattle.sentry_hub_table.specs.declared.hub.HubState.{HubState};
ghost use Rattle.sentry_state.specs.Changes.{ChangesHub, is_session_number_left};
ghost use Rattle.sentry_hub_table.specs.Hubs.{with_session};
ghost use Rattle.sentry_state.specs.Worlds.{World, SessionHistory, Stands, stored_session};

use crate::state::State;
use sentry_base::protocol::SessionKey;
use sentry_options::Callbacks;
use sentry_sessions::Session;

impl<P: Drop, C: Callbacks> State<P, C> {
    /// Whether a number is left for a session.
    pub fn has_session_number(&self) -> bool
        ensures in_world { (world : World P C) → Stands self.now world → result ≡ is_session_number_left world }
        ensures left { OnTrue result (self.now.next.session < 2 ^ 64 - 1) }
    {
        self.next.session < u64::MAX
    }

    /// The top layer of a hub that is held names the session under the next number.
    pub fn name_next_session(&mut self, number: u64)
        requires left { self.old.next.session < 2 ^ 64 - 1 }
        requires held { is_some (value_at self.old.hubs number) ≡ true }
        ensures { (world : World P C) (hub : HubState P) → Stands self.old world → value_at self.old.hubs number ≡ Some hub →
            Stands self.new (record world {
              next = record world.next { session = world.next.session + 1 };
              hubs = replace_at world.hubs number
                  (with_session hub (Some (record { tag = world.tag; number = world.next.session })));
            }) }
    {
        let key = SessionKey {
            tag: self.tag,
            number: self.next.session,
        };
        self.set_session_name(number, Some(key));
        self.next.session += 1;
    }

    /// Writes which session the top layer of a hub that is held names.
    pub fn set_session_name(&mut self, number: u64, name: Option<SessionKey>)
        requires { is_some (value_at self.old.hubs number) ≡ true }
        ensures in_world { ChangesHub self.old self.new number (λ hub. with_session hub name) }
        ensures next { self.new.next ≡ self.old.next }
        ensures engine { (hub : HubState P) → value_at self.old.hubs number ≡ Some hub →
            self.new ≡ record self.old { hubs = replace_at self.old.hubs number (with_session hub name) } }
    {
        self.hubs.set_session(number, name);
    }

    /// Writes a session, if there is one under the number. It takes no memory.
    pub fn set_session(&mut self, number: u64, after: Session)
        ensures in_world { (world : World P C) (state : SessionHistory) → Stands self.old world →
            after ≡ stored_session state →
            Stands self.new (record world { sessions = replace_at world.sessions number state }) }
        ensures hubs { self.new.hubs ≡ self.old.hubs }
    {
        self.sessions.set(self.alloc, number, after);
    }

    /// Removes a session.
    #[inline(never)]
    #[tactic(auto, using(crate::proofs::Keeping::without_map_values))]
    pub fn remove_session(&mut self, number: u64)
        ensures in_world { (world : World P C) → Stands self.old world →
            Stands self.new (record world { sessions = without world.sessions number }) }
        ensures engine { self.new ≡ record self.old { sessions = without self.old.sessions number } }
        ensures hubs { self.new.hubs ≡ self.old.hubs }
        ensures next { self.new.next ≡ self.old.next }
    {
        self.sessions.remove(number);
    }
}
