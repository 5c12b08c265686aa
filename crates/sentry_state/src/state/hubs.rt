//! How hubs are held, and how their top layers change.
ghost use Rattle.std.specs.Prelude.{◌≡◌, ◌<◌, ◌-◌, ◌^◌, nat_lt, true, is_some, IfOk, OnOk, OnErr, Some};
ghost use Rattle.std.specs.Bool.{OnTrue};
ghost use Rattle.sentry_plain.specs.Tables.{value_at, replace_at};
ghost use Rattle.sentry_scope.specs.Scopes.{edit};
ghost use Rattle.sentry_scope.specs.Stacks.{depth, push, pop};
ghost use Rattle.sentry_hub_table.specs.declared.hub.HubState.{HubState};
ghost use Rattle.sentry_state.specs.Breadcrumbs.{add_breadcrumbs};
ghost use Rattle.sentry_state.specs.Changes.{ChangesHub, next_hub_key, with_breadcrumbs, with_new_hub};
ghost use Rattle.sentry_state.specs.Outcomes.{Does};
ghost use Rattle.sentry_hub_table.specs.Hubs.{with_client, with_scope, with_stack};
ghost use Rattle.sentry_state.specs.Worlds.{World, Stands};

use crate::state::{HubState, Out, State};
use sentry_base::protocol::{Breadcrumb, ClientKey, HubKey, Refusal, Uuid};
use sentry_options::Callbacks;
use sentry_plain::Few;
use sentry_scope::{Scope, ScopeEdit, Stack};
use std::alloc::AllocError;

impl<P: Drop, C: Callbacks> State<P, C> {
    /// Whether a number is left for a hub.
    pub fn has_hub_number(&self) -> bool
        ensures in_world { (world : World P C) → Stands self.now world →
            result ≡ nat_lt world.next.hub (2 ^ 64 - 1) }
        ensures below { OnTrue result (self.now.next.hub < 2 ^ 64 - 1) }
    {
        self.next.hub != u64::MAX
    }

    /// Holds a hub of one layer under the next number, which is left. If out of memory, nothing has changed.
    pub fn insert_hub(&mut self, stack: Stack<P>) -> Result<HubKey, AllocError>
        requires left { self.old.next.hub < 2 ^ 64 - 1 }
        requires one_layer { depth stack ≡ 0 }
        ensures in_world { IfOk result (λ key. (world : World P C) → Stands self.old world →
            (key ≡ next_hub_key world) × Stands self.new (with_new_hub stack world)) }
        ensures err { OnErr result (self.new ≡ self.old) }
    {
        let number = self.next.hub;
        let hub = HubState {
            stack,
            last_event_id: None,
        };
        self.hubs.insert(number, hub)?;
        self.next.hub = number + 1;
        Ok(HubKey {
            tag: self.tag,
            number,
        })
    }

    /// Pushes a copy of the top layer of a hub that is held, and returns the depth after it. If out of memory, nothing
    /// has changed.
    pub fn push_layer(&mut self, number: u64) -> Result<usize, AllocError>
        requires { is_some (value_at self.old.hubs number) ≡ true }
        ensures in_world { IfOk result (λ pushed. (world : World P C) (hub : HubState P) → Stands self.old world →
            value_at self.old.hubs number ≡ Some hub → (pushed ≡ depth (push hub.stack)) ×
            Stands self.new (record world { hubs = replace_at world.hubs number (with_stack hub (push hub.stack)) })) }
        ensures err { OnErr result (self.new ≡ self.old) }
    {
        self.hubs.push(number)
    }

    /// Removes the top layer of a hub that is held, unless it has no other. It takes no memory.
    pub fn pop_layer(&mut self, number: u64)
        requires { is_some (value_at self.old.hubs number) ≡ true }
        ensures in_world { ChangesHub self.old self.new number (λ hub. with_stack hub (pop hub.stack)) }
    {
        self.hubs.pop(number);
    }

    /// Writes the client of the top layer of a hub that is held. It takes no memory.
    pub fn set_client(&mut self, number: u64, client: Option<ClientKey>)
        requires { is_some (value_at self.old.hubs number) ≡ true }
        ensures in_world { ChangesHub self.old self.new number (λ hub. with_client hub client) }
    {
        self.hubs.set_client(number, client);
    }

    /// Writes the top scope of a hub that is held. It takes no memory.
    pub fn set_scope(&mut self, number: u64, scope: Scope<P>)
        requires { is_some (value_at self.old.hubs number) ≡ true }
        ensures in_world { ChangesHub self.old self.new number (λ hub. with_scope hub scope) }
    {
        self.hubs.set_scope(number, scope);
    }

    /// Makes one edit of the top scope of a hub that is held, in place. If out of memory, nothing has changed.
    pub fn edit_scope(&mut self, number: u64, setter: ScopeEdit<P>) -> Result<(), AllocError>
        requires { is_some (value_at self.old.hubs number) ≡ true }
        ensures in_world { OnOk result (ChangesHub self.old self.new number (λ hub.
            with_scope hub (edit setter hub.stack.top.scope))) }
        ensures err { OnErr result (self.new ≡ self.old) }
    {
        self.hubs.edit_scope(number, setter)
    }

    /// Notes the last event of a hub that is held.
    pub fn set_last_event_id(&mut self, number: u64, id: Uuid)
        requires { is_some (value_at self.old.hubs number) ≡ true }
        ensures in_world { ChangesHub self.old self.new number (λ hub. record hub { last_event_id = Some id }) }
    {
        self.hubs.set_last_event_id(number, id);
    }

    // Adds breadcrumbs to the top scope of a hub that is held, in place. If out of memory, nothing has changed.
    fn add_to_trail(
        &mut self,
        number: u64,
        breadcrumbs: Few<Breadcrumb>,
        max_breadcrumbs: usize,
    ) -> Result<(), AllocError>
        requires { is_some (value_at self.old.hubs number) ≡ true }
        ensures in_world { OnOk result (ChangesHub self.old self.new number (λ hub.
            with_breadcrumbs hub max_breadcrumbs breadcrumbs)) }
        ensures err { OnErr result (self.new ≡ self.old) }
    {
        self.hubs
            .add_breadcrumbs(number, breadcrumbs, max_breadcrumbs)
    }

    /// Adds breadcrumbs to the top scope of a hub. Each goes through the `before_breadcrumb` of the top layer's client.
    /// The scope keeps the last `max_breadcrumbs` of all that it then has, which is an option of the client. Without a
    /// client, or without a breadcrumb, nothing changes and no callback is called.
    ///
    /// `Stale`: the hub isn't held. `OutOfMemory`: none of the breadcrumbs is added.
    #[tactic(auto, unfolding(crate::specs::Breadcrumbs::add_breadcrumbs))]
    pub fn add_breadcrumbs(
        &mut self,
        hub: HubKey,
        breadcrumbs: Few<Breadcrumb>,
    ) -> Result<Out<()>, Refusal>
        ensures { Does self.old self.new result (add_breadcrumbs C.meanings hub breadcrumbs) }
    {
        let Some(held) = self.hub_at(hub) else {
            return Err(Refusal::Stale);
        };
        if breadcrumbs.is_empty() {
            return Ok(self.out(()));
        }
        let Some(client_key) = held.stack.top.client else {
            return Ok(self.out(()));
        };
        let Some(client) = self.client_at(client_key) else {
            return Ok(self.out(()));
        };
        let max_breadcrumbs = client.options.get().plain.max_breadcrumbs;
        let callbacks = &client.options.get().callbacks;
        let kept = callbacks.before_breadcrumb(breadcrumbs)?;
        self.add_to_trail(hub.number, kept, max_breadcrumbs)?;
        Ok(self.out(()))
    }
}
