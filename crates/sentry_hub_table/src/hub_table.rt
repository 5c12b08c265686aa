//! The hubs of an engine.
ghost use Rattle.std.specs.Prelude.{◌≡◌, [], Some, true, is_some, IfOk, OnOk, OnErr, length, option_copied};
ghost use Rattle.sentry_plain.specs.Tables.{value_at, put, replace_at, without};
ghost use Rattle.sentry_scope.specs.Scopes.{edit, breadcrumb_trail};
ghost use Rattle.sentry_scope.specs.Stacks.{depth, push, pop};
ghost use Rattle.sentry_hub_table.specs.declared.hub.HubState.{HubState};
ghost use Rattle.sentry_hub_table.specs.Names.{all_layers};
ghost use Rattle.sentry_hub_table.specs.Hubs.{with_client, with_session, with_stack, with_scope};
ghost use Rattle.sentry_hub_table.specs.Hubs.{is_client_named, is_session_named, is_transaction_named, is_span_named};

use crate::hub::HubState;
use crate::names::{Names, client_name, layer_names, session_name, span_name, transaction_name};
use crate::tally::Key;
use sentry_base::protocol::{Breadcrumb, ClientKey, SessionKey, SpanKey, TransactionKey, Uuid};
use sentry_plain::{Few, Table};
use sentry_scope::{Scope, ScopeEdit};
use std::alloc::{AllocError, Global};
use std::marker::Model;

/// The hubs of an engine by their numbers, with the number of layers that name each client, session, transaction and
/// span. Contracts see the list of the hubs in the order of their numbers.
pub struct HubTable<P> {
    hubs: Table<HubState<P>>,
    /// How many layers all hubs have.
    layers: usize,
    names: Names,
}

impl<P> Model for HubTable<P> {
    ghost use Rattle.std.specs.Prelude.{List, ℕ};
    ghost use Rattle.sentry_hub_table.specs.declared.hub.HubState.{HubState};
    ghost use Rattle.std.specs.Coded.{codes};
    ghost use Rattle.sentry_plain.specs.Values.{data_code};

    ghost Value = { List (ℕ × HubState P) };

    ghost coded = { Prim.hlevel (codes, data_code, P.code) };

    ghost use Rattle.sentry_hub_table.specs.TrueNames.{TrueNames};

    ghost view = { λ a. a.hubs };

    ghost invariant = { TrueNames };
}

impl<P: Drop> Drop for HubTable<P> {
    fn drop(self) {
        let HubTable {
            hubs: _,
            layers: _,
            names: _,
        } = self;
    }
}

impl<P> HubTable<P> {
    /// The table of no hubs, of the engine with this tag. It takes no memory.
    pub fn new(alloc: Global, tag: u64) -> HubTable<P>
        ensures { result ≡ [] }
    {
        HubTable {
            hubs: Table::new(alloc),
            layers: 0,
            names: Names::new(alloc, tag),
        }
    }

    /// The hub at a number.
    pub fn get(&self, number: u64) -> Option<&HubState<P>>
        ensures { option_copied result ≡ value_at self.now number }
    {
        self.hubs.get(number)
    }

    /// How many hubs there are.
    pub fn len(&self) -> usize
        ensures { result ≡ length self.now }
    {
        self.hubs.len()
    }

    /// How many layers all hubs have. It looks at no hub.
    pub fn layers(&self) -> usize
        ensures { result ≡ all_layers self.now }
    {
        self.layers
    }

    /// Whether a layer names the client. It looks at no layer.
    pub fn is_client_named(&self, client: ClientKey) -> bool
        ensures { result ≡ is_client_named client self.now }
    {
        self.names.clients.is_named(Key {
            tag: client.tag,
            number: client.number,
        })
    }

    /// Whether a layer names the session. It looks at no layer.
    pub fn is_session_named(&self, session: SessionKey) -> bool
        ensures { result ≡ is_session_named session self.now }
    {
        self.names.sessions.is_named(Key {
            tag: session.tag,
            number: session.number,
        })
    }

    /// Whether a layer names the transaction. It looks at no layer.
    pub fn is_transaction_named(&self, transaction: TransactionKey) -> bool
        ensures { result ≡ is_transaction_named transaction self.now }
    {
        self.names.transactions.is_named(Key {
            tag: transaction.tag,
            number: transaction.number,
        })
    }

    /// Whether a layer names the span. It looks at no layer.
    pub fn is_span_named(&self, span: SpanKey) -> bool
        ensures { result ≡ is_span_named span self.now }
    {
        self.names.spans.is_named(Key {
            tag: span.tag,
            number: span.number,
        })
    }
}

impl<P: Drop> HubTable<P> {
    /// The top layer of a hub that is held names this client, or none. It takes no memory.
    pub fn set_client(&mut self, number: u64, client: Option<ClientKey>)
        requires { is_some (value_at self.old number) ≡ true }
        ensures { (hub : HubState P) → value_at self.old number ≡ Some hub →
            self.new ≡ replace_at self.old number (with_client hub client) }
    {
        let Some(hub) = self.hubs.get_mut(number) else {
            unreachable!()
        };
        let before = hub.stack.top.client;
        hub.stack.top.client = client;
        self.names.clients.lower(client_name(before));
        self.names.clients.raise(client_name(client));
    }

    /// The top layer of a hub that is held names this session, or none. It takes no memory.
    pub fn set_session(&mut self, number: u64, session: Option<SessionKey>)
        requires { is_some (value_at self.old number) ≡ true }
        ensures { (hub : HubState P) → value_at self.old number ≡ Some hub →
            self.new ≡ replace_at self.old number (with_session hub session) }
    {
        let Some(hub) = self.hubs.get_mut(number) else {
            unreachable!()
        };
        let before = hub.stack.top.session;
        hub.stack.top.session = session;
        self.names.sessions.lower(session_name(before));
        self.names.sessions.raise(session_name(session));
    }

    /// Replaces the top scope of a hub that is held. It takes no memory.
    pub fn set_scope(&mut self, number: u64, scope: Scope<P>)
        requires { is_some (value_at self.old number) ≡ true }
        ensures { (hub : HubState P) → value_at self.old number ≡ Some hub →
            self.new ≡ replace_at self.old number (with_scope hub scope) }
    {
        let Some(hub) = self.hubs.get_mut(number) else {
            unreachable!()
        };
        let before = hub.stack.top.scope.span;
        let after = scope.span;
        hub.stack.top.scope = scope;
        self.names.transactions.lower(transaction_name(before));
        self.names.transactions.raise(transaction_name(after));
        self.names.spans.lower(span_name(before));
        self.names.spans.raise(span_name(after));
    }

    /// Makes one edit of the top scope of a hub that is held, in place. If out of memory, nothing has changed.
    #[tactic(auto, using(sentry_plain::proofs::ChangeLemmas::changed_same))]
    pub fn edit_scope(&mut self, number: u64, setter: ScopeEdit<P>) -> Result<(), AllocError>
        requires { is_some (value_at self.old number) ≡ true }
        ensures ok { OnOk result ((hub : HubState P) → value_at self.old number ≡ Some hub →
            self.new ≡ replace_at self.old number (with_scope hub (edit setter hub.stack.top.scope))) }
        ensures err { OnErr result (self.new ≡ self.old) }
    {
        let Some(hub) = self.hubs.get_mut(number) else {
            unreachable!()
        };
        let before = hub.stack.top.scope.span;
        hub.stack.top.scope.edit(setter)?;
        let after = hub.stack.top.scope.span;
        self.names.transactions.lower(transaction_name(before));
        self.names.transactions.raise(transaction_name(after));
        self.names.spans.lower(span_name(before));
        self.names.spans.raise(span_name(after));
        Ok(())
    }

    /// Adds breadcrumbs to the top scope of a hub that is held, in place. If out of memory, nothing has changed.
    #[tactic(auto, using(sentry_plain::proofs::ChangeLemmas::changed_same))]
    pub fn add_breadcrumbs(
        &mut self,
        number: u64,
        added: Few<Breadcrumb>,
        max_breadcrumbs: usize,
    ) -> Result<(), AllocError>
        requires { is_some (value_at self.old number) ≡ true }
        ensures ok { OnOk result ((hub : HubState P) → value_at self.old number ≡ Some hub →
            self.new ≡ replace_at self.old number (with_scope hub (record hub.stack.top.scope {
              breadcrumbs = breadcrumb_trail max_breadcrumbs hub.stack.top.scope.breadcrumbs added;
            }))) }
        ensures err { OnErr result (self.new ≡ self.old) }
    {
        let Some(hub) = self.hubs.get_mut(number) else {
            unreachable!()
        };
        hub.stack.top.scope.add_breadcrumbs(added, max_breadcrumbs)?;
        Ok(())
    }

    /// Notes the last event of a hub that is held. It takes no memory.
    pub fn set_last_event_id(&mut self, number: u64, id: Uuid)
        requires { is_some (value_at self.old number) ≡ true }
        ensures { (hub : HubState P) → value_at self.old number ≡ Some hub →
            self.new ≡ replace_at self.old number (record hub { last_event_id = Some id }) }
    {
        let Some(hub) = self.hubs.get_mut(number) else {
            unreachable!()
        };
        hub.last_event_id = Some(id);
    }

    /// Puts a copy of the top layer of a hub that is held on it, and returns the depth after it. If out of memory, nothing has
    /// changed.
    #[tactic(auto, using(sentry_plain::proofs::ChangeLemmas::changed_same))]
    pub fn push(&mut self, number: u64) -> Result<usize, AllocError>
        requires { is_some (value_at self.old number) ≡ true }
        ensures ok { IfOk result (λ pushed. (hub : HubState P) → value_at self.old number ≡ Some hub →
            (pushed ≡ depth (push hub.stack))
            × (self.new ≡ replace_at self.old number (with_stack hub (push hub.stack)))) }
        ensures err { OnErr result (self.new ≡ self.old) }
    {
        let Some(layers) = self.layers.checked_add(1) else {
            return Err(AllocError);
        };
        let Some(hub) = self.hubs.get_mut(number) else {
            unreachable!()
        };
        let session = session_name(hub.stack.top.session);
        self.names.reserve(layers, session)?;
        hub.stack.push()?;
        let depth = hub.stack.depth();
        let names = layer_names(&hub.stack.top);
        self.layers = layers;
        self.names.raise(names);
        Ok(depth)
    }

    /// Removes the top layer of a hub that is held, unless it has no other. It takes no memory.
    #[tactic(auto, using(sentry_plain::proofs::ChangeLemmas::changed_same))]
    pub fn pop(&mut self, number: u64)
        requires { is_some (value_at self.old number) ≡ true }
        ensures { (hub : HubState P) → value_at self.old number ≡ Some hub →
            self.new ≡ replace_at self.old number (with_stack hub (pop hub.stack)) }
    {
        let Some(hub) = self.hubs.get_mut(number) else {
            unreachable!()
        };
        let names = layer_names(&hub.stack.top);
        if let Err(_) = hub.stack.pop() {
            return;
        }
        self.layers -= 1;
        self.names.lower(names);
    }

    /// Holds a hub of one layer under a number that is free. If out of memory, or if the number is taken, nothing has
    /// changed.
    pub fn insert(&mut self, number: u64, hub: HubState<P>) -> Result<(), AllocError>
        requires { depth hub.stack ≡ 0 }
        ensures ok { OnOk result (self.new ≡ put self.old number hub) }
        ensures err { OnErr result (self.new ≡ self.old) }
    {
        if let Some(_held) = self.hubs.get(number) {
            return Err(AllocError);
        }
        let Some(layers) = self.layers.checked_add(1) else {
            return Err(AllocError);
        };
        let names = layer_names(&hub.stack.top);
        self.names.reserve(layers, names.session)?;
        self.hubs.insert(number, hub)?;
        self.layers = layers;
        self.names.raise(names);
        Ok(())
    }

    /// Removes a hub. It takes no memory.
    pub fn remove(&mut self, number: u64)
        ensures { self.new ≡ without self.old number }
    {
        let Some(hub) = self.hubs.remove(number) else {
            return;
        };
        self.layers -= hub.stack.depth();
        self.layers -= 1;
        self.names.lower(layer_names(&hub.stack.top));
        self.names.lower_each(hub.stack.below.as_slice());
    }

    /// No name of the client with this number is going to come. It takes no memory.
    pub fn forget_client(&mut self, number: u64)
        ensures { self.new ≡ self.old }
    {
        self.names.clients.forget(number);
    }

    /// No name of the session with this number is going to come. It takes no memory.
    pub fn forget_session(&mut self, number: u64)
        ensures { self.new ≡ self.old }
    {
        self.names.sessions.forget(number);
    }

    /// No name of the transaction with this number is going to come. It takes no memory.
    pub fn forget_transaction(&mut self, number: u64)
        ensures { self.new ≡ self.old }
    {
        self.names.transactions.forget(number);
    }

    /// No name of the span with this number is going to come. It takes no memory.
    pub fn forget_span(&mut self, number: u64)
        ensures { self.new ≡ self.old }
    {
        self.names.spans.forget(number);
    }

    /// Names of the client with this number are going to come.
    pub fn expect_client(&mut self, number: u64) -> Result<(), AllocError>
        ensures { self.new ≡ self.old }
    {
        self.names.clients.expect(number)
    }

    /// Names of the session with this number are going to come.
    pub fn expect_session(&mut self, number: u64) -> Result<(), AllocError>
        ensures { self.new ≡ self.old }
    {
        if self.names.sessions.is_short() {
            return Ok(());
        }
        self.names.sessions.expect(number)
    }

    /// Names of the transaction with this number are going to come.
    pub fn expect_transaction(&mut self, number: u64) -> Result<(), AllocError>
        ensures { self.new ≡ self.old }
    {
        self.names.transactions.expect(number)
    }

    /// Names of the span with this number are going to come.
    pub fn expect_span(&mut self, number: u64) -> Result<(), AllocError>
        ensures { self.new ≡ self.old }
    {
        self.names.spans.expect(number)
    }
}
