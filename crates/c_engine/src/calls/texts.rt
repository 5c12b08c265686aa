//! The calls whose records are read from texts. Each makes the engine's call with the record that it has read.
ghost use Rattle.std.specs.Prelude.{◌≡◌, true};
ghost use Rattle.sentry_calls.specs.Clients as clients;
ghost use Rattle.sentry_calls.specs.Hubs as hubs;
ghost use Rattle.sentry_calls.specs.Telemetry as telemetry;
ghost use Rattle.sentry_events.specs.Captures.{capture_event};
ghost use Rattle.sentry_state.specs.Breadcrumbs.{add_breadcrumbs};
ghost use Rattle.c_base.specs.Numbers.{id_of};
ghost use Rattle.c_engine.specs.Calls.{SomeCalls, SomeCallsWith, anything};
ghost use Rattle.c_engine.specs.Engines.{same_event};
ghost use Rattle.c_records.specs.Filters.{filter_meanings};
ghost use Rattle.c_engine.specs.Keys.{hub_key, label};
ghost use Rattle.c_engine.specs.Moments.{fresh_of};

use crate::outbox_engine::OutboxEngine;
use c_base::fault::CallFault;
use c_base::ids::{FreshNumbers, Id};
use c_base::numbers::{log_level, text};
use c_records::attributes::attributes_of;
use c_records::breadcrumbs::breadcrumb_of;
use c_records::edits::edits_of;
use c_records::events::event_of;
use c_records::json::object;
use c_records::metrics::{metric_type, unit_named};
use c_records::options::read_options;
use c_records::stacktraces::stacktraces_of;
use sentry_base::protocol::{Breadcrumb, Log, MetricDraft};
use sentry_plain::Few;
use std::alloc::Global;

// A log with the attributes of an object.
fn log_of(
    alloc: Global,
    level: u32,
    body: &[u8],
    attributes: &[u8],
    now: u64,
) -> Result<Log, CallFault> {
    let mut log = Log::new(alloc, log_level(level)?, text(body)?, now)?;
    let members = object(alloc, attributes)?;
    log.attributes = attributes_of(alloc, &members)?;
    Ok(log)
}

// A metric with the attributes of an object.
fn draft_of(
    alloc: Global,
    kind: u32,
    name: &[u8],
    value: i64,
    unit: &[u8],
    attributes: &[u8],
) -> Result<MetricDraft, CallFault> {
    let mut draft = MetricDraft::new(alloc, metric_type(kind)?, text(name)?, value)?;
    draft.unit = unit_named(alloc, text(unit)?)?;
    let members = object(alloc, attributes)?;
    draft.attributes = attributes_of(alloc, &members)?;
    Ok(draft)
}

// The breadcrumb of an object.
fn breadcrumb_of_text(
    alloc: Global,
    breadcrumb: &[u8],
    now: u64,
) -> Result<Few<Breadcrumb>, CallFault> {
    let members = object(alloc, breadcrumb)?;
    let breadcrumb = breadcrumb_of(alloc, &members, now)?;
    Ok(Few::single(Some(breadcrumb)))
}

impl OutboxEngine {
    /// Adds a client of the options that a text sets, a line each, under the label of this number.
    #[tactic(auto, using(crate::proofs::Calling::some))]
    pub fn add_client(
        &mut self,
        options: &[u8],
        number: u64,
        now: u64,
        client: &mut u64,
    ) -> Result<(), CallFault>
        ensures { SomeCalls self.old self.new result (λ key. client.new ≡ key.number)
            (λ options. clients.add_client filter_meanings options true (label number) now) }
    {
        let options = read_options(self.alloc, text(options)?)?;
        self.add(options, number, now, client)
    }

    /// Captures the event of a JSON object, with the stack traces that it has.
    #[tactic(auto, using(crate::proofs::Calling::some_with))]
    pub fn capture_event(
        &mut self,
        hub: u64,
        event: &[u8],
        fresh: &FreshNumbers,
        id: &mut Id,
    ) -> Result<(), CallFault>
        ensures { SomeCallsWith self.old self.new result (λ reply. id.new ≡ id_of reply)
            (λ event. capture_event same_event filter_meanings (hub_key hub) event (fresh_of fresh.entry.now)) }
    {
        let members = object(self.alloc, event)?;
        let stacktraces = stacktraces_of(self.alloc, &members, event.len())?;
        let event = event_of(self.alloc, &members, fresh.now)?;
        self.send_event(hub, event, stacktraces, fresh, id)
    }

    /// Does the edits of a JSON object to the top scope.
    #[tactic(auto, using(crate::proofs::Calling::some))]
    pub fn edit_scope(&mut self, hub: u64, edits: &[u8], now: u64) -> Result<(), CallFault>
        ensures { SomeCalls self.old self.new result anything (λ edits. hubs.configure (hub_key hub) edits now) }
    {
        let members = object(self.alloc, edits)?;
        let edits = edits_of(self.alloc, &members)?;
        self.configure(hub, edits, now)
    }

    /// Adds the breadcrumb of a JSON object to the top scope.
    #[tactic(auto, using(crate::proofs::Calling::some))]
    pub fn add_breadcrumb(&mut self, hub: u64, breadcrumb: &[u8], now: u64) -> Result<(), CallFault>
        ensures { SomeCalls self.old self.new result anything
            (λ breadcrumbs. add_breadcrumbs filter_meanings (hub_key hub) breadcrumbs) }
    {
        let breadcrumb = breadcrumb_of_text(self.alloc, breadcrumb, now)?;
        self.add_breadcrumbs(hub, breadcrumb)
    }

    /// Captures a log with the attributes of a JSON object.
    #[tactic(auto, using(crate::proofs::Calling::some))]
    pub fn capture_log(
        &mut self,
        hub: u64,
        level: u32,
        body: &[u8],
        attributes: &[u8],
        now: u64,
    ) -> Result<(), CallFault>
        ensures { SomeCalls self.old self.new result anything
            (λ log. telemetry.capture_log filter_meanings (hub_key hub) log) }
    {
        let log = log_of(self.alloc, level, body, attributes, now)?;
        self.send_log(hub, log)
    }

    /// Captures a metric with the attributes of a JSON object.
    #[tactic(auto, using(crate::proofs::Calling::some))]
    pub fn capture_metric(
        &mut self,
        hub: u64,
        kind: u32,
        name: &[u8],
        value: i64,
        unit: &[u8],
        attributes: &[u8],
        now: u64,
    ) -> Result<(), CallFault>
        ensures { SomeCalls self.old self.new result anything
            (λ draft. telemetry.capture_metric filter_meanings (hub_key hub) draft now) }
    {
        let draft = draft_of(self.alloc, kind, name, value, unit, attributes)?;
        self.send_metric(hub, draft, now)
    }
}
