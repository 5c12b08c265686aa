//! Envelopes that are made before anything changes, with room for those of batches.
ghost use Rattle.std.specs.Prelude.{◌≡◌, ◌+◌, ◌++◌, ◌<◌, ◌≤◌, ◌∷◌, [], List, IfOk, vec_len, vec_capacity};
ghost use Rattle.std.specs.Option.{option_map};
ghost use Rattle.sentry_base.specs.declared.protocol.envelope.Envelope.{Envelope};
ghost use Rattle.sentry_base.specs.declared.protocol.envelope.EnvelopeItem.TheVariants as item;
ghost use Rattle.sentry_sessions.specs.SessionQueues.{envelope_of};
ghost use Rattle.sentry_state.specs.Books.{pending_report};
ghost use Rattle.sentry_base.specs.Envelopes.{with_report};
ghost use Rattle.sentry_telemetry.specs.Flushes.{envelope_if_some, batch_envelopes};
ghost use Rattle.sentry_sending.specs.Sending.{for_client, report_left};
ghost use Rattle.sentry_state.specs.Worlds.{World, Stands};

use crate::flushes::Batches;
use sentry_base::protocol::{
    ClientKey, ClientReport, Envelope, EnvelopeHeaders, EnvelopeItem, Label, Log, Metric,
};
use sentry_options::Callbacks;
use sentry_plain::Items;
use sentry_sending::sending::envelopes_from;
use sentry_state::{Sent, State};
use std::alloc::{AllocError, Global};

// Envelopes of a client, with room for one of logs and for one of metrics, which takes no more memory.
pub(crate) struct PreparedEnvelopes {
    key: ClientKey,
    // Goes along with the first of the envelopes that are still to come.
    report: Option<ClientReport>,
    sent: Vec<(ClientKey, Envelope)>,
    // Room for the items of the envelope of logs.
    logs: Vec<EnvelopeItem>,
    metrics: Vec<EnvelopeItem>,
}

impl Drop for PreparedEnvelopes {
    fn drop(self) {
        let PreparedEnvelopes {
            key: _,
            report: _,
            sent: _,
            logs: _,
            metrics: _,
        } = self;
    }
}

// Adds a report as the last item, if there is one, for which there is room.
fn push_report(items: &mut Vec<EnvelopeItem>, report: Option<ClientReport>)
    requires { vec_len items.old < vec_capacity items.old }
    ensures { (first : EnvelopeItem) → items.old.items ≡ first ∷ [] →
        envelope_of items.new.items ≡ with_report report (envelope_of (first ∷ [])) }
{
    let Some(report) = report else {
        return;
    };
    items.push_reserved(EnvelopeItem::ClientReport(report));
}

// An envelope of one item, and a report, if there is one, for which there is room.
fn with_report(
    mut items: Vec<EnvelopeItem>,
    added: EnvelopeItem,
    report: Option<ClientReport>,
) -> Envelope
    requires empty { items.items ≡ [] }
    requires room { vec_len items + 2 ≤ vec_capacity items }
    ensures { result ≡ with_report report (envelope_of (added ∷ [])) }
{
    items.push_reserved(added);
    push_report(&mut items, report);
    Envelope {
        header: EnvelopeHeaders {
            event_id: None,
            trace: None,
        },
        items: Items::from_vec(items),
    }
}

// Adds an envelope with this item, if there is one, and the report, if it is still to go along with one.
fn push_if_some(
    sent: &mut Vec<(ClientKey, Envelope)>,
    key: ClientKey,
    report: &mut Option<ClientReport>,
    room: Vec<EnvelopeItem>,
    added: Option<EnvelopeItem>,
)
    requires sent { vec_len sent.old < vec_capacity sent.old }
    requires empty { room.items ≡ [] }
    requires room { vec_len room + 2 ≤ vec_capacity room }
    ensures items { (others : List Envelope) → sent.new.items ++ for_client key report.new others
        ≡ sent.old.items ++ for_client key report.old (envelope_if_some added others) }
    ensures len { vec_len sent.new ≤ vec_len sent.old + 1 }
    ensures capacity { vec_capacity sent.new ≡ vec_capacity sent.old }
{
    let Some(added) = added else {
        return;
    };
    let envelope = with_report(room, added, report.take());
    sent.push_reserved((key, envelope));
}

// The item of a batch of logs, if there is one.
fn logs_item(logs: Option<Items<Log>>) -> Option<EnvelopeItem>
    ensures { result ≡ option_map item.Logs logs }
{
    Some(EnvelopeItem::Logs(logs?))
}

// The item of a batch of metrics, if there is one.
fn metrics_item(metrics: Option<Items<Metric>>) -> Option<EnvelopeItem>
    ensures { result ≡ option_map item.Metrics metrics }
{
    Some(EnvelopeItem::Metrics(metrics?))
}

impl PreparedEnvelopes {
    // All envelopes: those that were made before, and those of the batches. It takes no memory.
    pub(crate) fn finish(self, batches: Batches) -> Sent
        requires sent { vec_len self.sent + 2 ≤ vec_capacity self.sent }
        requires logs { (self.logs.items ≡ []) × (vec_len self.logs + 2 ≤ vec_capacity self.logs) }
        requires metrics { (self.metrics.items ≡ []) × (vec_len self.metrics + 2 ≤ vec_capacity self.metrics) }
        ensures { result ≡ self.sent.items
            ++ for_client self.key self.report (batch_envelopes batches.logs batches.metrics) }
    {
        let PreparedEnvelopes {
            key,
            mut report,
            mut sent,
            logs,
            metrics,
        } = self;
        push_if_some(&mut sent, key, &mut report, logs, logs_item(batches.logs));
        push_if_some(
            &mut sent,
            key,
            &mut report,
            metrics,
            metrics_item(batches.metrics),
        );
        Items::from_vec(sent)
    }
}

// The report that goes along with the first envelope of a label, if these are not the first.
fn report_left<P: Drop, C: Callbacks>(
    state: &State<P, C>,
    label: Label,
    sent: &Sent,
) -> Result<Option<ClientReport>, AllocError>
    ensures { (world : World P C) → Stands state.now world → IfOk result (λ report.
        report ≡ report_left (pending_report world label) sent.now) }
{
    if !sent.is_empty() {
        return Ok(None);
    }
    let report = state.pending_report(label)?;
    Ok(report)
}

// Envelopes of a client whose slot is occupied, the first with the pending report, and room for those of batches.
pub(crate) fn prepare_envelopes<P: Drop, C: Callbacks>(
    state: &State<P, C>,
    key: ClientKey,
    label: Label,
    envelopes: Items<Envelope>,
) -> Result<PreparedEnvelopes, AllocError>
    ensures sent { (world : World P C) → Stands state.now world → IfOk result (λ prepared. (others : List Envelope) →
        prepared.sent.items ++ for_client prepared.key prepared.report others
        ≡ for_client key (pending_report world label) (envelopes ++ others)) }
    ensures room { IfOk result (λ prepared. vec_len prepared.sent + 2 ≤ vec_capacity prepared.sent) }
    ensures logs { IfOk result (λ prepared. (prepared.logs.items ≡ []) × (vec_len prepared.logs + 2 ≤ vec_capacity prepared.logs)) }
    ensures metrics { IfOk result (λ prepared.
        (prepared.metrics.items ≡ []) × (vec_len prepared.metrics + 2 ≤ vec_capacity prepared.metrics)) }
{
    let sent = envelopes_from(state, true, key, label, envelopes)?;
    let report = report_left(state, label, &sent)?;
    let mut sent = sent.into_vec();
    sent.reserve(2)?;
    let logs = Vec::with_capacity(state.alloc, 2)?;
    let metrics = Vec::with_capacity(state.alloc, 2)?;
    Ok(PreparedEnvelopes {
        key,
        report,
        sent,
        logs,
        metrics,
    })
}
