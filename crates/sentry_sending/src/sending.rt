//! How envelopes leave a client.
ghost use Rattle.std.specs.Prelude.{◌≡◌, ◌+◌, ◌<◌, ◌≤◌, ◌++◌, [], List, IfOk, vec_len, vec_capacity};
ghost use Rattle.sentry_base.specs.Envelopes.{with_report};
ghost use Rattle.sentry_base.specs.declared.protocol.envelope.Envelope.{Envelope};
ghost use Rattle.sentry_sessions.specs.SessionQueues.{envelope_if_any, envelope_of};
ghost use Rattle.sentry_sessions.specs.TakenSessions.{taken_envelopes, HasRoom};
ghost use Rattle.sentry_state.specs.Worlds.{World, Stands};
ghost use Rattle.sentry_state.specs.Books.{pending_report};
ghost use Rattle.sentry_sending.specs.Sending.{for_client, envelopes_from, after_sending};

use sentry_base::protocol::{
    ClientKey, ClientReport, Envelope, EnvelopeHeaders, EnvelopeItem, Label,
};
use sentry_options::Callbacks;
use sentry_plain::Items;
use sentry_sessions::TakenSessions;
use sentry_state::{Sent, State};
use std::alloc::{AllocError, Global};

// Gives the envelopes the client that is to send them, and the first of them the report.
fn for_client(
    alloc: Global,
    key: ClientKey,
    mut report: Option<ClientReport>,
    envelopes: Vec<Envelope>,
) -> Result<Sent, AllocError>
    ensures { IfOk result (λ sent. sent ≡ for_client key report envelopes.items) }
{
    let mut sent = Items::new(alloc);
    for mut envelope in envelopes {
        envelope.add_report(report.take())?;
        sent.push((key, envelope))?;
    }
    Ok(sent)
}

/// What leaves a client whose slot is occupied or not: the envelopes, the first with the pending report.
pub fn envelopes_from<P: Drop, C: Callbacks>(
    state: &State<P, C>,
    occupied: bool,
    key: ClientKey,
    label: Label,
    envelopes: Items<Envelope>,
) -> Result<Sent, AllocError>
    ensures { (world : World P C) → Stands state.now world → IfOk result (λ sent.
        sent ≡ envelopes_from occupied key (pending_report world label) envelopes) }
{
    if !occupied {
        return Ok(Items::new(state.alloc));
    }
    if envelopes.is_empty() {
        return Ok(Items::new(state.alloc));
    }
    let report = state.pending_report(label)?;
    let sent = for_client(state.alloc, key, report, envelopes.into_vec())?;
    Ok(sent)
}

// An envelope of these items.
fn envelope_of(items: Vec<EnvelopeItem>) -> Envelope
    ensures { result ≡ envelope_of items.items }
{
    Envelope {
        header: EnvelopeHeaders {
            event_id: None,
            trace: None,
        },
        items: Items::from_vec(items),
    }
}

// An envelope of these items and a report, if there is one, for which there is room.
fn with_report(mut items: Vec<EnvelopeItem>, report: Option<ClientReport>) -> Envelope
    requires { vec_len items < vec_capacity items }
    ensures { result ≡ with_report report (envelope_of items.items) }
{
    match report {
        None => envelope_of(items),
        Some(report) => {
            items.push_reserved(EnvelopeItem::ClientReport(report));
            envelope_of(items)
        }
    }
}

// Adds an envelope of these items, if there are any, with the report, if it is still to go along with one.
#[tactic(auto, using(crate::proofs::TakenLemmas::none_more, crate::proofs::TakenLemmas::one_more))]
fn push_if_any(
    sent: &mut Vec<(ClientKey, Envelope)>,
    key: ClientKey,
    report: &mut Option<ClientReport>,
    items: Vec<EnvelopeItem>,
)
    requires sent { vec_len sent.old < vec_capacity sent.old }
    requires items { vec_len items < vec_capacity items }
    ensures items { (others : List Envelope) → sent.new.items ++ for_client key report.new others
        ≡ sent.old.items ++ for_client key report.old (envelope_if_any items.items ++ others) }
    ensures len { vec_len sent.new ≤ vec_len sent.old + 1 }
    ensures capacity { vec_capacity sent.new ≡ vec_capacity sent.old }
{
    if items.is_empty() {
        return;
    }
    let envelope = with_report(items, report.take());
    sent.push_reserved((key, envelope));
}

/// What leaves an occupied slot when all ended sessions are sent, the first envelope with the report. It takes no memory.
pub(crate) fn send_taken(
    mut sent: Vec<(ClientKey, Envelope)>,
    key: ClientKey,
    mut report: Option<ClientReport>,
    taken: TakenSessions,
) -> Sent
    requires empty { sent.items ≡ [] }
    requires sent { vec_len sent + 2 ≤ vec_capacity sent }
    requires room { HasRoom taken }
    ensures { result ≡ for_client key report (taken_envelopes taken) }
{
    let TakenSessions {
        counted,
        individual,
    } = taken;
    push_if_any(&mut sent, key, &mut report, counted);
    push_if_any(&mut sent, key, &mut report, individual);
    Items::from_vec(sent)
}

/// Marks what is pending under a label as reported, once something was sent.
pub fn mark_sent<P: Drop, C: Callbacks>(state: &mut State<P, C>, label: Label, sent: &Sent)
    ensures in_world { (world : World P C) → Stands state.old world →
        Stands state.new (after_sending label sent.now world) }
    ensures hubs { state.new.hubs ≡ state.old.hubs }
    ensures next { state.new.next ≡ state.old.next }
{
    if sent.is_empty() {
        return;
    }
    state.mark_reported(label);
}
