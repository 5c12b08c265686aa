//! The ended sessions of a client that wait to be sent.
ghost use Rattle.std.specs.Prelude.{◌≡◌, ◌<◌, ◌≤◌, ◌+◌, ◌∷◌, ◌++◌, ◌&&◌, not, ℕ, [], true, false, List, IfOk, OnOk, OnErr, length, map, option_map, Option, vec_len, vec_capacity};
ghost use Rattle.sentry_base.specs.declared.protocol.envelope.EnvelopeItem.{EnvelopeItem};
ghost use Rattle.sentry_base.specs.declared.protocol.envelope.EnvelopeItem.TheVariants as item;
ghost use Rattle.sentry_options.specs.declared.clientoptions.choices.SessionMode.{SessionMode};
ghost use Rattle.sentry_sessions.specs.SessionQueues.{Waiting, QueueEntry, enqueued, flushed, queue_of, is_aggregated};
ghost use Rattle.sentry_sessions.specs.SessionQueues.{aggregates_of, aggregates_items, envelope_if_any};
ghost use Rattle.sentry_sessions.specs.SessionQueues.{envelopes_of, envelopes_on};
ghost use Rattle.sentry_sessions.specs.QueueSteps as steps;
ghost use Rattle.sentry_sessions.specs.Sessions.{update_of};
ghost use Rattle.sentry_sessions.specs.SessionSteps.{close};
ghost use Rattle.sentry_sessions.specs.TakenSessions.{taken_envelopes, HasRoom};

use crate::session::aggregates::{AggregateCounts, AggregateKey, MAX_INDIVIDUAL};
use crate::session::counting::{aggregate_items, count};
use crate::session::record::Session;
use crate::session::taken::TakenSessions;
use sentry_base::protocol::{
    Envelope, EnvelopeItem, SessionAggregates, SessionAttributes, SessionStatus, SessionUpdate,
};
use sentry_options::SessionMode;
use sentry_plain::{Items, Shared};
use std::alloc::{AllocError, Global};
use std::collections::BTreeMap;
use std::marker::Model;
use std::mem;

/// The ended sessions of a client that wait to be sent. In the mode `Request` a session of which nothing was sent is
/// counted, and all counts are sent together; any other update is sent as it is. The hundredth of these sends all that
/// waits. Each contract holds for every history of ended sessions and flushes that the queue may stand for.
pub struct SessionQueue {
    mode: SessionMode,
    counts: BTreeMap<AggregateKey, AggregateCounts>,
    // Those of the first session that is counted.
    attributes: Option<Shared<SessionAttributes>>,
    individual: Vec<SessionUpdate>,
}

impl Drop for SessionQueue {
    fn drop(self) {
        let SessionQueue {
            mode: _,
            counts: _,
            attributes: _,
            individual: _,
        } = self;
    }
}

impl Model for SessionQueue {
    ghost use Rattle.std.specs.Coded.{codes};
    ghost use Rattle.std.specs.Prelude.{map};
    ghost use Rattle.sentry_base.specs.declared.protocol.envelope.EnvelopeItem.TheVariants as item;
    ghost use Rattle.sentry_plain.specs.Values.{data_code};
    ghost use Rattle.sentry_sessions.specs.SessionQueues.{Waiting};

    ghost Value = { Waiting };

    ghost coded = { Prim.hlevel (codes, data_code) };

    ghost view = { λ a. record {
      mode = a.mode;
      counts = a.counts.entries;
      attributes = a.attributes;
      individual = map item.SessionUpdate a.individual.items;
    } };
}

// Puts updates into items, for which there is room.
fn fill_items(updates: Vec<SessionUpdate>, items: &mut Vec<EnvelopeItem>)
    requires { vec_len items.old + length updates.items ≤ vec_capacity items.old }
    ensures items { items.new.items ≡ items.old.items ++ map item.SessionUpdate updates.items }
    ensures len { vec_len items.new ≡ vec_len items.old + length updates.items }
    ensures capacity { vec_capacity items.new ≡ vec_capacity items.old }
{
    for update in updates {
        items.push_reserved(EnvelopeItem::SessionUpdate(update));
    }
}

// Copies of updates as items, with room for one more.
fn copied_items(alloc: Global, updates: &[SessionUpdate]) -> Result<Vec<EnvelopeItem>, AllocError>
    ensures items { IfOk result (λ items. items.items ≡ map item.SessionUpdate updates.now) }
{
    let mut items = Vec::with_capacity(alloc, updates.len() + 1)?;
    for update in updates {
        items.push(EnvelopeItem::SessionUpdate(update.clone()?))?;
    }
    Ok(items)
}

// An envelope of the items, or no envelope without any.
fn push_envelope_if_any(
    envelopes: &mut Items<Envelope>,
    alloc: Global,
    items: Items<EnvelopeItem>,
) -> Result<(), AllocError>
    ensures { OnOk result (envelopes.new ≡ envelopes.old ++ envelope_if_any items) }
{
    if items.is_empty() {
        return Ok(());
    }
    let mut envelope = Envelope::new(alloc);
    envelope.items = items;
    envelopes.push(envelope)
}

// The item that sends counts, if there are any.
fn aggregates_items(
    alloc: Global,
    aggregates: Option<SessionAggregates>,
) -> Result<Items<EnvelopeItem>, AllocError>
    ensures { IfOk result (λ items. items ≡ aggregates_items aggregates) }
{
    let Some(aggregates) = aggregates else {
        return Ok(Items::new(alloc));
    };
    let mut items = Items::new(alloc);
    items.push(EnvelopeItem::SessionAggregates(aggregates))?;
    Ok(items)
}

impl SessionQueue {
    /// Makes an empty queue for sessions of this mode. Allocates nothing.
    pub fn new(alloc: Global, mode: SessionMode) -> SessionQueue
        ensures { result ≡ queue_of mode [] }
    {
        SessionQueue::nothing(alloc, mode)
    }

    // A queue in which nothing waits.
    fn nothing(alloc: Global, mode: SessionMode) -> SessionQueue
        ensures { result ≡ steps.nothing mode }
    {
        SessionQueue {
            mode,
            counts: BTreeMap::new(alloc),
            attributes: None,
            individual: Vec::new(alloc),
        }
    }

    // Whether a session of which nothing was sent, or something, is counted.
    fn counts_session(&self, init: bool) -> bool
        ensures { (update : SessionUpdate) → update.init ≡ init → result ≡ is_aggregated self.now.mode update }
    {
        match self.mode {
            SessionMode::Application => false,
            SessionMode::Request => init,
        }
    }

    fn is_aggregated(&self, update: &SessionUpdate) -> bool
        ensures { result ≡ is_aggregated self.now.mode update.now }
    {
        self.counts_session(update.init)
    }

    // Whether the next individual update is the one that sends all.
    fn lacks_one(&self) -> bool
        ensures { result ≡ steps.lacks_one self.now }
    {
        self.individual.len() >= MAX_INDIVIDUAL - 1
    }

    // Counts an update.
    #[inline(never)]
    fn aggregate(&mut self, update: &SessionUpdate) -> Result<(), AllocError>
        ensures ok { OnOk result (self.new ≡ steps.aggregate update.now self.old) }
        ensures err { OnErr result (self.new ≡ self.old) }
    {
        if self.attributes.is_some() {
            count(update, &mut self.counts)?;
            return Ok(());
        }
        let attributes = update.attributes.clone()?;
        count(update, &mut self.counts)?;
        self.attributes = Some(attributes);
        Ok(())
    }

    // What is counted, if anything is.
    fn aggregates(&self) -> Result<Option<SessionAggregates>, AllocError>
        ensures { IfOk result (λ aggregates. aggregates ≡ aggregates_of self.now) }
    {
        let Some(attributes) = &self.attributes else {
            return Ok(None);
        };
        Ok(Some(SessionAggregates {
            aggregates: aggregate_items(*self.individual.allocator(), &self.counts)?,
            attributes: attributes.clone()?,
        }))
    }

    // Copies of the individual updates, as items.
    fn individual_items(&self) -> Result<Items<EnvelopeItem>, AllocError>
        ensures { IfOk result (λ items. items ≡ self.now.individual) }
    {
        let items = copied_items(*self.individual.allocator(), self.individual.as_slice())?;
        Ok(Items::from_vec(items))
    }

    // The envelopes of what is counted and of these individual updates.
    fn envelopes_with(&self, individual: Items<EnvelopeItem>) -> Result<Items<Envelope>, AllocError>
        ensures { IfOk result (λ envelopes. envelopes
            ≡ envelope_if_any (aggregates_items (aggregates_of self.now)) ++ envelope_if_any individual) }
    {
        let alloc = *self.individual.allocator();
        let counted = aggregates_items(alloc, self.aggregates()?)?;
        let mut envelopes = Items::new(alloc);
        push_envelope_if_any(&mut envelopes, alloc, counted)?;
        push_envelope_if_any(&mut envelopes, alloc, individual)?;
        Ok(envelopes)
    }
}

impl SessionQueue {
    // The envelopes of all that waits and of one more individual update.
    fn envelopes_with_last(&self, update: &SessionUpdate) -> Result<Items<Envelope>, AllocError>
        ensures { IfOk result (λ envelopes. envelopes ≡ envelopes_of (steps.append update.now self.now)) }
    {
        let mut individual = self.individual_items()?;
        individual.push(EnvelopeItem::SessionUpdate(update.clone()?))?;
        let envelopes = self.envelopes_with(individual)?;
        Ok(envelopes)
    }

    // Whether the last update of a session of which nothing was sent, or something, is the hundredth that is sent as it is.
    fn is_hundredth(&self, init: bool) -> bool
        ensures { (update : SessionUpdate) → update.init ≡ init → result ≡ steps.fills_queue update self.now }
    {
        !self.counts_session(init) && self.lacks_one()
    }

    // The item that sends the counts, if there are any, with room for one more.
    fn counted_items(&self) -> Result<Vec<EnvelopeItem>, AllocError>
        ensures items { IfOk result (λ items. items.items ≡ aggregates_items (aggregates_of self.now)) }
        ensures room { IfOk result (λ items. vec_len items < vec_capacity items) }
    {
        let aggregates = self.aggregates()?;
        let mut items = aggregates_items(*self.individual.allocator(), aggregates)?.into_vec();
        items.reserve(1)?;
        Ok(items)
    }

    // Takes out the individual updates, with room for two more items. If out of memory, nothing has changed.
    fn take_individual(&mut self) -> Result<Vec<EnvelopeItem>, AllocError>
        ensures items { IfOk result (λ items. items.items ≡ self.old.individual) }
        ensures room { IfOk result (λ items. vec_len items + 2 ≤ vec_capacity items) }
        ensures after { OnOk result (self.new ≡ record self.old { individual = [] }) }
        ensures err { OnErr result (self.new ≡ self.old) }
    {
        let alloc = *self.individual.allocator();
        let mut items = Vec::with_capacity(alloc, self.individual.as_slice().len() + 2)?;
        let updates = mem::replace(&mut self.individual, Vec::new(alloc));
        fill_items(updates, &mut items);
        Ok(items)
    }

    // Takes out all that waits and one more individual update.
    fn take_with(&mut self, update: SessionUpdate) -> Result<TakenSessions, AllocError>
        ensures sent { IfOk result (λ taken. taken_envelopes taken ≡ envelopes_of (steps.append update self.old)) }
        ensures room { IfOk result HasRoom }
        ensures after { OnOk result (self.new ≡ steps.clear self.old) }
        ensures unchanged { OnErr result (self.new ≡ self.old) }
    {
        let counted = self.counted_items()?;
        let mut individual = self.take_individual()?;
        individual.push_reserved(EnvelopeItem::SessionUpdate(update));
        self.clear();
        Ok(TakenSessions {
            counted,
            individual,
        })
    }

    // The envelopes that this update sends.
    fn envelopes_for(&self, update: &SessionUpdate) -> Result<Items<Envelope>, AllocError>
        ensures { IfOk result (λ envelopes. envelopes ≡ steps.envelopes_on_enqueue update.now self.now) }
    {
        if self.is_aggregated(update) {
            return Ok(Items::new(*self.individual.allocator()));
        }
        if !self.lacks_one() {
            return Ok(Items::new(*self.individual.allocator()));
        }
        let envelopes = self.envelopes_with_last(update)?;
        Ok(envelopes)
    }

    // Counts an update, or keeps it, or forgets all that waits where this one sends it.
    fn keep(&mut self, update: SessionUpdate) -> Result<(), AllocError>
        ensures after { OnOk result (self.new ≡ steps.enqueue update self.old) }
        ensures unchanged { OnErr result (self.new ≡ self.old) }
    {
        if self.is_aggregated(&update) {
            return self.aggregate(&update);
        }
        if self.lacks_one() {
            self.clear();
            return Ok(());
        }
        self.individual.reserve(1)?;
        self.individual.push_reserved(update);
        Ok(())
    }

    // Counts the last update of a session, or forgets all that waits where it sends it.
    #[inline(never)]
    fn keep_other(
        &mut self,
        session: &Session,
        status: Option<SessionStatus>,
        now: u64,
    ) -> Result<(), AllocError>
        ensures after { OnOk result (self.new ≡ steps.enqueue (update_of (close status now session.now)) self.old) }
        ensures unchanged { OnErr result (self.new ≡ self.old) }
    {
        let update = session.update_at_end(status, now)?;
        self.keep(update)?;
        Ok(())
    }

    // Keeps the last update of a session.
    fn append(
        &mut self,
        session: &Session,
        status: Option<SessionStatus>,
        now: u64,
    ) -> Result<(), AllocError>
        ensures after { OnOk result (self.new ≡ steps.append (update_of (close status now session.now)) self.old) }
        ensures unchanged { OnErr result (self.new ≡ self.old) }
    {
        self.individual.reserve(1)?;
        let update = session.update_at_end(status, now)?;
        self.individual.push_reserved(update);
        Ok(())
    }

    // The same as `keep` of the last update of a session, which is written where it waits.
    fn keep_closed(
        &mut self,
        session: &Session,
        status: Option<SessionStatus>,
        now: u64,
    ) -> Result<(), AllocError>
        ensures after { OnOk result (self.new ≡ steps.enqueue (update_of (close status now session.now)) self.old) }
        ensures unchanged { OnErr result (self.new ≡ self.old) }
    {
        if self.counts_session(session.init) {
            self.keep_other(session, status, now)?;
            return Ok(());
        }
        if self.lacks_one() {
            self.keep_other(session, status, now)?;
            return Ok(());
        }
        self.append(session, status, now)?;
        Ok(())
    }

    /// Returns the envelopes that are to be sent when a session ends with this update, at most two: none, unless it is
    /// the hundredth individual update since the last flush. The queue stays as it is.
    pub fn envelopes_on(&self, update: &SessionUpdate) -> Result<Items<Envelope>, AllocError>
        ensures { IfOk result (λ envelopes. (mode : SessionMode) (history : List QueueEntry)
            → self.now ≡ queue_of mode history → envelopes ≡ envelopes_on mode update.now history) }
    {
        let envelopes = self.envelopes_for(update)?;
        Ok(envelopes)
    }

    /// Adds the last update of a session that ended, whose envelopes, by `envelopes_on`, are handed out. If out of
    /// memory, the queue stays as it was.
    pub fn mark_enqueued(&mut self, update: SessionUpdate) -> Result<(), AllocError>
        ensures after { OnOk result ((mode : SessionMode) (history : List QueueEntry)
            → self.old ≡ queue_of mode history → self.new ≡ queue_of mode (enqueued update ∷ history)) }
        ensures unchanged { OnErr result (self.new ≡ self.old) }
    {
        self.keep(update)?;
        Ok(())
    }

    /// Adds the last update of a session that is closed now, whose envelopes are handed out. If out of memory, the queue
    /// stays as it was.
    pub fn mark_closed(
        &mut self,
        session: &Session,
        status: Option<SessionStatus>,
        now: u64,
    ) -> Result<(), AllocError>
        ensures after { OnOk result ((mode : SessionMode) (history : List QueueEntry) → self.old ≡ queue_of mode history
            → self.new ≡ queue_of mode (enqueued (update_of (close status now session.now)) ∷ history)) }
        ensures unchanged { OnErr result (self.new ≡ self.old) }
    {
        self.keep_closed(session, status, now)?;
        Ok(())
    }

    /// Whether the last update of a session that is closed now sends all that waits: it is the hundredth individual update
    /// since the last flush.
    pub fn fills_queue_at_end(&self, session: &Session) -> bool
        ensures test { (status : Option SessionStatus) (now : ℕ)
            → result ≡ steps.fills_queue (update_of (close status now session.now)) self.now }
        ensures none { (mode : SessionMode) (history : List QueueEntry) (status : Option SessionStatus) (now : ℕ)
            → self.now ≡ queue_of mode history → result ≡ false
            → envelopes_on mode (update_of (close status now session.now)) history ≡ [] }
    {
        let sends = self.is_hundredth(session.init);
        sends
    }

    /// Takes out all that waits and this update, which sends it. If out of memory, the queue stays as it was.
    pub fn take_on(&mut self, update: SessionUpdate) -> Result<TakenSessions, AllocError>
        requires { steps.fills_queue update self.old ≡ true }
        ensures sent { IfOk result (λ taken. (mode : SessionMode) (history : List QueueEntry)
            → self.old ≡ queue_of mode history → taken_envelopes taken ≡ envelopes_on mode update history) }
        ensures room { IfOk result HasRoom }
        ensures after { OnOk result ((mode : SessionMode) (history : List QueueEntry)
            → self.old ≡ queue_of mode history → self.new ≡ queue_of mode (enqueued update ∷ history)) }
        ensures unchanged { OnErr result (self.new ≡ self.old) }
    {
        let taken = self.take_with(update)?;
        Ok(taken)
    }

    /// Adds the last update of a session that ended. Returns the envelopes that are to be sent, as `envelopes_on` does.
    /// If out of memory, the queue stays as it was.
    pub fn enqueue(&mut self, update: SessionUpdate) -> Result<Items<Envelope>, AllocError>
        ensures sent { IfOk result (λ envelopes. (mode : SessionMode) (history : List QueueEntry)
            → self.old ≡ queue_of mode history → envelopes ≡ envelopes_on mode update history) }
        ensures after { OnOk result ((mode : SessionMode) (history : List QueueEntry)
            → self.old ≡ queue_of mode history → self.new ≡ queue_of mode (enqueued update ∷ history)) }
        ensures unchanged { OnErr result (self.new ≡ self.old) }
    {
        let envelopes = self.envelopes_on(&update)?;
        self.mark_enqueued(update)?;
        Ok(envelopes)
    }

    /// The envelopes of all that waits: one of the counts, if anything was counted, and then one of the other updates,
    /// if there are any.
    pub fn envelopes(&self) -> Result<Items<Envelope>, AllocError>
        ensures { IfOk result (λ envelopes. envelopes ≡ envelopes_of self.now) }
    {
        self.envelopes_with(self.individual_items()?)
    }

    // Forgets all that waits.
    fn clear(&mut self)
        ensures { self.new ≡ steps.clear self.old }
    {
        *self = SessionQueue::nothing(*self.individual.allocator(), self.mode);
    }

    /// Forgets all that waits, once it was handed out.
    pub fn mark_flushed(&mut self)
        ensures { (mode : SessionMode) (history : List QueueEntry) → self.old ≡ queue_of mode history
            → self.new ≡ queue_of mode (flushed ∷ history) }
    {
        self.clear();
    }

    /// Hands out the envelopes of all that waits, at most two. If out of memory, the queue stays as it was.
    pub fn take(&mut self) -> Result<Items<Envelope>, AllocError>
        ensures sent { IfOk result (λ envelopes. envelopes ≡ envelopes_of self.old) }
        ensures after { OnOk result ((mode : SessionMode) (history : List QueueEntry)
            → self.old ≡ queue_of mode history → self.new ≡ queue_of mode (flushed ∷ history)) }
        ensures unchanged { OnErr result (self.new ≡ self.old) }
    {
        let envelopes = self.envelopes()?;
        self.mark_flushed();
        Ok(envelopes)
    }
}
