//! A queue of envelopes.
ghost use Rattle.std.specs.Prelude.{◌≡◌, ◌+◌, ◌<◌, ◌≤◌, ◌++◌, ◌==◌, ◌&&◌, not, ℕ, ltb, Option, List, [], ◌∷◌, max, length, drop, slice_get, option_map, if◌then◌else◌, IfOk, IfErr};
ghost use Rattle.sentry_base.specs.declared.protocol.refusal.Refusal.TheVariants.{OutOfMemory};
ghost use Rattle.sentry_base.specs.declared.protocol.losses.Reason.TheVariants.{QueueOverflow};
ghost use Rattle.sentry_base.specs.RecordLosses.{envelope_losses};
ghost use Rattle.sentry_client_reports.specs.LossWords.{LossPart};
ghost use Rattle.sentry_transport.specs.QueueHistories.{Queue, QueueCall, offer_call, take_call, limit_call, settle_call, StandsFor, queued_envelopes, kept_envelopes, taken_envelopes, first_envelope, waiting_count, is_settled, recorder_after};
ghost use Rattle.sentry_transport.specs.QueueSteps.{after_offer, after_recording_limited, after_enqueue};

use crate::queueing::limits::Limits;
use crate::queueing::recording::{after_limited, after_turned_away};
use crate::queueing::removing::without_limited;
use sentry_base::protocol::{Category, Envelope, Refusal};
use sentry_client_reports::Recorder;
use std::alloc::Global;
use std::collections::VecDeque;
use std::marker::Model;

/// A queue of envelopes that wait to be sent, the first to come first, without the items that are limited when they
/// come. What doesn't get into it is recorded as lost, if the queue has a recorder. Each contract holds for every history
/// of calls that the queue may stand for. All memory is taken by `new`.
pub struct QueueCore {
    envelopes: VecDeque<Envelope>,
    capacity: usize,
    limits: Limits,
    recorder: Option<Recorder>,
    has_lost: bool,
}

impl Drop for QueueCore {
    fn drop(self) {
        let QueueCore {
            envelopes: _,
            capacity: _,
            limits: _,
            recorder: _,
            has_lost: _,
        } = self;
    }
}

impl Model for QueueCore {
    ghost use Rattle.std.specs.Prelude.{◌≤◌, length};
    ghost use Rattle.std.specs.Coded.{codes};
    ghost use Rattle.std.specs.VecDeque.{deque_capacity};
    ghost use Rattle.sentry_plain.specs.Values.{data_code};
    ghost use Rattle.sentry_transport.specs.QueueHistories.{Queue};

    ghost Value = { Queue };

    ghost coded = { Prim.hlevel (codes, data_code) };

    ghost view = { λ q. record {
      envelopes = q.envelopes.items;
      capacity = q.capacity;
      limits = q.limits.until;
      recorder = q.recorder;
      has_lost = q.has_lost;
    } };

    ghost invariant = { λ q. (length q.envelopes.items ≤ q.capacity) × (q.capacity ≤ deque_capacity q.envelopes) };
}

impl QueueCore {
    /// An empty queue with room for this many envelopes, or for one if the capacity is 0. It takes all memory that the
    /// queue ever needs. Without a recorder, losses are not counted.
    pub fn new(
        alloc: Global,
        capacity: usize,
        recorder: Option<Recorder>,
    ) -> Result<QueueCore, Refusal>
        ensures stands { IfOk result (λ queue. StandsFor (max capacity 1) recorder [] queue) }
        ensures refused { IfErr result (λ refusal. refusal ≡ OutOfMemory) }
    {
        let capacity = capacity.max(1);
        let envelopes = VecDeque::with_capacity(alloc, capacity)?;
        Ok(QueueCore {
            envelopes,
            capacity,
            limits: Limits::none(),
            recorder,
            has_lost: false,
        })
    }

    /// Offers an envelope at this moment (nanoseconds since the epoch). Each item whose category is limited is taken out
    /// and recorded as lost. What is left goes to the end of the queue. If the queue is full, it is recorded as lost; if
    /// nothing is left, nothing is queued. An envelope that came empty counts as one of which something is left. It takes
    /// no memory.
    pub fn offer(&mut self, envelope: Envelope, now: u64)
        ensures { (capacity : ℕ) (recorder : Option LossPart) (history : List QueueCall)
            → StandsFor capacity recorder history self.old
            → StandsFor capacity recorder (offer_call envelope now ∷ history) self.new }
    {
        self.enqueue_left(envelope, now);
    }

    // What an offer does to each field.
    fn enqueue_left(&mut self, envelope: Envelope, now: u64)
        ensures { self.new ≡ after_offer self.old envelope now }
    {
        let came_empty = envelope.items.is_empty();
        self.record_limited(&envelope, now);
        let left = without_limited(&self.limits, envelope, now);
        if came_empty || !left.items.is_empty() {
            self.enqueue(left);
        }
    }

    fn record_limited(&mut self, envelope: &Envelope, now: u64)
        ensures { self.new ≡ after_recording_limited self.old envelope.now now }
    {
        let items = envelope.items.as_slice();
        self.has_lost = self.limits.has_limited(items, now) || self.has_lost;
        self.recorder = after_limited(self.recorder.take(), &self.limits, items, now);
    }

    // Puts the envelope at the end, or records it if the queue is full.
    fn enqueue(&mut self, envelope: Envelope)
        ensures { self.new ≡ after_enqueue self.old envelope }
    {
        if self.envelopes.len() < self.capacity {
            self.envelopes.push_back_reserved(envelope);
        } else {
            self.recorder = after_turned_away(self.recorder.take(), &envelope);
            self.has_lost = true;
        }
    }

    /// Takes the first envelope out of the queue, or returns `None` if none waits. It takes no memory.
    pub fn take(&mut self) -> Option<Envelope>
        ensures first { (capacity : ℕ) (recorder : Option LossPart) (history : List QueueCall)
            → StandsFor capacity recorder history self.old → result ≡ first_envelope capacity history }
        ensures stands { (capacity : ℕ) (recorder : Option LossPart) (history : List QueueCall)
            → StandsFor capacity recorder history self.old → StandsFor capacity recorder (take_call ∷ history) self.new }
    {
        self.envelopes.pop_front()
    }

    /// Limits a category, or without one each category, until this moment (nanoseconds since the epoch). A category that
    /// is limited for longer stays so. Envelopes that wait already are not looked at. It takes no memory.
    pub fn limit(&mut self, category: Option<Category>, until: u64)
        ensures { (capacity : ℕ) (recorder : Option LossPart) (history : List QueueCall)
            → StandsFor capacity recorder history self.old
            → StandsFor capacity recorder (limit_call category until ∷ history) self.new }
    {
        self.limits.limit(category, until);
    }

    /// Answers whether all that was offered since the last such question is on its way: nothing was turned away or taken
    /// out as limited since, and nothing waits. It takes no memory.
    pub fn settle(&mut self) -> bool
        ensures answer { (capacity : ℕ) (recorder : Option LossPart) (history : List QueueCall)
            → StandsFor capacity recorder history self.old → result ≡ is_settled capacity history }
        ensures stands { (capacity : ℕ) (recorder : Option LossPart) (history : List QueueCall)
            → StandsFor capacity recorder history self.old → StandsFor capacity recorder (settle_call ∷ history) self.new }
    {
        let answer = self.is_settled();
        self.has_lost = false;
        answer
    }

    fn is_settled(&self) -> bool
        ensures { result ≡ (not self.now.has_lost && length self.now.envelopes == 0) }
    {
        !self.has_lost && self.envelopes.is_empty()
    }

    /// How many envelopes wait.
    pub fn len(&self) -> usize
        ensures { (capacity : ℕ) (recorder : Option LossPart) (history : List QueueCall)
            → StandsFor capacity recorder history self.now → result ≡ waiting_count capacity history }
    {
        self.envelopes.len()
    }

    /// How many envelopes can wait.
    pub fn capacity(&self) -> usize
        ensures { (capacity : ℕ) (recorder : Option LossPart) (history : List QueueCall)
            → StandsFor capacity recorder history self.now → result ≡ capacity }
    {
        self.capacity
    }
}

/// Whatever calls came: what was taken, followed by what waits, is what was kept, in order of offering; and no more
/// envelopes wait than the capacity.
pub fn queue_keeps_order()
    ensures order { (capacity : ℕ) (history : List QueueCall)
        → taken_envelopes capacity history ++ queued_envelopes capacity history ≡ kept_envelopes capacity history }
    ensures bound { (capacity : ℕ) (history : List QueueCall)
        → length (queued_envelopes capacity history) ≤ capacity }
{}
