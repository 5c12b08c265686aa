//! What lies under the lock of a queueing transport: a queue, and the clock that tells the moment of an offer.
ghost use Rattle.std.specs.Prelude.{◌≡◌, ◌≤◌, ℕ, Option, List, [], max, IfOk, IfErr};
ghost use Rattle.sentry_base.specs.declared.protocol.refusal.Refusal.TheVariants.{OutOfMemory};
ghost use Rattle.sentry_client_reports.specs.LossWords.{LossPart};
ghost use Rattle.sentry_transport.specs.QueueHistories.{QueueCall, take_call, limit_call, settle_call, StandsFor, first_envelope, waiting_count, is_settled};
ghost use Rattle.sentry_transport.specs.QueueCalls.{IsMadeByCalls, MakesCall, IsOffered};

use crate::queueing::QueueCore;
use sentry_base::clock::Clock;
use sentry_base::protocol::{Category, Envelope, Refusal};
use sentry_client_reports::Recorder;
use std::alloc::Global;

/// A queue, and the clock that tells the moment of an offer.
///
/// Whenever the lock is free, the queue is what some calls made of a new one: so no more envelopes wait than its
/// capacity, and its recorder has recorded what these calls lost, and nothing else.
#[derive(Drop)]
pub struct TimedQueue<K> {
    queue: QueueCore,
    clock: K,
    pub ghost made: { ∥ IsMadeByCalls queue ∥₁ },
}

impl<K: Drop> TimedQueue<K> {
    /// An empty queue with room for this many envelopes, or for one if the capacity is 0. It takes all memory that the
    /// queue ever needs. Without a recorder, losses are not counted.
    ///
    /// `OutOfMemory`.
    #[tactic(auto, using(crate::proofs::MadeLemmas::made_new))]
    pub fn new(
        alloc: Global,
        capacity: usize,
        recorder: Option<Recorder>,
        clock: K,
    ) -> Result<TimedQueue<K>, Refusal>
        ensures stands { IfOk result (λ timed. StandsFor (max capacity 1) recorder [] timed.queue) }
        ensures clock { IfOk result (λ timed. timed.clock ≡ clock) }
        ensures refused { IfErr result (λ refusal. refusal ≡ OutOfMemory) }
    {
        let queue = QueueCore::new(alloc, capacity, recorder)?;
        Ok(TimedQueue { queue, clock })
    }

    /// Takes the first envelope out of the queue, or returns `None` if none waits. It takes no memory.
    pub fn take(&mut self) -> Option<Envelope>
        ensures first { (capacity : ℕ) (recorder : Option LossPart) (history : List QueueCall)
            → StandsFor capacity recorder history self.old.queue → result ≡ first_envelope capacity history }
        ensures call { MakesCall take_call self.old.queue self.new.queue }
        ensures clock { self.new.clock ≡ self.old.clock }
    {
        self.queue.take()
    }

    /// Limits a category, or without one each category, until this moment (nanoseconds since the epoch). A category
    /// that is limited for longer stays so. Envelopes that wait already are not looked at. It takes no memory.
    pub fn limit(&mut self, category: Option<Category>, until: u64)
        ensures call { MakesCall (limit_call category until) self.old.queue self.new.queue }
        ensures clock { self.new.clock ≡ self.old.clock }
    {
        self.queue.limit(category, until);
    }

    /// Answers whether all that was offered since the last such question is on its way: nothing was turned away or taken
    /// out as limited since, and nothing waits. It takes no memory.
    pub fn settle(&mut self) -> bool
        ensures answer { (capacity : ℕ) (recorder : Option LossPart) (history : List QueueCall)
            → StandsFor capacity recorder history self.old.queue → result ≡ is_settled capacity history }
        ensures call { MakesCall settle_call self.old.queue self.new.queue }
        ensures clock { self.new.clock ≡ self.old.clock }
    {
        self.queue.settle()
    }

    /// How many envelopes wait: at most as many as can.
    pub fn len(&self) -> usize
        ensures count { (capacity : ℕ) (recorder : Option LossPart) (history : List QueueCall)
            → StandsFor capacity recorder history self.now.queue → result ≡ waiting_count capacity history }
        ensures within { result ≤ self.now.queue.capacity }
    {
        self.queue.len()
    }

    /// How many envelopes can wait.
    pub fn capacity(&self) -> usize
        ensures { (capacity : ℕ) (recorder : Option LossPart) (history : List QueueCall)
            → StandsFor capacity recorder history self.now.queue → result ≡ capacity }
    {
        self.queue.capacity()
    }
}

impl<K: Clock + Drop> TimedQueue<K> {
    /// Offers an envelope to the queue, at the clock's moment. Each item whose category is limited then is taken out
    /// and recorded as lost. What is left goes to the end of the queue. If the queue is full, it is recorded as lost; if
    /// nothing is left, nothing is queued. It takes no memory.
    pub fn offer(&mut self, envelope: Envelope)
        ensures { IsOffered envelope self.old.queue self.new.queue }
    {
        let now = self.clock.now();
        self.queue.offer(envelope, now);
    }
}
