//! The hubs of a thread, and what its calls are handed anew.
ghost use Rattle.std.specs.Prelude.{◌≡◌, ⊤, IfOk};
ghost use Rattle.rand_core.specs.Stream.{fill_bytes};
ghost use Rattle.uuid.specs.Parts.{v4_of_fill};
ghost use Rattle.sentry_thread_hub.specs.Draws.{draw_fresh, draw_sample, draw_span};
ghost use Rattle.sentry_thread_hub.specs.Refusals.{after_outcome, and_refused, nothing_refused};

use rand::RngExt;
use rand_core::{Rng, SeedableRng};
use sentry_base::clock::Clock;
use sentry_base::protocol::{Draw, Fresh, Refusal, Request, SampleRate, SpanId, TraceId, Uuid};
use std::alloc::AllocError;
use std::mem;

/// A hub from which another one can be made.
pub trait MakeFromTop: Sized + Drop {
    // Holds of a hub and each hub that may be made from its top layer.
    ghost is_from_top: { Self → Self → Type 0 } = { λ _ _. ⊤ };

    /// A hub with the client and a copy of the scope of the other one's top layer.
    ///
    /// What the engine refuses; `OutOfMemory`.
    fn make_from_top(other: &Self) -> Result<Self, Refusal>
        ensures { IfOk result (is_from_top other.now) };
}

/// What a thread was refused where no call could answer it: a scope, a hub, a transaction or a span round some work could
/// not be begun or ended. The work ran all the same.
#[derive(Clone, Copy, Debug, PartialEq, Eq)]
pub struct Refused {
    /// How many refusals there were. It stays at the largest number.
    pub count: u64,
    /// The first one.
    pub first: Option<Refusal>,
}

impl Refused {
    /// Nothing was refused.
    pub fn nothing() -> Refused
        ensures { result ≡ nothing_refused }
    {
        Refused {
            count: 0,
            first: None,
        }
    }

    // The same with one more.
    fn and(self, refusal: Refusal) -> Refused
        ensures { result ≡ and_refused refusal self }
    {
        let first = match self.first {
            None => Some(refusal),
            earlier => earlier,
        };
        Refused {
            count: self.count.saturating_add(1),
            first,
        }
    }
}

/// What a thread holds, and hands to each call that the Rust crate makes on the hub of the thread: its main hub, its
/// current hub, a clock, and a generator; and what is told of the thread.
#[derive(Drop)]
pub struct ThreadHub<H, K, G> {
    pub main: H,
    /// The hub on which the free functions act.
    pub current: H,
    pub clock: K,
    /// Draws ids and the draws of samples.
    pub generator: G,
    /// The request that the thread serves, which its events tell.
    pub request: Option<Request>,
    /// What was refused, until `take_refused`.
    pub refused: Refused,
}

impl<H: Clone, K: Drop, G: SeedableRng + Drop> ThreadHub<H, K, G> {
    /// The hubs of a thread whose current hub is the main one. The generator is the one of the seed `start`.
    ///
    /// An allocation may fail.
    pub fn new(main: H, clock: K, start: G::Seed) -> Result<ThreadHub<H, K, G>, AllocError>
        ensures main { IfOk result (λ thread. thread.main ≡ main) }
        ensures current { IfOk result (λ thread. H.is_clone main thread.current) }
        ensures clock { IfOk result (λ thread. thread.clock ≡ clock) }
        ensures generator { IfOk result (λ thread. thread.generator ≡ G.of_seed (G.Seed.bytes start)) }
    {
        let current = main.clone()?;
        Ok(ThreadHub {
            main,
            current,
            clock,
            generator: G::from_seed(start),
            request: None,
            refused: Refused::nothing(),
        })
    }
}

impl<H: MakeFromTop, K: Drop, G: SeedableRng + Drop> ThreadHub<H, K, G> {
    /// The hubs of a thread whose current hub is made from the top layer of the main one, which is the hub of another
    /// thread. The generator is the one of the seed `start`.
    ///
    /// What `make_from_top` refuses; `OutOfMemory`.
    pub fn from_main(main: H, clock: K, start: G::Seed) -> Result<ThreadHub<H, K, G>, Refusal>
        ensures main { IfOk result (λ thread. thread.main ≡ main) }
        ensures current { IfOk result (λ thread. H.is_from_top main thread.current) }
        ensures clock { IfOk result (λ thread. thread.clock ≡ clock) }
        ensures generator { IfOk result (λ thread. thread.generator ≡ G.of_seed (G.Seed.bytes start)) }
    {
        let current = H::make_from_top(&main)?;
        Ok(ThreadHub {
            main,
            current,
            clock,
            generator: G::from_seed(start),
            request: None,
            refused: Refused::nothing(),
        })
    }
}

// A number below a million.
fn draw_below_million<G: Rng>(generator: &mut G) -> Draw
    ensures { (result, G.stream generator.new) ≡ draw_sample (G.stream generator.old) }
{
    let millionths = generator.random_range(0..SampleRate::ALL);
    Draw::new(millionths).unwrap()
}

// The id of a span, big end first.
fn draw_span<G: Rng>(generator: &mut G) -> SpanId
    ensures { (result, G.stream generator.new) ≡ draw_span (G.stream generator.old) }
{
    let span_id: u64 = generator.random();
    SpanId(span_id.to_be_bytes())
}

/// What `ThreadHub::fresh` answers, of the clock and the generator alone: for a call that is made while a hub of the
/// thread is lent.
pub fn fresh_of<K: Clock, G: Rng>(clock: &mut K, generator: &mut G) -> Fresh
    ensures { (result, G.stream generator.new) ≡ draw_fresh result.now (G.stream generator.old) }
{
    let now = clock.now();
    let uuid = Uuid::new_v4(generator);
    let trace_id: u128 = generator.random();
    let span_id = draw_span(generator);
    let draw = draw_below_million(generator);
    Fresh {
        now,
        uuid,
        trace_id: TraceId(trace_id.to_be_bytes()),
        span_id,
        draw,
    }
}

impl<H, K, G> ThreadHub<H, K, G> {
    /// Keeps what was refused, until `take_refused`.
    pub fn note(&mut self, outcome: Result<(), Refusal>)
        ensures { self.new ≡ record self.old { refused = after_outcome outcome self.old.refused } }
    {
        if let Err(refusal) = outcome {
            self.refused = self.refused.and(refusal);
        }
    }

    /// What was refused since the last time, where no call could answer it.
    pub fn take_refused(&mut self) -> Refused
        ensures taken { result ≡ self.old.refused }
        ensures left { self.new ≡ record self.old { refused = nothing_refused } }
    {
        mem::replace(&mut self.refused, Refused::nothing())
    }
}

impl<H, K: Clock, G> ThreadHub<H, K, G> {
    /// The moment of the clock, in nanoseconds since the epoch.
    pub fn now(&mut self) -> u64
        ensures main { self.new.main ≡ self.old.main }
        ensures current { self.new.current ≡ self.old.current }
    {
        self.clock.now()
    }
}

impl<H, K: Clock, G: Rng> ThreadHub<H, K, G> {
    /// The moment, and then what the generator draws: a version 4 UUID, the id of a trace, the id of a span, each big
    /// end first, and a draw below a million.
    pub fn fresh(&mut self) -> Fresh
        ensures drawn { (result, G.stream self.new.generator) ≡ draw_fresh result.now (G.stream self.old.generator) }
        ensures main { self.new.main ≡ self.old.main }
        ensures current { self.new.current ≡ self.old.current }
    {
        fresh_of(&mut self.clock, &mut self.generator)
    }

    /// The moment and the id of a span, for a call that needs no other value: the generator draws the id alone. The
    /// UUID and the id of a trace are zeros, and so is the draw.
    pub fn fresh_span(&mut self) -> Fresh
        ensures drawn { (result.span_id, G.stream self.new.generator) ≡ draw_span (G.stream self.old.generator) }
        ensures main { self.new.main ≡ self.old.main }
        ensures current { self.new.current ≡ self.old.current }
    {
        let now = self.clock.now();
        let span_id = draw_span(&mut self.generator);
        Fresh {
            now,
            uuid: Uuid::nil(),
            trace_id: TraceId([0; 16]),
            span_id,
            draw: Draw::new(0).unwrap(),
        }
    }

    /// The moment and a version 4 UUID, for a call that needs no other value: the generator draws the UUID alone. The
    /// ids of a trace and of a span are zeros, and so is the draw.
    pub fn fresh_uuid(&mut self) -> Fresh
        ensures drawn { (result.uuid, G.stream self.new.generator) ≡ v4_of_fill (fill_bytes 16 (G.stream self.old.generator)) }
        ensures main { self.new.main ≡ self.old.main }
        ensures current { self.new.current ≡ self.old.current }
    {
        let now = self.clock.now();
        let uuid = Uuid::new_v4(&mut self.generator);
        Fresh {
            now,
            uuid,
            trace_id: TraceId([0; 16]),
            span_id: SpanId([0; 8]),
            draw: Draw::new(0).unwrap(),
        }
    }
}
