//! The engine: a state, and the calls on it.
ghost use Rattle.std.specs.Prelude.{◌≡◌};
ghost use Rattle.sentry_state.specs.Worlds.{Stands, first_world, starting_world};

mod books;
mod clients;
mod facts;
mod flushing;
mod hubs;
mod layers;
mod names;
mod sessions;
mod spans;
mod telemetry;

pub use facts::{EventProcessors, Held};
pub use hubs::one_clears;
pub use layers::ScopeGuard;
use sentry_options::Callbacks;
use sentry_state::State;
pub use sentry_state::{Out, Sent};
use std::alloc::Global;
use std::marker::Model;

/// Holds clients, hubs and sessions by key, and decides what every call on them replies and hands out. `P` is the type
/// of a scope's processors, `C` that of a client's callbacks. A refused call changes nothing. Contracts see its state.
pub struct Engine<P, C> {
    state: State<P, C>,
}

impl<P: Drop, C: Drop> Drop for Engine<P, C> {
    fn drop(self) {
        let Engine { state: _ } = self;
    }
}

impl<P, C> Model for Engine<P, C> {
    ghost use Rattle.std.specs.Coded.{codes};
    ghost use Rattle.sentry_plain.specs.Values.{data_code};
    ghost use Rattle.sentry_state.specs.declared.state.State.{State};

    ghost Value = { State P C };

    ghost coded = { Prim.hlevel (codes, data_code) };

    ghost view = { λ engine. engine.state };
}

impl<P: Drop, C: Callbacks> Engine<P, C> {
    /// An engine that holds nothing. Its keys carry the tag, by which those of another engine are refused. It takes no
    /// memory.
    pub fn new(alloc: Global, tag: u64) -> Engine<P, C>
        ensures { Stands result (first_world tag) }
    {
        Engine::starting_at(alloc, tag, 0)
    }

    /// The same, with key numbers that count up from `first`. The number 2^64-1 is never given.
    pub fn starting_at(alloc: Global, tag: u64, first: u64) -> Engine<P, C>
        ensures { Stands result (starting_world tag first) }
    {
        Engine {
            state: State::starting_at(alloc, tag, first),
        }
    }
}
