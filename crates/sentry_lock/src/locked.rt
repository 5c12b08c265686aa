//! What lies under the lock: an engine, the drainers of its losses, and the transports of its clients.
ghost use Rattle.std.specs.Prelude.{◌≡◌};
ghost use Rattle.sentry_lock.specs.Locked.{IsCountOf, IsSound};
ghost use Rattle.sentry_lock.specs.Words.{AreLabelled};

mod calls;
mod clients;
mod hubs;
pub(crate) mod let_go;
mod losses;
mod sending;
mod spans;

use crate::handed::Routes;
use crate::words::Drainers;
use sentry_base::callbacks::EventCallback;
use sentry_base::protocol::Losses;
use sentry_engine::{Engine, Held};
use sentry_options::Callbacks;
use sentry_plain::{Shared, Table};
use std::alloc::{AllocError, Global};

/// What lies under the lock: an engine, the drainers of the losses of its labels, and the transports of its clients.
///
/// Whenever the lock is free, the engine stands for a world; fewer logs, metrics and individual sessions wait in each
/// client than are sent at once; each transaction keeps no more spans than its limit; for each label what was recorded
/// and absorbed is what was reported and is pending; and while its words are open, what was absorbed is what its drainer
/// took.
#[derive(Drop)]
pub struct Core<P, C, T> {
    engine: Engine<P, C>,
    // The engine's.
    tag: u64,
    // By the number of their label.
    drainers: Drainers,
    // The transports by the number of their client.
    routes: Routes<T>,
    // What the last drain that found something gave.
    drained: Losses,
    // The number of the next label.
    next_label: u64,
    alloc: Global,
    pub ghost sound: { ∥ IsSound engine drainers ∥₁ },
    pub ghost labelled: { AreLabelled tag drainers },
}

impl<P: EventCallback + Drop, C: Callbacks, T: Drop> Core<P, C, T> {
    /// A core that holds nothing. The keys of its engine carry the tag.
    #[tactic(auto, using(crate::proofs::Sound::first_sound, crate::proofs::Labels::none_labelled))]
    pub(crate) fn new(alloc: Global, tag: u64) -> Result<Core<P, C, T>, AllocError> {
        let transports = Shared::new(alloc, Table::new(alloc))?;
        Ok(Core {
            engine: Engine::new(alloc, tag),
            tag,
            drainers: Table::new(alloc),
            routes: Routes::by(transports),
            drained: Losses::none(),
            next_label: 0,
            alloc,
        })
    }

    /// How many clients, hubs, layers, transactions, spans and sessions it holds.
    pub(crate) fn held(&self) -> Held
        ensures { IsCountOf self.now.engine result }
    {
        self.engine.held()
    }

    /// The engine, to read.
    pub(crate) fn engine(&self) -> &Engine<P, C>
        ensures { result.now ≡ self.now.engine }
    {
        &self.engine
    }
}
