//! The guards of the layers that were pushed.
use sentry_base::protocol::HubKey;
use sentry_engine::ScopeGuard;
use sentry_plain::Table;
use std::alloc::{AllocError, Global};

// A guard that is taken apart where it is dropped.
struct Kept {
    guard: ScopeGuard,
}

impl Drop for Kept {
    fn drop(self) {
        let Kept { guard } = self;
        let (_hub, _depth) = guard.into_parts();
    }
}

impl Kept {
    fn into_guard(self) -> ScopeGuard {
        let Kept { guard } = self;
        guard
    }
}

/// The guards of each hub, by its number, the youngest last. A hub has one layer to begin with, so the number of its
/// guards is the depth of its top layer.
#[derive(Drop)]
pub struct Guards {
    alloc: Global,
    by_hub: Table<Vec<Kept>>,
}

impl Guards {
    /// No guards. It takes no memory.
    pub fn new(alloc: Global) -> Guards {
        Guards {
            alloc,
            by_hub: Table::new(alloc),
        }
    }

    /// Makes room for one more guard of a hub, which then takes no memory.
    pub fn reserve(&mut self, hub: HubKey) -> Result<(), AllocError> {
        if self.by_hub.get(hub.number).is_none() {
            self.by_hub.insert(hub.number, Vec::new(self.alloc))?;
        }
        match self.by_hub.get_mut(hub.number) {
            Some(guards) => guards.reserve(1),
            None => Ok(()),
        }
    }

    /// Keeps the guard of a hub's top layer, for which there is room, and answers its depth.
    pub fn keep(&mut self, hub: HubKey, guard: ScopeGuard) -> usize {
        let kept = Kept { guard };
        match self.by_hub.get_mut(hub.number) {
            Some(guards) => {
                drop(guards.push(kept));
                guards.len()
            }
            None => 0,
        }
    }

    /// Gives back the guard of a hub's top layer, if that has this depth.
    pub fn take(&mut self, hub: HubKey, depth: usize) -> Option<ScopeGuard> {
        match self.by_hub.get_mut(hub.number) {
            Some(guards) if guards.len() == depth => match guards.pop() {
                Some(kept) => Some(kept.into_guard()),
                None => None,
            },
            _other => None,
        }
    }
}
