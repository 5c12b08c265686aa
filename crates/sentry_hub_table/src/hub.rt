//! A hub.
ghost use Rattle.std.specs.Prelude.{◌≡◌, ◌==◌, ◌&&◌, nat_lt};
ghost use Rattle.sentry_scope.specs.Stacks.{depth};

use sentry_base::protocol::Uuid;
use sentry_scope::Stack;

/// What an engine keeps of a hub.
pub struct HubState<P> {
    pub stack: Stack<P>,
    pub last_event_id: Option<Uuid>,
}

impl<P: Drop> Drop for HubState<P> {
    fn drop(self) {
        let HubState {
            stack: _,
            last_event_id: _,
        } = self;
    }
}

impl<P> HubState<P> {
    /// Whether the layer that was pushed to this depth is the top one, and not the only one.
    pub fn is_top_layer(&self, pushed: usize) -> bool
        ensures { result ≡ (depth self.now.stack == pushed && nat_lt 0 pushed) }
    {
        self.stack.depth() == pushed && pushed > 0
    }
}
