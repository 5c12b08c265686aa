//! The integrations of the client of a hub.
ghost use Rattle.std.specs.Prelude.{◌≡◌, ◌⊎◌, IfOk, IfSome};

use crate::hub::Hub;
use sentry_base::callbacks::{BreadcrumbCallback, EventCallback, LogCallback, MetricCallback};
use sentry_base::protocol::Refusal;
use sentry_lock::CoreLock;
use sentry_options::{ClientCallbacks, Integration, TracesSampler};
use sentry_plain::Shared;

// The first integration of a name.
fn find_integration<'a, I: Integration>(
    integrations: &'a [Shared<I>],
    name: &str,
) -> Option<&'a Shared<I>>
    ensures { IfSome result (λ found. (I.meaning found.now).name ≡ name.now) }
{
    for integration in integrations {
        if integration.get().name() == name {
            return Some(integration);
        }
    }
    None
}

impl<L, E, I, B, W, M, S> Hub<L>
where
    L: CoreLock<Callbacks = ClientCallbacks<E, I, B, W, M, S>>,
    E: EventCallback + Drop,
    I: Integration + Drop,
    B: BreadcrumbCallback + Drop,
    W: LogCallback + Drop,
    M: MetricCallback + Drop,
    S: TracesSampler + Drop,
{
    // A share of the first integration of this name that the client of the top layer has.
    pub(crate) fn integration(&self, name: &str) -> Result<Option<Shared<I>>, Refusal>
        ensures { IfOk result (λ found. IfSome found (λ integration. (I.meaning integration).name ≡ name.now)) }
    {
        let Some(client) = self.client()? else {
            return Ok(None);
        };
        let options = client.options()?;
        match find_integration(options.get().callbacks.integrations.as_slice(), name) {
            None => Ok(None),
            Some(integration) => Ok(Some(integration.clone()?)),
        }
    }

    /// Lends the closure the first integration of this name that the client of the top layer has. Without a client, or
    /// without such an integration, the closure does not run, and the answer is the default of its type. It runs without
    /// the lock.
    ///
    /// `Stale`: the hub isn't held, or its client isn't. `OutOfMemory`.
    pub fn with_integration<A: Default, F: FnOnce(&I) -> A + Drop>(
        &self,
        name: &str,
        callback: F,
    ) -> Result<A, Refusal>
        requires { F.IsAlwaysCallable callback }
        ensures { IfOk result (λ answer. A.is_default answer
            ⊎ ((lent : _) × F.post callback lent answer × ((I.meaning lent.now).name ≡ name.now))) }
    {
        match self.integration(name)? {
            None => Ok(A::default()),
            Some(integration) => {
                let answer = callback(integration.get());
                Ok(answer)
            }
        }
    }
}
