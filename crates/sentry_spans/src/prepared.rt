//! What is made of a transaction before it is sent.
ghost use Rattle.std.specs.Prelude.{◌≡◌};
ghost use Rattle.sentry_spans.specs.Prepared.{empty_filling, filled};
ghost use Rattle.std.specs.Option.{option_or};

use sentry_base::protocol::{
    ClientKey, ClientReport, ClientSdkInfo, Context, DynamicSamplingContext, Envelope,
    EnvelopeItem, Transaction, User, ValueMap,
};
use sentry_plain::{Shared, Text, TextMap};
use std::alloc::Global;

/// What a transaction takes on as it is sent.
pub(crate) struct Filling {
    /// The user, if the transaction has none.
    pub(crate) user: Option<User>,
    pub(crate) extra: ValueMap,
    pub(crate) tags: TextMap<Text>,
    pub(crate) contexts: TextMap<Context>,
    pub(crate) release: Option<Text>,
    pub(crate) environment: Option<Text>,
    pub(crate) sdk: Option<Shared<ClientSdkInfo>>,
    pub(crate) server_name: Option<Text>,
}

impl Drop for Filling {
    fn drop(self) {
        let Filling {
            user: _,
            extra: _,
            tags: _,
            contexts: _,
            release: _,
            environment: _,
            sdk: _,
            server_name: _,
        } = self;
    }
}

impl Filling {
    /// One that says nothing. It takes no memory.
    pub(crate) fn new(alloc: Global) -> Filling
        ensures { result ≡ empty_filling }
    {
        Filling {
            user: None,
            extra: ValueMap::new(alloc),
            tags: TextMap::new(alloc),
            contexts: TextMap::new(alloc),
            release: None,
            environment: None,
            sdk: None,
            server_name: None,
        }
    }

    /// Gives it to a transaction that finishes at a moment. It takes no memory.
    pub(crate) fn fill(self, transaction: &mut Transaction, moment: u64)
        ensures { transaction.new ≡ filled self moment transaction.old }
    {
        let Filling {
            user,
            extra,
            tags,
            contexts,
            release,
            environment,
            sdk,
            server_name,
        } = self;
        fill_user(&mut transaction.user, user);
        transaction.extra = extra;
        transaction.tags = tags;
        transaction.contexts = contexts;
        transaction.release = release;
        transaction.environment = environment;
        transaction.sdk = sdk;
        transaction.server_name = server_name;
        transaction.timestamp = Some(moment);
    }
}

// Sets a user that is absent.
fn fill_user(own: &mut Option<User>, user: Option<User>)
    ensures { own.new ≡ option_or own.old user }
{
    if own.is_none() {
        *own = user;
    }
}

/// What a transaction takes on as it is sent, with the room that its envelope takes.
#[derive(Drop)]
pub(crate) struct Prepared {
    pub(crate) filling: Filling,
    pub(crate) trace: DynamicSamplingContext,
    /// What is to go along with it.
    pub(crate) report: Option<ClientReport>,
    /// Room for the transaction and a report.
    pub(crate) items: Vec<EnvelopeItem>,
    /// Room for the envelope.
    pub(crate) sent: Vec<(ClientKey, Envelope)>,
}
