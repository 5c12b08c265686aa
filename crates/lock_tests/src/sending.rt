//! What reaches a transport, and what it answers.
ghost use Rattle.std.specs.Prelude.{◌≡◌, ◌∷◌, [], IfOk};

use crate::quiet::Quiet;
use crate::workshop::{Held, Lock, Note, Options, event, options};
use sentry_base::protocol::{Envelope, EnvelopeItem, Refusal};
use sentry_engine::call::{Call, ClientCall};
use sentry_lock::{Client, CoreLock, SharedCore, Waiting};
use sentry_options::ClientOptions;
use sentry_plain::Boxed;
use sentry_transport::{
    BoxedTransport, NoOpTransport, Transport, TransportFactory, TransportOptions,
};
use std::alloc::{AllocError, Global};
use std::sync::Arc;
use std::test::Fail;

/// What a client answers to two flushes and a shutdown, and to one more flush and shutdown after that.
fn flush_and_close<L: CoreLock>(client: &Client<L>) -> Result<[bool; 5], Refusal> {
    Ok([
        client.flush(Some(7))?,
        client.flush(None)?,
        client.close(Some(9))?,
        client.flush(Some(1))?,
        client.close(Some(1))?,
    ])
}

#[test]
fn without_a_transport_flush_and_close_are_true(rt: HostRuntime) -> Result<(), Fail> {
    let alloc: Global = rt.alloc();
    let transport: Option<Arc<NoOpTransport>> = None;
    let held = Held::new(rt, alloc, options(alloc, false)?, transport)?;
    let answers = flush_and_close(&held.client)?;
    assert!(rt; answers == [true; 5]);
    assert!(rt; !held.client.is_enabled()?);
    Ok(())
}

#[test]
fn the_answers_of_a_shared_transport_are_handed_on(rt: HostRuntime) -> Result<(), Fail> {
    let alloc: Global = rt.alloc();
    let options = options(alloc, false)?.shutdown_timeout(5);
    let (held, notebook) = Held::noted(rt, alloc, options, false)?;
    let answers = flush_and_close(&held.client)?;
    // the slot of the client is empty once it was closed
    assert!(rt; answers == [false, false, false, true, true]);
    let expected = [Note::Flush(7), Note::Flush(5), Note::Shutdown(9)];
    assert!(rt; notebook.take(alloc).asked.as_slice() == expected.as_slice());
    Ok(())
}

/// An envelope of an event with the id of a number.
fn envelope(alloc: Global, number: u64) -> Result<Envelope, AllocError> {
    let mut envelope = Envelope::new(alloc);
    envelope.add_item(EnvelopeItem::Event(Boxed::new(alloc, event(alloc, number)?)?))?;
    Ok(envelope)
}

fn both<P: Drop, C: Drop>(
    alloc: Global,
    first: Call<P, C>,
    second: Call<P, C>,
) -> Result<Vec<Call<P, C>>, AllocError>
    ensures { IfOk result (λ both. both.items ≡ first ∷ second ∷ []) }
{
    Ok(vec![in alloc; first, second]?)
}

/// Sends an envelope with the number 1 and one with the number 2, by two calls in one hold of the lock.
fn send_both<L: CoreLock>(client: &Client<L>) -> Result<(), Refusal> {
    let alloc = client.core().allocator();
    let (first, second) = (envelope(alloc, 1)?, envelope(alloc, 2)?);
    let client_key = client.key();
    let first = Call::Client(ClientCall::SendEnvelope {
        client: client_key,
        envelope: first,
    });
    let second = Call::Client(ClientCall::SendEnvelope {
        client: client_key,
        envelope: second,
    });
    let calls = both(alloc, first, second)?;
    client.core().call_all(calls)
}

#[test]
fn a_list_of_calls_reaches_the_transport_in_order(rt: HostRuntime) -> Result<(), Fail> {
    let alloc: Global = rt.alloc();
    let (held, notebook) = Held::noted(rt, alloc, options(alloc, false)?, true)?;
    send_both(&held.client)?;
    let expected = [Note::Send(1), Note::Send(2)];
    assert!(rt; notebook.take(alloc).asked.as_slice() == expected.as_slice());
    Ok(())
}

/// Answers false to a flush, and leaves `shutdown` as it is.
#[derive(Drop)]
struct Stuck;

impl Transport for Stuck {
    fn send_envelope(&self, _envelope: Envelope) {}

    fn flush(&self, _timeout: u64) -> bool {
        false
    }
}

/// What a transport in a box answers to a flush and a shutdown.
fn answers(transport: BoxedTransport) -> [bool; 2] {
    [transport.flush(1), transport.shutdown(1)]
}

#[test]
fn a_shutdown_is_a_flush_unless_written(rt: HostRuntime) -> Result<(), Fail> {
    let stuck: BoxedTransport = Box::new(rt.alloc(), Stuck)?;
    assert_eq!(rt; answers(stuck), [false; 2]);
    let silent: BoxedTransport = Box::new(rt.alloc(), NoOpTransport)?;
    assert_eq!(rt; answers(silent), [true; 2]);
    Ok(())
}

/// Whether options have a recorder, and what a share of a transport that is made with them answers to a flush.
fn create(
    factory: &Arc<NoOpTransport>,
    options: TransportOptions,
) -> Result<(bool, bool), Refusal> {
    let has_recorder = options.client_report_recorder.is_some();
    let transport = factory.create_transport_with_options(options)?;
    Ok((has_recorder, transport.flush(1)))
}

/// The same of the options that the setup of a client gives for its transport, and whether it gives any a second time;
/// `None` if it gives none.
fn create_of<L: CoreLock>(
    core: &SharedCore<L>,
    options: ClientOptions<L::Callbacks>,
    factory: &Arc<NoOpTransport>,
) -> Result<Option<((bool, bool), bool)>, Refusal> {
    let mut setup = core.client_setup(options)?;
    let Some(made) = setup.transport_options()? else {
        return Ok(None);
    };
    let created = create(factory, made)?;
    Ok(Some((created, setup.transport_options()?.is_some())))
}

#[test]
fn a_setup_gives_the_options_of_its_transport_once(rt: HostRuntime) -> Result<(), Fail> {
    let alloc: Global = rt.alloc();
    let factory = Arc::new(alloc, NoOpTransport)?;
    let core: SharedCore<Lock<NoOpTransport, HostRuntime>> = SharedCore::new(
        Waiting(rt),
        alloc,
        1,
    )?;
    let created = create_of(&core, options(alloc, false)?, &factory)?;
    assert!(rt; created == Some(((true, true), false)));
    let bare = Options::with_callbacks(alloc, Quiet::new());
    assert!(rt; TransportOptions::try_from_client_options(&bare)?.is_none());
    assert!(rt; create_of(&core, bare, &factory)?.is_none());
    Ok(())
}
