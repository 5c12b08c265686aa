//! Losses of one client: what is drained, what a report tells, and how the words end.
use crate::workshop::{Held, Notebook, capture_event, network_errors, options};
use sentry_base::protocol::{ClientKey, Envelope, Refusal};
use sentry_lock::CoreLock;
use sentry_options::ClientOptions;
use std::alloc::Global;
use std::sync::Arc;
use std::test::Fail;

/// What comes of a loss while the recorder is held: whether the words are closed, how many errors are pending, how many
/// are drained then, and how many are pending after that.
fn lose_while_held<L: CoreLock>(held: &mut Held<L>) -> Result<(bool, [u64; 3]), Refusal> {
    let is_closed = held.close_losses()?;
    held.lose_error();
    let before = held.pending()?;
    let errors = match held.drain()? {
        Some(losses) => losses.quantities[6],
        None => 0,
    };
    Ok((is_closed, [before, errors, held.pending()?]))
}

/// What comes of one more when the recorder is let go: whether the words are closed then, and how many errors are
/// pending; and both once more.
fn lose_and_let_go<L: CoreLock>(held: &mut Held<L>) -> Result<[(bool, u64); 2], Refusal> {
    held.lose_error();
    held.recorder = None;
    let first = (held.close_losses()?, held.pending()?);
    Ok([first, (held.close_losses()?, held.pending()?)])
}

/// Splits a part off the recorder, which alone is held then.
fn hold_part<L: CoreLock>(held: &mut Held<L>) -> Result<(), Refusal> {
    let Some(recorder) = held.recorder.take() else {
        return Ok(());
    };
    match recorder.split() {
        Ok((_, part)) => {
            held.recorder = Some(part);
            Ok(())
        }
        Err((refusal, _)) => Err(refusal),
    }
}

#[test]
fn words_stay_open_while_a_part_of_a_recorder_is_held(rt: HostRuntime) -> Result<(), Fail> {
    let alloc: Global = rt.alloc();
    let transport: Option<Arc<Notebook<HostRuntime>>> = None;
    let mut held = Held::new(rt, alloc, options(alloc, false)?, transport)?;
    hold_part(&mut held)?;
    let before = lose_while_held(&mut held)?;
    let after = lose_and_let_go(&mut held)?;
    assert!(rt; before == (false, [0, 1, 1]));
    // a second time nothing is left to end
    assert!(rt; after == [(true, 1), (true, 0)]);
    Ok(())
}

/// Why a capture is refused after a loss, and a flush of a client that isn't there after another one; and how many
/// errors are pending before them, after the first and after the second.
fn lose_before_refused_calls<L: CoreLock>(
    held: &mut Held<L>,
) -> Result<([Option<Refusal>; 2], [u64; 3]), Refusal> {
    held.lose_error();
    let before = held.pending()?;
    let starved = capture_event(&held.client, 1).err();
    let first = held.pending()?;
    held.lose_error();
    let gone = held.client.core().client(ClientKey { tag: 1, number: 9 })?;
    let stale = gone.flush(None).err();
    Ok(([starved, stale], [before, first, held.pending()?]))
}

#[test]
fn what_was_drained_stays_absorbed_if_the_call_is_refused(rt: HostRuntime) -> Result<(), Fail> {
    let alloc: Global = rt.alloc();
    let (mut held, notebook) = Held::noted(rt, alloc, options(alloc, true)?, true)?;
    let (refusals, errors) = lose_before_refused_calls(&mut held)?;
    assert!(rt; refusals == [Some(Refusal::OutOfMemory), Some(Refusal::Stale)]);
    assert!(rt; errors == [0, 1, 1]);
    assert!(rt; notebook.take(alloc).asked.is_empty());
    Ok(())
}

/// Drops a client, whose transport then loses an error. Answers what a flush of another client of the core does, after
/// an envelope of that one.
fn drop_and_lose<L: CoreLock>(
    held: &mut Held<L>,
    options: ClientOptions<L::Callbacks>,
    transport: L::Transport,
) -> Result<bool, Refusal> {
    let core = held.client.core();
    let empty = Envelope::new(core.allocator());
    let other = Held::on(core, options, Some(transport))?;
    held.client.drop_client()?;
    held.lose_error();
    other.client.send_envelope(empty)?;
    other.client.flush(None)
}

/// Why the calls on the losses of a client are refused.
fn refusals<L: CoreLock>(held: &Held<L>) -> [Option<Refusal>; 3] {
    let core = held.client.core();
    [
        core.drain_and_absorb(held.label).err(),
        core.take_report(held.label).err(),
        core.close_losses(held.label).err(),
    ]
}

#[test]
fn the_losses_of_a_dropped_client_reach_no_report(rt: HostRuntime) -> Result<(), Fail> {
    let alloc: Global = rt.alloc();
    let (mut held, notebook) = Held::noted(rt, alloc, options(alloc, false)?, true)?;
    let is_flushed = drop_and_lose(&mut held, options(alloc, false)?, notebook.clone()?)?;
    let told = notebook.take(alloc).told;
    assert!(rt; is_flushed && network_errors(&told) == 0);
    assert!(rt; refusals(&held) == [Some(Refusal::ForeignLosses); 3]);
    Ok(())
}
