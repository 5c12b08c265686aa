//! The words of labels, as the lock keeps them.
ghost use Rattle.std.specs.Prelude.{◌≡◌, MatchOption, IfOk, OnErr};
ghost use Rattle.sentry_client_reports.specs.LossWords.{given_if};
ghost use Rattle.sentry_lock.specs.Words.{HasNoOpenWords, HasOpenWords, DrainsOne, EndsWords};

use sentry_base::protocol::Losses;
use sentry_client_reports::CountedDrainer;
use sentry_plain::Table;

/// By the number of a label, the drainer of its words; `None` once these were ended.
pub(crate) type Drainers = Table<Option<CountedDrainer>>;

/// A recorder of the words is held.
#[derive(Drop)]
pub(crate) struct StillHeld;

/// Drains the words of a number once; `None` if they were ended, or there are none.
#[tactic(auto, using(crate::proofs::WordLemmas::none_there, crate::proofs::WordLemmas::ended_there, crate::proofs::WordLemmas::ended_stays))]
pub(crate) fn drain_words(drainers: &mut Drainers, number: u64) -> Option<Losses>
    ensures { MatchOption result ((drainers.new ≡ drainers.old) × HasNoOpenWords drainers.old number)
        (λ losses. DrainsOne drainers.old drainers.new number losses.quantities) }
{
    let Some(place) = drainers.get_mut(number) else {
        return None;
    };
    let Some(drainer) = place else {
        return None;
    };
    let (_, losses) = drainer.drain().into_parts();
    Some(losses)
}

/// Drains the words of a number once, into losses that are written only if a flag was up, and answers whether one was;
/// `None` if they were ended, or there are none. Their drainer is looked for at a place first.
#[tactic(auto, using(crate::proofs::WordLemmas::none_there, crate::proofs::WordLemmas::ended_there, crate::proofs::WordLemmas::ended_stays))]
#[inline(always)]
pub(crate) fn drain_words_into(
    drainers: &mut Drainers,
    number: u64,
    near: usize,
    losses: &mut Losses,
) -> Option<bool>
    ensures { MatchOption result ((drainers.new ≡ drainers.old) × HasNoOpenWords drainers.old number)
        (λ up. DrainsOne drainers.old drainers.new number (given_if up losses.new.quantities)) }
{
    let Some(place) = drainers.get_mut_near(number, near) else {
        return None;
    };
    let Some(drainer) = place else {
        return None;
    };
    let up = drainer.drain_into(losses);
    Some(up)
}

/// Ends the words of a number and returns what stood in them; `None` if they were ended before, or there are none.
#[tactic(auto, using(crate::proofs::WordLemmas::none_there, crate::proofs::WordLemmas::ended_there, crate::proofs::WordLemmas::ended_stays, sentry_plain::proofs::ChangeLemmas::changed_same))]
pub(crate) fn end_words(drainers: &mut Drainers, number: u64) -> Result<Option<Losses>, StillHeld>
    ensures ended { IfOk result (λ ended.
        MatchOption ended ((drainers.new ≡ drainers.old) × HasNoOpenWords drainers.old number)
        (λ losses. EndsWords drainers.old drainers.new number losses.quantities)) }
    ensures held { OnErr result (HasOpenWords drainers.old number × (drainers.new ≡ drainers.old)) }
{
    let Some(place) = drainers.get_mut(number) else {
        return Ok(None);
    };
    let Some(drainer) = place.take() else {
        return Ok(None);
    };
    match drainer.close() {
        Ok(losses) => Ok(Some(losses)),
        Err(kept) => {
            *place = Some(kept);
            Err(StillHeld)
        }
    }
}
