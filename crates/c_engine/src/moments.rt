//! The moment, the ids and the draw of a call.
ghost use Rattle.std.specs.Prelude.{◌≡◌, None, IfOk, IfErr};
ghost use Rattle.c_base.specs.Faults.{refusal_of};
ghost use Rattle.c_engine.specs.Moments.{fresh_of};

use c_base::fault::CallFault;
use c_base::ids::FreshNumbers;
use sentry_base::protocol::Fresh;

/// What these numbers stand for.
#[tactic(auto, unfolding(crate::specs::Moments::fresh_of))]
pub(crate) fn fresh_of(numbers: &FreshNumbers) -> Result<Fresh, CallFault>
    ensures fresh { IfOk result (λ fresh. fresh ≡ fresh_of numbers.entry.now) }
    ensures err { IfErr result (λ fault. refusal_of fault ≡ None) }
{
    numbers.fresh()
}
