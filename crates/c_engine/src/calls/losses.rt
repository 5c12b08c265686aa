//! The call that counts what a transport lost.
ghost use Rattle.std.specs.Prelude.{◌<◌};
ghost use Rattle.sentry_base.specs.Losses.{loss_of};
ghost use Rattle.sentry_base.specs.Losses.{category_at, reason_at};
ghost use Rattle.sentry_calls.specs.Losses as call;
ghost use Rattle.c_engine.specs.Calls.{Calls, anything};
ghost use Rattle.c_engine.specs.Keys.{label};

use crate::outbox_engine::{OutboxEngine, label};
use c_base::fault::CallFault;
use sentry_base::protocol::{CATEGORIES, Category, Losses, REASONS, Reason};

impl OutboxEngine {
    /// Counts what was lost of a category, for a reason.
    #[tactic(auto, using(crate::proofs::Calling::called, crate::proofs::Calling::refused, crate::proofs::Calling::unasked))]
    pub fn record_loss(
        &mut self,
        number: u64,
        category: u32,
        reason: u32,
        quantity: u64,
    ) -> Result<(), CallFault>
        ensures { Calls self.old self.new result anything
            (call.absorb (label number) (loss_of (category_at category) (reason_at reason) quantity)) }
    {
        let (category, reason) = (category as usize, reason as usize);
        if category >= CATEGORIES || reason >= REASONS {
            return Err(CallFault::Unknown);
        }
        let losses = Losses::of(Category::at(category), Reason::at(reason), quantity);
        self.outbox.make_room()?;
        let out = self.engine.absorb_losses(label(number), &losses)?;
        self.outbox.keep(out.sent);
        Ok(())
    }
}
