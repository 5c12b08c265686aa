//! The losses of labels.
ghost use Rattle.std.specs.Prelude.{◌≡◌, IfOk};
ghost use Rattle.sentry_client_reports.specs.LossBooks.{drained_losses, engine_losses, report_point};
ghost use Rattle.sentry_state.specs.Worlds.{World, Stands};
ghost use Rattle.sentry_state.specs.Books.{has_book, pending_report, with_entry};

use crate::state::State;
use sentry_base::protocol::{ClientReport, Label, Losses};
use sentry_client_reports::LossBook;
use sentry_options::Callbacks;
use std::alloc::AllocError;

impl<P: Drop, C: Callbacks> State<P, C> {
    /// Whether a client names the label.
    pub fn has_book(&self, label: Label) -> bool
        ensures { (world : World P C) → Stands self.now world → result ≡ has_book world label }
    {
        self.has_book_near(label, 0)
    }

    /// The same, where a place is looked at first at which its book may be.
    #[tactic(auto, using(crate::proofs::Keeping::has_book_in_world))]
    #[inline(always)]
    pub fn has_book_near(&self, label: Label, near: usize) -> bool
        ensures { (world : World P C) → Stands self.now world → result ≡ has_book world label }
    {
        if label.tag != self.tag {
            return false;
        }
        self.books.get_near(label.number, near).is_some()
    }

    /// The report of what is pending under a label, if anything is.
    #[tactic(auto, using(crate::proofs::Keeping::report_in_world, crate::proofs::Keeping::no_report_in_world))]
    pub fn pending_report(&self, label: Label) -> Result<Option<ClientReport>, AllocError>
        ensures { IfOk result (λ report. (world : World P C) → Stands self.now world →
            report ≡ pending_report world label) }
    {
        match self.books.get(label.number) {
            None => Ok(None),
            Some(book) => book.report(self.alloc),
        }
    }

    /// Marks what is pending under a label as reported.
    #[tactic(auto, using(crate::proofs::Keeping::entry_absent, crate::proofs::Keeping::entry_present))]
    pub fn mark_reported(&mut self, label: Label)
        ensures in_world { (world : World P C) → Stands self.old world →
            Stands self.new (with_entry world label report_point) }
        ensures hubs { self.new.hubs ≡ self.old.hubs }
        ensures next { self.new.next ≡ self.old.next }
    {
        let Some(book) = self.books.get_mut(label.number) else {
            return;
        };
        book.mark_reported();
    }

    /// Records losses that an engine found itself.
    #[tactic(auto, using(crate::proofs::Keeping::entry_absent, crate::proofs::Keeping::entry_present))]
    pub fn record_losses(&mut self, label: Label, losses: &Losses)
        ensures in_world { (world : World P C) → Stands self.old world →
            Stands self.new (with_entry world label (engine_losses losses.now.quantities)) }
        ensures hubs { self.new.hubs ≡ self.old.hubs }
        ensures next { self.new.next ≡ self.old.next }
    {
        let Some(book) = self.books.get_mut(label.number) else {
            return;
        };
        book.record(losses);
    }

    /// Adds losses that were drained.
    #[tactic(auto, using(crate::proofs::Keeping::entry_absent, crate::proofs::Keeping::entry_present))]
    pub fn absorb_drained(&mut self, label: Label, losses: &Losses)
        ensures { (world : World P C) → Stands self.old world →
            Stands self.new (with_entry world label (drained_losses losses.now.quantities)) }
    {
        let Some(book) = self.books.get_mut(label.number) else {
            return;
        };
        book.absorb(losses);
    }
}
