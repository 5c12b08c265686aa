//! The losses of labels: drained, reported, and ended.
ghost use Rattle.std.specs.Prelude.{◌≡◌, MatchOption, IfOk, IfErr, Ok, Err, List, true, false, [], ◌⊎◌};
ghost use Rattle.sentry_plain.specs.Tables.{entries_after, without};
ghost use Rattle.sentry_base.specs.declared.protocol.envelope.Envelope.{Envelope};
ghost use Rattle.sentry_base.specs.declared.protocol.keys.ClientKey.{ClientKey};
ghost use Rattle.sentry_calls.specs.Losses.{take_report};
ghost use Rattle.sentry_state.specs.Outcomes.{Does};
ghost use Rattle.sentry_state.specs.Worlds.{World, Stands};
ghost use Rattle.sentry_lock.specs.Locked.{Absorbs, DrainsAll, DrainsAndAbsorbs, DrainsEach, DrainsIfOpen, DrainsNext, EndsAndAbsorbs, FindsNoWords, ForgetsUnused, IsHeld};
ghost use Rattle.sentry_lock.specs.Words.{AreZero, HasOpenWords};

use crate::handed::Transports;
use crate::locked::Core;
use crate::words::{StillHeld, drain_words, drain_words_into, end_words};
use sentry_base::callbacks::EventCallback;
use sentry_base::protocol::{ClientReport, LOSS_QUANTITIES, Label, Losses, Refusal};
use sentry_engine::Engine;
use sentry_options::Callbacks;
use std::alloc::AllocError;

// Whether nothing is lost. It looks at each quantity without a branch, which is the fastest way.
fn is_nothing(losses: &Losses) -> bool
    ensures { result ≡ true → AreZero losses.now.quantities }
{
    let mut zero = true;
    for i in 0..LOSS_QUANTITIES {
        zero &= losses.quantities[i] == 0;
    }
    zero
}

// Absorbs losses under a label that a client names, which is never refused. Where nothing is lost the book is left alone.
#[inline(never)]
fn absorb_held<P: Drop, C: Callbacks>(engine: &mut Engine<P, C>, label: Label, losses: &Losses)
    requires stands { ∥ ((world : World P C) × Stands engine.old world) ∥₁ }
    requires held { IsHeld true label engine.old }
    ensures { Absorbs label losses.now.quantities engine.old engine.new }
{
    if is_nothing(losses) {
        return;
    }
    drop(engine.absorb_losses(label, losses));
}

impl<P: EventCallback + Drop, C: Callbacks, T: Drop> Core<P, C, T> {
    /// Drains the words of a label once, absorbs what that gave, and returns it; `None` if the words were ended. It takes
    /// no memory.
    ///
    /// `ForeignLosses`: no client that is held names the label.
    pub(crate) fn drain_and_absorb(&mut self, label: Label) -> Result<Option<Losses>, Refusal>
        ensures done { IfOk result (λ drained. IsHeld true label self.old.engine × MatchOption drained
            (FindsNoWords label self.old.engine self.new.engine self.old.drainers self.new.drainers)
            (λ losses. DrainsAndAbsorbs label losses.quantities self.old.engine self.new.engine
            self.old.drainers self.new.drainers)) }
        ensures refused { IfErr result (λ refusal. (refusal ≡ Refusal.ForeignLosses)
            × IsHeld false label self.old.engine
            × (self.new.engine ≡ self.old.engine) × (self.new.drainers ≡ self.old.drainers)) }
        ensures tag { self.new.tag ≡ self.old.tag }
        ensures labels { self.new.next_label ≡ self.old.next_label }
    {
        if !self.engine.has_book(label) {
            return Err(Refusal::ForeignLosses);
        }
        let Some(drained) = drain_words(&mut self.drainers, label.number) else {
            return Ok(None);
        };
        absorb_held(&mut self.engine, label, &drained);
        Ok(Some(drained))
    }

    // The same, where nothing waits to know what was drained: if nothing was, no losses are looked at. The book and the
    // drainer are looked for at a place first.
    #[inline(always)]
    fn drain_label(&mut self, label: Label, near: usize)
        ensures drained { DrainsIfOpen label self.old.engine self.new.engine self.old.drainers self.new.drainers }
        ensures tag { self.new.tag ≡ self.old.tag }
        ensures labels { self.new.next_label ≡ self.old.next_label }
    {
        if !self.engine.has_book_near(label, near) {
            return;
        }
        let Some(up) = drain_words_into(&mut self.drainers, label.number, near, &mut self.drained)
        else {
            return;
        };
        if up {
            absorb_held(&mut self.engine, label, &self.drained);
        }
    }

    // Drains and absorbs for the label of the least number above another, or of the least of all, and answers that number
    // and its place among the drainers; `None` if there is no more. The other is looked for at its place first.
    #[inline(always)]
    fn drain_next(&mut self, last: Option<u64>, near: usize) -> Option<(u64, usize)>
        ensures tag { self.new.tag ≡ self.old.tag }
        ensures drained { MatchOption result
            ((entries_after last self.old.drainers ≡ [])
            × (self.new.engine ≡ self.old.engine) × (self.new.drainers ≡ self.old.drainers))
            (λ next. DrainsNext self.old.tag last next.0 self.old.engine self.new.engine
            self.old.drainers self.new.drainers) }
        ensures labels { self.new.next_label ≡ self.old.next_label }
    {
        let Some((number, place)) = self.drainers.next_number(last, near) else {
            return None;
        };
        let label = Label {
            tag: self.tag,
            number,
        };
        self.drain_label(label, place);
        Some((number, place))
    }

    /// Drains and absorbs for each label that a held client names, in the order of their numbers. It goes along the rows of
    /// the drainers, where the books mostly lie at the same places, so that nothing is searched.
    pub(super) fn drain_each_label(&mut self)
        ensures drained { DrainsEach self.old.tag self.old.drainers self.old.engine self.new.engine
            self.old.drainers self.new.drainers }
        ensures labels { self.new.next_label ≡ self.old.next_label }
    {
        let mut last = None;
        let mut near = 0usize;
        for _ in 0..self.drainers.len() {
            let Some((number, place)) = self.drain_next(last, near) else {
                return;
            };
            last = Some(number);
            near = place;
        }
    }

    /// Drains the words of all labels, and sees to it that a share of the transports lies ready: what a call that can hand
    /// out envelopes does before the engine's call, after which nothing may fail.
    #[tactic(auto, unfolding(crate::specs::Locked::DrainsAll))]
    pub(super) fn drain_and_make_ready(&mut self) -> Result<(), AllocError>
        ensures drained { DrainsAll self.old.tag self.old.engine self.new.engine self.old.drainers self.new.drainers }
        ensures labels { self.new.next_label ≡ self.old.next_label }
    {
        self.drain_each_label();
        self.routes.make_ready()
    }

    /// The same, with a share of the transports for a call that mostly hands out envelopes.
    pub(super) fn drained(&mut self) -> Result<Transports<T>, AllocError>
        ensures drained { DrainsAll self.old.tag self.old.engine self.new.engine self.old.drainers self.new.drainers }
        ensures labels { self.new.next_label ≡ self.old.next_label }
    {
        self.drain_and_make_ready()?;
        let transports = self.routes.all()?;
        Ok(transports)
    }

    /// Returns a report of the losses that are pending under a label, which then count as reported, or `None` if there
    /// are none. What its words hold is not in it: drain them first.
    ///
    /// `ForeignLosses`: no client that is held names the label. `OutOfMemory`.
    pub(crate) fn take_report(&mut self, label: Label) -> Result<Option<ClientReport>, Refusal>
        ensures done { IfOk result (λ report. (sent : List (ClientKey × Envelope))
            × Does self.old.engine self.new.engine (Ok (record { reply = report; sent = sent })) (take_report label)) }
        ensures refused { IfErr result (λ refusal. Does self.old.engine self.new.engine (Err refusal) (take_report label)) }
        ensures drainers { self.new.drainers ≡ self.old.drainers }
        ensures tag { self.new.tag ≡ self.old.tag }
        ensures labels { self.new.next_label ≡ self.old.next_label }
    {
        let out = self.engine.take_report(label)?;
        Ok(out.reply)
    }

    /// Ends the words of a label, absorbs what still stood in them, and answers true; or answers false and changes
    /// nothing while a recorder of them is held. True also if they were ended before. It takes no memory.
    ///
    /// `ForeignLosses`: no client that is held names the label.
    pub(crate) fn close_losses(&mut self, label: Label) -> Result<bool, Refusal>
        ensures named { IfOk result (λ _. IsHeld true label self.old.engine) }
        ensures ended { IfOk result (λ ended. ended ≡ true →
            FindsNoWords label self.old.engine self.new.engine self.old.drainers self.new.drainers
            ⊎ EndsAndAbsorbs label self.old.engine self.new.engine self.old.drainers self.new.drainers) }
        ensures held { IfOk result (λ ended. ended ≡ false → HasOpenWords self.old.drainers label.number
            × (self.new.engine ≡ self.old.engine) × (self.new.drainers ≡ self.old.drainers)) }
        ensures refused { IfErr result (λ refusal. (refusal ≡ Refusal.ForeignLosses)
            × IsHeld false label self.old.engine
            × (self.new.engine ≡ self.old.engine) × (self.new.drainers ≡ self.old.drainers)) }
        ensures tag { self.new.tag ≡ self.old.tag }
        ensures labels { self.new.next_label ≡ self.old.next_label }
    {
        if !self.engine.has_book(label) {
            return Err(Refusal::ForeignLosses);
        }
        let standing = match end_words(&mut self.drainers, label.number) {
            Ok(Some(standing)) => standing,
            Ok(None) => return Ok(true),
            Err(StillHeld) => return Ok(false),
        };
        absorb_held(&mut self.engine, label, &standing);
        Ok(true)
    }

    // Forgets the drainer of a label, unless a client names it.
    fn forget_unused(&mut self, label: Label)
        ensures engine { self.new.engine ≡ self.old.engine }
        ensures drainers { (IsHeld true label self.new.engine × (self.new.drainers ≡ self.old.drainers))
            ⊎ (IsHeld false label self.new.engine × (self.new.drainers ≡ without self.old.drainers label.number)) }
        ensures labels { self.new.next_label ≡ self.old.next_label }
    {
        if !self.engine.has_book(label) {
            drop(self.drainers.remove(label.number));
        }
    }

    /// The same, if a label is given.
    pub(super) fn forget_dropped(&mut self, label: Option<Label>)
        ensures engine { self.new.engine ≡ self.old.engine }
        ensures drainers { ForgetsUnused label self.new.engine self.old.drainers self.new.drainers }
        ensures labels { self.new.next_label ≡ self.old.next_label }
    {
        if let Some(label) = label {
            self.forget_unused(label);
        }
    }
}
