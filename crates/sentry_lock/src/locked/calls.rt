//! Calls as values, under the lock.

ghost use Rattle.std.specs.Prelude.{◌≡◌, ◌⊎◌, ◌+◌, ◌≤◌, Ok, Err, [], true, false, IfOk, IfErr, OnOk, length, vec_len};
ghost use Rattle.std.specs.List.{list_all};
ghost use Rattle.std.specs.Vec.{vec_capacity};
ghost use Rattle.sentry_calls.specs.Steps.{step, needs};
ghost use Rattle.sentry_state.specs.Outcomes.{DoesWith};
ghost use Rattle.sentry_state.specs.declared.state.State.{State};
ghost use Rattle.sentry_lock.specs.Answers.{MakesNot};
ghost use Rattle.sentry_lock.specs.CallLists.{MakesEach, RefusesOne};
ghost use Rattle.sentry_lock.specs.Locked.{DrainsFor, ForgetsDropped};
ghost use Rattle.sentry_lock.specs.ValueCalls.{is_ordinary_call, can_hand_out, client_call_can_hand_out, hub_call_can_hand_out};
ghost use Rattle.sentry_lock.specs.Words.{Drainers};

use crate::handed::{Handed, Routes, Transports};
use crate::locked::Core;
use crate::locked::let_go::LetGo;
use sentry_base::callbacks::EventCallback;
use sentry_base::protocol::Refusal;
use sentry_engine::call::{Answer, Call, ClientCall, HubCall, Reply, SpanCall};
use sentry_options::Callbacks;
use std::alloc::AllocError;

fn client_call_can_hand_out<P, C>(call: &ClientCall<P, C>) -> bool
    ensures { result ≡ client_call_can_hand_out call.now }
{
    match call {
        ClientCall::Options(_)
        | ClientCall::Dsn(_)
        | ClientCall::IsEnabled(_)
        | ClientCall::SampleShouldSend { .. }
        | ClientCall::PrepareEvent { .. }
        | ClientCall::CloneClient { .. }
        | ClientCall::TakeReport(_) => false,
        _ => true,
    }
}

fn hub_call_can_hand_out<P>(call: &HubCall<P>) -> bool
    ensures { result ≡ hub_call_can_hand_out call.now }
{
    match call {
        HubCall::NewHub { .. }
        | HubCall::AddBreadcrumbs { .. }
        | HubCall::LastEventId(_)
        | HubCall::Client(_)
        | HubCall::IsActive(_)
        | HubCall::Scope(_)
        | HubCall::PushScope(_)
        | HubCall::NewHubFromTop(_)
        | HubCall::BindClient { .. } => false,
        _ => true,
    }
}

// Whether a call can hand out envelopes: all others leave the losses in their words, and take no share of the transports.
fn can_hand_out<P, C>(call: &Call<P, C>) -> bool
    ensures { result ≡ can_hand_out call.now }
{
    match call {
        Call::Client(call) => client_call_can_hand_out(call),
        Call::Hub(call) => hub_call_can_hand_out(call),
        Call::Span(SpanCall::FinishTransaction { .. }) => true,
        Call::Span(_) => false,
    }
}

impl<P: EventCallback + Drop, C: Callbacks, T: Drop> Core<P, C, T> {
    // A share of the transports as they are, for a call that can hand out envelopes.
    fn transports_for(&self, call: &Call<P, C>) -> Result<Option<Transports<T>>, AllocError> {
        if !can_hand_out(call) {
            return Ok(None);
        }
        Ok(Some(self.routes.all()?))
    }

    // Makes one call of the engine.
    fn apply_call(&mut self, call: Call<P, C>) -> Answer<P, C>
        requires { is_ordinary_call call ≡ true }
        ensures does { DoesWith (needs call) self.old.engine self.new.engine result (step P.gives C.meanings call) }
        ensures silent { IfOk result (λ out. can_hand_out call ≡ false → out.sent ≡ []) }
        ensures drainers { self.new.drainers ≡ self.old.drainers }
        ensures labels { self.new.next_label ≡ self.old.next_label }
    {
        self.engine.apply(call)
    }

    // Makes one call, which isn't made by a method of its own, and before which the losses were drained.
    fn apply(&mut self, call: Call<P, C>) -> Result<Handed<Reply<P, C>, T>, Refusal>
        requires { is_ordinary_call call ≡ true }
        ensures done { IfOk result (λ handed. DoesWith (needs call) self.old.engine self.new.engine
            (Ok handed.out) (step P.gives C.meanings call)) }
        ensures silent { IfOk result (λ handed. can_hand_out call ≡ false → handed.out.sent ≡ []) }
        ensures forgets { IfOk result (λ _.
            ForgetsDropped call self.old.engine self.new.engine self.old.drainers self.new.drainers) }
        ensures refused { IfErr result (λ _. (self.new.engine ≡ self.old.engine)
            × (self.new.drainers ≡ self.old.drainers)) }
        ensures refusal { IfErr result (λ refusal. (refusal ≡ Refusal.OutOfMemory)
            ⊎ DoesWith (needs call) self.old.engine self.old.engine (Err refusal) (step P.gives C.meanings call)) }
        ensures labels { self.new.next_label ≡ self.old.next_label }
    {
        let transports = self.transports_for(&call)?;
        let after = self.transports_after(&call)?;
        let dropped = self.dropped_label(&call);
        let out = self.apply_call(call)?;
        if let Some(after) = after {
            self.routes = Routes::by(after);
        }
        self.forget_dropped(dropped);
        Ok(Handed { out, transports })
    }

    // Drains the words of all labels, if the call can hand out envelopes.
    #[tactic(auto, unfolding(crate::specs::Locked::DrainsAll))]
    fn drain_for(&mut self, call: &Call<P, C>)
        ensures drained { DrainsFor (can_hand_out call.now) self.old.tag self.old.engine self.new.engine
            self.old.drainers self.new.drainers }
        ensures labels { self.new.next_label ≡ self.old.next_label }
    {
        if can_hand_out(call) {
            self.drain_each_label();
        }
    }

    /// Drains the words of all labels, if the call can hand out envelopes, and makes the call. What was absorbed stays so
    /// if the call is refused.
    pub(crate) fn drain_and_apply(
        &mut self,
        call: Call<P, C>,
    ) -> Result<Handed<Reply<P, C>, T>, Refusal>
        requires { is_ordinary_call call ≡ true }
        ensures done { IfOk result (λ handed. (between : State P C) × (drained : Drainers)
            × DrainsFor (can_hand_out call) self.old.tag self.old.engine between self.old.drainers drained
            × DoesWith (needs call) between self.new.engine (Ok handed.out) (step P.gives C.meanings call)
            × ForgetsDropped call between self.new.engine drained self.new.drainers) }
        ensures silent { IfOk result (λ handed. can_hand_out call ≡ false → handed.out.sent ≡ []) }
        ensures refused { IfErr result (λ _. DrainsFor (can_hand_out call) self.old.tag
            self.old.engine self.new.engine self.old.drainers self.new.drainers) }
        ensures refusal { IfErr result (λ refusal. MakesNot self.old (can_hand_out call) (needs call)
            refusal (step P.gives C.meanings call)) }
        ensures labels { self.new.next_label ≡ self.old.next_label }
    {
        self.drain_for(&call);
        match self.apply(call) {
            Ok(handed) => Ok(handed),
            Err(refusal) => Err(refusal),
        }
    }

    /// The same with each call of a list, in order, up to the first that is refused, and answers that refusal. What they
    /// hand out goes to the end of one list, what they may let go to the end of the other.
    pub(crate) fn apply_all(
        &mut self,
        calls: Vec<Call<P, C>>,
        all: &mut Vec<Handed<Reply<P, C>, T>>,
        let_go: &mut Vec<LetGo<P, C>>,
    ) -> Result<(), Refusal>
        requires ordinary { list_all is_ordinary_call calls.items ≡ true }
        requires room { vec_len all.old + length calls.items ≤ vec_capacity all.old }
        requires room_beside { vec_len let_go.old + length calls.items ≤ vec_capacity let_go.old }
        ensures done { OnOk result (MakesEach T P.gives C.meanings self.old self.new calls.items) }
        ensures refused { IfErr result (λ refusal. RefusesOne T P.gives C.meanings self.old calls.items refusal) }
        ensures labels { self.new.next_label ≡ self.old.next_label }
    {
        for call in calls {
            let_go.push_reserved(self.let_go_by(&call));
            match self.drain_and_apply(call) {
                Ok(handed) => all.push_reserved(handed),
                Err(refusal) => return Err(refusal),
            }
        }
        Ok(())
    }
}
