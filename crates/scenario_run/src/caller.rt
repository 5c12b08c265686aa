//! What makes the calls of a scenario.
use crate::answer::Answer;
use crate::callbacks::{Callbacks, Handler};
use crate::fault::Failure;
use crate::scenario::Scenario;
use sentry_base::protocol::{HubKey, Refusal};
use sentry_engine::Engine;
use sentry_engine::call::{
    Answer as CallAnswer, Call, ClientCall, HubCall, Reply, SpanCall, SpanReply,
};
use sentry_trace::headers::TraceHeadersIter;

/// The calls that commands make.
pub type ScenarioCall = Call<Handler, Callbacks>;

/// What a call replies.
pub type CallReply = Reply<Handler, Callbacks>;

/// Makes calls: an engine, or what stands before one.
pub trait Caller: Drop {
    /// Makes one call, and answers its reply and the envelopes that it handed out.
    fn apply(&mut self, call: ScenarioCall) -> CallAnswer<Handler, Callbacks>;

    /// The headers that pass on the trace of a hub's top scope.
    fn headers_of_hub(&mut self, hub: HubKey) -> Result<TraceHeadersIter, Refusal>;
}

impl Caller for Engine<Handler, Callbacks> {
    fn apply(&mut self, call: ScenarioCall) -> CallAnswer<Handler, Callbacks> {
        Engine::apply(self, call)
    }

    fn headers_of_hub(&mut self, hub: HubKey) -> Result<TraceHeadersIter, Refusal> {
        let scope = self.scope(hub)?.reply;
        Ok(scope.iter_trace_propagation_headers(self.spans())?)
    }
}

impl<E: Caller> Scenario<E> {
    /// Makes a call whose reply isn't printed.
    pub fn call<'a>(&mut self, call: ScenarioCall) -> Result<Answer<'a>, Failure> {
        let out = self.caller.apply(call)?;
        Ok(Answer::of_sent(out))
    }

    /// The same of a call on a client.
    pub fn call_client<'a>(
        &mut self,
        call: ClientCall<Handler, Callbacks>,
    ) -> Result<Answer<'a>, Failure> {
        self.call(Call::Client(call))
    }

    /// The same of a call on a hub.
    pub fn call_hub<'a>(&mut self, call: HubCall<Handler>) -> Result<Answer<'a>, Failure> {
        self.call(Call::Hub(call))
    }

    /// The same of a call on a transaction or a span.
    pub fn call_span<'a>(&mut self, call: SpanCall) -> Result<Answer<'a>, Failure> {
        self.call(Call::Span(call))
    }

    /// Makes a call that hands nothing out, and answers its reply.
    pub fn ask(&mut self, call: ScenarioCall) -> Result<CallReply, Failure> {
        let out = self.caller.apply(call)?;
        Ok(out.reply)
    }

    /// The same of a call on a transaction or a span.
    pub fn ask_span(&mut self, call: SpanCall) -> Result<SpanReply, Failure> {
        match self.ask(Call::Span(call))? {
            Reply::Span(reply) => Ok(reply),
            _other => Err(Failure::OtherReply),
        }
    }

    /// Makes a call that decides something.
    pub fn decide(&mut self, call: ScenarioCall) -> Result<bool, Failure> {
        match self.ask(call)? {
            Reply::Decision(decision) => Ok(decision),
            _other => Err(Failure::OtherReply),
        }
    }
}
