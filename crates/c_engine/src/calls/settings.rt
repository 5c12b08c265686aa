//! The calls that set what a transaction or a span has.
ghost use Rattle.sentry_span_edits.specs.Setters as setters;
ghost use Rattle.c_engine.specs.Calls.{Calls, SomeCalls, anything};
ghost use Rattle.c_engine.specs.Keys.{either_key};
ghost use Rattle.c_engine.specs.Named.{StatusNamed};

use crate::outbox_engine::{OutboxEngine, either_key};
use c_base::fault::CallFault;
use c_base::numbers::text;
use c_records::json::{object, value};
use c_records::requests::request_of;
use c_records::statuses::status_named;
use sentry_base::protocol::{Request, SpanStatus};
use sentry_plain::Value;

impl OutboxEngine {
    /// Sets a piece of data.
    #[tactic(auto, using(crate::proofs::Calling::called, crate::proofs::Calling::refused, crate::proofs::Calling::unasked))]
    pub(crate) fn put_span_data(
        &mut self,
        is_span: bool,
        number: u64,
        key: &[u8],
        value: Value,
    ) -> Result<(), CallFault>
        ensures { Calls self.old self.new result anything (setters.set_data (either_key is_span number) key.now value) }
    {
        let key = text(key)?;
        self.outbox.make_room()?;
        let out = self
            .engine
            .set_data(either_key(is_span, number), key, value)?;
        self.outbox.keep(out.sent);
        Ok(())
    }

    /// Sets a piece of data to the value of a JSON text.
    #[tactic(auto, using(crate::proofs::Calling::some))]
    pub fn set_span_data(
        &mut self,
        is_span: bool,
        number: u64,
        key: &[u8],
        json: &[u8],
    ) -> Result<(), CallFault>
        ensures { SomeCalls self.old self.new result anything
            (λ value. setters.set_data (either_key is_span number) key.now value) }
    {
        let value = value(self.alloc, json)?;
        self.put_span_data(is_span, number, key, value)
    }

    /// Sets a tag.
    #[tactic(auto, using(crate::proofs::Calling::called, crate::proofs::Calling::refused, crate::proofs::Calling::unasked))]
    pub fn set_span_tag(
        &mut self,
        is_span: bool,
        number: u64,
        key: &[u8],
        value: &[u8],
    ) -> Result<(), CallFault>
        ensures { Calls self.old self.new result anything
            (setters.set_tag (either_key is_span number) key.now value.now) }
    {
        let (key, value) = (text(key)?, text(value)?);
        self.outbox.make_room()?;
        let out = self
            .engine
            .set_tag(either_key(is_span, number), key, value)?;
        self.outbox.keep(out.sent);
        Ok(())
    }

    /// Sets the name of a transaction, or the description of a span.
    #[tactic(auto, using(crate::proofs::Calling::called, crate::proofs::Calling::refused, crate::proofs::Calling::unasked))]
    pub fn set_span_name(
        &mut self,
        is_span: bool,
        number: u64,
        name: &[u8],
    ) -> Result<(), CallFault>
        ensures { Calls self.old self.new result anything (setters.set_name (either_key is_span number) name.now) }
    {
        let name = text(name)?;
        self.outbox.make_room()?;
        let out = self.engine.set_name(either_key(is_span, number), name)?;
        self.outbox.keep(out.sent);
        Ok(())
    }

    /// Sets the operation.
    #[tactic(auto, using(crate::proofs::Calling::called, crate::proofs::Calling::refused, crate::proofs::Calling::unasked))]
    pub fn set_span_op(&mut self, is_span: bool, number: u64, op: &[u8]) -> Result<(), CallFault>
        ensures { Calls self.old self.new result anything (setters.set_op (either_key is_span number) op.now) }
    {
        let op = text(op)?;
        self.outbox.make_room()?;
        let out = self.engine.set_op(either_key(is_span, number), op)?;
        self.outbox.keep(out.sent);
        Ok(())
    }

    /// Sets the status.
    #[tactic(auto, using(crate::proofs::Calling::called, crate::proofs::Calling::refused, crate::proofs::Calling::unasked))]
    pub(crate) fn put_span_status(
        &mut self,
        is_span: bool,
        number: u64,
        status: SpanStatus,
    ) -> Result<(), CallFault>
        ensures { Calls self.old self.new result anything (setters.set_status (either_key is_span number) status) }
    {
        self.outbox.make_room()?;
        let out = self.engine.set_status(either_key(is_span, number), status)?;
        self.outbox.keep(out.sent);
        Ok(())
    }

    /// Sets the status of this name.
    #[tactic(auto, using(crate::proofs::Calling::some))]
    pub fn set_span_status(
        &mut self,
        is_span: bool,
        number: u64,
        name: &[u8],
    ) -> Result<(), CallFault>
        ensures { SomeCalls self.old self.new result anything
            (λ (named : StatusNamed name.now). setters.set_status (either_key is_span number) named.0) }
    {
        let status = status_named(text(name)?)?;
        self.put_span_status(is_span, number, status)
    }

    /// Sets the request.
    #[tactic(auto, using(crate::proofs::Calling::called, crate::proofs::Calling::refused, crate::proofs::Calling::unasked))]
    pub(crate) fn put_span_request(
        &mut self,
        is_span: bool,
        number: u64,
        request: Request,
    ) -> Result<(), CallFault>
        ensures { Calls self.old self.new result anything (setters.set_request (either_key is_span number) request) }
    {
        self.outbox.make_room()?;
        let out = self
            .engine
            .set_request(either_key(is_span, number), request)?;
        self.outbox.keep(out.sent);
        Ok(())
    }

    /// Sets the request of a JSON object.
    #[tactic(auto, using(crate::proofs::Calling::some))]
    pub fn set_span_request(
        &mut self,
        is_span: bool,
        number: u64,
        request: &[u8],
    ) -> Result<(), CallFault>
        ensures { SomeCalls self.old self.new result anything
            (λ request. setters.set_request (either_key is_span number) request) }
    {
        let members = object(self.alloc, request)?;
        let request = request_of(self.alloc, &members)?;
        self.put_span_request(is_span, number, request)
    }
}
