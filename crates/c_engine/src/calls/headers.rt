//! The headers by which another program goes on with a trace.
ghost use Rattle.c_engine.specs.Calls.{IsUnchanged};

use crate::outbox_engine::{OutboxEngine, either_key};
use c_base::fault::CallFault;
use c_base::outbox::copy_text;
use sentry_base::protocol::TransactionKey;
use sentry_framing::moments::seconds_text;
use sentry_span_table::{SpanPlace, TracingState};
use sentry_texts::dsn::Dsn;
use std::alloc::{AllocError, Global};

fn flag_text(is_so: bool) -> &'static str {
    if is_so { "true" } else { "false" }
}

// Appends what was decided of the trace.
fn push_sampling(text: &mut String, tracing: &TracingState) -> Result<(), AllocError> {
    match tracing {
        TracingState::Enabled { sampled, rate } => {
            text.push_str(",sentry-sample_rate=")?;
            text.push_str(seconds_text(u64::from(rate.millionths()) * 1_000).as_str())?;
            text.push_str(",sentry-sampled=")?;
            text.push_str(flag_text(*sampled))?;
            Ok(())
        }
        TracingState::Disabled(Some(sampled)) => {
            text.push_str(",sentry-sampled=")?;
            text.push_str(flag_text(*sampled))?;
            Ok(())
        }
        TracingState::Disabled(None) => Ok(()),
    }
}

// Appends the public key, if there is one.
fn push_key(text: &mut String, dsn: &Option<Dsn>) -> Result<(), AllocError> {
    match dsn {
        None => Ok(()),
        Some(dsn) => {
            text.push_str(",sentry-public_key=")?;
            text.push_str(dsn.public_key())
        }
    }
}

// The value of the header `baggage` from a place in a trace, of a client with this DSN.
fn baggage(alloc: Global, place: &SpanPlace, dsn: &Option<Dsn>) -> Result<String, AllocError> {
    let mut text = format!(in alloc; "sentry-trace_id={}", place.trace_id)?;
    push_key(&mut text, dsn)?;
    push_sampling(&mut text, &place.tracing)?;
    Ok(text)
}

impl OutboxEngine {
    /// Sets how long the value of the header `sentry-trace` is by which another program continues the trace, and copies
    /// it where the room holds it.
    pub fn trace_header(
        &mut self,
        is_span: bool,
        number: u64,
        room: &mut [u8],
        length: &mut usize,
    ) -> Result<(), CallFault>
        ensures { IsUnchanged self.old self.new }
    {
        let out = self.engine.iter_headers(either_key(is_span, number))?;
        let mut headers = out.reply;
        if let Some((_, value)) = headers.next() {
            *length = value.len();
            let _ = copy_text(value.as_bytes(), room);
            return Ok(());
        }
        *length = 0;
        Ok(())
    }

    // The DSN of the client that will send a transaction, while that is unfinished.
    fn dsn_of(&self, transaction: TransactionKey) -> Result<Option<Dsn>, CallFault> {
        let Some(held) = self.engine.spans().transaction(transaction) else {
            return Ok(None);
        };
        let Some(unfinished) = &held.unfinished else {
            return Ok(None);
        };
        let out = self.engine.dsn(unfinished.client)?;
        Ok(out.reply)
    }

    /// Sets how long the value of the header `baggage` is that goes with it, and copies it where the room holds it.
    pub fn baggage(
        &mut self,
        is_span: bool,
        number: u64,
        room: &mut [u8],
        length: &mut usize,
    ) -> Result<(), CallFault>
        ensures { IsUnchanged self.old self.new }
    {
        let Some(place) = self.engine.spans().place(either_key(is_span, number)) else {
            return Err(CallFault::Stale);
        };
        let dsn = self.dsn_of(place.transaction)?;
        let text = baggage(self.alloc, &place, &dsn)?;
        *length = text.len();
        let _ = copy_text(text.as_bytes(), room);
        Ok(())
    }
}
