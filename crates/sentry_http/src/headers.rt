//! The headers for the next service.
ghost use Rattle.std.specs.Prelude.{◌≡◌, ◌∷◌, ◌++◌, [], map, IfOk, OnOk};
ghost use Rattle.sentry_http.specs.Requests.{baggage};
ghost use Rattle.sentry_trace.specs.HeaderLists.{header_of};
ghost use Rattle.sentry_trace.specs.TraceHeaders.{headers_left};

use sentry_plain::{Items, Text};
use sentry_trace::headers::TraceHeadersIter;
use std::alloc::{AllocError, Global};

/// The headers that pass a trace on to the next service: those of the span (`iter_headers`), and the baggage that came in,
/// as it came.
///
/// An allocation may fail.
pub fn outgoing_headers(
    alloc: Global,
    trace: TraceHeadersIter,
    incoming: &[(&str, &str)],
) -> Result<Items<(Text, Text)>, AllocError>
    ensures { IfOk result (λ made. made ≡ headers_left trace ++ baggage (map header_of incoming.now)) }
{
    let mut made = copy_trace(alloc, trace)?;
    for header in incoming {
        copy_baggage(alloc, &mut made, header.0, header.1)?;
    }
    Ok(made)
}

fn copy_trace(alloc: Global, trace: TraceHeadersIter) -> Result<Items<(Text, Text)>, AllocError>
    ensures { IfOk result (λ made. made ≡ headers_left trace) }
{
    let mut trace = trace;
    let mut made = Items::new(alloc);
    if let Some((name, value)) = trace.next() {
        made.push((Text::new(alloc, name)?, Text::from_string(value)?))?;
    }
    Ok(made)
}

// Adds a header, if it says baggage.
fn copy_baggage(
    alloc: Global,
    made: &mut Items<(Text, Text)>,
    name: &str,
    value: &str,
) -> Result<(), AllocError>
    ensures { OnOk result (made.new ≡ made.old ++ baggage ((name.now, value.now) ∷ [])) }
{
    if !name.eq_ignore_ascii_case("baggage") {
        return Ok(());
    }
    made.push((Text::new(alloc, name)?, Text::new(alloc, value)?))
}
