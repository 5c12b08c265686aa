//! Whole envelopes.
ghost use Rattle.std.specs.Prelude.{◌≡◌, ◌++◌, ◌*◌, [], IfOk, OnOk, OnErr, Some, All, map, codes};
ghost use Rattle.json.specs.Tree.{json_tokens};
ghost use Rattle.sentry_framing.specs.Json.{Adds, Puts, optional, json_text};
ghost use Rattle.std.specs.Io.KnownBytes.{Appends};
ghost use Rattle.sentry_framing.specs.Headers.{IsHeader};
ghost use Rattle.sentry_framing.specs.Lines.{line};
ghost use Rattle.sentry_framing.specs.Sending.{AppendsFront};
ghost use Rattle.sentry_framing.specs.Moments.{seconds_text};
ghost use Rattle.sentry_framing.specs.Receiver.{read_envelope};
ghost use Rattle.json.specs.Json.{string};
ghost use Rattle.uuid.specs.Text.{hyphenated_text, simple_text, lower};
ghost use Rattle.sentry_envelope.specs.Envelopes.{trace_json, headers_json, item_parts, PayloadReadsBack, text_with, envelope_text, truth_text};
ghost use Rattle.sentry_envelope.specs.Names.{HasNamesOnce};

use crate::items::push_envelope_item;
use crate::texts::{put_hyphenated, put_optional, put_simple};
use json::Writer;
use sentry_base::protocol::{DynamicSamplingContext, Envelope, EnvelopeHeaders, Uuid, Value};
use sentry_framing::members::put_text;
use sentry_framing::moments::seconds_text;
use sentry_framing::sending::write_bytes;
use std::alloc::{AllocError, Global};
use std::io;
use std::io::Write;

fn put_event_id(out: &mut Writer, id: Option<Uuid>) -> Result<(), AllocError>
    ensures { OnOk result (Puts out.old out.new
        (optional (λ id. string (hyphenated_text lower id)) (codes "event_id") id)) }
{
    match id {
        None => Ok(()),
        Some(id) => {
            put_hyphenated(out, "event_id", id)?;
            Ok(())
        }
    }
}

fn write_headers(out: &mut Writer, headers: &EnvelopeHeaders) -> Result<(), AllocError>
    ensures { OnOk result (Adds out.old out.new (json_tokens (headers_json headers.now))) }
{
    out.begin_object()?;
    put_event_id(out, headers.event_id)?;
    put_trace(out, &headers.trace)?;
    out.end_object()?;
    Ok(())
}

fn put_trace(out: &mut Writer, trace: &Option<DynamicSamplingContext>) -> Result<(), AllocError>
    ensures { OnOk result (Puts out.old out.new (optional trace_json (codes "trace") trace.now)) }
{
    match trace {
        None => Ok(()),
        Some(trace) => {
            out.key("trace")?;
            write_trace(out, trace)?;
            Ok(())
        }
    }
}

fn put_trace_id(out: &mut Writer, trace: &DynamicSamplingContext) -> Result<(), AllocError>
    ensures { OnOk result (Puts out.old out.new
        (optional (λ id. string (simple_text lower id.0)) (codes "trace_id") trace.now.trace_id)) }
{
    match trace.trace_id {
        None => Ok(()),
        Some(id) => {
            put_simple(out, "trace_id", Uuid::from_bytes(id.0))?;
            Ok(())
        }
    }
}

fn put_sample_rate(out: &mut Writer, trace: &DynamicSamplingContext) -> Result<(), AllocError>
    ensures { OnOk result (Puts out.old out.new
        (optional (λ rate. string (seconds_text (rate * 1000))) (codes "sample_rate") trace.now.sample_rate)) }
{
    match trace.sample_rate {
        None => Ok(()),
        Some(rate) => {
            let text = seconds_text(rate.millionths() as u64 * 1_000);
            put_text(out, "sample_rate", text.as_str())?;
            Ok(())
        }
    }
}

fn put_sampled(out: &mut Writer, trace: &DynamicSamplingContext) -> Result<(), AllocError>
    ensures { OnOk result (Puts out.old out.new
        (optional (λ b. string (truth_text b)) (codes "sampled") trace.now.sampled)) }
{
    match trace.sampled {
        None => Ok(()),
        Some(true) => {
            put_text(out, "sampled", "true")?;
            Ok(())
        }
        Some(false) => {
            put_text(out, "sampled", "false")?;
            Ok(())
        }
    }
}

fn write_trace(out: &mut Writer, trace: &DynamicSamplingContext) -> Result<(), AllocError>
    ensures { OnOk result (Adds out.old out.new (json_tokens (trace_json trace.now))) }
{
    out.begin_object()?;
    put_trace_id(out, trace)?;
    put_optional(out, "public_key", &trace.public_key)?;
    put_sample_rate(out, trace)?;
    put_sampled(out, trace)?;
    out.end_object()?;
    Ok(())
}

// The line of the header.
fn header_line(alloc: Global, headers: &EnvelopeHeaders) -> Result<Vec<u8>, AllocError>
    ensures text { IfOk result (λ text. text.items ≡ line (json_text (headers_json headers.now))) }
    ensures readable { IfOk result (λ _. IsHeader (headers_json headers.now)) }
{
    let mut out = Writer::new(Vec::new(alloc));
    write_headers(&mut out, headers)?;
    let mut text = out.into_inner();
    text.push(b'\n')?;
    Ok(text)
}

/// The bytes of an envelope. A receiver takes them apart into its header, and into each item's header and payload,
/// whatever bytes the payload has.
pub fn to_vec(alloc: Global, envelope: &Envelope) -> Result<Vec<u8>, AllocError>
    ensures text { IfOk result (λ text. text.items ≡ envelope_text envelope.now) }
    ensures reads_back { IfOk result (λ text. read_envelope text.items
        ≡ Some (headers_json envelope.now.header, map (item_parts []) envelope.now.items)) }
    ensures payloads { IfOk result (λ _. All (PayloadReadsBack []) envelope.now.items) }
    ensures names { IfOk result (λ _. All (HasNamesOnce []) envelope.now.items) }
{
    let text = to_vec_with_stacktraces(alloc, envelope, &[])?;
    Ok(text)
}

/// The bytes of an envelope, with the stack traces of its event, which no record has. Each is a value of the protocol's
/// form, `{"frames": [..]}`, and is written as it is. The one at an index becomes the last member, `stacktrace`, of the
/// event's exception at that index; the first is the event's own if it has no exception. `None`, and what is beyond
/// the last, is written as nothing. Other items have no stack traces; should the caller have put several events into
/// the envelope, each gets them.
pub fn to_vec_with_stacktraces(
    alloc: Global,
    envelope: &Envelope,
    stacktraces: &[Option<Value>],
) -> Result<Vec<u8>, AllocError>
    ensures text { IfOk result (λ text. text.items ≡ text_with stacktraces.now envelope.now) }
    ensures reads_back { IfOk result (λ text. read_envelope text.items
        ≡ Some (
          headers_json envelope.now.header,
          map (item_parts stacktraces.now) envelope.now.items,
        )) }
    ensures payloads { IfOk result
        (λ _. All (PayloadReadsBack stacktraces.now) envelope.now.items) }
    ensures names { IfOk result (λ _. All (HasNamesOnce stacktraces.now) envelope.now.items) }
{
    let mut text = header_line(alloc, &envelope.header)?;
    for item in envelope.items.as_slice() {
        text = push_envelope_item(alloc, text, item, stacktraces)?;
    }
    Ok(text)
}

/// Writes an envelope, an item at a time: in memory is, beside the envelope, the text of one item, and while that is
/// made its payload once more. After an error a beginning of the envelope stands written, once.
pub fn to_writer<W: Write>(alloc: Global, envelope: &Envelope, writer: &mut W) -> io::Result<()>
    ensures ok { OnOk result
        (Appends (W.contents writer.old) (W.contents writer.new) (envelope_text envelope.now)) }
    ensures err { OnErr result
        (AppendsFront (W.contents writer.old) (W.contents writer.new) (envelope_text envelope.now)) }
    ensures reads_back { OnOk result (read_envelope (envelope_text envelope.now)
        ≡ Some (headers_json envelope.now.header, map (item_parts []) envelope.now.items)) }
    ensures payloads { OnOk result (All (PayloadReadsBack []) envelope.now.items) }
{
    let header = header_line(alloc, &envelope.header)?;
    write_bytes(writer, header.as_slice())?;
    for item in envelope.items.as_slice() {
        let text = push_envelope_item(alloc, Vec::new(alloc), item, &[])?;
        write_bytes(writer, text.as_slice())?;
    }
    Ok(())
}
