//! Envelopes as bytes: a writer that fails, what reads them back, and where they are posted.
use crate::streams::Full;
use sentry_core::envelope::{
    envelope_api_url, split_envelope, to_auth, to_vec, to_vec_with_stacktraces, to_writer,
};
use sentry_core::protocol::{
    Attachment, Context, Envelope, EnvelopeItem, Event, Exception, Refusal, User, Uuid, Value,
    ValueMap,
};
use sentry_core::types::Dsn;
use sentry_plain::{Boxed, Items, Text};
use std::alloc::{AllocError, Global};
use std::test::Fail;

/// An envelope of a file without content.
fn envelope(alloc: Global) -> Result<Envelope, AllocError> {
    let mut envelope = Envelope::new(alloc);
    let filename = Text::new(alloc, "log.txt")?;
    envelope.add_item(EnvelopeItem::Attachment(Attachment {
        filename,
        buffer: Items::new(alloc),
        content_type: None,
    }))?;
    Ok(envelope)
}

/// Whether an envelope is written by a writer with room for so many bytes, and what that keeps.
fn write_full(alloc: Global, envelope: &Envelope, room: usize) -> (bool, Vec<u8>) {
    let kept = Vec::new(alloc);
    let mut writer = Full { kept, room };
    let answer = to_writer(alloc, envelope, &mut writer);
    let Full { kept, room: _ } = writer;
    (answer.is_ok(), kept)
}

#[test]
fn a_failed_write_leaves_a_beginning_of_an_envelope(rt: HostRuntime) -> Result<(), Fail> {
    let envelope = envelope(rt.alloc())?;
    let all = to_vec(rt.alloc(), &envelope)?;
    for room in 0..=all.len() {
        let (is_written, kept) = write_full(rt.alloc(), &envelope, room);
        assert!(rt; is_written == (room == all.len()));
        assert!(rt; kept.as_slice() == &all[..room]);
    }
    Ok(())
}

/// How many items an envelope has that is read from these bytes.
fn count_items(alloc: Global, text: &[u8]) -> Option<usize> {
    match split_envelope(alloc, text) {
        Ok(Some(read)) => Some(read.items.len()),
        Ok(None) | Err(_) => None,
    }
}

#[test]
fn an_envelope_is_read_back(rt: HostRuntime) -> Result<(), Fail> {
    let envelope = envelope(rt.alloc())?;
    let all = to_vec(rt.alloc(), &envelope)?;
    assert!(rt; count_items(rt.alloc(), all.as_slice()) == Some(1));
    assert!(rt; count_items(rt.alloc(), b"no envelope").is_none());
    Ok(())
}

/// Values by these two keys.
fn values(alloc: Global, first: &str, second: &str) -> Result<ValueMap, AllocError> {
    let mut values = ValueMap::new(alloc);
    values.insert(Text::new(alloc, first)?, Value::Int(1))?;
    values.insert(Text::new(alloc, second)?, Value::Int(2))?;
    Ok(values)
}

/// An exception of this type.
fn exception(alloc: Global, ty: &str) -> Result<Exception, AllocError> {
    Ok(Exception {
        ty: Text::new(alloc, ty)?,
        value: None,
        mechanism: None,
    })
}

/// An event whose user and whose context have values with names of their own members, and two exceptions.
fn event(alloc: Global) -> Result<Event, AllocError> {
    let mut event = Event::new(alloc, Uuid::nil(), 0)?;
    let mut user = User::new(alloc);
    user.id = Some(Text::new(alloc, "7")?);
    user.data_ = values(alloc, "id", "plan")?;
    event.user = Some(user);
    let runtime = Context::Other(values(alloc, "type", "year")?);
    event
        .contexts
        .insert(Text::new(alloc, "runtime")?, runtime)?;
    event.exception.push(exception(alloc, "Outer")?)?;
    event.exception.push(exception(alloc, "Inner")?)?;
    Ok(event)
}

/// The bytes of an envelope of that event, with a stack trace of the second exception.
fn event_text(alloc: Global) -> Result<Vec<u8>, AllocError> {
    let mut envelope = Envelope::new(alloc);
    envelope.add_item(EnvelopeItem::Event(Boxed::new(alloc, event(alloc)?)?))?;
    let mut stacktraces = Vec::new(alloc);
    stacktraces.push(None)?;
    stacktraces.push(Some(Value::Map(values(alloc, "frames", "lang")?)))?;
    to_vec_with_stacktraces(alloc, &envelope, stacktraces.as_slice())
}

/// Whether an envelope has one item, with this payload.
fn is_payload(alloc: Global, text: &[u8], payload: &[u8]) -> bool {
    match split_envelope(alloc, text) {
        Ok(Some(read)) => match read.items.as_slice() {
            [item] => item.payload == payload,
            _ => false,
        },
        Ok(None) | Err(_) => false,
    }
}

const EVENT: &[u8] =
    br#"{"event_id":"00000000000000000000000000000000","level":"info","fingerprint":["{{ default }}"],"platform":"other","timestamp":0,"user":{"id":"7","plan":2},"contexts":{"runtime":{"type":"unknown","year":2}},"exception":{"values":[{"type":"Outer"},{"type":"Inner","stacktrace":{"frames":1,"lang":2}}]}}"#;

#[test]
fn a_name_comes_once_and_stack_traces_stand_in_their_exceptions(
    rt: HostRuntime,
) -> Result<(), Fail> {
    let text = event_text(rt.alloc())?;
    assert!(rt; is_payload(rt.alloc(), text.as_slice(), EVENT));
    Ok(())
}

/// The URL and the header with which envelopes of a DSN are posted.
fn posted(alloc: Global, dsn: &str) -> Result<(Text, Text), Refusal> {
    let dsn = Dsn::parse(alloc, dsn)?;
    let auth = to_auth(alloc, &dsn, Some("shop/1"))?;
    Ok((envelope_api_url(alloc, &dsn)?, auth))
}

#[test]
fn envelopes_of_a_dsn_are_posted_to_its_project(rt: HostRuntime) -> Result<(), Fail> {
    let (url, auth) = posted(rt.alloc(), "https://key@sentry.invalid:9000/below/42")?;
    assert!(rt; url.as_str() == "https://sentry.invalid:9000/below/api/42/envelope/");
    let expected = "Sentry sentry_key=key, sentry_version=7, sentry_client=shop/1";
    assert!(rt; auth.as_str() == expected);
    Ok(())
}
