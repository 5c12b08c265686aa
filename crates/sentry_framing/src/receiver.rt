//! How a receiver takes an envelope apart.
ghost use Rattle.std.specs.Prelude.{◌≡◌, ◌<◌, ◌≤◌, Option, Some, None, IfOk, IfSome, MatchOption, option_map, map, length};
ghost use Rattle.json.specs.Json.{Json, document, number};
ghost use Rattle.json.specs.Value.{value_view};
ghost use Rattle.sentry_framing.specs.Json.{Bytes};
ghost use Rattle.sentry_framing.specs.Receiver.{split_line, end_payload, split_payload, number_of, stated_length, read_json, read_header, read_item, read_items, read_envelope};
ghost use Rattle.sentry_framing.specs.Raw.{raw_item, known_item, raw_envelope, known_envelope, known_read, no_more, IsHeaderOf};

use crate::raw::{RawEnvelope, RawHeader, RawItem};
use json::{Error, Scratch, Value};
use std::alloc::{AllocError, Global};

fn split_line(text: &[u8]) -> Option<(&[u8], &[u8])>
    ensures parts { option_map (λ p. (p.0.now, p.1.now)) result ≡ split_line text.now }
    ensures shorter { IfSome result (λ p. length p.1.now < length text.now) }
{
    let mut i = 0;
    while i < text.len() {
        if text[i] == b'\n' {
            return Some((&text[..i], &text[i + 1..]));
        }
        i += 1;
    }
    None
}

// The number that the digits write, or the greatest of 64 bits where it is above that.
fn number_of(digits: &[u8]) -> Option<u64>
    ensures { result ≡ option_map no_more (number_of (number digits.now)) }
{
    let mut n: u64 = 0;
    for digit in digits {
        if !digit.is_ascii_digit() {
            return None;
        }
        n = n.saturating_mul(10).saturating_add((*digit - b'0') as u64);
    }
    Some(n)
}

fn stated_length(header: &Value<'_>) -> Option<u64>
    ensures { result ≡ option_map no_more (stated_length (value_view header.now)) }
{
    let length = header.get("length")?;
    let digits = length.as_number()?;
    number_of(digits.as_bytes())
}

// A text that is JSON.
fn read_json<'a>(
    alloc: Global,
    text: &'a [u8],
    scratch: &mut Scratch,
) -> Result<Option<RawHeader<'a>>, AllocError>
    ensures { IfOk result (λ found. MatchOption found (read_json text.now ≡ None)
        (λ header. (j : Json) × (read_json text.now ≡ Some j) × IsHeaderOf header j)) }
{
    let Ok(text) = str::from_utf8(text) else {
        return Ok(None);
    };
    match Value::parse(alloc, text, scratch) {
        Ok(value) => Ok(Some(RawHeader {
            text,
            length: stated_length(&value),
        })),
        Err(Error::OutOfMemory) => Err(AllocError),
        Err(_) => Ok(None),
    }
}

// A line of JSON, and what follows it.
#[tactic(auto, using(crate::proofs::Parts::line_none_header, crate::proofs::Parts::header_is))]
fn read_header<'a>(
    alloc: Global,
    text: &'a [u8],
    scratch: &mut Scratch,
) -> Result<Option<(RawHeader<'a>, &'a [u8])>, AllocError>
    ensures read { IfOk result (λ found. MatchOption found (read_header text.now ≡ None)
        (λ p. (j : Json) × (read_header text.now ≡ Some (j, p.1.now)) × IsHeaderOf p.0 j)) }
    ensures shorter { IfOk result
        (λ found. IfSome found (λ p. length p.1.now < length text.now)) }
{
    let Some((line, rest)) = split_line(text) else {
        return Ok(None);
    };
    let Some(header) = read_json(alloc, line, scratch)? else {
        return Ok(None);
    };
    Ok(Some((header, rest)))
}

fn end_payload<'a>(payload: &'a [u8], rest: &'a [u8]) -> Option<(&'a [u8], &'a [u8])>
    ensures parts { option_map (λ p. (p.0.now, p.1.now)) result
        ≡ end_payload payload.now rest.now }
    ensures no_longer { IfSome result (λ p. length p.1.now ≤ length rest.now) }
{
    if rest.is_empty() {
        return Some((payload, rest));
    }
    if rest[0] == b'\n' {
        return Some((payload, &rest[1..]));
    }
    None
}

fn split_payload<'a>(stated: Option<u64>, text: &'a [u8]) -> Option<(&'a [u8], &'a [u8])>
    ensures parts { option_map (λ p. (p.0.now, p.1.now)) result ≡ split_payload stated text.now }
    ensures no_longer { IfSome result (λ p. length p.1.now ≤ length text.now) }
{
    let Some(stated) = stated else {
        return split_line(text);
    };
    if stated > text.len() as u64 {
        return None;
    }
    let count = stated as usize;
    end_payload(&text[..count], &text[count..])
}

// An item, and what follows it.
#[tactic(auto, using(crate::proofs::Parts::header_none, crate::proofs::Parts::item_is, crate::proofs::Parts::payload_no_more))]
fn read_item<'a>(
    alloc: Global,
    text: &'a [u8],
    scratch: &mut Scratch,
) -> Result<Option<(RawItem<'a>, &'a [u8])>, AllocError>
    ensures read { IfOk result (λ found. option_map {U = (Option Json × Bytes) × Bytes} (λ p. (raw_item p.0, p.1.now)) found
        ≡ option_map known_read (read_item text.now)) }
    ensures shorter { IfOk result
        (λ found. IfSome found (λ p. length p.1.now < length text.now)) }
{
    let Some((header, rest)) = read_header(alloc, text, scratch)? else {
        return Ok(None);
    };
    let Some((payload, rest)) = split_payload(header.length, rest) else {
        return Ok(None);
    };
    let item = RawItem {
        header: header.text,
        payload,
    };
    Ok(Some((item, rest)))
}

#[tactic(auto, using(crate::proofs::Parts::taken_none, crate::proofs::Parts::taken_bad, crate::proofs::Parts::taken_all))]
fn read_items<'a>(
    alloc: Global,
    text: &'a [u8],
    scratch: &mut Scratch,
) -> Result<Option<Vec<RawItem<'a>>>, AllocError>
    ensures { IfOk result (λ found. option_map (λ items. map raw_item items.items) found
        ≡ option_map (map known_item) (read_items (length text.now) text.now)) }
{
    let mut items = Vec::new(alloc);
    let mut rest = text;
    while !rest.is_empty() {
        let Some((item, left)) = read_item(alloc, rest, scratch)? else {
            return Ok(None);
        };
        items.push(item)?;
        rest = left;
    }
    Ok(Some(items))
}

/// Takes an envelope apart into its header and its items. `None` if the bytes are no envelope.
#[tactic(auto, using(crate::proofs::Parts::envelope_is))]
pub fn split_envelope<'a>(
    alloc: Global,
    text: &'a [u8],
) -> Result<Option<RawEnvelope<'a>>, AllocError>
    ensures { IfOk result (λ found. option_map raw_envelope found
        ≡ option_map known_envelope (read_envelope text.now)) }
{
    let mut scratch = Scratch::new(alloc);
    let Some((header, rest)) = read_header(alloc, text, &mut scratch)? else {
        return Ok(None);
    };
    let Some(items) = read_items(alloc, rest, &mut scratch)? else {
        return Ok(None);
    };
    Ok(Some(RawEnvelope {
        header: header.text,
        items,
    }))
}
