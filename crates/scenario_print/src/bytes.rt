//! The bytes of envelopes.
use sentry_base::protocol::Envelope;
use sentry_envelope::{RawItem, split_envelope, to_vec};
use std::alloc::{AllocError, Global};

fn push_lengths(text: &mut String, items: &[RawItem<'_>]) -> Result<(), AllocError> {
    for item in items {
        let length = item.payload.len();
        write!(text, " {length}")?;
    }
    Ok(())
}

// How many bytes there are, and how many each payload has, as a receiver of these bytes takes them apart. Where it finds
// another number of items than the envelope has, that is told in their place.
fn heading(alloc: Global, bytes: &[u8], items: usize) -> Result<String, AllocError> {
    let length = bytes.len();
    let mut text = format!(in alloc; "bytes {length}")?;
    match split_envelope(alloc, bytes)? {
        Some(read) if read.items.len() == items => {
            push_lengths(&mut text, read.items.as_slice())?;
        }
        _other => text.push_str(" unread")?,
    }
    text.push_str("\n")?;
    Ok(text)
}

/// Puts the bytes of an envelope at the end of the output, behind a line `bytes LENGTH` with the length of each payload
/// that the plain receiver finds in them. A line feed ends them.
pub fn push_bytes(alloc: Global, out: &mut Vec<u8>, envelope: &Envelope) -> Result<(), AllocError> {
    let bytes = to_vec(alloc, envelope)?;
    let heading = heading(alloc, bytes.as_slice(), envelope.items.len())?;
    out.extend_from_slice(heading.as_bytes())?;
    out.extend_from_slice(bytes.as_slice())?;
    out.push(b'\n')?;
    Ok(())
}
