//! Where and how the envelopes of a DSN are posted.
ghost use Rattle.std.specs.Prelude.{◌≡◌, IfOk, OnOk, option_copied};
ghost use Rattle.dochirwa.specs.Posting.{IsAnswered, IsCopied, IsTold, ReadsAuth, ReadsUrl, agent_of};

use c_base::fault::{CallFault, code};
use c_base::numbers::text;
use c_base::outbox::copy_text;
use sentry_plain::Text;
use sentry_texts::dsn::Dsn;
use sentry_writers::{envelope_api_url, to_auth};
use std::alloc::Global;

#[tactic(auto, using(crate::proofs::Posted::reads_url))]
fn url_of(alloc: Global, dsn: &[u8]) -> Result<Text, CallFault>
    ensures { IfOk result (λ url. ReadsUrl dsn.now url) }
{
    let dsn = Dsn::parse(alloc, text(dsn)?)?;
    let url = envelope_api_url(alloc, &dsn)?;
    Ok(url)
}

// How a client calls itself: not at all, where the text is empty.
fn agent_of(text: &str) -> Option<&str>
    ensures { option_copied result ≡ agent_of text.now }
{
    if text.is_empty() {
        return None;
    }
    Some(text)
}

#[tactic(auto, using(crate::proofs::Posted::reads_auth))]
fn auth_of(alloc: Global, dsn: &[u8], client_agent: &[u8]) -> Result<Text, CallFault>
    ensures { IfOk result (λ auth. ReadsAuth dsn.now client_agent.now auth) }
{
    let dsn = Dsn::parse(alloc, text(dsn)?)?;
    let agent = agent_of(text(client_agent)?);
    let auth = to_auth(alloc, &dsn, agent)?;
    Ok(auth)
}

// Sets how long a text is, and copies it where the room holds it.
fn copy(text: &Text, room: &mut [u8], length: &mut usize)
    ensures { IsCopied text.now room.old room.new length.new }
{
    let bytes = text.as_str().as_bytes();
    *length = bytes.len();
    let _ = copy_text(bytes, room);
}

#[tactic(auto, using(crate::proofs::Posted::told))]
fn tell_url(alloc: Global, dsn: &[u8], room: &mut [u8], length: &mut usize) -> Result<(), CallFault>
    ensures { OnOk result (IsTold (ReadsUrl dsn.now) room.old room.new length.new) }
{
    let url = url_of(alloc, dsn)?;
    copy(&url, room, length);
    Ok(())
}

#[tactic(auto, using(crate::proofs::Posted::told))]
fn tell_auth(
    alloc: Global,
    dsn: &[u8],
    client_agent: &[u8],
    room: &mut [u8],
    length: &mut usize,
) -> Result<(), CallFault>
    ensures { OnOk result (IsTold (ReadsAuth dsn.now client_agent.now) room.old room.new length.new) }
{
    let auth = auth_of(alloc, dsn, client_agent)?;
    copy(&auth, room, length);
    Ok(())
}

/// Sets how long the URL is to which the envelopes of a DSN are posted, and copies it where the room holds it.
#[unsafe(no_mangle)]
pub extern "C" fn dochirwa_envelope_api_url(
    alloc: Global,
    dsn: &[u8],
    room: &mut [u8],
    length: &mut usize,
) -> u32
    ensures { IsAnswered (ReadsUrl dsn.now) room.old room.new length.new result }
{
    code(tell_url(alloc, dsn, room, length))
}

/// The same of the value of the header `X-Sentry-Auth`, of a client of this name and version (empty: not told).
#[unsafe(no_mangle)]
pub extern "C" fn dochirwa_to_auth(
    alloc: Global,
    dsn: &[u8],
    client_agent: &[u8],
    room: &mut [u8],
    length: &mut usize,
) -> u32
    ensures { IsAnswered (ReadsAuth dsn.now client_agent.now) room.old room.new length.new result }
{
    code(tell_auth(alloc, dsn, client_agent, room, length))
}
