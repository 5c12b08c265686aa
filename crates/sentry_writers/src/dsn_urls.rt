//! Where and how the envelopes of a DSN are posted.
ghost use Rattle.std.specs.Prelude.{◌≡◌, ◌≤◌, None, IfOk, IfErr, IsAscii, IsOk, OnOk, length, option_copied, take, string_bytes};
ghost use Rattle.url.specs.Parser.{parse_url};
ghost use Rattle.sentry_base.specs.declared.protocol.refusal.Refusal.TheVariants.{OutOfMemory};
ghost use Rattle.sentry_writers.specs.DsnUrls.{before_project, envelope_api_url, is_slash_or_not, port_text, to_auth, url_below, with_agent, without_end};

use sentry_base::protocol::{ParseDsnError, Refusal};
use sentry_plain::Text;
use sentry_texts::dsn::Dsn;
use std::alloc::{AllocError, Global};
use url::{ParseError, Url};

// How long a path is without the slashes at its end, or without what is no slash there.
#[tactic(auto, using(crate::proofs::EndLemmas::one_less, crate::proofs::EndLemmas::ends_there))]
fn length_without_end(path: &[u8], slashes: bool) -> usize
    ensures bound { result ≤ length path.now }
    ensures value { take result path.now ≡ without_end (is_slash_or_not slashes) path.now }
{
    let mut end = path.len();
    while 0 < end && (path[end - 1] == b'/') == slashes {
        end -= 1;
    }
    end
}

// The path without its last segment that isn't empty.
#[tactic(auto, using(crate::proofs::EndLemmas::ascii_boundary, crate::proofs::EndLemmas::ascii_take))]
fn before_project(path: &str) -> &str
    requires { IsAscii path.now }
    ensures { result.now ≡ before_project path.now }
{
    let path = &path[..length_without_end(path.as_bytes(), true)];
    &path[..length_without_end(path.as_bytes(), false)]
}

// A colon and the port, unless it is the default one of the scheme.
fn port_text(alloc: Global, dsn: &Dsn) -> Result<String, AllocError>
    ensures { IfOk result (λ text. string_bytes text ≡ port_text dsn.now) }
{
    if dsn.port() == dsn.scheme().default_port() {
        return Ok(String::new(alloc));
    }
    let text = format!(in alloc; ":{}", dsn.port())?;
    Ok(text)
}

// The URL, below this path.
fn url_below(alloc: Global, dsn: &Dsn, path: &str) -> Result<String, AllocError>
    ensures { IfOk result (λ url. string_bytes url ≡ url_below dsn.now path.now) }
{
    let port = port_text(alloc, dsn)?;
    let mut url = dsn.scheme().to_string(alloc)?;
    url.push_str("://")?;
    url.push_str(dsn.host())?;
    url.push_str(port.as_str())?;
    url.push_str(path)?;
    url.push_str("api/")?;
    url.push_str(dsn.project_id().value())?;
    url.push_str("/envelope/")?;
    Ok(url)
}

/// The URL to which the envelopes of a DSN are posted: its scheme and its host, its port if that isn't the default one,
/// what its path has before the project, and `api/PROJECT/envelope/`.
///
/// `OutOfMemory`.
pub fn envelope_api_url(alloc: Global, dsn: &Dsn) -> Result<Text, Refusal>
    ensures url { IfOk result (λ url. url ≡ envelope_api_url dsn.now) }
    ensures refused { IfErr result (λ refusal. IsOk (parse_url None dsn.now.text) → refusal ≡ OutOfMemory) }
{
    match Url::parse(alloc, dsn.text()) {
        Ok(url) => {
            let text = url_below(alloc, dsn, before_project(url.path()))?;
            Ok(Text::from_string(text)?)
        }
        Err(ParseError::OutOfMemory | ParseError::Overflow) => Err(Refusal::OutOfMemory),
        // of no DSN that was parsed
        Err(_) => Err(Refusal::InvalidDsn(ParseDsnError::InvalidUrl)),
    }
}

// Appends who sends, if that is told.
fn push_agent(auth: &mut String, client_agent: Option<&str>) -> Result<(), AllocError>
    ensures { OnOk result (string_bytes auth.new ≡ with_agent (string_bytes auth.old) (option_copied client_agent.entry)) }
{
    match client_agent {
        None => Ok(()),
        Some(agent) => {
            auth.push_str(", sentry_client=")?;
            auth.push_str(agent)?;
            Ok(())
        }
    }
}

/// The value of the header `X-Sentry-Auth` for a DSN, of a client that tells its name and version, as
/// `sentry.rust/0.49.3`, or doesn't.
///
/// `AllocError`: out of memory.
pub fn to_auth(alloc: Global, dsn: &Dsn, client_agent: Option<&str>) -> Result<Text, AllocError>
    ensures { IfOk result (λ auth. auth ≡ to_auth dsn.now (option_copied client_agent.entry)) }
{
    let mut auth = String::from_str(alloc, "Sentry sentry_key=")?;
    auth.push_str(dsn.public_key())?;
    auth.push_str(", sentry_version=7")?;
    push_agent(&mut auth, client_agent)?;
    Ok(Text::from_string(auth)?)
}
