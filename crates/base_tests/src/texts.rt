//! DSNs and errors, where no command makes the call.
use sentry_base::protocol::{ErrorLink, ParseDsnError, Refusal, Uuid};
use sentry_texts::dsn::{Dsn, IntoDsn, ProjectId};
use sentry_texts::utils::event_from_error;
use std::alloc::{AllocError, Global};
use std::borrow::CowStr;
use std::test::Fail;

const DSN: &str = "https://public@sentry.invalid/1";

/// Whether the value is read as the DSN above.
fn is_read<I: IntoDsn>(alloc: Global, value: I) -> bool {
    match value.into_dsn(alloc) {
        Ok(Some(dsn)) => dsn.text() == DSN,
        Ok(None) | Err(_) => false,
    }
}

/// Whether the value is read as no DSN.
fn is_nothing<I: IntoDsn>(alloc: Global, value: I) -> bool {
    match value.into_dsn(alloc) {
        Ok(None) => true,
        Ok(Some(_)) | Err(_) => false,
    }
}

/// Whether a DSN is read as itself, behind a reference and by value.
fn is_dsn_read(alloc: Global) -> Result<bool, Refusal> {
    let dsn = Dsn::parse(alloc, DSN)?;
    Ok(is_read(alloc, &dsn) & is_read(alloc, dsn))
}

#[test]
fn many_values_are_read_as_a_dsn_or_none(rt: HostRuntime) -> Result<(), Fail> {
    let alloc = rt.alloc();
    let are_nothing = is_nothing(alloc, ())
        & is_nothing(alloc, "")
        & is_nothing(alloc, None::<&str>)
        & is_nothing(alloc, Some(""))
        & is_nothing(alloc, CowStr::Borrowed(""))
        & is_nothing(alloc, String::new(alloc));
    let are_read = is_read(alloc, DSN)
        & is_read(alloc, Some(DSN))
        & is_read(alloc, CowStr::Borrowed(DSN))
        & is_read(alloc, String::from_str(alloc, DSN)?);
    assert!(rt; are_nothing & are_read & is_dsn_read(alloc)?);
    assert!(rt; ProjectId::new(alloc, "42").is_ok());
    Ok(())
}

/// Whether the event of an error has one exception, of this type.
fn is_of_type(alloc: Global, links: &[ErrorLink], ty: &str) -> Result<bool, AllocError> {
    let event = event_from_error(alloc, links, Uuid::nil(), 5)?;
    match event.exception.as_slice() {
        [exception] => Ok(exception.ty.as_str() == ty),
        _ => Ok(false),
    }
}

#[test]
fn a_bare_message_is_of_no_type(rt: HostRuntime) -> Result<(), Fail> {
    // the debug text of a bare message is the message in quotes, which names no type
    let links = [ErrorLink::new(rt.alloc(), "\"a bare message\"", "a bare message")?];
    assert!(rt; is_of_type(rt.alloc(), &links, "Error")?);
    Ok(())
}

const REFUSALS: [Refusal; 9] = [
    Refusal::OutOfMemory,
    Refusal::Stale,
    Refusal::OutOfOrder,
    Refusal::StillNamed,
    Refusal::ScopesOpen,
    Refusal::InvalidDsn(ParseDsnError::NoUsername),
    Refusal::InvalidRate,
    Refusal::ForeignLosses,
    Refusal::Full,
];

/// What stands before the first parenthesis.
fn name_of(debug: &str) -> &str {
    match debug.split_once("(") {
        Some((name, _)) => name,
        None => debug,
    }
}

/// What an error that is printed by `anyhow` shows of its text is cut off not far behind this length.
const LONGEST: usize = 110;

/// Whether the printed refusal has its number, its name, and what to do after a semicolon, and isn't cut off.
fn says_what_to_do(alloc: Global, refusal: Refusal) -> Result<bool, AllocError> {
    let number = refusal.number();
    let printed = format!(in alloc; "{refusal}")?;
    let debug = format!(in alloc; "{refusal:?}")?;
    let name = name_of(debug.as_str());
    let start = format!(in alloc; "E{number} {name}: ")?;
    let is_whole = printed.len() <= LONGEST;
    Ok(printed.starts_with(start.as_str()) & printed.contains("; ") & is_whole)
}

#[test]
fn a_refusal_says_its_number_its_name_and_what_to_do(rt: HostRuntime) -> Result<(), Fail> {
    let alloc = rt.alloc();
    for refusal in &REFUSALS {
        assert!(rt; says_what_to_do(alloc, *refusal)?);
    }
    let printed = format!(in alloc; "{}", Refusal::StillNamed)?;
    for word in &["layer", "session", "span", "discard", "set_span(None)"] {
        assert!(rt; printed.contains(*word));
    }
    Ok(())
}
