//! Session updates.
ghost use Rattle.std.specs.Prelude.{OnOk};
ghost use Rattle.json.specs.Tree.{json_tokens};
ghost use Rattle.sentry_framing.specs.Json.{Adds, Puts};
ghost use Rattle.sentry_envelope.specs.Sessions.{attributes_json, put_if_true, session_json};

use crate::texts::{put_hyphenated, put_optional};
use json::Writer;
use sentry_base::protocol::{SessionAttributes, SessionUpdate};
use sentry_framing::members::{put_boolean, put_moment, put_optional_seconds, put_text, put_whole};
use std::alloc::AllocError;

fn put_if_true(out: &mut Writer, key: &str, b: bool) -> Result<(), AllocError>
    ensures { OnOk result (Puts out.old out.new (put_if_true key.now b)) }
{
    if b {
        put_boolean(out, key, b)?;
    }
    Ok(())
}

/// Writes what all sessions of a program have in common.
pub fn write_attributes(out: &mut Writer, attributes: &SessionAttributes) -> Result<(), AllocError>
    ensures { OnOk result (Adds out.old out.new (json_tokens (attributes_json attributes.now))) }
{
    out.begin_object()?;
    put_text(out, "release", attributes.release.as_str())?;
    put_optional(out, "environment", &attributes.environment)?;
    out.end_object()?;
    Ok(())
}

/// Writes a session update.
pub fn write_session(out: &mut Writer, session: &SessionUpdate) -> Result<(), AllocError>
    ensures { OnOk result (Adds out.old out.new (json_tokens (session_json session.now))) }
{
    out.begin_object()?;
    put_hyphenated(out, "sid", session.session_id)?;
    put_optional(out, "did", &session.distinct_id)?;
    put_moment(out, "started", session.started)?;
    put_if_true(out, "init", session.init)?;
    put_optional_seconds(out, "duration", session.duration)?;
    put_text(out, "status", session.status.as_str())?;
    put_whole(out, "errors", session.errors)?;
    out.key("attrs")?;
    write_attributes(out, session.attributes.get())?;
    out.end_object()?;
    Ok(())
}
