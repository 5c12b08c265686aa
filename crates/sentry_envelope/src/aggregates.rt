//! Counts of sessions.
ghost use Rattle.std.specs.Prelude.{◌≡◌, OnOk};
ghost use Rattle.json.specs.Tree.{json_tokens};
ghost use Rattle.sentry_framing.specs.Json.{Adds, Puts};
ghost use Rattle.sentry_envelope.specs.Aggregates.{aggregates_json, put_count};

use crate::sessions::write_attributes;
use crate::texts::put_optional;
use crate::write_json::{WriteJson, write_items};
use json::Writer;
use sentry_base::protocol::{SessionAggregateItem, SessionAggregates};
use sentry_framing::members::{put_moment, put_whole};
use std::alloc::AllocError;

fn put_count(out: &mut Writer, key: &str, count: u32) -> Result<(), AllocError>
    ensures { OnOk result (Puts out.old out.new (put_count key.now count)) }
{
    if count == 0 {
        return Ok(());
    }
    put_whole(out, key, count as u64)?;
    Ok(())
}

impl WriteJson for SessionAggregateItem {
    ghost use Rattle.sentry_envelope.specs.Aggregates.{counts_json};

    ghost json = { counts_json };

    fn write(&self, out: &mut Writer) -> Result<(), AllocError> {
        out.begin_object()?;
        put_moment(out, "started", self.started)?;
        put_optional(out, "did", &self.distinct_id)?;
        put_count(out, "exited", self.exited)?;
        put_count(out, "errored", self.errored)?;
        put_count(out, "abnormal", self.abnormal)?;
        put_count(out, "crashed", self.crashed)?;
        out.end_object()?;
        Ok(())
    }
}

/// Writes counts of sessions.
pub fn write_aggregates(out: &mut Writer, aggregates: &SessionAggregates) -> Result<(), AllocError>
    ensures { OnOk result (Adds out.old out.new (json_tokens (aggregates_json aggregates.now))) }
{
    out.begin_object()?;
    out.key("aggregates")?;
    write_items(out, aggregates.aggregates.as_slice())?;
    out.key("attrs")?;
    write_attributes(out, aggregates.attributes.get())?;
    out.end_object()?;
    Ok(())
}
