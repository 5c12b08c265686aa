//! Breadcrumbs.
ghost use Rattle.std.specs.Prelude.{OnOk};
ghost use Rattle.json.specs.Tree.{json_tokens};
ghost use Rattle.sentry_framing.specs.Json.{Adds, Puts};
ghost use Rattle.sentry_envelope.specs.Breadcrumbs.{put_values, breadcrumb_json};

use crate::texts::put_optional;
use crate::values::write_map;
use crate::write_json::WriteJson;
use json::Writer;
use sentry_base::protocol::{Breadcrumb, ValueMap};
use sentry_framing::members::{put_seconds, put_text};
use std::alloc::AllocError;

/// Writes values by key, if there are any.
pub fn put_values(out: &mut Writer, key: &str, values: &ValueMap) -> Result<(), AllocError>
    ensures { OnOk result (Puts out.old out.new (put_values key.now values.now)) }
{
    if values.is_empty() {
        return Ok(());
    }
    out.key(key)?;
    write_map(out, values)?;
    Ok(())
}

impl WriteJson for Breadcrumb {
    ghost use Rattle.sentry_envelope.specs.Breadcrumbs.{breadcrumb_json};

    ghost json = { breadcrumb_json };

    fn write(&self, out: &mut Writer) -> Result<(), AllocError> {
        out.begin_object()?;
        put_seconds(out, "timestamp", self.timestamp)?;
        put_text(out, "type", self.ty.as_str())?;
        put_optional(out, "category", &self.category)?;
        put_text(out, "level", self.level.as_str())?;
        put_optional(out, "message", &self.message)?;
        put_values(out, "data", &self.data_)?;
        out.end_object()?;
        Ok(())
    }
}
