//! Values by key that stand among the members of a record.
ghost use Rattle.std.specs.Prelude.{◌≡◌, OnOk};
ghost use Rattle.sentry_plain.specs.ValueView.{data_of};
ghost use Rattle.sentry_framing.specs.Json.{Puts};
ghost use Rattle.sentry_envelope.specs.Members.{put_other, put_others};
ghost use Rattle.sentry_envelope.specs.Values.{value_json};

use crate::values::write_value;
use json::Writer;
use sentry_base::protocol::{Value, ValueMap};
use std::alloc::AllocError;

/// A record among whose members values by key are written.
pub trait OwnMembers {
    ghost use Rattle.std.specs.Prelude.{◌≡◌, Bool};
    ghost use Rattle.sentry_plain.specs.Texts.{Bytes};

    ghost own: { Self → Bytes → Bool };

    /// Whether the record has a member of its own of this name.
    fn has_own(&self, name: &str) -> bool
        ensures { result ≡ own self.now name.now };
}

// Writes a member, unless the record has one of its name itself.
fn put_other(out: &mut Writer, own: bool, key: &str, value: &Value) -> Result<(), AllocError>
    ensures { OnOk result (Puts out.old out.new
        (put_other own key.now (value_json (data_of value.now)))) }
{
    if own {
        return Ok(());
    }
    out.key(key)?;
    write_value(out, value)?;
    Ok(())
}

/// Writes values by key as members of the object that is being written, but for those whose names the record's own
/// members have.
pub fn put_others<R: OwnMembers>(
    out: &mut Writer,
    owner: &R,
    values: &ValueMap,
) -> Result<(), AllocError>
    ensures { OnOk result (Puts out.old out.new
        (put_others (R.own owner.now) value_json values.now)) }
{
    for (key, value) in values.iter() {
        let name = key.as_str();
        put_other(out, owner.has_own(name), name, value)?;
    }
    Ok(())
}
