//! Lists and maps of what has a form in JSON.
ghost use Rattle.std.specs.Prelude.{◌≡◌, OnOk};
ghost use Rattle.json.specs.Json.{array};
ghost use Rattle.json.specs.Tree.{json_tokens};
ghost use Rattle.sentry_framing.specs.Json.{Adds, Puts, items_of};
ghost use Rattle.sentry_envelope.specs.Members.{map_json, put_items, put_map};

use json::Writer;
use sentry_plain::{Text, TextMap};
use std::alloc::AllocError;

/// What has a form in JSON.
pub trait WriteJson {
    ghost use Rattle.json.specs.Json.{Json};
    ghost use Rattle.json.specs.Tree.{json_tokens};
    ghost use Rattle.std.specs.Prelude.{OnOk};
    ghost use Rattle.sentry_framing.specs.Json.{Adds};

    ghost json: { Self → Json };

    /// Writes the value.
    fn write(&self, out: &mut Writer) -> Result<(), AllocError>
        ensures { OnOk result (Adds out.old out.new (json_tokens (json self.now))) };
}

impl WriteJson for Text {
    ghost use Rattle.json.specs.Json.{string};

    ghost json = { string };

    fn write(&self, out: &mut Writer) -> Result<(), AllocError> {
        out.string(self.as_str())?;
        Ok(())
    }
}

/// Writes a list.
pub fn write_items<T: WriteJson>(out: &mut Writer, items: &[T]) -> Result<(), AllocError>
    ensures { OnOk result (Adds out.old out.new (json_tokens (array (items_of T.json items.now)))) }
{
    out.begin_array()?;
    for item in items {
        item.write(out)?;
    }
    out.end_array()?;
    Ok(())
}

/// Writes a list, if it has items.
pub fn put_items<T: WriteJson>(out: &mut Writer, key: &str, items: &[T]) -> Result<(), AllocError>
    ensures { OnOk result (Puts out.old out.new (put_items T.json key.now items.now)) }
{
    if items.is_empty() {
        return Ok(());
    }
    out.key(key)?;
    write_items(out, items)?;
    Ok(())
}

fn write_text_map<T: WriteJson>(out: &mut Writer, map: &TextMap<T>) -> Result<(), AllocError>
    ensures { OnOk result (Adds out.old out.new (json_tokens (map_json T.json map.now))) }
{
    out.begin_object()?;
    for (key, value) in map.iter() {
        out.key(key)?;
        value.write(out)?;
    }
    out.end_object()?;
    Ok(())
}

/// Writes a map, if it has entries.
pub fn put_text_map<T: WriteJson>(
    out: &mut Writer,
    key: &str,
    map: &TextMap<T>,
) -> Result<(), AllocError>
    ensures { OnOk result (Puts out.old out.new (put_map T.json key.now map.now)) }
{
    if map.is_empty() {
        return Ok(());
    }
    out.key(key)?;
    write_text_map(out, map)?;
    Ok(())
}
