//! Attributes of logs and metrics: the members of an object.
ghost use Rattle.std.specs.Prelude.{◌≡◌, None, IfErr};
ghost use Rattle.c_base.specs.Faults.{refusal_of};

use c_base::fault::CallFault;
use sentry_base::protocol::LogAttribute;
use sentry_plain::{Text, TextMap, ValueMap};
use std::alloc::Global;

/// The attributes that an object describes: each of its members, of any kind.
///
/// `OutOfMemory`.
pub fn attributes_of(alloc: Global, members: &ValueMap) -> Result<TextMap<LogAttribute>, CallFault>
    ensures { IfErr result (λ fault. refusal_of fault ≡ None) }
{
    let mut attributes = TextMap::new(alloc);
    for (key, value) in members.iter() {
        let attribute = LogAttribute(value.clone()?);
        attributes.insert(Text::from_string(key.clone()?)?, attribute)?;
    }
    Ok(attributes)
}
