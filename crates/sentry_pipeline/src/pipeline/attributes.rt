//! The attributes that a client gives to each log and metric that lacks them.
ghost use Rattle.std.specs.Prelude.{◌≡◌, Some, IfOk, OnOk};
ghost use Rattle.sentry_plain.specs.Defaults.{with_default};
ghost use Rattle.sentry_scope.specs.Fills.{KeepsOwn, fill_text};
ghost use Rattle.sentry_pipeline.specs.Pipeline.{default_metric_attributes, default_log_attributes, fill_defaults};

use crate::os_attributes::OsAttributes;
use sentry_base::protocol::LogAttribute;
use sentry_options::PlainOptions;
use sentry_options::constants::{SDK_NAME, VERSION};
use sentry_plain::{Text, TextMap};
use sentry_scope::attributes::put_if_absent;
use std::alloc::{AllocError, Global};

// Inserts a text at a key that has none.
fn add(
    alloc: Global,
    defaults: &mut TextMap<LogAttribute>,
    key: &str,
    value: &str,
) -> Result<(), AllocError>
    ensures { OnOk result (defaults.new ≡ fill_text key.now (Some value.now) defaults.old) }
{
    let value = Text::new(alloc, value)?;
    put_if_absent(alloc, defaults, key, &value)
}

// Inserts a text at a key that has none, if there is one.
fn add_if_any(
    alloc: Global,
    defaults: &mut TextMap<LogAttribute>,
    key: &str,
    value: &Option<Text>,
) -> Result<(), AllocError>
    ensures { OnOk result (defaults.new ≡ fill_text key.now value.now defaults.old) }
{
    match value {
        None => Ok(()),
        Some(value) => put_if_absent(alloc, defaults, key, value),
    }
}

/// The default attributes of metrics: name and version of the SDK, and of the options the environment, the release and
/// the server name, where they are set.
#[tactic(auto, unfolding(crate::specs::Pipeline::default_metric_attributes))]
pub fn default_metric_attributes(
    alloc: Global,
    options: &PlainOptions,
) -> Result<TextMap<LogAttribute>, AllocError>
    ensures { IfOk result (λ defaults. defaults ≡ default_metric_attributes options.now) }
{
    let mut defaults = TextMap::new(alloc);
    add(alloc, &mut defaults, "sentry.sdk.name", SDK_NAME)?;
    add(alloc, &mut defaults, "sentry.sdk.version", VERSION)?;
    add_if_any(
        alloc,
        &mut defaults,
        "sentry.environment",
        &options.environment,
    )?;
    add_if_any(alloc, &mut defaults, "sentry.release", &options.release)?;
    add_if_any(alloc, &mut defaults, "server.address", &options.server_name)?;
    Ok(defaults)
}

/// The default attributes of logs: those of metrics, and the name and the version of the operating system, where they
/// are known.
#[tactic(auto, unfolding(crate::specs::Pipeline::default_log_attributes))]
pub fn default_log_attributes(
    alloc: Global,
    options: &PlainOptions,
    os: &OsAttributes,
) -> Result<TextMap<LogAttribute>, AllocError>
    ensures { IfOk result (λ defaults. defaults ≡ default_log_attributes options.now os.now) }
{
    let mut defaults = default_metric_attributes(alloc, options)?;
    add_if_any(alloc, &mut defaults, "os.name", &os.name)?;
    add_if_any(alloc, &mut defaults, "os.version", &os.version)?;
    Ok(defaults)
}

// Inserts a default, unless the attributes have a value at its key.
#[tactic(auto, using(sentry_scope::proofs::FillLemmas::own_kept))]
fn put_default(
    alloc: Global,
    attributes: &mut TextMap<LogAttribute>,
    key: &str,
    value: &LogAttribute,
) -> Result<(), AllocError>
    ensures fills { OnOk result (attributes.new ≡ with_default key.now value.now attributes.old) }
    ensures own { OnOk result (KeepsOwn attributes.new attributes.old) }
{
    if attributes.get(key).is_some() {
        return Ok(());
    }
    attributes.insert(Text::new(alloc, key)?, value.clone()?)
}

// Inserts each default that the attributes lack. Where there are no attributes, they share the defaults. If memory runs
// out, some of them are inserted.
pub(super) fn fill_defaults(
    attributes: &mut TextMap<LogAttribute>,
    defaults: &TextMap<LogAttribute>,
) -> Result<(), AllocError>
    ensures fills { OnOk result (attributes.new ≡ fill_defaults defaults.now attributes.old) }
    ensures own { OnOk result (KeepsOwn attributes.new attributes.old) }
{
    let entries = defaults.iter();
    if attributes.is_empty() {
        *attributes = defaults.clone()?;
        return Ok(());
    }
    let alloc = attributes.allocator();
    for (key, value) in entries {
        put_default(alloc, attributes, key, value)?;
    }
    Ok(())
}
