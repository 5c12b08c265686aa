//! What becomes of a log or a metric between its capture and its batch.
ghost use Rattle.std.specs.Prelude.{◌≡◌, IfOk};
ghost use Rattle.sentry_pipeline.specs.Pipeline.{prepare_log, prepare_metric};

use crate::pipeline::attributes::fill_defaults;
use sentry_base::protocol::{Log, LogAttribute, Metric};
use sentry_options::{Callbacks, ClientOptions};
use sentry_plain::TextMap;
use sentry_scope::Scope;
use sentry_span_table::SpanTable;
use std::alloc::AllocError;

/// Prepares a log for sending: it goes under the scope, gets the default attributes that it lacks, and goes through
/// `before_send_log`. Returns `None` if that drops it.
pub fn prepare_log<P: Drop, C: Callbacks>(
    options: &ClientOptions<C>,
    defaults: &TextMap<LogAttribute>,
    spans: &SpanTable,
    scope: &Scope<P>,
    mut log: Log,
) -> Result<Option<Log>, AllocError>
    ensures { IfOk result (λ made. made ≡ prepare_log C.meanings spans.now options.now defaults.now scope.now log) }
{
    scope.apply_to_log(spans, &mut log)?;
    fill_defaults(&mut log.attributes, defaults)?;
    options.callbacks.before_send_log(log)
}

/// Prepares a metric for sending: it goes under the scope, gets the default attributes that it lacks, and goes through
/// `before_send_metric`. Returns `None` if that drops it.
pub fn prepare_metric<P: Drop, C: Callbacks>(
    options: &ClientOptions<C>,
    defaults: &TextMap<LogAttribute>,
    spans: &SpanTable,
    scope: &Scope<P>,
    mut metric: Metric,
) -> Result<Option<Metric>, AllocError>
    ensures { IfOk result (λ made. made ≡ prepare_metric C.meanings spans.now options.now defaults.now scope.now metric) }
{
    scope.apply_to_metric(spans, &mut metric, options.plain.send_default_pii)?;
    fill_defaults(&mut metric.attributes, defaults)?;
    options.callbacks.before_send_metric(metric)
}
