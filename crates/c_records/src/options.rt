//! The options of a client, a line `NAME=VALUE` each.
ghost use Rattle.std.specs.Prelude.{◌≡◌, Some, None, IfOk, IfErr};
ghost use Rattle.c_base.specs.Faults.{refusal_of};
ghost use Rattle.sentry_options.specs.Decimals.{rate_of};
ghost use Rattle.sentry_options.specs.declared.clientoptions.choices.TracesSamplingStrategy.TheVariants.{Function};

use crate::filters::Filters;
use c_base::fault::CallFault;
use sentry_base::protocol::{OrganizationId, Refusal};
use sentry_options::decimals::parse_rate;
use sentry_options::{ClientOptions, SessionMode, TracesSamplingStrategy};
use sentry_plain::Text;
use std::alloc::{AllocError, Global};

// A fault in an option, or want of memory. No option is refused for another cause.
fn option_fault(refusal: Refusal) -> CallFault
    ensures { refusal_of result ≡ None }
{
    match refusal {
        Refusal::OutOfMemory => CallFault::OutOfMemory,
        Refusal::InvalidDsn(_) => CallFault::InvalidDsn,
        Refusal::InvalidRate => CallFault::InvalidRate,
        _other => CallFault::Unknown,
    }
}

/// An option with a number or a flag.
#[derive(Clone, Copy)]
enum Setting {
    StrictTraceContinuation(bool),
    SendDefaultPii(bool),
    Organization(u64),
    SessionMode(SessionMode),
    MaxBreadcrumbs(u64),
    MaxSpans(u64),
    MaxBatchItems(u64),
    EnableLogs(bool),
    EnableMetrics(bool),
}

// A number below 2^64 in digits.
fn number(value: &str) -> Option<u64> {
    if value.starts_with('+') {
        return None;
    }
    value.parse().ok()
}

fn flag(value: &str) -> Option<bool> {
    match value {
        "0" => Some(false),
        "1" => Some(true),
        _ => None,
    }
}

fn mode(value: &str) -> Option<SessionMode> {
    match value {
        "application" => Some(SessionMode::Application),
        "request" => Some(SessionMode::Request),
        _ => None,
    }
}

impl Setting {
    fn read(name: &str, value: &str) -> Option<Setting> {
        match name {
            "strict" => flag(value).map(Setting::StrictTraceContinuation),
            "pii" => flag(value).map(Setting::SendDefaultPii),
            "org" => number(value).map(Setting::Organization),
            "mode" => mode(value).map(Setting::SessionMode),
            "crumbs" => number(value).map(Setting::MaxBreadcrumbs),
            "maxspans" => number(value).map(Setting::MaxSpans),
            "maxbatch" => number(value).map(Setting::MaxBatchItems),
            "logs" => flag(value).map(Setting::EnableLogs),
            "metrics" => flag(value).map(Setting::EnableMetrics),
            _ => None,
        }
    }
}

fn set(options: ClientOptions<Filters>, setting: Setting) -> ClientOptions<Filters> {
    match setting {
        Setting::StrictTraceContinuation(strict) => options.strict_trace_continuation(strict),
        Setting::SendDefaultPii(pii) => options.send_default_pii(pii),
        Setting::Organization(number) => options.org_id(OrganizationId(number)),
        Setting::SessionMode(mode) => options.session_mode(mode),
        Setting::MaxBreadcrumbs(count) => options.max_breadcrumbs(count as usize),
        Setting::MaxSpans(count) => options.max_spans(count as usize),
        Setting::MaxBatchItems(count) => options.max_batch_items(count as usize),
        Setting::EnableLogs(enabled) => options.enable_logs(enabled),
        Setting::EnableMetrics(enabled) => options.enable_metrics(enabled),
    }
}

// The rate that a fraction from 0 to 1 writes, in millionths.
fn rate(value: &str) -> Result<u32, Refusal>
    ensures { IfOk result (λ rate. rate_of value.now ≡ Some rate) }
{
    match parse_rate(value) {
        Some(rate) => Ok(rate),
        None => Err(Refusal::InvalidRate),
    }
}

// The options with a rate of transactions, at which the sampler of the filters gives each that no rate was given with.
fn set_traces(mut options: ClientOptions<Filters>, rate: u32) -> ClientOptions<Filters>
    ensures strategy { result.traces_sampling_strategy ≡ Function }
    ensures rate { result.callbacks.traces ≡ rate }
{
    options.traces_sampling_strategy = TracesSamplingStrategy::Function;
    options.callbacks.traces = rate;
    options
}

/// An option that is a text.
#[derive(Clone, Copy)]
enum TextOption {
    Dsn,
    Release,
    Environment,
    ServerName,
    Platform,
    SampleRate,
    TracesSampleRate,
    Filter(Filter),
}

/// An option that says what is dropped.
#[derive(Clone, Copy)]
enum Filter {
    Events,
    Breadcrumbs,
    Logs,
    Metrics,
}

impl TextOption {
    fn read(name: &str) -> Option<TextOption> {
        match name {
            "dsn" => Some(TextOption::Dsn),
            "release" => Some(TextOption::Release),
            "environment" => Some(TextOption::Environment),
            "server" => Some(TextOption::ServerName),
            "platform" => Some(TextOption::Platform),
            "rate" => Some(TextOption::SampleRate),
            "traces" => Some(TextOption::TracesSampleRate),
            "drop_events" => Some(TextOption::Filter(Filter::Events)),
            "drop_breadcrumbs" => Some(TextOption::Filter(Filter::Breadcrumbs)),
            "drop_logs" => Some(TextOption::Filter(Filter::Logs)),
            "drop_metrics" => Some(TextOption::Filter(Filter::Metrics)),
            _ => None,
        }
    }
}

// A text, or none where it is empty: everything begins with the empty text, and no platform has no name.
fn text_unless_empty(alloc: Global, value: &str) -> Result<Option<Text>, AllocError> {
    if value.is_empty() {
        return Ok(None);
    }
    Ok(Some(Text::new(alloc, value)?))
}

fn set_filter(
    mut options: ClientOptions<Filters>,
    filter: Filter,
    prefix: Option<Text>,
) -> ClientOptions<Filters> {
    match filter {
        Filter::Events => options.callbacks.events = prefix,
        Filter::Breadcrumbs => options.callbacks.breadcrumbs = prefix,
        Filter::Logs => options.callbacks.logs = prefix,
        Filter::Metrics => options.callbacks.metrics = prefix,
    }
    options
}

fn set_text(
    alloc: Global,
    mut options: ClientOptions<Filters>,
    option: TextOption,
    value: &str,
) -> Result<ClientOptions<Filters>, Refusal> {
    match option {
        TextOption::Dsn => options.dsn(value),
        TextOption::Release => options.release(value),
        TextOption::Environment => options.environment(value),
        TextOption::ServerName => options.server_name(value),
        TextOption::Platform => {
            options.callbacks.platform = text_unless_empty(alloc, value)?;
            Ok(options)
        }
        TextOption::SampleRate => options.sample_rate(rate(value)?),
        TextOption::TracesSampleRate => Ok(set_traces(options, rate(value)?)),
        TextOption::Filter(filter) => {
            let prefix = text_unless_empty(alloc, value)?;
            Ok(set_filter(options, filter, prefix))
        }
    }
}

// The options with this one set.
fn set_option(
    alloc: Global,
    options: ClientOptions<Filters>,
    name: &str,
    value: &str,
) -> Result<ClientOptions<Filters>, CallFault>
    ensures { IfErr result (λ fault. refusal_of fault ≡ None) }
{
    let done = match TextOption::read(name) {
        Some(option) => set_text(alloc, options, option, value),
        None => match Setting::read(name, value) {
            Some(setting) => Ok(set(options, setting)),
            None => return Err(CallFault::Unknown),
        },
    };
    match done {
        Ok(options) => Ok(options),
        Err(refusal) => Err(option_fault(refusal)),
    }
}

/// The options that a text sets; later lines stand over earlier ones, and empty lines say nothing.
///
/// - `dsn`, `release`, `environment` and `server` are texts, and so is `platform`, that of events which name none.
/// - `rate` and `traces` are fractions from 0 to 1, such as `0.25`, with at most six digits after the point.
/// - `strict`, `pii`, `logs` and `metrics` are `0` or `1`.
/// - `mode` is `application` or `request`.
/// - `org`, `crumbs`, `maxspans` and `maxbatch` are numbers.
/// - What begins with the text of `drop_events`, `drop_breadcrumbs`, `drop_logs` or `drop_metrics` is dropped, unless
///   that text is empty: events and breadcrumbs by their message, logs by their body, metrics by their name.
///
/// `InvalidDsn`; `InvalidRate`: a rate that is no such fraction; `Unknown`: a line without `=`, a name that is none of these, or a
/// value that isn't of its kind, such as `+5`; `OutOfMemory`.
pub fn read_options(alloc: Global, text: &str) -> Result<ClientOptions<Filters>, CallFault>
    ensures { IfErr result (λ fault. refusal_of fault ≡ None) }
{
    let mut options = ClientOptions::with_callbacks(alloc, Filters::none());
    for line in text.split('\n') {
        if !line.is_empty() {
            let Some((name, value)) = line.split_once('=') else {
                return Err(CallFault::Unknown);
            };
            options = set_option(alloc, options, name, value)?;
        }
    }
    Ok(options)
}
