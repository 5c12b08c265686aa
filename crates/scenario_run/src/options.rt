//! How options are made of those that a `client` line names.
use crate::callbacks::{
    BreadcrumbFilter, Callbacks, Extension, Handler, LogFilter, MetricFilter, NameSampler,
};
use scenario_commands::options::{ClientOption, Filter, OptionWords, PlainOption};
use sentry_base::protocol::{OrganizationId, Refusal};
use sentry_options::ClientOptions;
use sentry_plain::Text;
use std::alloc::Global;

/// Where the events of a client go, unless an option says otherwise.
const DSN: &str = "https://public@sentry.invalid/1";

/// A client that is to be added: its options, and whether it has a transport.
#[derive(Drop)]
pub struct ClientPlan {
    pub options: ClientOptions<Callbacks>,
    pub transport: bool,
}

impl ClientPlan {
    /// A client of this release, or of none, with a DSN and a transport.
    pub fn new(alloc: Global, release: Option<&str>) -> Result<ClientPlan, Refusal> {
        let options = ClientOptions::from_dsn(alloc, DSN)?;
        Ok(ClientPlan {
            options: options.maybe_release(release)?,
            transport: true,
        })
    }

    /// The same with these options, each of which stands over those before it.
    pub fn set_all(self, alloc: Global, options: OptionWords<'_>) -> Result<ClientPlan, Refusal> {
        let Some(words) = options.words else {
            return Ok(self);
        };
        let mut plan = self;
        for word in words.split(' ') {
            if let Some(option) = ClientOption::read(word) {
                plan = plan.set(alloc, option)?;
            }
        }
        Ok(plan)
    }

    fn set(self, alloc: Global, option: ClientOption<'_>) -> Result<ClientPlan, Refusal> {
        let ClientPlan { options, transport } = self;
        if let ClientOption::Transport(transport) = option {
            return Ok(ClientPlan { options, transport });
        }
        Ok(ClientPlan {
            options: set_option(alloc, options, option)?,
            transport,
        })
    }
}

fn set_option(
    alloc: Global,
    options: ClientOptions<Callbacks>,
    option: ClientOption<'_>,
) -> Result<ClientOptions<Callbacks>, Refusal> {
    match option {
        ClientOption::Environment(text) => options.environment(text),
        ClientOption::ServerName(text) => options.server_name(text),
        ClientOption::Plain(option) => set_plain(options, option),
        ClientOption::Filter(filter, prefix) => {
            set_filter(options, filter, Text::new(alloc, prefix)?)
        }
        ClientOption::OsIntegration => options.add_integration(Extension::Os),
        ClientOption::TracesSampler => options.traces_sampler(NameSampler),
        ClientOption::Transport(_) => Ok(options),
        ClientOption::Dsn(text) => options.with_dsn(text),
        ClientOption::NoDsn => options.with_dsn(()),
    }
}

fn set_plain(
    options: ClientOptions<Callbacks>,
    option: PlainOption,
) -> Result<ClientOptions<Callbacks>, Refusal> {
    match option {
        PlainOption::SampleRate(rate) => options.sample_rate(rate),
        PlainOption::TracesSampleRate(rate) => options.traces_sample_rate(rate),
        PlainOption::StrictTraceContinuation(strict) => {
            Ok(options.strict_trace_continuation(strict))
        }
        PlainOption::SendDefaultPii(pii) => Ok(options.send_default_pii(pii)),
        PlainOption::Organization(number) => Ok(options.org_id(OrganizationId(number))),
        PlainOption::SessionMode(mode) => Ok(options.session_mode(mode)),
        PlainOption::MaxBreadcrumbs(count) => Ok(options.max_breadcrumbs(count as usize)),
        PlainOption::MaxSpans(count) => Ok(options.max_spans(count as usize)),
        PlainOption::MaxBatchItems(count) => Ok(options.max_batch_items(count as usize)),
        PlainOption::EnableLogs(enabled) => Ok(options.enable_logs(enabled)),
        PlainOption::EnableMetrics(enabled) => Ok(options.enable_metrics(enabled)),
    }
}

fn set_filter(
    options: ClientOptions<Callbacks>,
    filter: Filter,
    prefix: Text,
) -> Result<ClientOptions<Callbacks>, Refusal> {
    match filter {
        Filter::BeforeSend => options.before_send(Handler::Drop(prefix)),
        Filter::BeforeBreadcrumb => options.before_breadcrumb(BreadcrumbFilter(prefix)),
        Filter::BeforeSendLog => options.before_send_log(LogFilter(prefix)),
        Filter::BeforeSendMetric => options.before_send_metric(MetricFilter(prefix)),
        Filter::Integration => options.add_integration(Extension::Drop(prefix)),
    }
}
