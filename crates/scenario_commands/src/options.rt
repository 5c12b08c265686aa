//! The options of a `client` line, each a word `OPTION=VALUE`.
use crate::words::{number, small};
use sentry_base::protocol::SampleRate;
use sentry_options::SessionMode;

/// One option.
#[derive(Clone, Copy)]
pub enum ClientOption<'a> {
    Environment(&'a str),
    ServerName(&'a str),
    Plain(PlainOption),
    /// Drops what begins with this.
    Filter(Filter, &'a str),
    /// An integration that adds a context `os`.
    OsIntegration,
    /// Gives rates by the name of a transaction.
    TracesSampler,
    Transport(bool),
    Dsn(&'a str),
    NoDsn,
}

/// An option that holds no text.
#[derive(Clone, Copy)]
pub enum PlainOption {
    SampleRate(u32),
    TracesSampleRate(u32),
    StrictTraceContinuation(bool),
    SendDefaultPii(bool),
    Organization(u64),
    SessionMode(SessionMode),
    MaxBreadcrumbs(u64),
    MaxSpans(u64),
    MaxBatchItems(u64),
    EnableLogs(bool),
    EnableMetrics(bool),
}

/// What drops by the beginning of a text.
#[derive(Clone, Copy)]
pub enum Filter {
    /// Drops events by their message.
    BeforeSend,
    /// Drops breadcrumbs by their message.
    BeforeBreadcrumb,
    /// Drops logs by their body.
    BeforeSendLog,
    /// Drops metrics by their name.
    BeforeSendMetric,
    /// An integration that drops events by their message.
    Integration,
}

impl<'a> ClientOption<'a> {
    /// The option that a word spells.
    pub fn read(word: &'a str) -> Option<ClientOption<'a>> {
        let (name, value) = word.split_once('=')?;
        match name {
            "environment" => Some(ClientOption::Environment(value)),
            "server" => Some(ClientOption::ServerName(value)),
            "before_send" => Some(ClientOption::Filter(Filter::BeforeSend, value)),
            "before_crumb" => Some(ClientOption::Filter(Filter::BeforeBreadcrumb, value)),
            "before_log" => Some(ClientOption::Filter(Filter::BeforeSendLog, value)),
            "before_metric" => Some(ClientOption::Filter(Filter::BeforeSendMetric, value)),
            "integration" => integration(value),
            "traces" => traces(value),
            "transport" => Some(ClientOption::Transport(flag(value)?)),
            "dsn" => Some(dsn(value)),
            _ => Some(ClientOption::Plain(PlainOption::read(name, value)?)),
        }
    }
}

impl PlainOption {
    /// The option of this name.
    fn read(name: &str, value: &str) -> Option<PlainOption> {
        match name {
            "rate" => rate(value).map(PlainOption::SampleRate),
            "strict" => flag(value).map(PlainOption::StrictTraceContinuation),
            "pii" => flag(value).map(PlainOption::SendDefaultPii),
            "org" => number(value).map(PlainOption::Organization),
            "mode" => mode(value).map(PlainOption::SessionMode),
            "crumbs" => number(value).map(PlainOption::MaxBreadcrumbs),
            "maxspans" => number(value).map(PlainOption::MaxSpans),
            "maxbatch" => number(value).map(PlainOption::MaxBatchItems),
            "logs" => flag(value).map(PlainOption::EnableLogs),
            "metrics" => flag(value).map(PlainOption::EnableMetrics),
            _ => None,
        }
    }
}

/// A rate in millionths, where `1` stands for all of them.
fn rate(value: &str) -> Option<u32> {
    match value {
        "1" => Some(SampleRate::ALL),
        _ => Some(small(number(value)?)),
    }
}

fn traces(value: &str) -> Option<ClientOption<'_>> {
    match value {
        "fn" => Some(ClientOption::TracesSampler),
        _ => Some(ClientOption::Plain(PlainOption::TracesSampleRate(rate(value)?))),
    }
}

fn flag(value: &str) -> Option<bool> {
    match value {
        "0" => Some(false),
        "1" => Some(true),
        _ => None,
    }
}

fn mode(value: &str) -> Option<SessionMode> {
    match value {
        "application" => Some(SessionMode::Application),
        "request" => Some(SessionMode::Request),
        _ => None,
    }
}

fn integration(value: &str) -> Option<ClientOption<'_>> {
    match value {
        "os" => Some(ClientOption::OsIntegration),
        _ => Some(ClientOption::Filter(Filter::Integration, value.strip_prefix("drop:")?)),
    }
}

fn dsn(value: &str) -> ClientOption<'_> {
    match value {
        "-" => ClientOption::NoDsn,
        _ => ClientOption::Dsn(value),
    }
}

/// Words that each spell an option, or no word.
#[derive(Clone, Copy)]
pub struct OptionWords<'a> {
    pub words: Option<&'a str>,
}

impl<'a> OptionWords<'a> {
    /// The words of a text, if each of them spells an option.
    pub(crate) fn read(words: Option<&'a str>) -> Option<OptionWords<'a>> {
        if let Some(words) = words {
            for word in words.split(' ') {
                ClientOption::read(word)?;
            }
        }
        Some(OptionWords { words })
    }
}
