//! The calls that commands make.
ghost use Rattle.std.specs.Prelude.{◌≡◌, Ok, IfOk};
ghost use Rattle.sentry_texts.specs.DsnTexts.{dsn_of_text};
ghost use Rattle.replay_run.specs.declared.command.Command.TheVariants as command;
ghost use Rattle.replay_run.specs.Calls.{moment_of, fresh_of, client_key, hub_key, info_log, call_of};
ghost use Rattle.replay_run.specs.Calls.{client_dsn_text, client_dsn, client_options};

use crate::command::Command;
use crate::engine::{NoCallbacks, ReplayCall};
use sentry_base::protocol::{
    ClientKey, Draw, Envelope, Fresh, HubKey, Label, Log, LogLevel, SessionStatus, SpanId, TraceId,
    Uuid,
};
use sentry_engine::call::{Call, ClientCall, HubCall};
use sentry_options::{ClientOptions, PlainOptions, TracesSamplingStrategy};
use sentry_plain::{Boxed, Items, Text, TextMap};
use sentry_scope::{Scope, ScopeEdit};
use sentry_texts::dsn::Dsn;
use std::alloc::{AllocError, Global};

/// The tag of the engine, which all of its keys carry.
pub const TAG: u64 = 0;

const CLIENT_DSN: &str = "https://public@sentry.invalid/1";

const NANOSECONDS_PER_SECOND: u64 = 1_000_000_000;

/// The text of the clients' DSN is the text of a DSN, which has the parts that the options of every client name.
pub fn client_dsn_has_its_parts()
    ensures { dsn_of_text client_dsn_text ≡ Ok client_dsn }
{}

// The moment of the line of this number, in nanoseconds: one second for each line.
fn moment(number: u64) -> u64
    ensures { result ≡ moment_of number }
{
    number.saturating_mul(NANOSECONDS_PER_SECOND)
}

// What a call on the line of this number is handed in place of a clock and a generator of random numbers.
fn fresh(number: u64) -> Fresh
    ensures { result ≡ fresh_of number }
{
    let id = u128::from(number);
    Fresh {
        now: moment(number),
        uuid: Uuid::from_u128(id),
        trace_id: TraceId(id.to_be_bytes()),
        span_id: SpanId(number.to_be_bytes()),
        draw: Draw::new(0).unwrap(),
    }
}

fn client_key(number: u64) -> ClientKey
    ensures { result ≡ client_key number }
{
    ClientKey { tag: TAG, number }
}

fn hub_key(number: u64) -> HubKey
    ensures { result ≡ hub_key number }
{
    HubKey { tag: TAG, number }
}

// A log of this text at a moment.
fn info_log(alloc: Global, text: Text, now: u64) -> Log
    ensures { result ≡ info_log now text }
{
    Log {
        level: LogLevel::Info,
        body: text,
        trace_id: None,
        timestamp: now,
        attributes: TextMap::new(alloc),
    }
}

// The DSN of every client. It is refused for nothing but memory, by `client_dsn_has_its_parts`.
fn dsn(alloc: Global) -> Result<Dsn, AllocError>
    ensures { IfOk result (λ dsn. dsn ≡ client_dsn) }
{
    Dsn::parse(alloc, CLIENT_DSN).or(Err(AllocError))
}

// The options of a client of this release.
fn options(alloc: Global, release: Option<Text>) -> Result<ClientOptions<NoCallbacks>, AllocError>
    ensures { IfOk result (λ options. options ≡ client_options release) }
{
    let mut plain = PlainOptions::new(alloc);
    plain.dsn = Some(dsn(alloc)?);
    plain.release = release;
    Ok(ClientOptions {
        plain,
        traces_sampling_strategy: TracesSamplingStrategy::Disabled,
        callbacks: NoCallbacks,
    })
}

fn add_client(alloc: Global, number: u64, release: Option<Text>) -> Result<ReplayCall, AllocError>
    ensures { IfOk result (λ call. call ≡ call_of number (command.Client release)) }
{
    Ok(Call::Client(ClientCall::AddClient {
        options: Boxed::new(alloc, options(alloc, release)?)?,
        transport: true,
        label: Label { tag: TAG, number },
        now: moment(number),
    }))
}

fn new_hub(alloc: Global, number: u64, client: u64) -> Result<ReplayCall, AllocError>
    ensures { IfOk result (λ call. call ≡ call_of number (command.Hub client)) }
{
    let fresh = fresh(number);
    Ok(Call::Hub(HubCall::NewHub {
        client: Some(client_key(client)),
        scope: Boxed::new(alloc, Scope::new(alloc, fresh.trace_id, fresh.span_id))?,
    }))
}

fn set_tag(
    alloc: Global,
    number: u64,
    hub: u64,
    key: Text,
    value: Text,
) -> Result<ReplayCall, AllocError>
    ensures { IfOk result (λ call. call ≡ call_of number (command.Tag hub key value)) }
{
    let mut edits = Items::new(alloc);
    edits.push(ScopeEdit::SetTag(key, value))?;
    Ok(Call::Hub(HubCall::Configure {
        hub: hub_key(hub),
        edits,
        now: moment(number),
    }))
}

fn capture_log(alloc: Global, number: u64, hub: u64, text: Text) -> Result<ReplayCall, AllocError>
    ensures { IfOk result (λ call. call ≡ call_of number (command.Log hub text)) }
{
    Ok(Call::Hub(HubCall::CaptureLog {
        hub: hub_key(hub),
        log: Boxed::new(alloc, info_log(alloc, text, moment(number)))?,
    }))
}

/// Builds the call of the command on the line of this number.
pub fn build_call(alloc: Global, number: u64, command: Command) -> Result<ReplayCall, AllocError>
    ensures { IfOk result (λ call. call ≡ call_of number command) }
{
    let now = moment(number);
    let fresh = fresh(number);
    match command {
        Command::Client(release) => add_client(alloc, number, release),
        Command::Hub(client) => new_hub(alloc, number, client),
        Command::Tag { hub, key, value } => set_tag(alloc, number, hub, key, value),
        Command::Message { hub, level, text } => Ok(Call::Hub(HubCall::CaptureMessage {
            hub: hub_key(hub),
            message: text,
            level,
            fresh,
        })),
        Command::Empty(client) => Ok(Call::Client(ClientCall::SendEnvelope {
            client: client_key(client),
            envelope: Envelope::new(alloc),
        })),
        Command::Release(hub) => Ok(Call::Hub(HubCall::ReleaseHub {
            hub: hub_key(hub),
            now,
        })),
        Command::Session(hub) => Ok(Call::Hub(HubCall::StartSession {
            hub: hub_key(hub),
            fresh,
        })),
        Command::End(hub) => Ok(Call::Hub(HubCall::EndSessionWithStatus {
            hub: hub_key(hub),
            status: SessionStatus::Exited,
            now,
        })),
        Command::Flush(client) => Ok(Call::Client(ClientCall::Flush(client_key(client)))),
        Command::Log { hub, text } => capture_log(alloc, number, hub, text),
        Command::Close(client) => Ok(Call::Client(ClientCall::Close(client_key(client)))),
    }
}
