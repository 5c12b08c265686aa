//! What becomes of an event between its capture and its envelope.
ghost use Rattle.std.specs.Prelude.{◌≡◌, Some, IfOk, OnOk};
ghost use Rattle.std.specs.Option.{option_or, option_copied, option_and_then};
ghost use Rattle.sentry_base.specs.declared.protocol.event.Event.{Event};
ghost use Rattle.sentry_pipeline.specs.Pipeline.{with_id, with_sdk, sdk_info, with_defaults, fill_if_any, process_if_any, sample, loss_reason, prepare_event};

mod attributes;
mod telemetry;

pub use attributes::{default_log_attributes, default_metric_attributes};
use sentry_base::callbacks::EventCallback;
use sentry_base::protocol::{ClientSdkInfo, ClientSdkPackage, Draw, Event, Fresh, Reason, Uuid};
use sentry_options::constants::{PACKAGE_NAME, SDK_NAME, VERSION};
use sentry_options::{Callbacks, ClientOptions, EventSamplingStrategy, PlainOptions};
use sentry_plain::{Boxed, Items, Shared, Text};
use sentry_scope::Scope;
use sentry_span_table::SpanTable;
use std::alloc::{AllocError, Global};
pub use telemetry::{prepare_log, prepare_metric};

/// The callback that dropped an event.
#[derive(Clone, Copy, Debug, PartialEq, Eq)]
pub enum Place {
    /// A processor of the scope.
    EventProcessor,
    /// An integration of the client.
    Integration,
    /// The client's `before_send`.
    BeforeSend,
}

/// Whether a captured event is to be sent.
#[derive(Clone, Copy, Debug, PartialEq, Eq)]
pub enum Preparation {
    /// It is to be sent.
    Kept,
    /// It came through all callbacks, and sampling left it out.
    SampledOut,
    /// A callback dropped it.
    Dropped(Place),
}

impl Preparation {
    /// Why the event is counted as lost, if it is.
    pub fn loss_reason(self) -> Option<Reason>
        ensures { result ≡ loss_reason self }
    {
        match self {
            Preparation::Kept => None,
            Preparation::SampledOut => Some(Reason::SampleRate),
            Preparation::Dropped(Place::BeforeSend) => Some(Reason::BeforeSend),
            Preparation::Dropped(_) => Some(Reason::EventProcessor),
        }
    }
}

// Replaces a nil id by the fresh one.
fn fill_in_id(fresh: Uuid, event: &mut Event)
    ensures { event.new ≡ with_id fresh event.old }
{
    if event.event_id.is_nil() {
        event.event_id = fresh;
    }
}

/// What every event and transaction of a client says of the SDK.
pub fn sdk_info<C: Callbacks>(
    alloc: Global,
    callbacks: &C,
) -> Result<Shared<ClientSdkInfo>, AllocError>
    ensures { IfOk result (λ info. info ≡ sdk_info (C.meanings callbacks.now)) }
{
    let mut packages = Items::new(alloc);
    packages.push(ClientSdkPackage {
        name: Text::new(alloc, PACKAGE_NAME)?,
        version: Text::new(alloc, VERSION)?,
    })?;
    let info = ClientSdkInfo {
        name: Text::new(alloc, SDK_NAME)?,
        version: Text::new(alloc, VERSION)?,
        packages,
        integrations: callbacks.integration_names(alloc)?,
    };
    let share = Shared::new(alloc, info)?;
    Ok(share)
}

// Names the SDK, if the event names none. The event shares what is said of it.
fn fill_in_sdk(sdk: &Shared<ClientSdkInfo>, event: &mut Event) -> Result<(), AllocError>
    ensures { OnOk result (event.new ≡ with_sdk sdk.now event.old) }
{
    if event.sdk.is_none() {
        event.sdk = Some(sdk.clone()?);
    }
    Ok(())
}

// Puts the option where the event has no text.
fn fill_in(text: &mut Option<Text>, option: &Option<Text>) -> Result<(), AllocError>
    ensures { OnOk result (text.new ≡ option_or text.old option.now) }
{
    if text.is_none() {
        *text = option.clone()?;
    }
    Ok(())
}

// Puts the options where the event lacks a text, and names its platform.
fn fill_in_defaults(
    alloc: Global,
    options: &PlainOptions,
    event: &mut Event,
) -> Result<(), AllocError>
    ensures { OnOk result (event.new ≡ with_defaults options.now event.old) }
{
    fill_in(&mut event.release, &options.release)?;
    fill_in(&mut event.environment, &options.environment)?;
    fill_in(&mut event.server_name, &options.server_name)?;
    if event.platform.as_str() == "other" {
        event.platform = Text::new(alloc, "native")?;
    }
    Ok(())
}

// Gives an event what it has before any callback: an id, the SDK, and what the scope fills in.
fn fill_in_before_callbacks<P: Drop>(
    sdk: &Shared<ClientSdkInfo>,
    spans: &SpanTable,
    scope: Option<&Scope<P>>,
    fresh: Uuid,
    event: &mut Event,
) -> Result<(), AllocError>
    ensures { OnOk result (event.new ≡ fill_if_any spans.now (option_copied scope.entry)
        (with_sdk sdk.now (with_id fresh event.old))) }
{
    fill_in_id(fresh, event);
    fill_in_sdk(sdk, event)?;
    match scope {
        None => Ok(()),
        Some(scope) => scope.fill_event(spans, event),
    }
}

// Passes an event through the processors of the scope, if there is one.
fn process_by_scope<P: EventCallback + Drop>(
    scope: Option<&Scope<P>>,
    event: &mut Option<Boxed<Event>>,
) -> Result<(), AllocError>
    ensures { OnOk result
        (event.new ≡ option_and_then (process_if_any P.gives (option_copied scope.entry)) event.old) }
{
    match scope {
        None => Ok(()),
        Some(scope) => scope.process_event(event),
    }
}

// Whether an event with this draw is to be sent.
fn sample(strategy: EventSamplingStrategy, draw: Draw) -> Preparation
    ensures { result ≡ sample strategy draw }
{
    match strategy {
        EventSamplingStrategy::FixedRate(rate) if rate.keeps(draw) => Preparation::Kept,
        EventSamplingStrategy::FixedRate(_) => Preparation::SampledOut,
    }
}

/// Prepares an event for sending, in its box: it gets an id and what the client says of the SDK, goes under the scope, if
/// there is one, through its processors and the integrations, gets the defaults of the options, goes through
/// `before_send`, and is sampled. The first callback that returns `None` drops it: then the event becomes `None`. Given
/// `None`, it does nothing. If memory runs out, some of this was done.
#[tactic(auto, unfolding(crate::specs::Pipeline::prepare_event))]
pub fn prepare_event<P: EventCallback + Drop, C: Callbacks>(
    alloc: Global,
    options: &ClientOptions<C>,
    sdk: &Shared<ClientSdkInfo>,
    spans: &SpanTable,
    scope: Option<&Scope<P>>,
    fresh: Fresh,
    event: &mut Option<Boxed<Event>>,
) -> Result<Preparation, AllocError>
    ensures preparation { (captured : Event) → event.old ≡ Some captured → IfOk result (λ preparation. preparation ≡
        (prepare_event P.gives C.meanings spans.now options.now sdk.now (option_copied scope.entry) fresh captured).preparation) }
    ensures event { (captured : Event) → event.old ≡ Some captured → OnOk result (event.new ≡
        (prepare_event P.gives C.meanings spans.now options.now sdk.now (option_copied scope.entry) fresh captured).event) }
{
    let callbacks = &options.callbacks;
    let Some(captured) = event else {
        return Ok(Preparation::Kept);
    };
    fill_in_before_callbacks(sdk, spans, scope, fresh.uuid, captured.get_mut())?;
    process_by_scope(scope, event)?;
    if event.is_none() {
        return Ok(Preparation::Dropped(Place::EventProcessor));
    }
    callbacks.process_event(event, &options.plain)?;
    let Some(integrated) = event else {
        return Ok(Preparation::Dropped(Place::Integration));
    };
    fill_in_defaults(alloc, &options.plain, integrated.get_mut())?;
    callbacks.before_send(event)?;
    if event.is_none() {
        return Ok(Preparation::Dropped(Place::BeforeSend));
    }
    Ok(sample(options.plain.event_sampling_strategy, fresh.draw))
}
