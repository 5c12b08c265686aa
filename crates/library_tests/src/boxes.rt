//! Callbacks, as users of the library write them, and options with them in boxes.
use sentry_core::protocol::{Breadcrumb, Event, Metric, Refusal};
use sentry_core::types::Dsn;
use sentry_core::{
    BoxedBreadcrumbCallback, BoxedEventCallback, BoxedIntegration, BoxedMetricCallback,
    BoxedTracesSampler, BreadcrumbCallback, ClientOptions, EventCallback, Integration,
    MetricCallback, PlainOptions, TracesSampler, TransactionContext,
};
use std::alloc::{AllocError, Global};
use std::sync::Arc;
use std::sync::atomic::{AtomicU64, Ordering};

pub(crate) const DSN: &str = "https://public@sentry.invalid/1";

/// The number by which each callback adds or multiplies, or none where it drops every event.
#[derive(Clone, Copy)]
pub(crate) struct Plan {
    pub(crate) processor: Option<u64>,
    pub(crate) integrations: [Option<u64>; 3],
    pub(crate) before_send: Option<u64>,
}

/// What callbacks saw since the last look: the moment of the last event, 0 if there was none, and how often integrations
/// were set up.
#[derive(Clone, Copy, PartialEq, Debug)]
pub(crate) struct Seen {
    pub(crate) processor: u64,
    pub(crate) integrations: [u64; 3],
    pub(crate) before_send: u64,
    pub(crate) set_ups: [u64; 3],
}

/// Nothing.
pub(crate) const UNSEEN: Seen = Seen {
    processor: 0,
    integrations: [0; 3],
    before_send: 0,
    set_ups: [0; 3],
};

/// Notes what one callback sees.
#[derive(Drop)]
pub(crate) struct Watch {
    moment: AtomicU64,
    set_ups: AtomicU64,
}

impl Watch {
    fn new(alloc: Global) -> Result<Arc<Watch>, AllocError> {
        let moment = AtomicU64::new(0);
        let set_ups = AtomicU64::new(0);
        Ok(Arc::new(alloc, Watch { moment, set_ups })?)
    }

    fn see(&self, event: &Event) {
        self.moment.store(event.timestamp, Ordering::SeqCst);
    }

    fn count_set_up(&self) {
        self.set_ups.fetch_add(1, Ordering::SeqCst);
    }

    fn take_moment(&self) -> u64 {
        self.moment.swap(0, Ordering::SeqCst)
    }

    fn take_set_ups(&self) -> u64 {
        self.set_ups.swap(0, Ordering::SeqCst)
    }
}

/// Those of the callbacks of a plan.
#[derive(Drop)]
pub(crate) struct Watches {
    pub(crate) processor: Arc<Watch>,
    first: Arc<Watch>,
    second: Arc<Watch>,
    third: Arc<Watch>,
    before_send: Arc<Watch>,
}

impl Watches {
    pub(crate) fn new(alloc: Global) -> Result<Watches, AllocError> {
        Ok(Watches {
            processor: Watch::new(alloc)?,
            first: Watch::new(alloc)?,
            second: Watch::new(alloc)?,
            third: Watch::new(alloc)?,
            before_send: Watch::new(alloc)?,
        })
    }

    /// What they have noted, which begins anew.
    pub(crate) fn take(&self) -> Seen {
        let (first, second, third) = (&*self.first, &*self.second, &*self.third);
        Seen {
            processor: self.processor.take_moment(),
            integrations: [
                first.take_moment(),
                second.take_moment(),
                third.take_moment(),
            ],
            before_send: self.before_send.take_moment(),
            set_ups: [
                first.take_set_ups(),
                second.take_set_ups(),
                third.take_set_ups(),
            ],
        }
    }
}

/// Options with the callbacks of a plan but the processor. The DSN is taken in the set-up.
pub(crate) fn options_of(
    alloc: Global,
    plan: &Plan,
    watches: &Watches,
) -> Result<ClientOptions, Refusal> {
    let [first, second, third] = plan.integrations;
    let options = ClientOptions::from_dsn(alloc, DSN)?;
    let before_send = boxed_adds(alloc, plan.before_send, &watches.before_send)?;
    let options = options.before_send(before_send)?;
    let options = add_multiplies(alloc, options, first, &watches.first)?;
    let options = add_multiplies(alloc, options, second, &watches.second)?;
    add_multiplies(alloc, options, third, &watches.third)
}

// With an integration more, which takes the DSN and multiplies by a factor.
fn add_multiplies(
    alloc: Global,
    options: ClientOptions,
    factor: Option<u64>,
    watch: &Arc<Watch>,
) -> Result<ClientOptions, Refusal> {
    options.add_integration(boxed_multiplies(alloc, factor, None, watch)?)
}

/// Adds a number to the event's moment; without a number it drops the event.
#[derive(Drop)]
struct Adds {
    number: Option<u64>,
    watch: Arc<Watch>,
}

impl EventCallback for Adds {
    ghost use Rattle.std.specs.Prelude.{option_map, ◌+◌, ◌%◌, ◌^◌};

    ghost gives = { λ s event. option_map
        (λ number. record event { timestamp = (event.timestamp + number) % 2 ^ 64 }) s.number };

    fn call(&self, mut event: Event) -> Result<Option<Event>, AllocError> {
        self.watch.see(&event);
        let Some(number) = self.number else {
            return Ok(None);
        };
        event.timestamp = event.timestamp.wrapping_add(number);
        Ok(Some(event))
    }
}

/// A callback that adds a number.
pub(crate) fn boxed_adds(
    alloc: Global,
    number: Option<u64>,
    watch: &Arc<Watch>,
) -> Result<BoxedEventCallback, AllocError> {
    let watch = watch.clone()?;
    let callback: BoxedEventCallback = Box::new(alloc, Adds { number, watch })?;
    Ok(callback)
}

/// Gives the options its DSN, or none. Multiplies the event's moment by its factor; without a factor it drops the event.
#[derive(Drop)]
struct Multiplies {
    factor: Option<u64>,
    dsn: Option<Dsn>,
    watch: Arc<Watch>,
}

impl Integration for Multiplies {
    ghost use Rattle.std.specs.Prelude.{option_map, ◌*◌, ◌%◌, ◌^◌, codes};

    ghost meaning = { λ s. record {
      name = codes "multiplies";
      setup = λ options. record options { dsn = s.dsn };
      process_event = λ _ event. option_map
          (λ factor. record event { timestamp = (event.timestamp * factor) % 2 ^ 64 }) s.factor;
    } };

    fn name(&self) -> &str {
        "multiplies"
    }

    fn setup(&self, options: &mut PlainOptions) -> Result<(), AllocError> {
        self.watch.count_set_up();
        options.dsn = self.dsn.clone()?;
        Ok(())
    }

    fn process_event(
        &self,
        mut event: Event,
        _options: &PlainOptions,
    ) -> Result<Option<Event>, AllocError> {
        self.watch.see(&event);
        let Some(factor) = self.factor else {
            return Ok(None);
        };
        event.timestamp = event.timestamp.wrapping_mul(factor);
        Ok(Some(event))
    }
}

/// An integration that gives a DSN, or none, and multiplies by a factor.
fn boxed_multiplies(
    alloc: Global,
    factor: Option<u64>,
    dsn: Option<Dsn>,
    watch: &Arc<Watch>,
) -> Result<BoxedIntegration, AllocError> {
    let watch = watch.clone()?;
    let integration: BoxedIntegration = Box::new(alloc, Multiplies { factor, dsn, watch })?;
    Ok(integration)
}

/// An integration that gives a DSN.
pub(crate) fn giving(alloc: Global) -> Result<BoxedIntegration, Refusal> {
    let dsn = Dsn::parse(alloc, DSN)?;
    let watch = Watch::new(alloc)?;
    Ok(boxed_multiplies(alloc, Some(2), Some(dsn), &watch)?)
}

/// Sets both limits of a client: batches of nothing, and so many spans.
#[derive(Drop)]
struct Limits {
    max_spans: usize,
}

impl Integration for Limits {
    ghost use Rattle.std.specs.Prelude.{Some, codes};

    ghost meaning = { λ s. record {
      name = codes "limits";
      setup = λ options. record options { max_spans = s.max_spans; max_batch_items = 0 };
      process_event = λ _ event. Some event;
    } };

    fn name(&self) -> &str {
        "limits"
    }

    fn setup(&self, options: &mut PlainOptions) -> Result<(), AllocError> {
        options.max_spans = self.max_spans;
        options.max_batch_items = 0;
        Ok(())
    }

    fn process_event(
        &self,
        event: Event,
        _options: &PlainOptions,
    ) -> Result<Option<Event>, AllocError> {
        Ok(Some(event))
    }
}

pub(crate) fn boxed_limits(
    alloc: Global,
    max_spans: usize,
) -> Result<BoxedIntegration, AllocError> {
    let integration: BoxedIntegration = Box::new(alloc, Limits { max_spans })?;
    Ok(integration)
}

/// Drops the breadcrumbs from a moment on. If that is 0, it is refused its memory, so that a call of it shows.
#[derive(Drop)]
struct KeepsUntil(u64);

impl BreadcrumbCallback for KeepsUntil {
    ghost use Rattle.std.specs.Prelude.{Some, None, nat_lt, if◌then◌else◌};

    ghost gives = { λ s breadcrumb. if nat_lt breadcrumb.timestamp s.0 then Some breadcrumb else None };

    fn call(&self, breadcrumb: Breadcrumb) -> Result<Option<Breadcrumb>, AllocError> {
        if self.0 == 0 {
            return Err(AllocError);
        }
        if breadcrumb.timestamp < self.0 {
            return Ok(Some(breadcrumb));
        }
        Ok(None)
    }
}

/// Leaves the unit of a metric out.
#[derive(Drop)]
struct HidesUnits;

impl MetricCallback for HidesUnits {
    ghost use Rattle.std.specs.Prelude.{Some, None};

    ghost gives = { λ _ metric. Some (record metric { unit = None }) };

    fn call(&self, mut metric: Metric) -> Result<Option<Metric>, AllocError> {
        metric.unit = None;
        Ok(Some(metric))
    }
}

/// Gives every trace this rate.
#[derive(Drop)]
struct Gives(u32);

impl TracesSampler for Gives {
    ghost rate_of = { λ s _. s.0 };

    fn rate(&self, _context: &TransactionContext) -> Result<u32, AllocError> {
        Ok(self.0)
    }
}

fn other_boxes(
    alloc: Global,
    until: u64,
    rate: u32,
) -> Result<
    (
        BoxedBreadcrumbCallback,
        BoxedMetricCallback,
        BoxedTracesSampler,
    ),
    AllocError,
> {
    let breadcrumbs: BoxedBreadcrumbCallback = Box::new(alloc, KeepsUntil(until))?;
    let metrics: BoxedMetricCallback = Box::new(alloc, HidesUnits)?;
    let sampler: BoxedTracesSampler = Box::new(alloc, Gives(rate))?;
    Ok((breadcrumbs, metrics, sampler))
}

/// Options with a callback that keeps breadcrumbs until a moment, one that hides units of metrics, and a sampler of
/// this rate.
pub(crate) fn other_options(
    alloc: Global,
    until: u64,
    rate: u32,
) -> Result<ClientOptions, Refusal> {
    let (breadcrumbs, metrics, sampler) = other_boxes(alloc, until, rate)?;
    let options = ClientOptions::from_dsn(alloc, DSN)?.before_breadcrumb(breadcrumbs)?;
    options.before_send_metric(metrics)?.traces_sampler(sampler)
}
