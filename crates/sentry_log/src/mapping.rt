//! The breadcrumb, the event and the log of a record.
ghost use Rattle.std.specs.Prelude.{◌≡◌, [], is_some, IfOk, IfSome, OnOk};
ghost use Rattle.std.specs.List.{FoldsTo};
ghost use Rattle.log.specs.Kv.{value_bool, value_i128, value_text};
ghost use Rattle.log.specs.Record.{metadata_level, metadata_target};
ghost use Rattle.log.specs.Record.{record_args, record_key_values};
ghost use Rattle.sentry_plain.specs.declared.value.Value.TheVariants as of_value;
ghost use Rattle.sentry_plain.specs.Texts.{Bytes, put};
ghost use Rattle.sentry_log.specs.Mappings.{AddsExtra, AddsPair, Attributes, Extras, PrintsAs, text_attribute};
ghost use Rattle.sentry_log.specs.Mappings.{breadcrumb_of, event_of, level_in, level_of, log_level_of, target_in, target_key};

use crate::filter::LogFilter;
use log::kv::{Source, VisitSource};
use log::span::Spans;
use log::{Level, Metadata, Record, kv};
use sentry_base::protocol;
use sentry_base::protocol::{Breadcrumb, Event, Log, LogAttribute, LogLevel, Uuid};
use sentry_plain::{Text, TextMap, Value, ValueMap};
use std::alloc::{AllocError, Global};
use std::fmt::Display;
use std::marker::Model;

/// What is made of a record.
#[derive(Drop)]
pub struct RecordMapping {
    pub breadcrumb: Option<Breadcrumb>,
    pub event: Option<Event>,
    pub log: Option<Log>,
}

/// The level of the breadcrumb and of the event.
pub fn level_of(level: Level) -> protocol::Level
    ensures { result ≡ level_of level }
{
    match level {
        Level::Error => protocol::Level::Error,
        Level::Warn => protocol::Level::Warning,
        Level::Info => protocol::Level::Info,
        Level::Debug | Level::Trace => protocol::Level::Debug,
    }
}

/// The level of the log.
pub fn log_level_of(level: Level) -> LogLevel
    ensures { result ≡ log_level_of level }
{
    match level {
        Level::Error => LogLevel::Error,
        Level::Warn => LogLevel::Warn,
        Level::Info => LogLevel::Info,
        Level::Debug => LogLevel::Debug,
        Level::Trace => LogLevel::Trace,
    }
}

/// What is made of a record at this moment, in nanoseconds since the epoch. A log has the pairs of the record as
/// attributes, and an event has them as extra data, and the target as the tag `logger`: whole numbers stay numbers, and what
/// is neither a number nor a `bool` is its text. The event has the nil id until it is captured.
///
/// An allocation may fail.
pub fn map_record<D: Display, K: Source, S: Spans>(
    alloc: Global,
    now: u64,
    record: &Record<'_, D, K, S>,
    becomes: LogFilter,
) -> Result<RecordMapping, AllocError>
    ensures which { IfOk result (λ made. (is_some made.breadcrumb ≡ becomes.breadcrumb)
        × (is_some made.event ≡ becomes.event) × (is_some made.log ≡ becomes.log)) }
    ensures text { IfOk result (λ made. (text : Bytes)
        × IfSome (D.output (record_args «record».now)) (λ shown. text ≡ shown)
        × IfSome made.breadcrumb (λ breadcrumb. breadcrumb
        ≡ breadcrumb_of now (level_in «record».now) (target_in «record».now) text)
        × IfSome made.log (λ log. (log.body ≡ text) × (log.timestamp ≡ now)
        × (log.level ≡ log_level_of (level_in «record».now)))) }
    ensures attributes { IfOk result (λ made. IfSome made.log (λ log. (pairs : Attributes)
        × (log.attributes ≡ put pairs target_key (text_attribute (target_in «record».now)))
        × IfSome (K.pairs (record_key_values «record».now)) (λ list. FoldsTo AddsPair [] list pairs))) }
    ensures event { IfOk result (λ made. IfSome made.event (λ event. (text : Bytes) × (extra : Extras)
        × IfSome (D.output (record_args «record».now)) (λ shown. text ≡ shown)
        × (event ≡ event_of now (level_in «record».now) (target_in «record».now) text extra)
        × IfSome (K.pairs (record_key_values «record».now)) (λ list. FoldsTo AddsExtra [] list extra))) }
{
    let text = print(alloc, record.args())?;
    let breadcrumb = match becomes.breadcrumb {
        false => None,
        true => Some(make_breadcrumb(alloc, now, record.metadata(), text.as_str())?),
    };
    let log = match becomes.log {
        false => None,
        true => Some(make_log(
            alloc,
            now,
            record.metadata(),
            text.as_str(),
            record.key_values(),
        )?),
    };
    let event = match becomes.event {
        false => None,
        true => Some(make_event(alloc, now, record.metadata(), text, record.key_values())?),
    };
    Ok(RecordMapping {
        breadcrumb,
        event,
        log,
    })
}

// What is printed of it.
fn print<D: Display>(alloc: Global, shown: &D) -> Result<Text, AllocError>
    ensures { IfOk result (λ text. IfSome (D.output shown.now) (λ output. text ≡ output)) }
{
    Text::from_string(format!(in alloc; "{shown}")?)
}

fn make_breadcrumb(
    alloc: Global,
    now: u64,
    metadata: &Metadata<'_>,
    text: &str,
) -> Result<Breadcrumb, AllocError>
    ensures { IfOk result (λ made. made ≡ breadcrumb_of now (metadata_level metadata.now) (metadata_target metadata.now) text.now) }
{
    let mut breadcrumb = Breadcrumb::new(alloc, now)?;
    breadcrumb.level = level_of(metadata.level());
    breadcrumb.category = Some(Text::new(alloc, metadata.target())?);
    breadcrumb.message = Some(Text::new(alloc, text)?);
    Ok(breadcrumb)
}

// An event with the target as a tag, and the pairs as extra data.
fn make_event<K: Source>(
    alloc: Global,
    now: u64,
    metadata: &Metadata<'_>,
    text: Text,
    pairs: &K,
) -> Result<Event, AllocError>
    ensures { IfOk result (λ made. (extra : Extras)
        × (made ≡ event_of now (metadata_level metadata.now) (metadata_target metadata.now) text extra)
        × IfSome (K.pairs pairs.now) (λ list. FoldsTo AddsExtra [] list extra)) }
{
    let key = Text::new(alloc, "logger")?;
    let target = Text::new(alloc, metadata.target())?;
    let extra = collect_extra(alloc, pairs)?;
    let mut event = Event::new(alloc, Uuid::nil(), now)?;
    event.level = level_of(metadata.level());
    event.message = Some(text);
    event.tags.insert(key, target)?;
    event.extra = extra;
    Ok(event)
}

// A log with the target and the pairs as attributes.
fn make_log<K: Source>(
    alloc: Global,
    now: u64,
    metadata: &Metadata<'_>,
    text: &str,
    pairs: &K,
) -> Result<Log, AllocError>
    ensures log { IfOk result (λ log. (log.body ≡ text.now) × (log.timestamp ≡ now)
        × (log.level ≡ log_level_of (metadata_level metadata.now))) }
    ensures attributes { IfOk result (λ log. (all : Attributes)
        × (log.attributes ≡ put all target_key (text_attribute (metadata_target metadata.now)))
        × IfSome (K.pairs pairs.now) (λ list. FoldsTo AddsPair [] list all)) }
{
    let target = Text::new(alloc, metadata.target())?;
    let key = Text::new(alloc, "logger.target")?;
    let mut attributes = collect_pairs(alloc, pairs)?;
    attributes.insert(key, LogAttribute(Value::Text(target)))?;
    let mut log = Log::new(alloc, log_level_of(metadata.level()), text, now)?;
    log.attributes = attributes;
    Ok(log)
}

// What takes the pairs of a record. Contracts see the attributes.
#[derive(Drop)]
struct Pairs {
    alloc: Global,
    attributes: TextMap<LogAttribute>,
}

impl Model for Pairs {
    ghost use Rattle.std.specs.Coded.{codes};
    ghost use Rattle.sentry_plain.specs.Values.{data_code};
    ghost use Rattle.sentry_log.specs.Mappings.{Attributes};

    ghost Value = { Attributes };

    ghost coded = { Prim.hlevel (codes, data_code) };

    ghost view = { λ pairs. pairs.attributes };
}

impl VisitSource for Pairs {
    ghost use Rattle.sentry_log.specs.Mappings.{AddsPair};

    ghost visit_pair_gives = { AddsPair };

    fn visit_pair<D: Display>(
        &mut self,
        key: &str,
        value: kv::Value<'_, D>,
    ) -> Result<(), kv::Error> {
        match add_pair(self.alloc, &mut self.attributes, key, value) {
            Ok(()) => Ok(()),
            Err(_) => Err(kv::Error::msg("out of memory")),
        }
    }
}

fn add_pair<D: Display>(
    alloc: Global,
    attributes: &mut TextMap<LogAttribute>,
    key: &str,
    value: kv::Value<'_, D>,
) -> Result<(), AllocError>
    ensures { OnOk result (IfSome (value_text D.output value.entry)
        (λ text. AddsPair attributes.old (key.now, text) attributes.new)) }
{
    let key = Text::new(alloc, key)?;
    let value = make_value(alloc, value)?;
    attributes.insert(key, LogAttribute(value))
}

// What takes the pairs of a record as extra data. Contracts see the data.
#[derive(Drop)]
struct ExtraPairs {
    alloc: Global,
    extra: ValueMap,
}

impl Model for ExtraPairs {
    ghost use Rattle.std.specs.Coded.{codes};
    ghost use Rattle.sentry_plain.specs.Values.{data_code};
    ghost use Rattle.sentry_log.specs.Mappings.{Extras};

    ghost Value = { Extras };

    ghost coded = { Prim.hlevel (codes, data_code) };

    ghost view = { λ pairs. pairs.extra };
}

impl VisitSource for ExtraPairs {
    ghost use Rattle.sentry_log.specs.Mappings.{AddsExtra};

    ghost visit_pair_gives = { AddsExtra };

    fn visit_pair<D: Display>(
        &mut self,
        key: &str,
        value: kv::Value<'_, D>,
    ) -> Result<(), kv::Error> {
        match add_extra(self.alloc, &mut self.extra, key, value) {
            Ok(()) => Ok(()),
            Err(_) => Err(kv::Error::msg("out of memory")),
        }
    }
}

fn add_extra<D: Display>(
    alloc: Global,
    extra: &mut ValueMap,
    key: &str,
    value: kv::Value<'_, D>,
) -> Result<(), AllocError>
    ensures { OnOk result (IfSome (value_text D.output value.entry)
        (λ text. AddsExtra extra.old (key.now, text) extra.new)) }
{
    let key = Text::new(alloc, key)?;
    let value = make_value(alloc, value)?;
    extra.insert(key, value)
}

// As `collect_pairs`.
fn collect_extra<K: Source>(alloc: Global, pairs: &K) -> Result<ValueMap, AllocError>
    ensures { IfOk result (λ all. IfSome (K.pairs pairs.now) (λ list. FoldsTo AddsExtra [] list all)) }
{
    let mut all = ExtraPairs {
        alloc,
        extra: ValueMap::new(alloc),
    };
    if pairs.visit(&mut all).is_err() {
        return Err(AllocError);
    }
    let ExtraPairs { alloc: _, extra } = all;
    Ok(extra)
}

fn make_value<D: Display>(alloc: Global, value: kv::Value<'_, D>) -> Result<Value, AllocError>
    ensures text { IfOk result (λ made. IfSome (value_text D.output value.entry) (PrintsAs made)) }
    ensures truth { IfOk result (λ made. IfSome (value_bool value.entry) (λ is_so. made ≡ of_value.Bool is_so)) }
    ensures number { IfOk result (λ made. IfSome (value_i128 value.entry) (λ number. made ≡ of_value.Int number)) }
{
    if let Some(is_so) = value.to_bool() {
        return Ok(Value::Bool(is_so));
    }
    if let Some(number) = value.to_i128() {
        return Ok(Value::Int(number));
    }
    Ok(Value::Text(print(alloc, &value)?))
}

// A source stops only where its visitor does, which is for want of memory.
fn collect_pairs<K: Source>(alloc: Global, pairs: &K) -> Result<TextMap<LogAttribute>, AllocError>
    ensures { IfOk result (λ all. IfSome (K.pairs pairs.now) (λ list. FoldsTo AddsPair [] list all)) }
{
    let mut all = Pairs {
        alloc,
        attributes: TextMap::new(alloc),
    };
    if pairs.visit(&mut all).is_err() {
        return Err(AllocError);
    }
    let Pairs {
        alloc: _,
        attributes,
    } = all;
    Ok(attributes)
}
