//! Filters of records, and what is made of a record.
use log::{Level, Metadata, Record};
use sentry_base::protocol::{Event, LogAttribute, LogLevel};
use sentry_log::filter::{Levels, LogFilter, RecordFilter, Within};
use sentry_log::mapping::{RecordMapping, map_record};
use sentry_plain::{Text, TextMap, Value};
use std::alloc::{AllocError, Global};
use std::test::Fail;

/// Whether a breadcrumb, an event and a log become of a record.
fn is_told<F: RecordFilter>(filter: &F, level: Level, target: &str) -> (bool, bool, bool) {
    let becomes = filter.filter(&Metadata::new(level, target));
    (becomes.breadcrumb, becomes.event, becomes.log)
}

#[test]
fn each_level_has_its_default(rt: HostRuntime) -> Result<(), Fail> {
    let levels = Levels::new();
    assert!(rt; is_told(&levels, Level::Error, "till") == (false, true, true));
    assert!(rt; is_told(&levels, Level::Warn, "till") == (true, false, true));
    assert!(rt; is_told(&levels, Level::Info, "till") == (true, false, true));
    assert!(rt; is_told(&levels, Level::Debug, "till") == (false, false, false));
    assert!(rt; is_told(&levels, Level::Trace, "till") == (false, false, false));
    Ok(())
}

#[test]
fn a_target_has_levels_of_its_own(rt: HostRuntime) -> Result<(), Fail> {
    let silent = LogFilter::ignore();
    let filter = Within {
        target: Text::new(rt.alloc(), "printer")?,
        inside: Levels {
            info: silent,
            ..Levels::new()
        },
        outside: Levels::new(),
    };
    let is_silent = is_told(&filter, Level::Info, "printer::tray") == (false, false, false);
    assert!(rt; is_silent && silent.is_ignored());
    assert!(rt; is_told(&filter, Level::Warn, "printer") == (true, false, true));
    assert!(rt; is_told(&filter, Level::Info, "till") == (true, false, true));
    Ok(())
}

/// Whether the attribute of this key is the value.
fn has(attributes: &TextMap<LogAttribute>, key: &str, value: &Value) -> bool {
    match attributes.get(key) {
        Some(LogAttribute(found)) => *found == *value,
        None => false,
    }
}

/// What is made of a warning with two pairs, at the moment 5.
fn warn_of_paper(alloc: Global, becomes: LogFilter) -> Result<RecordMapping, AllocError> {
    let pairs = [("sheets", 3u64), ("trays", 1u64)];
    let record = Record::new(
        Metadata::new(Level::Warn, "printer"),
        "the paper runs out",
        pairs.as_slice(),
        (),
    );
    map_record(alloc, 5, &record, becomes)
}

/// Whether an event has the text of the record, its target as a tag, and its pairs as extra data.
fn tells_of_paper(event: &Event) -> bool {
    let (Some(message), Some(target)) = (&event.message, event.tags.get("logger")) else {
        return false;
    };
    let (Some(sheets), Some(trays)) = (event.extra.get("sheets"), event.extra.get("trays")) else {
        return false;
    };
    message.as_str() == "the paper runs out"
        && target.as_str() == "printer"
        && *sheets == Value::Int(3)
        && *trays == Value::Int(1)
}

#[test]
fn a_record_is_a_breadcrumb_an_event_and_a_log(rt: HostRuntime) -> Result<(), Fail> {
    let alloc = rt.alloc();
    let all = LogFilter {
        breadcrumb: true,
        event: true,
        log: true,
    };
    let made = warn_of_paper(alloc, all)?;
    let (Some(breadcrumb), Some(event), Some(log)) = (&made.breadcrumb, &made.event, &made.log)
    else {
        return Err(Fail::new("something is missing"));
    };
    assert!(rt; breadcrumb.timestamp == 5 && event.timestamp == 5);
    assert!(rt; tells_of_paper(event) && event.event_id.is_nil());
    assert!(rt; log.level == LogLevel::Warn && log.body.as_str() == "the paper runs out");
    let target = Value::Text(Text::new(alloc, "printer")?);
    let has_all = has(&log.attributes, "logger.target", &target)
        & has(&log.attributes, "sheets", &Value::Int(3))
        & has(&log.attributes, "trays", &Value::Int(1));
    assert!(rt; has_all);
    Ok(())
}

#[test]
fn nothing_is_made_of_an_ignored_record(rt: HostRuntime) -> Result<(), Fail> {
    let made = warn_of_paper(rt.alloc(), LogFilter::ignore())?;
    assert!(rt; made.breadcrumb.is_none() && made.event.is_none() && made.log.is_none());
    Ok(())
}
