//! The types and units of metrics.
ghost use Rattle.std.specs.Prelude.{◌≡◌, None, IfOk, IfErr, IfSome};
ghost use Rattle.sentry_base.specs.Names.{unit_name};
ghost use Rattle.c_base.specs.Faults.{refusal_of};
ghost use Rattle.c_records.specs.Metrics.{metric_type_number};

use c_base::fault::CallFault;
use sentry_base::protocol::{MetricType, Unit};
use sentry_plain::Text;
use std::alloc::Global;

/// 0 to 2: `Counter`, `Gauge`, `Distribution`.
///
/// `Unknown`: the number is another one.
pub fn metric_type(number: u32) -> Result<MetricType, CallFault>
    ensures metric_type { IfOk result (λ metric_type. metric_type_number metric_type ≡ number) }
    ensures err { IfErr result (λ fault. refusal_of fault ≡ None) }
{
    match number {
        0 => Ok(MetricType::Counter),
        1 => Ok(MetricType::Gauge),
        2 => Ok(MetricType::Distribution),
        _ => Err(CallFault::Unknown),
    }
}

// The unit of time of this name, if one has it.
fn time_unit(name: &str) -> Option<Unit>
    ensures { IfSome result (λ unit. unit_name unit ≡ name.now) }
{
    match name {
        "nanosecond" => Some(Unit::Nanosecond),
        "microsecond" => Some(Unit::Microsecond),
        "millisecond" => Some(Unit::Millisecond),
        "second" => Some(Unit::Second),
        "minute" => Some(Unit::Minute),
        "hour" => Some(Unit::Hour),
        "day" => Some(Unit::Day),
        "week" => Some(Unit::Week),
        _ => None,
    }
}

// The unit of this name, if it isn't one of the program's own.
fn known_unit(name: &str) -> Option<Unit>
    ensures { IfSome result (λ unit. unit_name unit ≡ name.now) }
{
    match name {
        "bit" => Some(Unit::Bit),
        "byte" => Some(Unit::Byte),
        "kilobyte" => Some(Unit::Kilobyte),
        "megabyte" => Some(Unit::Megabyte),
        "ratio" => Some(Unit::Ratio),
        "percent" => Some(Unit::Percent),
        _ => time_unit(name),
    }
}

/// The unit of this name, which may be one of the program's own; none where the name is empty.
///
/// `OutOfMemory`.
pub fn unit_named(alloc: Global, name: &str) -> Result<Option<Unit>, CallFault>
    ensures unit { IfOk result (λ found. IfSome found (λ unit. unit_name unit ≡ name.now)) }
    ensures err { IfErr result (λ fault. refusal_of fault ≡ None) }
{
    if name.is_empty() {
        return Ok(None);
    }
    match known_unit(name) {
        Some(unit) => Ok(Some(unit)),
        None => {
            let own = Text::new(alloc, name)?;
            Ok(Some(Unit::Other(own)))
        }
    }
}
