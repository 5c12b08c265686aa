//! Lines that capture a metric: `metric` and `sendmetric`.
use crate::attributes::{AttributeWords, Capturer};
use crate::words::Words;
use sentry_base::protocol::MetricType;

/// What a line captures.
#[derive(Clone, Copy)]
pub struct MetricCommand<'a> {
    pub capturer: Capturer,
    pub metric_type: MetricType,
    pub name: &'a str,
    pub value: i64,
    pub unit: Option<&'a str>,
    pub attribute: Option<AttributeWords<'a>>,
}

impl<'a> MetricCommand<'a> {
    /// The command of this name, read from the words that follow it: `metric H TYPE NAME VALUE UNIT` or
    /// `sendmetric C TYPE NAME VALUE UNIT`, and perhaps ` KEY REST`.
    pub fn read(name: &str, mut words: Words<'a>) -> Option<MetricCommand<'a>> {
        let number = words.number();
        let capturer = match name {
            "metric" => Capturer::Hub(number),
            "sendmetric" => Capturer::Client(number),
            _ => return None,
        };
        let metric_type = read_type(&mut words);
        let command = MetricCommand {
            capturer,
            metric_type,
            name: words.word(),
            value: words.integer(),
            unit: read_unit(metric_type, &mut words),
            attribute: words.attribute_if_any(),
        };
        words.end()?;
        Some(command)
    }
}

fn read_type(words: &mut Words<'_>) -> MetricType {
    match words.word() {
        "counter" => MetricType::Counter,
        "gauge" => MetricType::Gauge,
        "distribution" => MetricType::Distribution,
        _ => words.wrong(MetricType::Counter),
    }
}

// The unit of a metric of this type: that of a counter is none.
fn read_unit<'a>(metric_type: MetricType, words: &mut Words<'a>) -> Option<&'a str> {
    match (metric_type, words.word_or_none()) {
        (MetricType::Counter, Some(_)) => words.wrong(None),
        (_, unit) => unit,
    }
}
