//! Lines that start a transaction: `tx`, `txsampled`, `txat`, `txfrom` and `continue`.
use crate::spans::SpanName;
use crate::words::Words;

/// A transaction that a line starts on a hub.
#[derive(Clone, Copy)]
pub struct TransactionCommand<'a> {
    pub hub: u64,
    pub name: &'a str,
    pub op: &'a str,
    pub origin: Origin,
}

/// What a transaction is started from.
#[derive(Clone, Copy)]
pub enum Origin {
    /// `tx H NAME OP`: a new trace.
    NewTrace,
    /// `txsampled H NAME OP DECISION`: a new trace with this decision on sampling.
    Decision(Option<bool>),
    /// `txat H NAME OP NANOSECONDS`: a new trace, at this moment.
    Moment(u64),
    /// `txfrom H NAME OP SPAN` or `txfrom H NAME OP -`: the trace of a transaction or a span, or a new one.
    Span(Option<SpanName>),
    /// `continue H NAME OP`: the headers that are kept.
    Headers,
}

impl<'a> TransactionCommand<'a> {
    /// The command of this name, read from the words that follow it.
    pub fn read(name: &str, mut words: Words<'a>) -> Option<TransactionCommand<'a>> {
        let command = TransactionCommand {
            hub: words.number(),
            name: words.word(),
            op: words.word(),
            origin: read_origin(name, &mut words)?,
        };
        words.end()?;
        Some(command)
    }
}

fn read_origin(name: &str, words: &mut Words<'_>) -> Option<Origin> {
    match name {
        "tx" => Some(Origin::NewTrace),
        "txsampled" => Some(Origin::Decision(read_decision(words))),
        "txat" => Some(Origin::Moment(words.number())),
        "txfrom" => Some(Origin::Span(words.span_or_none())),
        "continue" => Some(Origin::Headers),
        _ => None,
    }
}

// A decision on sampling, or `-` for none.
fn read_decision(words: &mut Words<'_>) -> Option<bool> {
    match words.word() {
        "0" => Some(false),
        "1" => Some(true),
        "-" => None,
        _ => words.wrong(None),
    }
}
