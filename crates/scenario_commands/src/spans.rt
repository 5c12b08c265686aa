//! Lines that start, finish, read or discard spans: `child`, `childwith`, `finish`, `discard`, `trace`, `sampled`,
//! `iter`, `getstatus`, `spanid` and `data`.
use crate::words::Words;

/// A transaction or a span, by number: `tN` or `sN`.
#[derive(Clone, Copy)]
pub enum SpanName {
    Transaction(u64),
    Span(u64),
}

/// What a line does with a transaction or a span.
#[derive(Clone, Copy)]
pub enum SpanCommand<'a> {
    StartChild(Child<'a>),
    /// `finish SPAN H`
    Finish { span: SpanName, hub: u64 },
    /// `discard SPAN`
    Discard(SpanName),
    Ask(Question, SpanName),
    /// `spanid sN`
    SpanId(u64),
}

/// What can be asked of transactions and of spans.
#[derive(Clone, Copy)]
pub enum Question {
    /// `trace SPAN`
    TraceContext,
    /// `sampled SPAN`
    IsSampled,
    /// `iter SPAN`
    Headers,
    /// `getstatus SPAN`
    Status,
    /// `data SPAN`
    Data,
}

/// A span that starts under another one, or under a transaction.
#[derive(Clone, Copy)]
pub struct Child<'a> {
    pub parent: SpanName,
    pub op: &'a str,
    /// None where the line gives the child its id and its moment.
    pub details: Option<ChildDetails>,
    pub description: &'a str,
}

/// The id and the moment that a `childwith` line names.
#[derive(Clone, Copy)]
pub struct ChildDetails {
    pub span_id: u64,
    /// In nanoseconds since the epoch.
    pub start: u64,
}

impl<'a> SpanCommand<'a> {
    /// The command of this name, read from the words that follow it.
    pub fn read(name: &str, mut words: Words<'a>) -> Option<SpanCommand<'a>> {
        let span = words.span();
        let command = match name {
            "child" => SpanCommand::StartChild(read_child(span, &mut words)),
            "childwith" => SpanCommand::StartChild(read_child_with_details(span, &mut words)),
            "finish" => SpanCommand::Finish {
                span,
                hub: words.number(),
            },
            "discard" => SpanCommand::Discard(span),
            "spanid" => SpanCommand::SpanId(number_of_span(span, &mut words)),
            _ => SpanCommand::Ask(read_question(name)?, span),
        };
        words.end()?;
        Some(command)
    }
}

// `child SPAN OP REST`, from OP on.
fn read_child<'a>(parent: SpanName, words: &mut Words<'a>) -> Child<'a> {
    Child {
        parent,
        op: words.word(),
        details: None,
        description: words.rest(),
    }
}

// `childwith SPAN OP ID NANOSECONDS REST`, from OP on.
fn read_child_with_details<'a>(parent: SpanName, words: &mut Words<'a>) -> Child<'a> {
    Child {
        parent,
        op: words.word(),
        details: Some(ChildDetails {
            span_id: words.number(),
            start: words.number(),
        }),
        description: words.rest(),
    }
}

// The number of a span, and not of a transaction.
fn number_of_span(span: SpanName, words: &mut Words<'_>) -> u64 {
    match span {
        SpanName::Span(number) => number,
        SpanName::Transaction(_) => words.wrong(0),
    }
}

fn read_question(name: &str) -> Option<Question> {
    match name {
        "trace" => Some(Question::TraceContext),
        "sampled" => Some(Question::IsSampled),
        "iter" => Some(Question::Headers),
        "getstatus" => Some(Question::Status),
        "data" => Some(Question::Data),
        _ => None,
    }
}
