//! Lines that change a transaction or a span: `settag`, `setdata`, `setname`, `setop`, `status`, `request`, and of a
//! transaction alone `setextra` and `setorigin`.
use crate::scopes::{Entry, read_entry};
use crate::spans::SpanName;
use crate::words::Words;
use sentry_base::protocol::SpanStatus;

/// What a line changes.
#[derive(Clone, Copy)]
pub enum SpanEditCommand<'a> {
    Span {
        span: SpanName,
        edit: SpanEdit<'a>,
    },
    Transaction {
        transaction: u64,
        edit: TransactionEdit<'a>,
    },
}

/// One change of a transaction or of a span.
#[derive(Clone, Copy)]
pub enum SpanEdit<'a> {
    /// `settag SPAN KEY REST`
    SetTag(Entry<'a>),
    /// `setdata SPAN KEY REST`
    SetData(Entry<'a>),
    /// `setname SPAN REST`
    SetName(&'a str),
    /// `setop SPAN REST`
    SetOp(&'a str),
    /// `status SPAN STATUS`
    SetStatus(SpanStatus),
    /// `request SPAN METHOD URL REST`
    SetRequest(RequestWords<'a>),
}

/// One change that transactions alone have.
#[derive(Clone, Copy)]
pub enum TransactionEdit<'a> {
    /// `setextra tN KEY REST`
    SetExtra(Entry<'a>),
    /// `setorigin tN REST`
    SetOrigin(&'a str),
}

/// A request that a line names.
#[derive(Clone, Copy)]
pub struct RequestWords<'a> {
    pub method: &'a str,
    pub url: &'a str,
    pub body: &'a str,
}

impl<'a> SpanEditCommand<'a> {
    /// The command of this name, read from the words that follow it.
    pub fn read(name: &str, mut words: Words<'a>) -> Option<SpanEditCommand<'a>> {
        let span = words.span();
        let command = match read_edit(name, &mut words) {
            Some(edit) => SpanEditCommand::Span { span, edit },
            None => read_on_transaction(name, span, &mut words)?,
        };
        words.end()?;
        Some(command)
    }
}

fn read_edit<'a>(name: &str, words: &mut Words<'a>) -> Option<SpanEdit<'a>> {
    match name {
        "settag" => Some(SpanEdit::SetTag(read_entry(words))),
        "setdata" => Some(SpanEdit::SetData(read_entry(words))),
        "setname" => Some(SpanEdit::SetName(words.rest())),
        "setop" => Some(SpanEdit::SetOp(words.rest())),
        "status" => Some(SpanEdit::SetStatus(read_status(words))),
        "request" => Some(SpanEdit::SetRequest(read_request(words))),
        _ => None,
    }
}

fn read_request<'a>(words: &mut Words<'a>) -> RequestWords<'a> {
    RequestWords {
        method: words.word(),
        url: words.word(),
        body: words.rest(),
    }
}

// The forms of a transaction alone.
fn read_on_transaction<'a>(
    name: &str,
    span: SpanName,
    words: &mut Words<'a>,
) -> Option<SpanEditCommand<'a>> {
    let SpanName::Transaction(transaction) = span else {
        return None;
    };
    let edit = match name {
        "setextra" => TransactionEdit::SetExtra(read_entry(words)),
        "setorigin" => TransactionEdit::SetOrigin(words.rest()),
        _ => return None,
    };
    Some(SpanEditCommand::Transaction { transaction, edit })
}

fn read_status(words: &mut Words<'_>) -> SpanStatus {
    let word = words.word();
    match status(word) {
        Some(status) => status,
        None => words.wrong(SpanStatus::Ok),
    }
}

fn status(word: &str) -> Option<SpanStatus> {
    match word {
        "ok" => Some(SpanStatus::Ok),
        "deadline_exceeded" => Some(SpanStatus::DeadlineExceeded),
        "unauthenticated" => Some(SpanStatus::Unauthenticated),
        "permission_denied" => Some(SpanStatus::PermissionDenied),
        "not_found" => Some(SpanStatus::NotFound),
        "resource_exhausted" => Some(SpanStatus::ResourceExhausted),
        "invalid_argument" => Some(SpanStatus::InvalidArgument),
        "unimplemented" => Some(SpanStatus::Unimplemented),
        "unavailable" => Some(SpanStatus::Unavailable),
        _ => other_status(word),
    }
}

fn other_status(word: &str) -> Option<SpanStatus> {
    match word {
        "internal_error" => Some(SpanStatus::InternalError),
        "unknown_error" => Some(SpanStatus::UnknownError),
        "cancelled" => Some(SpanStatus::Cancelled),
        "already_exists" => Some(SpanStatus::AlreadyExists),
        "failed_precondition" => Some(SpanStatus::FailedPrecondition),
        "aborted" => Some(SpanStatus::Aborted),
        "out_of_range" => Some(SpanStatus::OutOfRange),
        "data_loss" => Some(SpanStatus::DataLoss),
        _ => None,
    }
}
