//! Lines on losses and reports: `lose`, `absorb`, `report` and `empty`.
ghost use Rattle.scenario_commands.specs.Losses.{losses_of_kind};

use crate::words::Words;
use sentry_base::protocol::{Category, LossSource, Losses, Reason};
use sentry_client_reports::TransportLossReason;

/// What a line loses of a client, reports of it or sends.
#[derive(Clone, Copy)]
pub enum LossCommand<'a> {
    /// `lose C KIND REASON`
    Lose {
        client: u64,
        kind: Kind,
        reason: TransportLossReason,
    },
    /// `absorb C CATEGORY/REASON=N ..`
    Absorb {
        client: u64,
        quantities: Option<&'a str>,
    },
    /// `report C`
    Report(u64),
    /// `empty C`
    Empty(u64),
}

/// What the envelope holds that is lost.
#[derive(Clone, Copy)]
pub enum Kind {
    Event,
    /// A transaction of two spans.
    Transaction,
    /// Three logs.
    Logs,
    Attachment,
    Session,
}

impl<'a> LossCommand<'a> {
    /// The command of this name, read from the words that follow it.
    pub fn read(name: &str, mut words: Words<'a>) -> Option<LossCommand<'a>> {
        let client = words.number();
        let command = match name {
            "lose" => LossCommand::Lose {
                client,
                kind: read_kind(&mut words),
                reason: read_reason(&mut words),
            },
            "absorb" => LossCommand::Absorb {
                client,
                quantities: words.rest_if_any(),
            },
            "report" => LossCommand::Report(client),
            "empty" => LossCommand::Empty(client),
            _ => return None,
        };
        words.end()?;
        Some(command)
    }
}

fn read_kind(words: &mut Words<'_>) -> Kind {
    match words.word() {
        "event" => Kind::Event,
        "transaction" => Kind::Transaction,
        "logs" => Kind::Logs,
        "attachment" => Kind::Attachment,
        "session" => Kind::Session,
        _ => words.wrong(Kind::Event),
    }
}

fn read_reason(words: &mut Words<'_>) -> TransportLossReason {
    match words.word() {
        "send_error" => TransportLossReason::SendError,
        "internal_sdk_error" => TransportLossReason::InternalError,
        "network_error" => TransportLossReason::NetworkError,
        "ratelimit_backoff" => TransportLossReason::RatelimitBackoff,
        "queue_overflow" => TransportLossReason::QueueOverflow,
        _ => words.wrong(TransportLossReason::SendError),
    }
}

// A transaction counts as a span itself.
impl LossSource for Kind {
    ghost losses_under = { losses_of_kind };

    fn losses(&self, reason: Reason) -> Losses {
        match self {
            Kind::Event => Losses::of(Category::Error, reason, 1),
            Kind::Transaction => {
                let mut losses = Losses::of(Category::Transaction, reason, 1);
                losses.add(&Losses::of(Category::Span, reason, 3));
                losses
            }
            Kind::Logs => Losses::of(Category::LogItem, reason, 3),
            Kind::Attachment => Losses::of(Category::Attachment, reason, 1),
            Kind::Session => Losses::of(Category::Session, reason, 1),
        }
    }
}
