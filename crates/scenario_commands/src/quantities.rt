//! The quantities of an `absorb` line, each a word `CATEGORY/REASON=N`.
ghost use Rattle.std.specs.Prelude.{◌≡◌};
ghost use Rattle.scenario_commands.specs.Losses.{category_of, reason_of};

use crate::words::number;
use sentry_base::protocol::{Category, Losses, Reason};

// The category that a report names so.
#[tactic(auto, unfolding(crate::specs::Losses::category_of))]
fn category(name: &str) -> Option<Category>
    ensures { result ≡ category_of name.now }
{
    match name {
        "error" => Some(Category::Error),
        "transaction" => Some(Category::Transaction),
        "span" => Some(Category::Span),
        "session" => Some(Category::Session),
        "attachment" => Some(Category::Attachment),
        "log_item" => Some(Category::LogItem),
        "metric" => Some(Category::Metric),
        _ => None,
    }
}

// The reason that a report names so.
#[tactic(auto, unfolding(crate::specs::Losses::reason_of))]
fn reason(name: &str) -> Option<Reason>
    ensures { result ≡ reason_of name.now }
{
    match name {
        "event_processor" => Some(Reason::EventProcessor),
        "before_send" => Some(Reason::BeforeSend),
        "sample_rate" => Some(Reason::SampleRate),
        "buffer_overflow" => Some(Reason::BufferOverflow),
        "send_error" => Some(Reason::SendError),
        "internal_sdk_error" => Some(Reason::InternalSdkError),
        "network_error" => Some(Reason::NetworkError),
        "ratelimit_backoff" => Some(Reason::RatelimitBackoff),
        "queue_overflow" => Some(Reason::QueueOverflow),
        _ => None,
    }
}

fn losses_of_word(word: &str) -> Option<Losses> {
    let (name, quantity) = word.split_once('=')?;
    let (category_name, reason_name) = name.split_once('/')?;
    Some(Losses::of(
        category(category_name)?,
        reason(reason_name)?,
        number(quantity)?,
    ))
}

/// The losses that words spell, or none where one of them spells no quantity. What is named twice is added up, modulo
/// 2^64.
pub fn losses_of_words(words: &str) -> Option<Losses> {
    let mut losses = Losses::none();
    for word in words.split(' ') {
        losses.add(&losses_of_word(word)?);
    }
    Some(losses)
}
