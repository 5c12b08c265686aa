//! What is printed of envelopes.
ghost use Rattle.std.specs.Prelude.{◌≡◌, ◌++◌, OnOk, codes, string_bytes, unwrap_or};
ghost use Rattle.std.specs.List.{join_by};
ghost use Rattle.sentry_plain.specs.Texts.{Bytes};
ghost use Rattle.replay_print.specs.Printing.{bool_word, session_text, aggregates_text};
ghost use Rattle.replay_print.specs.Printing.{tag_text, tags_text, event_text, spans_text, transaction_text, attachment_text, batch_text, loss_text, report_text, item_text, envelope_line};

use sentry_base::protocol::{
    Attachment, ClientKey, ClientReport, ClientReportItem, Envelope, EnvelopeItem, Event,
    SessionAggregates, SessionUpdate, Transaction,
};
use sentry_plain::{Text, TextMap};
use std::alloc::AllocError;

/// What is printed of a value.
pub trait Print {
    ghost shown: { Self → Bytes };

    /// Appends what is printed of the value.
    fn print(&self, text: &mut String) -> Result<(), AllocError>
        ensures { OnOk result (string_bytes text.new ≡ string_bytes text.old ++ shown self.now) };
}

fn print_joined<T: Print>(items: &[T], separator: &str, text: &mut String) -> Result<(), AllocError>
    ensures { OnOk result (string_bytes text.new ≡ string_bytes text.old
        ++ join_by T.shown separator.now items.now) }
{
    let Some((first, more)) = items.split_first() else {
        return Ok(());
    };
    first.print(text)?;
    for item in more {
        text.push_str(separator)?;
        item.print(text)?;
    }
    Ok(())
}

fn print_tag(key: &str, value: &str, text: &mut String) -> Result<(), AllocError>
    ensures { OnOk result (string_bytes text.new ≡ string_bytes text.old ++ tag_text (key.now, value.now)) }
{
    text.push_str(key)?;
    text.push_str("=")?;
    text.push_str(value)
}

// The tags are no slice, so they are joined here.
fn print_tags(tags: &TextMap<Text>, text: &mut String) -> Result<(), AllocError>
    ensures { OnOk result (string_bytes text.new ≡ string_bytes text.old ++ tags_text tags.now) }
{
    let mut entries = tags.iter();
    let Some((key, value)) = entries.next() else {
        return text.push_str("-");
    };
    print_tag(key, value.as_str(), text)?;
    for (key, value) in entries {
        text.push_str(",")?;
        print_tag(key, value.as_str(), text)?;
    }
    Ok(())
}

impl Print for Event {
    ghost shown = { event_text };

    fn print(&self, text: &mut String) -> Result<(), AllocError> {
        let id = self.event_id.simple();
        let level = self.level.as_str();
        write!(text, "event {id} {level} ")?;
        print_tags(&self.tags, text)?;
        text.push_str(" ")?;
        match &self.message {
            Some(message) => text.push_str(message.as_str()),
            None => Ok(()),
        }
    }
}

fn bool_word(value: bool) -> &'static str
    ensures { result.now ≡ bool_word value }
{
    if value { "true" } else { "false" }
}

impl Print for SessionUpdate {
    ghost shown = { session_text };

    fn print(&self, text: &mut String) -> Result<(), AllocError> {
        let status = self.status.as_str();
        let errors = self.errors;
        let init = bool_word(self.init);
        write!(text, "session {status} errors={errors} init={init}")
    }
}

impl Print for SessionAggregates {
    ghost shown = { aggregates_text };

    fn print(&self, text: &mut String) -> Result<(), AllocError> {
        let count = self.aggregates.len();
        write!(text, "aggregates {count}")
    }
}

fn name_or_dash(name: &Option<Text>) -> &str
    ensures { result.now ≡ unwrap_or name.now (codes "-") }
{
    match name {
        Some(name) => name.as_str(),
        None => "-",
    }
}

// How many spans a transaction has, and its name.
fn print_spans(count: usize, name: &str, text: &mut String) -> Result<(), AllocError>
    ensures { OnOk result (string_bytes text.new ≡ string_bytes text.old ++ spans_text count name.now) }
{
    write!(text, " spans={count} {name}")
}

impl Print for Transaction {
    ghost shown = { transaction_text };

    fn print(&self, text: &mut String) -> Result<(), AllocError> {
        let id = self.event_id.simple();
        write!(text, "transaction {id} ")?;
        print_tags(&self.tags, text)?;
        print_spans(self.spans.len(), name_or_dash(&self.name), text)
    }
}

impl Print for Attachment {
    ghost shown = { attachment_text };

    fn print(&self, text: &mut String) -> Result<(), AllocError> {
        let name = self.filename.as_str();
        write!(text, "attachment {name}")
    }
}

// A batch is told by the number of its items.
fn print_batch(name: &str, count: usize, text: &mut String) -> Result<(), AllocError>
    ensures { OnOk result (string_bytes text.new ≡ string_bytes text.old ++ batch_text name.now count) }
{
    write!(text, "{name} {count}")
}

impl Print for ClientReportItem {
    ghost shown = { loss_text };

    fn print(&self, text: &mut String) -> Result<(), AllocError> {
        let category = self.category.as_str();
        let reason = self.reason.as_str();
        let quantity = self.quantity;
        write!(text, "{category}/{reason}={quantity}")
    }
}

impl Print for ClientReport {
    ghost shown = { report_text };

    fn print(&self, text: &mut String) -> Result<(), AllocError> {
        text.push_str("report ")?;
        print_joined(self.items.as_slice(), ",", text)
    }
}

impl Print for EnvelopeItem {
    ghost shown = { item_text };

    fn print(&self, text: &mut String) -> Result<(), AllocError> {
        match self {
            EnvelopeItem::Event(event) => event.print(text),
            EnvelopeItem::SessionUpdate(update) => update.print(text),
            EnvelopeItem::SessionAggregates(aggregates) => aggregates.print(text),
            EnvelopeItem::Transaction(transaction) => transaction.print(text),
            EnvelopeItem::Attachment(attachment) => attachment.print(text),
            EnvelopeItem::Logs(logs) => print_batch("logs", logs.len(), text),
            EnvelopeItem::Metrics(metrics) => print_batch("metrics", metrics.len(), text),
            EnvelopeItem::ClientReport(report) => report.print(text),
        }
    }
}

impl Print for (ClientKey, Envelope) {
    ghost shown = { envelope_line };

    fn print(&self, text: &mut String) -> Result<(), AllocError> {
        let (client, envelope) = self;
        let number = client.number;
        write!(text, "envelope {number} ")?;
        print_joined(envelope.items.as_slice(), " | ", text)?;
        text.push_str("\n")
    }
}
