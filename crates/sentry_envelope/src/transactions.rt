//! Transactions.
ghost use Rattle.std.specs.Prelude.{◌≡◌, OnOk};
ghost use Rattle.json.specs.Tree.{json_tokens};
ghost use Rattle.sentry_framing.specs.Json.{Adds};
ghost use Rattle.sentry_envelope.specs.Transactions.{transaction_json};

use crate::breadcrumbs::put_values;
use crate::requests::put_request;
use crate::sdks::put_sdk;
use crate::texts::{put_optional, put_simple};
use crate::users::put_user;
use crate::write_json::{put_text_map, write_items};
use json::Writer;
use sentry_base::protocol::Transaction;
use sentry_framing::members::{put_optional_seconds, put_seconds, put_text};
use std::alloc::AllocError;

/// Writes a transaction.
pub fn write_transaction(out: &mut Writer, transaction: &Transaction) -> Result<(), AllocError>
    ensures { OnOk result (Adds out.old out.new (json_tokens (transaction_json transaction.now))) }
{
    out.begin_object()?;
    put_simple(out, "event_id", transaction.event_id)?;
    put_optional(out, "transaction", &transaction.name)?;
    put_optional(out, "release", &transaction.release)?;
    put_optional(out, "environment", &transaction.environment)?;
    put_user(out, &transaction.user)?;
    put_text_map(out, "tags", &transaction.tags)?;
    put_values(out, "extra", &transaction.extra)?;
    put_sdk(out, &transaction.sdk)?;
    put_text(out, "platform", transaction.platform.as_str())?;
    put_optional_seconds(out, "timestamp", transaction.timestamp)?;
    put_seconds(out, "start_timestamp", transaction.start_timestamp)?;
    out.key("spans")?;
    write_items(out, transaction.spans.as_slice())?;
    put_text_map(out, "contexts", &transaction.contexts)?;
    put_request(out, &transaction.request)?;
    put_optional(out, "server_name", &transaction.server_name)?;
    out.end_object()?;
    Ok(())
}
