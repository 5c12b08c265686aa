//! The top scope of a hub.
ghost use Rattle.std.specs.Prelude.{Some, None, [], ◌∷◌};
ghost use Rattle.sentry_calls.specs.Hubs as hubs;
ghost use Rattle.sentry_scope.specs.declared.scope.edit.ScopeEdit.TheVariants.{SetTag, SetSpan, Clear, ClearBreadcrumbs, ClearAttachments, AddAttachment};
ghost use Rattle.sentry_state.specs.Breadcrumbs.{add_breadcrumbs};
ghost use Rattle.c_engine.specs.Calls.{anything};
ghost use Rattle.c_records.specs.Filters.{filter_meanings};
ghost use Rattle.c_engine.specs.Keys.{hub_key, either_key};
ghost use Rattle.c_engine.specs.Moments.{fresh_of};
ghost use Rattle.dochirwa.specs.Exports.{IsCalled, IsSomeCall};

use crate::CLOSED;
use crate::seat::Seat;
use c_base::fault::code;
use c_base::ids::FreshNumbers;

/// Sets a tag of the top scope.
#[unsafe(no_mangle)]
pub extern "C" fn dochirwa_set_tag(
    seat: &mut Seat,
    hub: u64,
    key: &[u8],
    value: &[u8],
    now: u64,
) -> u32
    ensures { IsCalled seat.old.engine seat.new.engine result anything
        (hubs.configure (hub_key hub) (SetTag key.now value.now ∷ []) now) }
{
    if seat.is_closed() {
        return CLOSED;
    }
    code(seat.lend().set_tag(hub, key, value, now))
}

/// Gives the top scope a transaction or a span.
#[unsafe(no_mangle)]
pub extern "C" fn dochirwa_set_span(
    seat: &mut Seat,
    hub: u64,
    is_span: bool,
    number: u64,
    now: u64,
) -> u32
    ensures { IsCalled seat.old.engine seat.new.engine result anything
        (hubs.configure (hub_key hub) (SetSpan (Some (either_key is_span number)) ∷ []) now) }
{
    if seat.is_closed() {
        return CLOSED;
    }
    code(seat.lend().set_span(hub, is_span, number, now))
}

/// Takes the transaction or span of the top scope away.
#[unsafe(no_mangle)]
pub extern "C" fn dochirwa_clear_span(seat: &mut Seat, hub: u64, now: u64) -> u32
    ensures { IsCalled seat.old.engine seat.new.engine result anything
        (hubs.configure (hub_key hub) (SetSpan None ∷ []) now) }
{
    if seat.is_closed() {
        return CLOSED;
    }
    code(seat.lend().clear_span(hub, now))
}

/// Does the edits of a JSON object to the top scope.
#[unsafe(no_mangle)]
pub extern "C" fn dochirwa_edit_scope(seat: &mut Seat, hub: u64, edits: &[u8], now: u64) -> u32
    ensures { IsSomeCall seat.old.engine seat.new.engine result anything
        (λ edits. hubs.configure (hub_key hub) edits now) }
{
    if seat.is_closed() {
        return CLOSED;
    }
    code(seat.lend().edit_scope(hub, edits, now))
}

/// Clears the top scope to the ids of `fresh`.
#[unsafe(no_mangle)]
pub extern "C" fn dochirwa_clear_scope(seat: &mut Seat, hub: u64, fresh: &FreshNumbers) -> u32
    ensures { IsCalled seat.old.engine seat.new.engine result anything
        (hubs.configure (hub_key hub)
        (Clear (fresh_of fresh.entry.now).trace_id (fresh_of fresh.entry.now).span_id ∷ []) fresh.entry.now.now) }
{
    if seat.is_closed() {
        return CLOSED;
    }
    code(seat.lend().clear_scope(hub, fresh))
}

/// Adds the breadcrumb of a JSON object to the top scope.
#[unsafe(no_mangle)]
pub extern "C" fn dochirwa_add_breadcrumb(
    seat: &mut Seat,
    hub: u64,
    breadcrumb: &[u8],
    now: u64,
) -> u32
    ensures { IsSomeCall seat.old.engine seat.new.engine result anything
        (λ breadcrumbs. add_breadcrumbs filter_meanings (hub_key hub) breadcrumbs) }
{
    if seat.is_closed() {
        return CLOSED;
    }
    code(seat.lend().add_breadcrumb(hub, breadcrumb, now))
}

/// Takes the breadcrumbs of the top scope away.
#[unsafe(no_mangle)]
pub extern "C" fn dochirwa_clear_breadcrumbs(seat: &mut Seat, hub: u64, now: u64) -> u32
    ensures { IsCalled seat.old.engine seat.new.engine result anything
        (hubs.configure (hub_key hub) (ClearBreadcrumbs ∷ []) now) }
{
    if seat.is_closed() {
        return CLOSED;
    }
    code(seat.lend().clear_breadcrumbs(hub, now))
}

/// Adds an attachment of a name, a media type (empty: none) and any bytes to the top scope.
#[unsafe(no_mangle)]
pub extern "C" fn dochirwa_add_attachment(
    seat: &mut Seat,
    hub: u64,
    filename: &[u8],
    content_type: &[u8],
    content: &[u8],
    now: u64,
) -> u32
    ensures { IsSomeCall seat.old.engine seat.new.engine result anything
        (λ attachment. hubs.configure (hub_key hub) (AddAttachment attachment ∷ []) now) }
{
    if seat.is_closed() {
        return CLOSED;
    }
    code(
        seat.lend()
            .add_attachment(hub, filename, content_type, content, now),
    )
}

/// Takes the attachments of the top scope away.
#[unsafe(no_mangle)]
pub extern "C" fn dochirwa_clear_attachments(seat: &mut Seat, hub: u64, now: u64) -> u32
    ensures { IsCalled seat.old.engine seat.new.engine result anything
        (hubs.configure (hub_key hub) (ClearAttachments ∷ []) now) }
{
    if seat.is_closed() {
        return CLOSED;
    }
    code(seat.lend().clear_attachments(hub, now))
}
