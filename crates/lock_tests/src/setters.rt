//! The setters of a copy of a scope.
use crate::quiet::Passes;
use sentry_base::protocol::{Attachment, Context, Level, SpanId, TraceId, User, ValueMap};
use sentry_lock::ScopeEdits;
use sentry_plain::{Items, Text};
use sentry_scope::Scope;
use std::alloc::{AllocError, Global};
use std::test::Fail;

/// A file without content.
fn attachment(alloc: Global) -> Result<Attachment, AllocError> {
    Ok(Attachment {
        filename: Text::new(alloc, "log.txt")?,
        buffer: Items::new(alloc),
        content_type: None,
    })
}

/// Whether eleven calls of setters have memory enough.
fn set_all<P: Drop>(
    alloc: Global,
    edits: &mut ScopeEdits<P>,
    file: Attachment,
    processor: P,
) -> bool {
    edits.set_level(Some(Level::Error)).is_ok()
        & edits.set_fingerprint(Some(&["till", "drawer"])).is_ok()
        & edits.set_transaction(Some("sell")).is_ok()
        & edits.set_user(Some(User::new(alloc))).is_ok()
        & edits.set_tag("till", "3").is_ok()
        & edits.set_extra("lamps", 2u64).is_ok()
        & edits
            .set_context("shop", Context::Other(ValueMap::new(alloc)))
            .is_ok()
        & edits.set_context("town", ("name", "Bern")).is_ok()
        & edits.add_attachment(file).is_ok()
        & edits.add_event_processor(processor).is_ok()
        & edits.set_span(None).is_ok()
}

/// The same of six that take parts away, or all of them.
fn remove_all<P: Drop>(edits: &mut ScopeEdits<P>) -> bool {
    edits.remove_tag("till").is_ok()
        & edits.remove_extra("lamps").is_ok()
        & edits.remove_context("shop").is_ok()
        & edits.clear_breadcrumbs().is_ok()
        & edits.clear_attachments().is_ok()
        & edits.clear(TraceId([5; 16]), SpanId([6; 8])).is_ok()
}

/// Whether all these have memory enough, whether the copy then has a user or a span and its scope a user, and how many
/// edits there are.
fn edit_all<P: Drop>(alloc: Global, processor: P) -> Result<(bool, [bool; 3], usize), AllocError> {
    let file = attachment(alloc)?;
    let mut edits = ScopeEdits::new(alloc, Scope::new(alloc, TraceId([1; 16]), SpanId([2; 8])));
    let are_done = set_all(alloc, &mut edits, file, processor) & remove_all(&mut edits);
    let found = [
        edits.user().is_some(),
        edits.get_span().is_some(),
        edits.scope().user().is_some(),
    ];
    Ok((are_done, found, edits.into_edits().len()))
}

#[test]
fn each_setter_is_an_edit(rt: HostRuntime) -> Result<(), Fail> {
    let found = edit_all(rt.alloc(), Passes)?;
    assert!(rt; found == (true, [false; 3], 17));
    Ok(())
}
