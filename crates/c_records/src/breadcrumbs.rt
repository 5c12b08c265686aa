//! Breadcrumbs: an object with `type`, `category`, `level`, `message` and `data`.
ghost use Rattle.std.specs.Prelude.{◌≡◌, None, IfErr, IfOk, codes};
ghost use Rattle.c_base.specs.Faults.{refusal_of};
ghost use Rattle.c_records.specs.Members.{text_under};

use crate::members::{level_member, list_of, map_member, map_of, member, text_member};
use c_base::fault::CallFault;
use sentry_base::protocol::{Breadcrumb, Level};
use sentry_plain::{Items, Value, ValueMap};
use std::alloc::Global;

/// The breadcrumb that an object describes, of this moment (nanoseconds since the epoch). Other members are passed
/// over.
///
/// `Unknown`: a member is of another kind, or the level has no such name; `OutOfMemory`.
pub fn breadcrumb_of(alloc: Global, members: &ValueMap, now: u64) -> Result<Breadcrumb, CallFault>
    ensures category { IfOk result (λ crumb. crumb.category ≡ text_under members.now (codes "category")) }
    ensures message { IfOk result (λ crumb. crumb.message ≡ text_under members.now (codes "message")) }
    ensures err { IfErr result (λ fault. refusal_of fault ≡ None) }
{
    let mut breadcrumb = Breadcrumb::new(alloc, now)?;
    if let Some(ty) = text_member(members, "type")? {
        breadcrumb.ty = ty;
    }
    breadcrumb.category = text_member(members, "category")?;
    breadcrumb.level = level_member(members, "level", Level::Info)?;
    breadcrumb.message = text_member(members, "message")?;
    breadcrumb.data_ = map_member(alloc, members, "data")?;
    Ok(breadcrumb)
}

// The breadcrumbs of a list.
fn breadcrumbs_of(alloc: Global, values: &[Value], now: u64) -> Result<Items<Breadcrumb>, CallFault>
    ensures { IfErr result (λ fault. refusal_of fault ≡ None) }
{
    let mut breadcrumbs = Items::new(alloc);
    for value in values {
        let breadcrumb = breadcrumb_of(alloc, map_of(value)?, now)?;
        breadcrumbs.push(breadcrumb)?;
    }
    Ok(breadcrumbs)
}

/// The member `breadcrumbs`, each of this moment; none where it is absent.
pub(crate) fn breadcrumbs_member(
    alloc: Global,
    members: &ValueMap,
    now: u64,
) -> Result<Items<Breadcrumb>, CallFault>
    ensures { IfErr result (λ fault. refusal_of fault ≡ None) }
{
    match member(members, "breadcrumbs") {
        None => Ok(Items::new(alloc)),
        Some(value) => {
            let breadcrumbs = breadcrumbs_of(alloc, list_of(value)?, now)?;
            Ok(breadcrumbs)
        }
    }
}
