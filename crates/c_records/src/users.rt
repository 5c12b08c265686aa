//! Users: an object with `id`, `email`, `username`, `ip_address` and `data`.
ghost use Rattle.std.specs.Prelude.{◌≡◌, None, IfErr, IfOk, codes};
ghost use Rattle.c_base.specs.Faults.{refusal_of};
ghost use Rattle.c_records.specs.Members.{text_under};

use crate::members::{map_member, text_member};
use c_base::fault::CallFault;
use sentry_base::protocol::User;
use sentry_plain::ValueMap;
use std::alloc::Global;

/// The user that an object describes. Other members are passed over.
///
/// `Unknown`: a member is of another kind; `OutOfMemory`.
pub fn user_of(alloc: Global, members: &ValueMap) -> Result<User, CallFault>
    ensures id { IfOk result (λ user. user.id ≡ text_under members.now (codes "id")) }
    ensures email { IfOk result (λ user. user.email ≡ text_under members.now (codes "email")) }
    ensures username { IfOk result (λ user. user.username ≡ text_under members.now (codes "username")) }
    ensures address { IfOk result (λ user. user.ip_address ≡ text_under members.now (codes "ip_address")) }
    ensures err { IfErr result (λ fault. refusal_of fault ≡ None) }
{
    let mut user = User::new(alloc);
    user.id = text_member(members, "id")?;
    user.email = text_member(members, "email")?;
    user.username = text_member(members, "username")?;
    user.ip_address = text_member(members, "ip_address")?;
    user.data_ = map_member(alloc, members, "data")?;
    Ok(user)
}
