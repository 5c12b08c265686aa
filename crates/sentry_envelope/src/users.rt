//! Users.
ghost use Rattle.std.specs.Prelude.{◌≡◌, OnOk, codes};
ghost use Rattle.json.specs.Tree.{json_tokens};
ghost use Rattle.sentry_framing.specs.Json.{Adds, Puts, optional};
ghost use Rattle.sentry_envelope.specs.Users.{user_json};

use crate::own_members::{OwnMembers, put_others};
use crate::texts::put_optional;
use json::Writer;
use sentry_base::protocol::User;
use std::alloc::AllocError;

impl OwnMembers for User {
    ghost use Rattle.sentry_envelope.specs.Users.{user_own};

    ghost own = { user_own };

    fn has_own(&self, name: &str) -> bool {
        match name {
            "id" => self.id.is_some(),
            "email" => self.email.is_some(),
            "ip_address" => self.ip_address.is_some(),
            "username" => self.username.is_some(),
            _ => false,
        }
    }
}

fn write_user(out: &mut Writer, user: &User) -> Result<(), AllocError>
    ensures { OnOk result (Adds out.old out.new (json_tokens (user_json user.now))) }
{
    out.begin_object()?;
    put_optional(out, "id", &user.id)?;
    put_optional(out, "email", &user.email)?;
    put_optional(out, "ip_address", &user.ip_address)?;
    put_optional(out, "username", &user.username)?;
    put_others(out, user, &user.data_)?;
    out.end_object()?;
    Ok(())
}

/// Writes a user, if there is one.
pub fn put_user(out: &mut Writer, user: &Option<User>) -> Result<(), AllocError>
    ensures { OnOk result (Puts out.old out.new (optional user_json (codes "user") user.now)) }
{
    match user {
        None => Ok(()),
        Some(user) => {
            out.key("user")?;
            write_user(out, user)?;
            Ok(())
        }
    }
}
