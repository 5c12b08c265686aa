//! A builder of users.
ghost use Rattle.std.specs.Prelude.{◌≡◌, Some, IfOk};
ghost use Rattle.sentry_base.specs.Records.{unknown_user};

use sentry_base::protocol::User;
use sentry_plain::Text;
use std::alloc::{AllocError, Global};

/// Makes a user: `user(alloc).username("ada").email("ada@shop.invalid").build()?`.
#[derive(Drop)]
pub struct UserBuilder {
    alloc: Global,
    user: Result<User, AllocError>,
}

/// A user of whom nothing is known yet.
pub fn user(alloc: Global) -> UserBuilder
    ensures { IfOk result.user (λ user. user ≡ unknown_user) }
{
    UserBuilder {
        alloc,
        user: Ok(User::new(alloc)),
    }
}

impl UserBuilder {
    /// Sets the id.
    pub fn id(self, id: &str) -> UserBuilder
        ensures { IfOk result.user (λ made. IfOk self.user (λ before. made ≡ record before { id = Some id.now })) }
    {
        let UserBuilder { alloc, user } = self;
        UserBuilder {
            alloc,
            user: with_id(alloc, user, id),
        }
    }

    /// Sets the name.
    pub fn username(self, username: &str) -> UserBuilder
        ensures { IfOk result.user (λ made. IfOk self.user (λ before. made ≡ record before { username = Some username.now })) }
    {
        let UserBuilder { alloc, user } = self;
        UserBuilder {
            alloc,
            user: with_username(alloc, user, username),
        }
    }

    /// Sets the email address.
    pub fn email(self, email: &str) -> UserBuilder
        ensures { IfOk result.user (λ made. IfOk self.user (λ before. made ≡ record before { email = Some email.now })) }
    {
        let UserBuilder { alloc, user } = self;
        UserBuilder {
            alloc,
            user: with_email(alloc, user, email),
        }
    }

    /// Sets the IP address, as a text.
    pub fn ip_address(self, address: &str) -> UserBuilder
        ensures { IfOk result.user (λ made. IfOk self.user (λ before. made ≡ record before { ip_address = Some address.now })) }
    {
        let UserBuilder { alloc, user } = self;
        UserBuilder {
            alloc,
            user: with_address(alloc, user, address),
        }
    }

    /// The user. An allocation of one of the calls may have failed.
    pub fn build(self) -> Result<User, AllocError>
        ensures { result ≡ self.user }
    {
        let UserBuilder { alloc: _, user } = self;
        user
    }
}

fn with_id(alloc: Global, user: Result<User, AllocError>, text: &str) -> Result<User, AllocError>
    ensures { IfOk result (λ made. IfOk user (λ before. made ≡ record before { id = Some text.now })) }
{
    let mut user = user?;
    user.id = Some(Text::new(alloc, text)?);
    Ok(user)
}

fn with_username(
    alloc: Global,
    user: Result<User, AllocError>,
    text: &str,
) -> Result<User, AllocError>
    ensures { IfOk result (λ made. IfOk user (λ before. made ≡ record before { username = Some text.now })) }
{
    let mut user = user?;
    user.username = Some(Text::new(alloc, text)?);
    Ok(user)
}

fn with_email(alloc: Global, user: Result<User, AllocError>, text: &str) -> Result<User, AllocError>
    ensures { IfOk result (λ made. IfOk user (λ before. made ≡ record before { email = Some text.now })) }
{
    let mut user = user?;
    user.email = Some(Text::new(alloc, text)?);
    Ok(user)
}

fn with_address(
    alloc: Global,
    user: Result<User, AllocError>,
    text: &str,
) -> Result<User, AllocError>
    ensures { IfOk result (λ made. IfOk user (λ before. made ≡ record before { ip_address = Some text.now })) }
{
    let mut user = user?;
    user.ip_address = Some(Text::new(alloc, text)?);
    Ok(user)
}
