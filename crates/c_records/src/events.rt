//! Events, as Sentry writes them: an object with `level`, `message`, `transaction`, `platform`, `fingerprint`,
//! `server_name`, `release`, `environment`, `user`, `request`, `contexts`, `breadcrumbs`, `exception`, `tags`, `extra` and
//! `sdk`.
ghost use Rattle.std.specs.Prelude.{◌≡◌, None, IfErr, OnOk, codes};
ghost use Rattle.c_base.specs.Faults.{refusal_of};
ghost use Rattle.c_records.specs.Members.{text_under};

use crate::breadcrumbs::breadcrumbs_member;
use crate::members::{
    level_member, list_of, map_member, map_of, member, text_items, text_member, text_of,
    texts_member,
};
use crate::requests::request_of;
use crate::users::user_of;
use c_base::fault::CallFault;
use sentry_base::protocol::{
    ClientSdkInfo, Context, Event, Exception, Level, Mechanism, Request, User, Uuid,
};
use sentry_plain::{Items, Shared, Text, TextMap, Value, ValueMap};
use std::alloc::Global;

// Whether an error was handled, if that is said.
fn handled_member(members: &ValueMap) -> Result<Option<bool>, CallFault>
    ensures { IfErr result (λ fault. refusal_of fault ≡ None) }
{
    match member(members, "handled") {
        None => Ok(None),
        Some(Value::Bool(handled)) => Ok(Some(*handled)),
        Some(_) => Err(CallFault::Unknown),
    }
}

// How an error was caught: an object with `type` and `handled`.
fn mechanism_of(alloc: Global, members: &ValueMap) -> Result<Mechanism, CallFault>
    ensures { IfErr result (λ fault. refusal_of fault ≡ None) }
{
    let handled = handled_member(members)?;
    let ty = match text_member(members, "type")? {
        Some(ty) => ty,
        None => Text::new(alloc, "generic")?,
    };
    Ok(Mechanism { ty, handled })
}

fn mechanism_member(alloc: Global, members: &ValueMap) -> Result<Option<Mechanism>, CallFault>
    ensures { IfErr result (λ fault. refusal_of fault ≡ None) }
{
    match member(members, "mechanism") {
        None => Ok(None),
        Some(value) => {
            let mechanism = mechanism_of(alloc, map_of(value)?)?;
            Ok(Some(mechanism))
        }
    }
}

// An error: an object with `type`, `value` and `mechanism`.
fn exception_of(alloc: Global, members: &ValueMap) -> Result<Exception, CallFault>
    ensures { IfErr result (λ fault. refusal_of fault ≡ None) }
{
    let Some(named) = member(members, "type") else {
        return Err(CallFault::Unknown);
    };
    let value = text_member(members, "value")?;
    let mechanism = mechanism_member(alloc, members)?;
    let ty = text_of(named)?;
    Ok(Exception {
        ty,
        value,
        mechanism,
    })
}

fn exceptions_of(alloc: Global, values: &[Value]) -> Result<Items<Exception>, CallFault>
    ensures { IfErr result (λ fault. refusal_of fault ≡ None) }
{
    let mut exceptions = Items::new(alloc);
    for value in values {
        let exception = exception_of(alloc, map_of(value)?)?;
        exceptions.push(exception)?;
    }
    Ok(exceptions)
}

fn exceptions_member(alloc: Global, members: &ValueMap) -> Result<Items<Exception>, CallFault>
    ensures { IfErr result (λ fault. refusal_of fault ≡ None) }
{
    match member(members, "exception") {
        None => Ok(Items::new(alloc)),
        Some(value) => {
            let exceptions = exceptions_of(alloc, list_of(value)?)?;
            Ok(exceptions)
        }
    }
}

// The contexts that an object describes, each an object of any members.
fn contexts_of(alloc: Global, members: &ValueMap) -> Result<TextMap<Context>, CallFault>
    ensures { IfErr result (λ fault. refusal_of fault ≡ None) }
{
    let mut contexts = TextMap::new(alloc);
    for (key, value) in members.iter() {
        let map = map_of(value)?;
        let context = Context::Other(map.clone()?);
        contexts.insert(Text::from_string(key.clone()?)?, context)?;
    }
    Ok(contexts)
}

fn contexts_member(alloc: Global, members: &ValueMap) -> Result<TextMap<Context>, CallFault>
    ensures { IfErr result (λ fault. refusal_of fault ≡ None) }
{
    match member(members, "contexts") {
        None => Ok(TextMap::new(alloc)),
        Some(value) => {
            let contexts = contexts_of(alloc, map_of(value)?)?;
            Ok(contexts)
        }
    }
}

fn user_member(alloc: Global, members: &ValueMap) -> Result<Option<User>, CallFault>
    ensures { IfErr result (λ fault. refusal_of fault ≡ None) }
{
    match member(members, "user") {
        None => Ok(None),
        Some(value) => {
            let user = user_of(alloc, map_of(value)?)?;
            Ok(Some(user))
        }
    }
}

fn request_member(alloc: Global, members: &ValueMap) -> Result<Option<Request>, CallFault>
    ensures { IfErr result (λ fault. refusal_of fault ≡ None) }
{
    match member(members, "request") {
        None => Ok(None),
        Some(value) => {
            let request = request_of(alloc, map_of(value)?)?;
            Ok(Some(request))
        }
    }
}

// The SDK that calls the library: an object with `name` and `version`.
fn sdk_of(alloc: Global, members: &ValueMap) -> Result<ClientSdkInfo, CallFault>
    ensures { IfErr result (λ fault. refusal_of fault ≡ None) }
{
    let (Some(name), Some(version)) = (member(members, "name"), member(members, "version")) else {
        return Err(CallFault::Unknown);
    };
    let name = text_of(name)?;
    let version = text_of(version)?;
    Ok(ClientSdkInfo {
        name,
        version,
        packages: Items::new(alloc),
        integrations: Items::new(alloc),
    })
}

fn sdk_member(alloc: Global, members: &ValueMap) -> Result<Option<Shared<ClientSdkInfo>>, CallFault>
    ensures { IfErr result (λ fault. refusal_of fault ≡ None) }
{
    match member(members, "sdk") {
        None => Ok(None),
        Some(value) => {
            let sdk = sdk_of(alloc, map_of(value)?)?;
            Ok(Some(Shared::new(alloc, sdk)?))
        }
    }
}

// Sets what is text.
fn set_texts(alloc: Global, event: &mut Event, members: &ValueMap) -> Result<(), CallFault>
    ensures message { OnOk result (event.new.message ≡ text_under members.now (codes "message")) }
    ensures transaction { OnOk result (event.new.transaction ≡ text_under members.now (codes "transaction")) }
    ensures server { OnOk result (event.new.server_name ≡ text_under members.now (codes "server_name")) }
    ensures release { OnOk result (event.new.release ≡ text_under members.now (codes "release")) }
    ensures environment { OnOk result (event.new.environment ≡ text_under members.now (codes "environment")) }
    ensures err { IfErr result (λ fault. refusal_of fault ≡ None) }
{
    event.level = level_member(members, "level", Level::Info)?;
    event.message = text_member(members, "message")?;
    event.transaction = text_member(members, "transaction")?;
    if let Some(platform) = text_member(members, "platform")? {
        event.platform = platform;
    }
    event.server_name = text_member(members, "server_name")?;
    event.release = text_member(members, "release")?;
    event.environment = text_member(members, "environment")?;
    if let Some(value) = member(members, "fingerprint") {
        event.fingerprint = text_items(alloc, list_of(value)?)?;
    }
    Ok(())
}

// Sets the rest.
fn set_records(
    alloc: Global,
    event: &mut Event,
    members: &ValueMap,
    now: u64,
) -> Result<(), CallFault>
    ensures { IfErr result (λ fault. refusal_of fault ≡ None) }
{
    event.user = user_member(alloc, members)?;
    event.request = request_member(alloc, members)?;
    event.contexts = contexts_member(alloc, members)?;
    event.breadcrumbs = breadcrumbs_member(alloc, members, now)?;
    event.exception = exceptions_member(alloc, members)?;
    event.tags = texts_member(alloc, members, "tags")?;
    event.extra = map_member(alloc, members, "extra")?;
    event.sdk = sdk_member(alloc, members)?;
    Ok(())
}

/// The event that an object describes, of this moment (nanoseconds since the epoch), with the nil id. Other members are
/// passed over.
///
/// `Unknown`: a member is of another kind, an exception has no `type`, an SDK no `name` or no `version`, or a level has no
/// such name; `OutOfMemory`.
pub fn event_of(alloc: Global, members: &ValueMap, now: u64) -> Result<Event, CallFault>
    ensures { IfErr result (λ fault. refusal_of fault ≡ None) }
{
    let mut event = Event::new(alloc, Uuid::nil(), now)?;
    set_texts(alloc, &mut event, members)?;
    set_records(alloc, &mut event, members, now)?;
    Ok(event)
}
