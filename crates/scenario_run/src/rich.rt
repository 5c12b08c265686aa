//! The event of a `rich` line, which has something of everything that clients and scopes fill in.
use crate::copies::Copies;
use sentry_base::protocol::{
    Breadcrumb, ClientSdkInfo, Context, Event, Fresh, Level, User, ValueMap,
};
use sentry_plain::{Items, Shared, Text};
use std::alloc::{AllocError, Global};

/// The text of each part but the message.
const OWN: &str = "own";

/// A list of one text.
fn own_list(alloc: Global) -> Result<Items<Text>, AllocError> {
    let mut list = Items::new(alloc);
    list.push(Text::new(alloc, OWN)?)?;
    Ok(list)
}

/// A map of one text, at this key.
fn own_map(alloc: Global, key: &str) -> Result<ValueMap, AllocError> {
    let mut copies = Copies::new(alloc);
    let mut map = ValueMap::new(alloc);
    map.insert(copies.text(key), copies.value(OWN))?;
    copies.finish(map)
}

fn own_sdk(alloc: Global) -> Result<ClientSdkInfo, AllocError> {
    let mut copies = Copies::new(alloc);
    let name = copies.text(OWN);
    let version = copies.text(OWN);
    let integrations = own_list(alloc)?;
    copies.finish(ClientSdkInfo {
        name,
        version,
        packages: Items::new(alloc),
        integrations,
    })
}

fn own_breadcrumb(alloc: Global, now: u64) -> Result<Breadcrumb, AllocError> {
    let mut breadcrumb = Breadcrumb::new(alloc, now)?;
    breadcrumb.message = Some(Text::new(alloc, OWN)?);
    Ok(breadcrumb)
}

fn set_names(alloc: Global, event: &mut Event) -> Result<(), AllocError> {
    let mut copies = Copies::new(alloc);
    event.transaction = Some(copies.text(OWN));
    event.platform = copies.text(OWN);
    event.server_name = Some(copies.text(OWN));
    event.release = Some(copies.text(OWN));
    event.environment = Some(copies.text(OWN));
    let mut user = User::new(alloc);
    user.id = Some(copies.text(OWN));
    event.user = Some(user);
    copies.finish(())
}

fn set_lists(alloc: Global, event: &mut Event) -> Result<(), AllocError> {
    event.fingerprint = own_list(alloc)?;
    event.extra = own_map(alloc, OWN)?;
    event.sdk = Some(Shared::new(alloc, own_sdk(alloc)?)?);
    Ok(())
}

fn add_details(alloc: Global, event: &mut Event, now: u64) -> Result<(), AllocError> {
    let mut copies = Copies::new(alloc);
    event.tags.insert(copies.text(OWN), copies.text(OWN))?;
    let context = Context::Other(own_map(alloc, "value")?);
    event.contexts.insert(copies.text(OWN), context)?;
    event.breadcrumbs.push(own_breadcrumb(alloc, now)?)?;
    copies.finish(())
}

/// An event with this message, and with parts of its own for all that is filled in where it is absent.
pub fn rich_event(
    alloc: Global,
    level: Level,
    message: &str,
    fresh: Fresh,
) -> Result<Event, AllocError> {
    let mut event = Event::new(alloc, fresh.uuid, fresh.now)?;
    event.level = level;
    event.message = Some(Text::new(alloc, message)?);
    set_names(alloc, &mut event)?;
    set_lists(alloc, &mut event)?;
    add_details(alloc, &mut event, fresh.now)?;
    Ok(event)
}
