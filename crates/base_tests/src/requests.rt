//! What a span says of the parts of a request that no command gives.
use sentry_base::protocol::Request;
use sentry_plain::{Text, TextMap, Value, ValueMap};
use sentry_span_edits::requests::with_request;
use std::alloc::{AllocError, Global};
use std::test::Fail;

/// One text under a key.
fn texts(alloc: Global, key: &str, text: &str) -> Result<TextMap<Text>, AllocError> {
    let mut texts = TextMap::new(alloc);
    texts.insert(Text::new(alloc, key)?, Text::new(alloc, text)?)?;
    Ok(texts)
}

/// A request without a method, a URL and a body.
fn request(
    query_string: Option<Text>,
    cookies: Option<Text>,
    headers: TextMap<Text>,
    env: TextMap<Text>,
) -> Request {
    Request {
        method: None,
        url: None,
        data_: None,
        query_string,
        cookies,
        headers,
        env,
    }
}

/// A request with a query, cookies, a header and an environment variable.
fn full_request(alloc: Global) -> Result<Request, AllocError> {
    Ok(request(
        Some(Text::new(alloc, "page=1")?),
        Some(Text::new(alloc, "till=2")?),
        texts(alloc, "Accept", "text/html")?,
        texts(alloc, "SERVER_PORT", "80")?,
    ))
}

fn is_text(value: Option<&Value>, text: &str) -> bool {
    match value {
        Some(Value::Text(found)) => found.as_str() == text,
        _ => false,
    }
}

/// Whether this is a map of one text under a key.
fn is_map_of(value: Option<&Value>, key: &str, text: &str) -> bool {
    match value {
        Some(Value::Map(map)) => map.len() == 1 && is_text(map.get(key), text),
        _ => false,
    }
}

/// Whether what is said of the full request has a key for each of its four parts.
fn has_each_part(said: &ValueMap) -> bool {
    is_text(said.get("query_string"), "page=1")
        & is_text(said.get("cookies"), "till=2")
        & is_map_of(said.get("headers"), "Accept", "text/html")
        & is_map_of(said.get("env"), "SERVER_PORT", "80")
        & (said.len() == 4)
}

#[test]
fn a_request_has_a_key_for_each_part(rt: HostRuntime) -> Result<(), Fail> {
    let alloc = rt.alloc();
    let nothing = ValueMap::new(alloc);
    let said = with_request(alloc, &nothing, &full_request(alloc)?)?;
    let empty = request(None, None, TextMap::new(alloc), TextMap::new(alloc));
    assert!(rt; has_each_part(&said));
    assert!(rt; with_request(alloc, &nothing, &empty)?.is_empty());
    Ok(())
}
