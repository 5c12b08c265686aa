//! What is told of a request.
ghost use Rattle.std.specs.Prelude.{◌≡◌, [], ◌∷◌, codes, map, Some, None, IfOk, OnOk, if◌then◌else◌, option_copied};
ghost use Rattle.std.specs.List.{position};
ghost use Rattle.sentry_http.specs.Requests.{begins_query, if_allowed, put_public, without_query};
ghost use Rattle.sentry_trace.specs.HeaderLists.{header_of};

use sentry_base::protocol::Request;
use sentry_plain::{Text, TextMap};
use sentry_texts::utils::is_sensitive_header;
use std::alloc::{AllocError, Global};

/// A request, as it comes in.
#[derive(Clone, Copy)]
pub struct IncomingRequest<'a> {
    pub method: &'a str,
    /// Where it goes: a path or a URL.
    pub url: &'a str,
    /// The query, if it isn't in the URL.
    pub query_string: Option<&'a str>,
    /// The names and the values of its headers.
    pub headers: &'a [(&'a str, &'a str)],
}

impl<'a> IncomingRequest<'a> {
    /// A request by this method, such as `POST`, of this URL, which may have a query, with these headers.
    pub fn new(
        method: &'a str,
        url: &'a str,
        headers: &'a [(&'a str, &'a str)],
    ) -> IncomingRequest<'a>
        ensures method { result.method.now ≡ method.now }
        ensures url { (result.url.now ≡ url.now) × (result.query_string ≡ None) }
        ensures headers { result.headers.now ≡ headers.now }
    {
        IncomingRequest {
            method,
            url,
            query_string: None,
            headers,
        }
    }

    /// A `GET` of this URL, which may have a query, with these headers.
    pub fn get(url: &'a str, headers: &'a [(&'a str, &'a str)]) -> IncomingRequest<'a>
        ensures method { result.method.now ≡ codes "GET" }
        ensures url { (result.url.now ≡ url.now) × (result.query_string ≡ None) }
        ensures headers { result.headers.now ≡ headers.now }
    {
        IncomingRequest::new("GET", url, headers)
    }
}

impl IncomingRequest<'_> {
    /// What is told of it: no body, no cookies, and of the headers those that carry no private data of a user
    /// (`is_sensitive_header`). Of two headers of one name the last is told. The query, in the URL or beside it, is told
    /// only if personal data may be.
    ///
    /// An allocation may fail.
    pub fn describe(&self, alloc: Global, is_personal_allowed: bool) -> Result<Request, AllocError>
        ensures { IfOk result (λ told. told ≡ record {
          method = Some self.now.method.now;
          url = Some (if is_personal_allowed then self.now.url.now else without_query self.now.url.now);
          data_ = None;
          query_string = if_allowed is_personal_allowed (option_copied self.now.query_string);
          cookies = None;
          headers = put_public (map header_of self.now.headers.now) [];
          env = [];
        }) }
    {
        Ok(Request {
            method: Some(Text::new(alloc, self.method)?),
            url: Some(copy_url(alloc, self.url, is_personal_allowed)?),
            data_: None,
            query_string: copy_query(alloc, self.query_string, is_personal_allowed)?,
            cookies: None,
            headers: copy_public_headers(alloc, self.headers)?,
            env: TextMap::new(alloc),
        })
    }
}

fn copy_query(
    alloc: Global,
    query: Option<&str>,
    is_personal_allowed: bool,
) -> Result<Option<Text>, AllocError>
    ensures { IfOk result (λ copy. copy ≡ if_allowed is_personal_allowed (option_copied query.entry)) }
{
    if !is_personal_allowed {
        return Ok(None);
    }
    match query {
        None => Ok(None),
        Some(query) => Ok(Some(Text::new(alloc, query)?)),
    }
}

fn copy_url(alloc: Global, url: &str, is_personal_allowed: bool) -> Result<Text, AllocError>
    ensures { IfOk result (λ copy. copy ≡ (if is_personal_allowed then url.now else without_query url.now)) }
{
    if is_personal_allowed {
        Text::new(alloc, url)
    } else {
        Text::new(alloc, before_query(url))
    }
}

// The URL up to its query.
fn before_query(url: &str) -> &str
    ensures { result.now ≡ without_query url.now }
{
    match query_start(url.as_bytes()) {
        Some(start) => &url[..start],
        None => url,
    }
}

// Where the first question mark is.
fn query_start(url: &[u8]) -> Option<usize>
    ensures { result ≡ position begins_query url.now }
{
    url.iter().position(|byte| *byte == b'?')
}

fn copy_public_headers(alloc: Global, headers: &[(&str, &str)]) -> Result<TextMap<Text>, AllocError>
    ensures { IfOk result (λ copies. copies ≡ put_public (map header_of headers.now) []) }
{
    let mut copies = TextMap::new(alloc);
    for header in headers {
        put_public(alloc, &mut copies, header.0, header.1)?;
    }
    Ok(copies)
}

// Puts in a header, unless it may carry private data of a user.
fn put_public(
    alloc: Global,
    copies: &mut TextMap<Text>,
    name: &str,
    value: &str,
) -> Result<(), AllocError>
    ensures { OnOk result (copies.new ≡ put_public ((name.now, value.now) ∷ []) copies.old) }
{
    if is_sensitive_header(name) {
        return Ok(());
    }
    let name = Text::new(alloc, name)?;
    let value = Text::new(alloc, value)?;
    copies.insert(name, value)
}
