//! Statuses by code, what is told of a request, and the headers for the next service.
use sentry_base::protocol::SpanStatus;
use sentry_http::headers::outgoing_headers;
use sentry_http::requests::IncomingRequest;
use sentry_http::statuses::{HasStatus, span_status};
use sentry_plain::{Text, TextMap};
use sentry_trace::headers::TraceHeadersIter;
use std::test::Fail;

/// The headers of a request with credentials.
const HEADERS: [(&str, &str); 5] = [
    ("Host", "shop.invalid"),
    ("Cookie", "basket=7"),
    ("authorization", "Bearer 7"),
    ("Baggage", "sentry-org_id=1"),
    ("X-Real-IP", "192.0.2.7"),
];

#[test]
fn codes_have_statuses(rt: HostRuntime) -> Result<(), Fail> {
    assert!(rt; span_status(200) == SpanStatus::Ok && span_status(304) == SpanStatus::Ok);
    assert!(rt; span_status(404) == SpanStatus::NotFound);
    assert!(rt; span_status(418) == SpanStatus::InvalidArgument);
    assert!(rt; span_status(503) == SpanStatus::Unavailable);
    assert!(rt; span_status(500) == SpanStatus::InternalError);
    assert!(rt; span_status(600) == SpanStatus::UnknownError);
    assert!(rt; 404u16.status() == 404 && (204u16, "nothing").status() == 204);
    Ok(())
}

/// Whether the text of this key is the value.
fn has(texts: &TextMap<Text>, key: &str, value: &str) -> bool {
    match texts.get(key) {
        Some(text) => text.as_str() == value,
        None => false,
    }
}

#[test]
fn credentials_are_not_told(rt: HostRuntime) -> Result<(), Fail> {
    let request = IncomingRequest {
        method: "GET",
        url: "/lamps",
        query_string: Some("color=red"),
        headers: HEADERS.as_slice(),
    };
    let told = request.describe(rt.alloc(), true)?;
    let has_public = has(&told.headers, "Host", "shop.invalid")
        & has(&told.headers, "Baggage", "sentry-org_id=1");
    assert!(rt; has_public && told.headers.len() == 2 && told.cookies.is_none());
    Ok(())
}

/// The text, or `-`.
fn or_dash(text: &Option<Text>) -> &str {
    match text {
        Some(text) => text.as_str(),
        None => "-",
    }
}

#[test]
fn a_query_is_told_where_it_may_be(rt: HostRuntime) -> Result<(), Fail> {
    let request = IncomingRequest {
        query_string: Some("b=2"),
        ..IncomingRequest::get("/lamps?a=1?", &HEADERS)
    };
    let told = request.describe(rt.alloc(), true)?;
    assert!(rt; or_dash(&told.method) == "GET" && or_dash(&told.url) == "/lamps?a=1?");
    assert!(rt; or_dash(&told.query_string) == "b=2");
    let told = request.describe(rt.alloc(), false)?;
    assert!(rt; or_dash(&told.url) == "/lamps" && told.query_string.is_none());
    Ok(())
}

#[test]
fn the_trace_and_the_baggage_go_on(rt: HostRuntime) -> Result<(), Fail> {
    let alloc = rt.alloc();
    let trace = TraceHeadersIter::new(String::from_str(alloc, "a-b-1")?);
    let headers = outgoing_headers(alloc, trace, HEADERS.as_slice())?;
    let [(first, trace), (second, baggage)] = headers.as_slice() else {
        return Err(Fail::new("there are two headers"));
    };
    assert!(rt; first.as_str() == "sentry-trace" && trace.as_str() == "a-b-1");
    assert!(rt; second.as_str() == "Baggage" && baggage.as_str() == "sentry-org_id=1");
    Ok(())
}
