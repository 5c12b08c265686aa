//! Options that no text shows, and their builders.
use sentry_base::protocol::{Draw, ParseDsnError, Refusal};
use sentry_options::{ClientOptions, MaxRequestBodySize, PlainOptions};
use sentry_plain::Text;
use std::alloc::Global;
use std::test::Fail;

/// Options with a number in the place of callbacks.
type Options = ClientOptions<u8>;

/// The options that are on or off, and whether there is a DSN.
fn switches(options: &PlainOptions) -> [bool; 8] {
    [
        options.debug,
        options.attach_stacktrace,
        options.default_integrations,
        options.enable_logs,
        options.enable_metrics,
        options.accept_invalid_certs,
        options.auto_session_tracking,
        options.dsn.is_some(),
    ]
}

/// How long a shutdown may take, how many envelopes may wait, how large a body may be, and how many prefixes of modules
/// there are.
fn limits(options: &PlainOptions) -> (u64, usize, MaxRequestBodySize, [usize; 2]) {
    let capacity = match options.transport_channel_capacity {
        Some(capacity) => capacity.get(),
        None => 0,
    };
    (
        options.shutdown_timeout,
        capacity,
        options.max_request_body_size,
        [options.in_app_include.len(), options.in_app_exclude.len()],
    )
}

fn text_of(text: Option<&Text>) -> &str {
    match text {
        Some(text) => text.as_str(),
        None => "-",
    }
}

/// The options that are texts, and the last prefixes of modules; `-` for none.
fn texts(options: &PlainOptions) -> [&str; 6] {
    [
        text_of(options.release.as_ref()),
        text_of(options.http_proxy.as_ref()),
        text_of(options.https_proxy.as_ref()),
        options.user_agent.as_str(),
        text_of(options.in_app_include.as_slice().last()),
        text_of(options.in_app_exclude.as_slice().last()),
    ]
}

#[test]
fn options_of_which_nothing_was_set(rt: HostRuntime) -> Result<(), Fail> {
    let options = Options::with_callbacks(rt.alloc(), 0);
    let expected = [false, false, true, true, true, false, false, false];
    assert!(rt; switches(&options.plain) == expected);
    let expected = (2000000000, 0, MaxRequestBodySize::Medium, [0, 0]);
    assert!(rt; limits(&options.plain) == expected);
    let expected = ["-", "-", "-", "sentry.rust/0.49.3", "-", "-"];
    assert!(rt; texts(&options.plain) == expected);
    let refusal = Refusal::InvalidDsn(ParseDsnError::InvalidUrl);
    assert!(rt; options.dsn("").err() == Some(refusal));
    Ok(())
}

#[test]
fn bodies_are_kept_up_to_a_size(rt: HostRuntime) -> Result<(), Fail> {
    let (small, medium) = (MaxRequestBodySize::Small, MaxRequestBodySize::Medium);
    assert!(rt; small.is_within_size_limit(1000) && !small.is_within_size_limit(1001));
    assert!(rt; medium.is_within_size_limit(10000) && !medium.is_within_size_limit(10001));
    assert!(rt; !MaxRequestBodySize::None.is_within_size_limit(0));
    Ok(())
}

#[test]
fn draws_are_below_a_million(rt: HostRuntime) -> Result<(), Fail> {
    let Some(draw) = Draw::new(999_999) else {
        panic!(rt; "no draw")
    };
    assert!(rt; draw.millionths() == 999_999 && Draw::new(1_000_000).is_none());
    Ok(())
}

/// Options with the switches and limits set.
fn set_switches(alloc: Global) -> Options {
    Options::with_callbacks(alloc, 0)
        .debug(true)
        .attach_stacktrace(true)
        .default_integrations(false)
        .enable_logs(false)
        .enable_metrics(false)
        .accept_invalid_certs(true)
        .auto_session_tracking(true)
        .shutdown_timeout(5)
        .transport_channel_capacity(0)
        .max_request_body_size(MaxRequestBodySize::Always)
}

/// Options with all of that set, and the release not taken away.
fn set_options(alloc: Global) -> Result<Options, Refusal> {
    set_switches(alloc)
        .dsn("https://public@sentry.invalid/1")?
        .maybe_release(Some("app@1"))?
        .maybe_release(None)?
        .http_proxy("http://proxy")?
        .https_proxy("https://proxy")?
        .user_agent("agent/1")?
        .in_app_include(&["old"])?
        .in_app_include(&["app", "lib"])?
        .in_app_exclude(&["vendored"])
}

#[test]
fn options_are_set(rt: HostRuntime) -> Result<(), Fail> {
    let options = set_options(rt.alloc())?.clone()?;
    let expected = [true, true, false, false, false, true, true, true];
    assert!(rt; switches(&options.plain) == expected);
    // the least capacity is 1
    let expected = (5, 1, MaxRequestBodySize::Always, [2, 1]);
    assert!(rt; limits(&options.plain) == expected);
    let expected = [
        "app@1",
        "http://proxy",
        "https://proxy",
        "agent/1",
        "lib",
        "vendored",
    ];
    assert!(rt; texts(&options.plain) == expected);
    Ok(())
}
