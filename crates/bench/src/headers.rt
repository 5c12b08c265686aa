//! Trace headers that are read many times, and a plain scan of the same bytes.
use sentry_core::TracePropagationContext;
use sentry_core::protocol::OrganizationId;

type Headers = [(&'static str, &'static str); 2];

// Two lists, so that no call is the same as the one before it.
const LISTS: [Headers; 2] = [
    [
        (
            "sentry-trace",
            "09e04486820349518ac7b5d2adbf6ba5-9cf635fa5b870b3a-1",
        ),
        (
            "baggage",
            "other=value, sentry-org_id=123, another=value;property",
        ),
    ],
    [
        (
            "sentry-trace",
            "19e04486820349518ac7b5d2adbf6ba5-8cf635fa5b870b3a-0",
        ),
        (
            "baggage",
            "other=value, sentry-org_id=123, another=value;property",
        ),
    ],
];

/// How many of the calls find the organization.
pub fn read(calls: u64) -> u64 {
    let mut found = 0u64;
    for call in 0..calls {
        let headers = if call % 2 == 0 { &LISTS[0] } else { &LISTS[1] };
        let read = TracePropagationContext::try_from_headers(headers.iter().copied());
        if names_organization(read.ok()) {
            found = found.wrapping_add(1);
        }
    }
    found
}

fn names_organization(context: Option<TracePropagationContext>) -> bool {
    match context {
        Some(context) => context.org_id == Some(OrganizationId(123)),
        None => false,
    }
}

/// In how many of the calls a scan of the same bytes finds one byte, which is another in each call.
pub fn scan(calls: u64) -> u64 {
    let mut found = 0u64;
    for call in 0..calls {
        let headers = if call % 2 == 0 { &LISTS[0] } else { &LISTS[1] };
        let wanted = (call & 0x7f) as u8;
        let mut count = 0u32;
        for (name, value) in headers {
            count = count
                .wrapping_add(count_of(name, wanted))
                .wrapping_add(count_of(value, wanted));
        }
        if count > 0 {
            found = found.wrapping_add(1);
        }
    }
    found
}

fn count_of(text: &str, wanted: u8) -> u32 {
    let mut count = 0u32;
    for byte in text.as_bytes() {
        if *byte == wanted {
            count = count.wrapping_add(1);
        }
    }
    count
}
