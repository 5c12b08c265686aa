//! Tests of `sentry_log` and `sentry_http` apart from hubs: filters of records, what is made of a record, statuses by code,
//! what is told of a request, and the headers for the next service.
#![tactic(auto)]

#[cfg(test)]
mod records;
#[cfg(test)]
mod requests;
