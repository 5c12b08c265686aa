//! The calls, a file for each kind.
mod captures;
mod clients;
mod envelopes;
mod headers;
mod hubs;
mod layers;
mod losses;
mod scopes;
mod sessions;
mod settings;
mod spans;
mod telemetry;
mod texts;
