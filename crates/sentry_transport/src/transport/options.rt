//! The options of a transport.

ghost use Rattle.std.specs.Prelude.{◌≡◌, IfErr, IfOk};
ghost use Rattle.sentry_base.specs.declared.protocol.refusal.Refusal.TheVariants.{OutOfMemory};
ghost use Rattle.sentry_transport.specs.Transports.{transport_options};

use sentry_base::protocol::Refusal;
use sentry_client_reports::Recorder;
use sentry_options::{ClientOptions, UserAgent};
use sentry_plain::Text;
use sentry_texts::dsn::Dsn;
use std::num::NonZeroUsize;

/// What a transport is made of: the options of a client that say where and how envelopes are sent, and the recorder of
/// what the transport loses.
#[derive(Drop)]
pub struct TransportOptions {
    /// Where envelopes are sent.
    pub dsn: Dsn,
    /// The user agent to send.
    pub user_agent: UserAgent,
    /// The proxy for HTTP.
    pub http_proxy: Option<Text>,
    /// The proxy for HTTPS.
    pub https_proxy: Option<Text>,
    /// Whether the server's certificate may be invalid.
    pub accept_invalid_certs: bool,
    /// How many envelopes may wait in the transport.
    pub transport_channel_capacity: Option<NonZeroUsize>,
    /// Counts what is lost on the way to the server.
    pub client_report_recorder: Option<Recorder>,
}

impl TransportOptions {
    /// The options of a transport for a client with these options, without a recorder; `None` if they have no DSN.
    ///
    /// `OutOfMemory`.
    pub fn try_from_client_options<C>(
        options: &ClientOptions<C>,
    ) -> Result<Option<TransportOptions>, Refusal>
        ensures made { IfOk result (λ made. made ≡ transport_options options.now) }
        ensures refused { IfErr result (λ refusal. refusal ≡ OutOfMemory) }
    {
        let plain = &options.plain;
        let Some(dsn) = &plain.dsn else {
            return Ok(None);
        };
        Ok(Some(TransportOptions {
            dsn: dsn.clone()?,
            user_agent: plain.user_agent.clone()?,
            http_proxy: plain.http_proxy.clone()?,
            https_proxy: plain.https_proxy.clone()?,
            accept_invalid_certs: plain.accept_invalid_certs,
            transport_channel_capacity: plain.transport_channel_capacity,
            client_report_recorder: None,
        }))
    }
}
