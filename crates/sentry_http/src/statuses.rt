//! What the code of a response says of its transaction.
ghost use Rattle.std.specs.Prelude.{◌≡◌};
ghost use Rattle.sentry_http.specs.Statuses.{client_status, server_status, span_status};

use sentry_base::protocol::SpanStatus;

/// The status of a transaction whose response has this code.
pub fn span_status(code: u16) -> SpanStatus
    ensures { result ≡ span_status code }
{
    match code {
        100..=399 => SpanStatus::Ok,
        400..=499 => client_status(code),
        500..=599 => server_status(code),
        _ => SpanStatus::UnknownError,
    }
}

fn client_status(code: u16) -> SpanStatus
    ensures { result ≡ client_status code }
{
    match code {
        401 => SpanStatus::Unauthenticated,
        403 => SpanStatus::PermissionDenied,
        404 => SpanStatus::NotFound,
        409 => SpanStatus::AlreadyExists,
        413 => SpanStatus::FailedPrecondition,
        429 => SpanStatus::ResourceExhausted,
        499 => SpanStatus::Cancelled,
        _ => SpanStatus::InvalidArgument,
    }
}

fn server_status(code: u16) -> SpanStatus
    ensures { result ≡ server_status code }
{
    match code {
        501 => SpanStatus::Unimplemented,
        503 => SpanStatus::Unavailable,
        504 => SpanStatus::DeadlineExceeded,
        _ => SpanStatus::InternalError,
    }
}

/// What says the code of a response.
pub trait HasStatus {
    ghost use Rattle.std.specs.Prelude.{ℕ};

    ghost code: { Self → ℕ };

    /// The code.
    fn status(&self) -> u16
        ensures { result ≡ code self.now };
}

impl HasStatus for u16 {
    ghost code = { λ code. code };

    fn status(&self) -> u16 {
        *self
    }
}

/// A code, and what else the response is.
impl<B> HasStatus for (u16, B) {
    ghost code = { λ response. response.0 };

    fn status(&self) -> u16 {
        self.0
    }
}
