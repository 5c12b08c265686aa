//! How transactions and spans end.
ghost use Rattle.std.specs.Prelude.{◌≡◌, None, IfOk, IfErr, IfSome};
ghost use Rattle.sentry_base.specs.Names.{span_status_name};
ghost use Rattle.c_base.specs.Faults.{refusal_of};

use c_base::fault::CallFault;
use sentry_base::protocol::SpanStatus;

// The status of this name, if it says that all went well or what a caller did wrong.
fn status_of_caller(name: &str) -> Option<SpanStatus>
    ensures { IfSome result (λ status. span_status_name status ≡ name.now) }
{
    match name {
        "ok" => Some(SpanStatus::Ok),
        "cancelled" => Some(SpanStatus::Cancelled),
        "invalid_argument" => Some(SpanStatus::InvalidArgument),
        "not_found" => Some(SpanStatus::NotFound),
        "already_exists" => Some(SpanStatus::AlreadyExists),
        "permission_denied" => Some(SpanStatus::PermissionDenied),
        "unauthenticated" => Some(SpanStatus::Unauthenticated),
        "failed_precondition" => Some(SpanStatus::FailedPrecondition),
        "out_of_range" => Some(SpanStatus::OutOfRange),
        _ => None,
    }
}

// The status of this name, if it says what went wrong with a server.
fn status_of_server(name: &str) -> Option<SpanStatus>
    ensures { IfSome result (λ status. span_status_name status ≡ name.now) }
{
    match name {
        "deadline_exceeded" => Some(SpanStatus::DeadlineExceeded),
        "resource_exhausted" => Some(SpanStatus::ResourceExhausted),
        "aborted" => Some(SpanStatus::Aborted),
        "unimplemented" => Some(SpanStatus::Unimplemented),
        "internal_error" => Some(SpanStatus::InternalError),
        "unavailable" => Some(SpanStatus::Unavailable),
        "data_loss" => Some(SpanStatus::DataLoss),
        "unknown_error" => Some(SpanStatus::UnknownError),
        _ => None,
    }
}

/// The status of this name, as `ok` or `deadline_exceeded`.
///
/// `Unknown`: no status has the name.
pub fn status_named(name: &str) -> Result<SpanStatus, CallFault>
    ensures status { IfOk result (λ status. span_status_name status ≡ name.now) }
    ensures err { IfErr result (λ fault. refusal_of fault ≡ None) }
{
    if let Some(status) = status_of_caller(name) {
        return Ok(status);
    }
    match status_of_server(name) {
        Some(status) => Ok(status),
        None => Err(CallFault::Unknown),
    }
}
