//! Why a transaction or a span did not end.
ghost use Rattle.std.specs.Prelude.{◌≡◌};

use sentry_base::protocol::Refusal;
use std::error::Error;
use std::fmt;
use std::fmt::{Debug, Display};

/// Why a transaction or a span was not forgotten, and the value of it.
#[derive(Drop)]
pub struct EndError<S> {
    /// `StillNamed`: it is finished. With any other refusal nothing has changed.
    pub refusal: Refusal,
    pub span: S,
}

impl<S> EndError<S> {
    /// The refusal and the value.
    pub fn into_parts(self) -> (Refusal, S)
        ensures { result ≡ (self.refusal, self.span) }
    {
        let EndError { refusal, span } = self;
        (refusal, span)
    }
}

/// The refusal alone: what did not end stays.
impl<S: Drop> From<EndError<S>> for Refusal {
    ghost use Rattle.std.specs.Prelude.{◌≡◌};

    ghost from_gives = { λ error refusal. refusal ≡ error.refusal };

    fn from(error: EndError<S>) -> Refusal {
        let (refusal, _) = error.into_parts();
        refusal
    }
}

impl<S> Debug for EndError<S> {
    fn fmt<W: fmt::Write>(&self, f: &mut fmt::Formatter<W>) -> fmt::Result {
        Debug::fmt(&self.refusal, f)
    }
}

impl<S> Display for EndError<S> {
    fn fmt<W: fmt::Write>(&self, f: &mut fmt::Formatter<W>) -> fmt::Result {
        Display::fmt(&self.refusal, f)
    }
}

impl<S: Drop> Error for EndError<S> {}
