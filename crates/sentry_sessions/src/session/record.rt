//! What is kept of a session.
ghost use Rattle.std.specs.Prelude.{◌≡◌};

use sentry_base::protocol::{ClientKey, SessionAttributes, SessionStatus, Uuid};
use sentry_plain::{Shared, Text};
use std::alloc::AllocError;

/// What a session has from its start on.
pub struct SessionStart {
    /// The client under which the session started. Its last update is queued there.
    pub client: ClientKey,
    pub session_id: Uuid,
    /// What tells the session's user from others.
    pub distinct_id: Option<Text>,
    /// When the session started, in nanoseconds since the epoch.
    pub started: u64,
    pub attributes: Shared<SessionAttributes>,
}

impl Drop for SessionStart {
    fn drop(self) {
        let SessionStart {
            client: _,
            session_id: _,
            distinct_id: _,
            started: _,
            attributes: _,
        } = self;
    }
}

impl Clone for SessionStart {
    ghost is_clone = { λ old new. new ≡ old };

    fn clone(&self) -> Result<SessionStart, AllocError> {
        Ok(SessionStart {
            client: self.client,
            session_id: self.session_id,
            distinct_id: self.distinct_id.clone()?,
            started: self.started,
            attributes: self.attributes.clone()?,
        })
    }
}

/// What is kept of a session. The contracts of the methods hold for every history of events, updates and closings that
/// the session may stand for.
pub struct Session {
    pub start: SessionStart,
    pub status: SessionStatus,
    pub errors: u64,
    /// In nanoseconds. There is none before the session is closed, nor after a crash.
    pub duration: Option<u64>,
    /// Whether no update was handed out yet.
    pub init: bool,
    /// Whether the server is to get an update.
    pub dirty: bool,
}

impl Drop for Session {
    fn drop(self) {
        let Session {
            start: _,
            status: _,
            errors: _,
            duration: _,
            init: _,
            dirty: _,
        } = self;
    }
}

impl Clone for Session {
    ghost is_clone = { λ old new. new ≡ old };

    fn clone(&self) -> Result<Session, AllocError> {
        Ok(Session {
            start: self.start.clone()?,
            status: self.status,
            errors: self.errors,
            duration: self.duration,
            init: self.init,
            dirty: self.dirty,
        })
    }
}
