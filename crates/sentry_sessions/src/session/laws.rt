//! Laws of all sessions, and of all that waits to be sent.
ghost use Rattle.sentry_sessions.specs.SessionLaws.{EndedStatusStays, QueueIsShort};

/// Once its status isn't `Ok`, a session has the same status whatever comes to it.
pub fn ended_status_stays()
    ensures { EndedStatusStays }
{}

/// Whatever ended and was flushed, fewer than a hundred individual updates wait in a queue.
pub fn queue_is_short()
    ensures { QueueIsShort }
{}
