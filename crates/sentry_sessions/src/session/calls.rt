//! How a session starts, goes on and ends.
ghost use Rattle.std.specs.Prelude.{◌≡◌, ◌∷◌, ℕ, Option, List, IfOk, OnOk, OnErr, option_copied};
ghost use Rattle.std.specs.Option.{option_or};
ghost use Rattle.sentry_sessions.specs.declared.session.record.SessionStart.{SessionStart};
ghost use Rattle.sentry_sessions.specs.Sessions.{SessionEntry, event_reached, handed_out, closed};
ghost use Rattle.sentry_sessions.specs.Sessions.{session_of, new_session, update_of, pending_update, hand_out, start_of, session_attributes};
ghost use Rattle.sentry_sessions.specs.Sessions.{closing_status, distinct_id_of};
ghost use Rattle.sentry_sessions.specs.SessionSteps as steps;

use crate::session::events::{is_crash, is_error};
use crate::session::record::{Session, SessionStart};
use sentry_base::protocol::{
    ClientKey, Event, SessionAttributes, SessionStatus, SessionUpdate, User, Uuid,
};
use sentry_options::PlainOptions;
use sentry_plain::{Shared, Text};
use std::alloc::{AllocError, Global};

// The first of the texts that is there.
fn copy_first(
    first: &Option<Text>,
    second: &Option<Text>,
    third: &Option<Text>,
) -> Result<Option<Text>, AllocError>
    ensures { IfOk result (λ text. text ≡ option_or first.now (option_or second.now third.now)) }
{
    match first {
        Some(text) => Ok(Some(text.clone()?)),
        None => match second {
            Some(text) => Ok(Some(text.clone()?)),
            None => Ok(third.clone()?),
        },
    }
}

// What tells a user from others.
fn distinct_id_of(user: Option<&User>) -> Result<Option<Text>, AllocError>
    ensures { IfOk result (λ id. id ≡ distinct_id_of (option_copied user.entry)) }
{
    match user {
        None => Ok(None),
        Some(user) => copy_first(&user.id, &user.email, &user.username),
    }
}

// The status of a session that is closed with this one, or without any.
fn closing_status(status: Option<SessionStatus>) -> SessionStatus
    ensures { result ≡ closing_status status }
{
    match status {
        Some(SessionStatus::Crashed) => SessionStatus::Crashed,
        Some(SessionStatus::Abnormal) => SessionStatus::Abnormal,
        Some(SessionStatus::Ok) | Some(SessionStatus::Exited) | None => SessionStatus::Exited,
    }
}

/// What the sessions of a client with these options have, or `None` if the options have no release.
pub fn session_attributes(
    alloc: Global,
    options: &PlainOptions,
) -> Result<Option<Shared<SessionAttributes>>, AllocError>
    ensures { IfOk result (λ attributes. attributes ≡ session_attributes options.now) }
{
    let Some(release) = &options.release else {
        return Ok(None);
    };
    let attributes = SessionAttributes {
        release: release.clone()?,
        environment: options.environment.clone()?,
    };
    let share = Shared::new(alloc, attributes)?;
    Ok(Some(share))
}

impl SessionStart {
    // The start of a session, which shares the attributes.
    fn new(
        client: ClientKey,
        attributes: &Shared<SessionAttributes>,
        user: Option<&User>,
        session_id: Uuid,
        now: u64,
    ) -> Result<SessionStart, AllocError>
        ensures { IfOk result (λ start.
            start ≡ start_of client attributes.now (option_copied user.entry) session_id now) }
    {
        Ok(SessionStart {
            client,
            session_id,
            distinct_id: distinct_id_of(user)?,
            started: now,
            attributes: attributes.clone()?,
        })
    }
}

impl Session {
    /// Starts a session at a moment, in nanoseconds since the epoch, under a client whose sessions have these
    /// attributes, which it shares. Its distinct id is the user's id, or else the email, or else the name.
    #[tactic(auto, unfolding(crate::specs::Sessions::session_of))]
    pub fn from_stack(
        client: ClientKey,
        attributes: &Shared<SessionAttributes>,
        user: Option<&User>,
        session_id: Uuid,
        now: u64,
    ) -> Result<Session, AllocError>
        ensures { IfOk result (λ session.
            session ≡ new_session client attributes.now (option_copied user.entry) session_id now) }
    {
        let start = SessionStart::new(client, attributes, user, session_id, now)?;
        Ok(Session {
            start,
            status: SessionStatus::Ok,
            errors: 0,
            duration: None,
            init: true,
            dirty: true,
        })
    }

    // Whether the session was closed or has crashed.
    fn has_ended(&self) -> bool
        ensures { result ≡ steps.has_ended self.now.status }
    {
        match self.status {
            SessionStatus::Ok => false,
            SessionStatus::Exited | SessionStatus::Crashed | SessionStatus::Abnormal => true,
        }
    }

    // Counts an event, in a session that goes on.
    fn count_event(&mut self, event: &Event)
        ensures { self.new ≡ steps.count_event event.now self.old }
    {
        if is_crash(event) {
            self.status = SessionStatus::Crashed;
        }
        if is_error(event) {
            self.errors = self.errors.saturating_add(1);
            self.dirty = true;
        }
    }

    // Closes a session that goes on.
    fn end_at(&mut self, status: Option<SessionStatus>, now: u64)
        ensures { self.new ≡ steps.end_at status now self.old }
    {
        self.status = closing_status(status);
        self.duration = Some(now.saturating_sub(self.start.started));
        self.dirty = true;
    }

    /// Counts an event that came through all callbacks. A session that was closed or has crashed stays as it is.
    pub fn update_from_event(&mut self, event: &Event)
        ensures { (start : SessionStart) (history : List SessionEntry) → self.old ≡ session_of start history
            → self.new ≡ session_of start (event_reached event.now ∷ history) }
    {
        if self.has_ended() {
            return;
        }
        self.count_event(event);
    }

    /// Closes the session at a moment, in nanoseconds since the epoch. `Ok`, or no status, means that it exited. A
    /// session that was closed or has crashed stays as it is.
    pub fn close(&mut self, status: Option<SessionStatus>, now: u64)
        ensures { (start : SessionStart) (history : List SessionEntry) → self.old ≡ session_of start history
            → self.new ≡ session_of start (closed status now ∷ history) }
    {
        if self.has_ended() {
            return;
        }
        self.end_at(status, now);
    }

    /// The update that tells how the session stands.
    pub fn update(&self) -> Result<SessionUpdate, AllocError>
        ensures { IfOk result (λ update. update ≡ update_of self.now) }
    {
        let start = &self.start;
        Ok(SessionUpdate {
            session_id: start.session_id,
            started: start.started,
            init: self.init,
            duration: self.duration,
            status: self.status,
            errors: self.errors,
            distinct_id: start.distinct_id.clone()?,
            attributes: start.attributes.clone()?,
        })
    }

    // The status once the session is closed.
    fn status_at_end(&self, status: Option<SessionStatus>) -> SessionStatus
        ensures { (now : ℕ) → result ≡ (steps.close status now self.now).status }
    {
        if self.has_ended() {
            return self.status;
        }
        closing_status(status)
    }

    // The duration once the session is closed.
    fn duration_at_end(&self, now: u64) -> Option<u64>
        ensures { (status : Option SessionStatus) → result ≡ (steps.close status now self.now).duration }
    {
        if self.has_ended() {
            return self.duration;
        }
        Some(now.saturating_sub(self.start.started))
    }

    /// Whether the server is to get an update once the session is closed.
    pub fn is_dirty_at_end(&self) -> bool
        ensures { (status : Option SessionStatus) (now : ℕ) → result ≡ (steps.close status now self.now).dirty }
    {
        self.dirty || !self.has_ended()
    }

    /// The update of the session once it is closed at a moment, in nanoseconds since the epoch.
    #[inline(always)]
    pub fn update_at_end(
        &self,
        status: Option<SessionStatus>,
        now: u64,
    ) -> Result<SessionUpdate, AllocError>
        ensures { IfOk result (λ update. update ≡ update_of (steps.close status now self.now)) }
    {
        let start = &self.start;
        Ok(SessionUpdate {
            session_id: start.session_id,
            started: start.started,
            init: self.init,
            duration: self.duration_at_end(now),
            status: self.status_at_end(status),
            errors: self.errors,
            distinct_id: start.distinct_id.clone()?,
            attributes: start.attributes.clone()?,
        })
    }

    /// Marks the update as handed out.
    pub fn mark_handed_out(&mut self)
        ensures { (start : SessionStart) (history : List SessionEntry) → self.old ≡ session_of start history
            → self.new ≡ session_of start (handed_out ∷ history) }
    {
        self.init = false;
        self.dirty = false;
    }

    /// Hands out an update, or returns `None` if the server knows all. If out of memory, the session stays as it was.
    pub fn create_envelope_item(&mut self) -> Result<Option<SessionUpdate>, AllocError>
        ensures update { IfOk result (λ update. update ≡ pending_update self.old) }
        ensures after { OnOk result ((start : SessionStart) (history : List SessionEntry)
            → self.old ≡ session_of start history
            → self.new ≡ session_of start (hand_out self.old history)) }
        ensures unchanged { OnErr result (self.new ≡ self.old) }
    {
        if !self.dirty {
            return Ok(None);
        }
        let update = self.update()?;
        self.mark_handed_out();
        Ok(Some(update))
    }
}
