//! The sessions that go on.
ghost use Rattle.std.specs.List.{list_any};
ghost use Rattle.std.specs.Prelude.{◌≡◌, ℕ, ◌<◌, [], Some, None, OnOk, OnErr, length, option_copied};
ghost use Rattle.sentry_plain.specs.Tables.{value_at, put, replace_at, without};
ghost use Rattle.sentry_plain.specs.Counts.{count_at, Lowers};
ghost use Rattle.sentry_scope.specs.Stacks.{is_client};
ghost use Rattle.sentry_state.specs.SessionTables.{counted_client};

use sentry_base::protocol::ClientKey;
use sentry_plain::Table;
use sentry_plain::counts::{is_counted, raise};
use sentry_sessions::Session;
use std::alloc::{AllocError, Global};
use std::marker::Model;

/// The sessions that go on by their numbers, with how many of them were started under each client. Contracts see the list
/// of the sessions in the order of their numbers.
pub struct SessionTable {
    /// Sessions of the clients with this tag are counted. Without one none are, so that each question walks.
    counted: Option<u64>,
    sessions: Table<Session>,
    /// How many of the sessions a client has, by its number. An entry of 0 may stay.
    counts: Table<usize>,
}

impl Model for SessionTable {
    ghost use Rattle.std.specs.Prelude.{List, ℕ};
    ghost use Rattle.std.specs.Coded.{codes};
    ghost use Rattle.sentry_plain.specs.Values.{data_code};
    ghost use Rattle.sentry_sessions.specs.declared.session.record.Session.{Session};

    ghost Value = { List (ℕ × Session) };

    ghost coded = { Prim.hlevel (codes, data_code) };

    ghost use Rattle.sentry_state.specs.TrueSessions.{TrueSessions};

    ghost view = { λ a. a.sessions };

    ghost invariant = { TrueSessions };
}

impl Drop for SessionTable {
    fn drop(self) {
        let SessionTable {
            counted: _,
            sessions: _,
            counts: _,
        } = self;
    }
}

// The number of a client, if its sessions are counted.
fn counted_client(counted: Option<u64>, client: ClientKey) -> Option<u64>
    ensures { result ≡ counted_client counted client }
{
    match counted {
        Some(tag) if client.tag == tag => Some(client.number),
        _ => None,
    }
}

// Counts one less at a number, if any. The entry stays, so that the next session takes no row.
fn lower_entry(counts: &mut Table<usize>, name: Option<u64>)
    requires { (number : ℕ) → name ≡ Some number → 0 < count_at counts.old number }
    ensures { Lowers counts.old counts.new name }
{
    let Some(number) = name else {
        return;
    };
    let Some(count) = counts.get_mut(number) else {
        unreachable!()
    };
    *count -= 1;
}

// Whether a session was started under the client.
fn has_session_of(sessions: &Table<Session>, client: ClientKey) -> bool
    ensures { result ≡ list_any (λ entry. is_client client (Some entry.1.start.client)) sessions.now }
{
    for (_, session) in sessions.iter() {
        if session.start.client == client {
            return true;
        }
    }
    false
}

impl SessionTable {
    /// The table of no sessions, of the engine with this tag. It takes no memory.
    pub fn new(alloc: Global, tag: u64) -> SessionTable
        ensures { result ≡ [] }
    {
        SessionTable {
            counted: Some(tag),
            sessions: Table::new(alloc),
            counts: Table::new(alloc),
        }
    }

    /// The session at a number.
    pub fn get(&self, number: u64) -> Option<&Session>
        ensures { option_copied result ≡ value_at self.now number }
    {
        self.sessions.get(number)
    }

    /// How many sessions there are.
    pub fn len(&self) -> usize
        ensures { result ≡ length self.now }
    {
        self.sessions.len()
    }

    /// Whether a session was started under the client. It looks at no session, unless the key is of another engine.
    pub fn has_session_of(&self, client: ClientKey) -> bool
        ensures { result ≡ list_any (λ entry. is_client client (Some entry.1.start.client)) self.now }
    {
        match counted_client(self.counted, client) {
            Some(number) => is_counted(&self.counts, number),
            None => has_session_of(&self.sessions, client),
        }
    }

    /// Holds a session under a number that is free. If out of memory, nothing has changed.
    pub fn insert(&mut self, number: u64, session: Session) -> Result<(), AllocError>
        requires { value_at self.old number ≡ None }
        ensures ok { OnOk result (self.new ≡ put self.old number session) }
        ensures err { OnErr result (self.new ≡ self.old) }
    {
        let client = counted_client(self.counted, session.start.client);
        raise(&mut self.counts, client)?;
        if let Err(error) = self.sessions.insert(number, session) {
            lower_entry(&mut self.counts, client);
            return Err(error);
        }
        Ok(())
    }

    /// Replaces the session under a number, if there is one. It takes no memory. Once one is replaced by one of another
    /// client, sessions are no longer counted.
    pub fn set(&mut self, alloc: Global, number: u64, after: Session)
        ensures { self.new ≡ replace_at self.old number after }
    {
        let Some(session) = self.sessions.get_mut(number) else {
            return;
        };
        if session.start.client == after.start.client {
            *session = after;
            return;
        }
        *session = after;
        self.counted = None;
        self.counts = Table::new(alloc);
    }

    /// Forgets the session under a number, if there is one.
    pub fn remove(&mut self, number: u64)
        ensures { self.new ≡ without self.old number }
    {
        let Some(session) = self.sessions.get(number) else {
            return;
        };
        let client = counted_client(self.counted, session.start.client);
        self.sessions.discard(number);
        lower_entry(&mut self.counts, client);
    }

    /// Forgets a client that is given back: its entry goes, unless it has sessions.
    pub fn forget_client(&mut self, client: u64)
        ensures { self.new ≡ self.old }
    {
        if is_counted(&self.counts, client) {
            return;
        }
        self.counts.discard(client);
    }
}
