//! A hub and a transaction for each request.
ghost use Rattle.std.specs.Prelude.{◌≡◌, false};

use crate::requests::IncomingRequest;
use crate::statuses::{HasStatus, span_status};
use rand_core::Rng;
use sentry_base::clock::Clock;
use sentry_base::protocol::{Refusal, Request, Value};
use sentry_hub::Hub;
use sentry_hub::api::{configure_scope, continue_from_headers, end_session, start_session};
use sentry_hub::performance::Transaction;
use sentry_hub::scoped::{in_new_hub, in_transaction_if};
use sentry_lock::CoreLock;
use sentry_options::SessionMode;
use sentry_thread_hub::ThreadHub;
use std::mem;

/// The operation of the transactions of requests.
pub const REQUEST_OP: &str = "http.server";

/// What is done for each request besides.
#[derive(Clone, Copy, Debug, PartialEq, Eq)]
pub struct RequestOptions {
    /// A session begins and ends with the request, if the client has a release and the mode `SessionMode::Request`.
    pub has_session: bool,
}

impl RequestOptions {
    /// Nothing.
    pub fn new() -> RequestOptions
        ensures { result.has_session ≡ false }
    {
        RequestOptions { has_session: false }
    }

    /// The same, with a session of its own or without one.
    pub fn session(self, has_session: bool) -> RequestOptions
        ensures { result ≡ record self { has_session = has_session } }
    {
        RequestOptions { has_session }
    }
}

/// Runs the work of a request: on a hub of its own, a copy of the current one, and in a transaction of this name, such as
/// the pattern of its route, which continues the trace of the request's headers. The transaction, and each event that is
/// captured by the thread meanwhile, tell of the request. The transaction has the code of the response and its status. If
/// the work answers an error, and has set no status, that is `InternalError`.
///
/// The work always runs, and its answer is the answer. `ThreadHub::take_refused` tells what was refused round it: what
/// `in_new_hub` and `in_transaction` refuse, or why the request or the response isn't told.
pub fn in_request<
    L: CoreLock,
    K: Clock + Drop,
    G: Rng + Drop,
    A: HasStatus,
    E,
    F: FnOnce(&mut ThreadHub<Hub<L>, K, G>, &Transaction<L>) -> Result<A, E> + Drop,
>(
    thread: &mut ThreadHub<Hub<L>, K, G>,
    name: &str,
    request: &IncomingRequest<'_>,
    work: F,
) -> Result<A, E>
    requires { F.IsAlwaysCallable work }
    ensures { thread.new.current ≡ thread.old.current }
{
    in_request_with(thread, name, request, RequestOptions::new(), work)
}

/// The same with options.
pub fn in_request_with<
    L: CoreLock,
    K: Clock + Drop,
    G: Rng + Drop,
    A: HasStatus,
    E,
    F: FnOnce(&mut ThreadHub<Hub<L>, K, G>, &Transaction<L>) -> Result<A, E> + Drop,
>(
    thread: &mut ThreadHub<Hub<L>, K, G>,
    name: &str,
    request: &IncomingRequest<'_>,
    options: RequestOptions,
    work: F,
) -> Result<A, E>
    requires { F.IsAlwaysCallable work }
    ensures { thread.new.current ≡ thread.old.current }
{
    in_new_hub(thread, |thread| serve(thread, name, request, options, work))
}

// The same on the current hub.
fn serve<
    L: CoreLock,
    K: Clock + Drop,
    G: Rng + Drop,
    A: HasStatus,
    E,
    F: FnOnce(&mut ThreadHub<Hub<L>, K, G>, &Transaction<L>) -> Result<A, E> + Drop,
>(
    thread: &mut ThreadHub<Hub<L>, K, G>,
    name: &str,
    request: &IncomingRequest<'_>,
    options: RequestOptions,
    work: F,
) -> Result<A, E>
    requires { F.IsAlwaysCallable work }
{
    let rules = find_rules(thread, options);
    let served = begin(thread, name, request, rules);
    let answer = answer_request(thread, name, request, work);
    end(thread, served, rules);
    answer
}

// What the client of the current hub says of a request.
#[derive(Clone, Copy)]
struct Rules {
    // That what is personal may be told.
    is_personal_allowed: bool,
    has_session: bool,
}

// Without a client nothing is sent.
fn read_rules<L: CoreLock>(hub: &Hub<L>, options: RequestOptions) -> Result<Rules, Refusal> {
    let mut rules = Rules {
        is_personal_allowed: false,
        has_session: false,
    };
    if let Some(client) = hub.client()? {
        let plain = &client.options()?;
        let plain = &plain.get().plain;
        rules.is_personal_allowed = plain.send_default_pii;
        rules.has_session = options.has_session && plain.session_mode == SessionMode::Request;
    }
    Ok(rules)
}

fn find_rules<L: CoreLock, K, G>(
    thread: &mut ThreadHub<Hub<L>, K, G>,
    options: RequestOptions,
) -> Rules {
    match read_rules(&thread.current, options) {
        Ok(rules) => rules,
        Err(refusal) => {
            thread.note(Err(refusal));
            Rules {
                is_personal_allowed: false,
                has_session: false,
            }
        }
    }
}

// Tells the thread of the request, and answers which one it served before.
fn begin<L: CoreLock, K: Clock, G: Rng>(
    thread: &mut ThreadHub<Hub<L>, K, G>,
    name: &str,
    request: &IncomingRequest<'_>,
    rules: Rules,
) -> Option<Request> {
    let told = match request.describe(thread.current.allocator(), rules.is_personal_allowed) {
        Ok(told) => Some(told),
        Err(_) => {
            thread.note(Err(Refusal::OutOfMemory));
            None
        }
    };
    let served = mem::replace(&mut thread.request, told);
    let named = configure_scope(thread, |scope| scope.set_transaction(Some(name)));
    thread.note(named);
    if rules.has_session {
        let started = start_session(thread);
        thread.note(started);
    }
    served
}

// The thread serves the request of before.
fn end<L: CoreLock, K: Clock, G>(
    thread: &mut ThreadHub<Hub<L>, K, G>,
    served: Option<Request>,
    rules: Rules,
) {
    if rules.has_session {
        let ended = end_session(thread);
        thread.note(ended);
    }
    thread.request = served;
}

// Runs the work in a transaction on the current hub.
fn answer_request<
    L: CoreLock,
    K: Clock + Drop,
    G: Rng + Drop,
    A: HasStatus,
    E,
    F: FnOnce(&mut ThreadHub<Hub<L>, K, G>, &Transaction<L>) -> Result<A, E> + Drop,
>(
    thread: &mut ThreadHub<Hub<L>, K, G>,
    name: &str,
    request: &IncomingRequest<'_>,
    work: F,
) -> Result<A, E>
    requires { F.IsAlwaysCallable work }
{
    let headers = request.headers.iter().copied();
    let context = continue_from_headers(thread, name, REQUEST_OP, headers);
    in_transaction_if(thread, context, |thread, transaction| {
        let told = tell_request(thread, transaction);
        thread.note(told);
        let answer = work(thread, transaction);
        if let Ok(response) = &answer {
            thread.note(tell_status(transaction, response.status()));
        }
        answer
    })
}

// The transaction tells of the request that the thread serves.
fn tell_request<L: CoreLock, K, G>(
    thread: &ThreadHub<Hub<L>, K, G>,
    transaction: &Transaction<L>,
) -> Result<(), Refusal> {
    match &thread.request {
        None => Ok(()),
        Some(request) => transaction.set_request(request.clone()?),
    }
}

fn tell_status<L: CoreLock>(transaction: &Transaction<L>, code: u16) -> Result<(), Refusal> {
    let value = Value::Int(i128::from(code));
    transaction.set_data("http.response.status_code", value)?;
    transaction.set_status(span_status(code))
}
