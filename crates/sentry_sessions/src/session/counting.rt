//! How ended sessions are counted, and how the counts are sent.
ghost use Rattle.std.specs.Prelude.{◌≡◌, map, IfOk, OnOk, OnErr};
ghost use Rattle.sentry_sessions.specs.SessionQueues.{key_of, is_exit, is_abnormal, is_crashed, aggregate_item};
ghost use Rattle.sentry_sessions.specs.QueueSteps.{add_if, count_update, counts_under, count};

use crate::session::aggregates::{AggregateCounts, AggregateKey, MINUTE};
use sentry_base::protocol::{SessionAggregateItem, SessionStatus, SessionUpdate};
use sentry_plain::Items;
use std::alloc::{AllocError, Global};
use std::collections::BTreeMap;

fn is_exit(status: SessionStatus) -> bool
    ensures { result ≡ is_exit status }
{
    matches!(status, SessionStatus::Exited)
}

fn is_abnormal(status: SessionStatus) -> bool
    ensures { result ≡ is_abnormal status }
{
    matches!(status, SessionStatus::Abnormal)
}

fn is_crashed(status: SessionStatus) -> bool
    ensures { result ≡ is_crashed status }
{
    matches!(status, SessionStatus::Crashed)
}

// One more, if it is counted. The count stops at its maximum.
fn add_if(counted: bool, count: u32) -> u32
    ensures { result ≡ add_if counted count }
{
    if counted {
        count.saturating_add(1)
    } else {
        count
    }
}

// The counts with one more session.
fn count_update(update: &SessionUpdate, counts: AggregateCounts) -> AggregateCounts
    ensures { result ≡ count_update update.now counts }
{
    let exits = is_exit(update.status);
    let is_clean = update.errors == 0;
    AggregateCounts {
        exited: add_if(exits && is_clean, counts.exited),
        errored: add_if(exits && !is_clean, counts.errored),
        abnormal: add_if(is_abnormal(update.status), counts.abnormal),
        crashed: add_if(is_crashed(update.status), counts.crashed),
    }
}

// The counts under a key, all 0 if there are none.
fn counts_under(
    key: &AggregateKey,
    counts: &BTreeMap<AggregateKey, AggregateCounts>,
) -> AggregateCounts
    ensures { result ≡ counts_under key.now counts.now.entries }
{
    match counts.get(key) {
        Some(found) => *found,
        None => AggregateCounts {
            exited: 0,
            errored: 0,
            abnormal: 0,
            crashed: 0,
        },
    }
}

// What a session is counted by.
fn key_of(update: &SessionUpdate) -> Result<AggregateKey, AllocError>
    ensures { IfOk result (λ key. key ≡ key_of update.now) }
{
    Ok(AggregateKey {
        started: update.started / MINUTE * MINUTE,
        distinct_id: update.distinct_id.clone()?,
    })
}

/// Counts a session by its last update.
pub fn count(
    update: &SessionUpdate,
    counts: &mut BTreeMap<AggregateKey, AggregateCounts>,
) -> Result<(), AllocError>
    ensures ok { OnOk result (counts.new.entries ≡ count update.now counts.old.entries) }
    ensures err { OnErr result (counts.new.entries ≡ counts.old.entries) }
{
    let key = key_of(update)?;
    let more = count_update(update, counts_under(&key, counts));
    counts.insert(key, more)?;
    Ok(())
}

/// The counts as they are sent.
pub fn aggregate_items(
    alloc: Global,
    counts: &BTreeMap<AggregateKey, AggregateCounts>,
) -> Result<Items<SessionAggregateItem>, AllocError>
    ensures { IfOk result (λ items. items ≡ map aggregate_item counts.now.entries) }
{
    let mut items = Items::new(alloc);
    for (key, found) in counts.iter() {
        items.push(SessionAggregateItem {
            started: key.started,
            distinct_id: key.distinct_id.clone()?,
            exited: found.exited,
            errored: found.errored,
            abnormal: found.abnormal,
            crashed: found.crashed,
        })?;
    }
    Ok(items)
}
