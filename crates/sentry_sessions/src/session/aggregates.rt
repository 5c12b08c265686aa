//! What ended sessions are counted by.
ghost use Rattle.std.specs.Prelude.{◌≡◌, Some, refl};
ghost use Rattle.std.specs.Cmp.{on_total, partial_equiv_from_equiv, partial_order_from_agreeing_total};
ghost use Rattle.std.specs.Option.{option_cmp};
ghost use Rattle.std.specs.Ordering.{eq_by_cmp};
ghost use Rattle.sentry_plain.specs.Texts.{text_cmp};
ghost use Rattle.sentry_sessions.specs.AggregateOrder.{minute_cmp, minute_cmp_total, same_minute_equiv};

use sentry_plain::Text;
use std::cmp::Ordering;

/// The nanoseconds of a minute.
pub const MINUTE: u64 = 60_000_000_000;

/// How many updates that are sent one by one are sent at once.
pub const MAX_INDIVIDUAL: usize = 100;

/// What sessions are counted by, in order: the minute in which they started, and then their distinct id, none first.
#[derive(Drop)]
pub struct AggregateKey {
    /// When the minute began, in nanoseconds since the epoch.
    pub started: u64,
    pub distinct_id: Option<Text>,
}

/// How many sessions under a key ended in which way.
#[derive(Clone, Copy)]
pub struct AggregateCounts {
    pub exited: u32,
    pub errored: u32,
    pub abnormal: u32,
    pub crashed: u32,
}

// None first, and then by the bytes of the text.
fn compare_ids(a: &Option<Text>, b: &Option<Text>) -> Ordering
    ensures { result ≡ option_cmp text_cmp a.now b.now }
{
    match a {
        None => match b {
            None => Ordering::Equal,
            Some(_) => Ordering::Less,
        },
        Some(a) => match b {
            None => Ordering::Greater,
            Some(b) => a.as_str().cmp(b.as_str()),
        },
    }
}

impl PartialEq for AggregateKey {
    ghost eq = { λ x y. eq_by_cmp minute_cmp (x.started, x.distinct_id) (y.started, y.distinct_id) };

    ghost laws = { partial_equiv_from_equiv (same_minute_equiv (λ key. (key.started, key.distinct_id))) };

    fn eq(&self, other: &AggregateKey) -> bool {
        self.cmp(other).is_eq()
    }
}

impl Eq for AggregateKey {
    ghost laws = { same_minute_equiv (λ key. (key.started, key.distinct_id)) };
}

impl PartialOrd for AggregateKey {
    ghost partial_cmp = { λ x y. Some (minute_cmp (x.started, x.distinct_id) (y.started, y.distinct_id)) };

    ghost laws = { partial_order_from_agreeing_total
        (λ x y. minute_cmp (x.started, x.distinct_id) (y.started, y.distinct_id))
        (on_total (λ key. (key.started, key.distinct_id)) minute_cmp_total) (λ x y. refl) (λ x y. refl) };

    fn partial_cmp(&self, other: &AggregateKey) -> Option<Ordering> {
        Some(self.cmp(other))
    }
}

impl Ord for AggregateKey {
    ghost cmp = { λ x y. minute_cmp (x.started, x.distinct_id) (y.started, y.distinct_id) };

    ghost total = { on_total (λ key. (key.started, key.distinct_id)) minute_cmp_total };

    ghost matches_partial_cmp = { λ x y. refl };

    ghost matches_eq = { λ x y. refl };

    fn cmp(&self, other: &AggregateKey) -> Ordering {
        match self.started.cmp(&other.started) {
            Ordering::Equal => compare_ids(&self.distinct_id, &other.distinct_id),
            Ordering::Less => Ordering::Less,
            Ordering::Greater => Ordering::Greater,
        }
    }
}
