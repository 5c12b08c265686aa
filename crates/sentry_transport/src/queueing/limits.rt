//! Until when each category is limited, as a server asked.
ghost use Rattle.std.specs.Prelude.{◌≡◌, Some, None, replicate};
ghost use Rattle.sentry_transport.specs.Limits.{item_category, is_item_limited, has_limited};
ghost use Rattle.sentry_transport.specs.QueueHistories.{is_limited_by};
ghost use Rattle.sentry_transport.specs.QueueSteps.{AreLimited};

use sentry_base::protocol::{CATEGORIES, Category, EnvelopeItem};

/// Until when each category is limited, in nanoseconds since the epoch; 0 if it never was.
#[derive(Drop)]
pub(crate) struct Limits {
    pub(crate) until: [u64; CATEGORIES],
}

// The category by which an item is limited: a report has none.
fn item_category(item: &EnvelopeItem) -> Option<Category>
    ensures { result ≡ item_category item.now }
{
    match item {
        EnvelopeItem::Event(_) => Some(Category::Error),
        EnvelopeItem::SessionUpdate(_) | EnvelopeItem::SessionAggregates(_) => {
            Some(Category::Session)
        }
        EnvelopeItem::Transaction(_) => Some(Category::Transaction),
        EnvelopeItem::Attachment(_) => Some(Category::Attachment),
        EnvelopeItem::Logs(_) => Some(Category::LogItem),
        EnvelopeItem::Metrics(_) => Some(Category::Metric),
        EnvelopeItem::ClientReport(_) => None,
    }
}

impl Limits {
    /// No category is limited.
    pub(crate) fn none() -> Limits
        ensures { result.until ≡ replicate CATEGORIES 0 }
    {
        Limits {
            until: [0; CATEGORIES],
        }
    }

    /// Whether a category is limited at this moment.
    pub(crate) fn is_limited(&self, category: Category, now: u64) -> bool
        ensures { result ≡ is_limited_by self.now.until now category }
    {
        now < self.until[category.index()]
    }

    /// Whether an item is limited at this moment.
    pub(crate) fn is_item_limited(&self, item: &EnvelopeItem, now: u64) -> bool
        ensures { result ≡ is_item_limited (is_limited_by self.now.until now) item.now }
    {
        match item_category(item) {
            None => false,
            Some(category) => self.is_limited(category, now),
        }
    }

    /// Whether one of the items is limited at this moment.
    pub(crate) fn has_limited(&self, items: &[EnvelopeItem], now: u64) -> bool
        ensures { result ≡ has_limited (is_limited_by self.now.until now) items.now }
    {
        items.iter().any(|item| self.is_item_limited(item, now))
    }

    /// Limits a category, or each of them, until this moment, unless it is limited for longer.
    pub(crate) fn limit(&mut self, category: Option<Category>, until: u64)
        ensures { AreLimited category until self.old.until self.new.until }
    {
        match category {
            None => self.limit_all(until),
            Some(category) => self.limit_one(category, until),
        }
    }

    fn limit_one(&mut self, category: Category, until: u64)
        ensures { AreLimited (Some category) until self.old.until self.new.until }
    {
        let index = category.index();
        self.until[index] = self.until[index].max(until);
    }

    fn limit_all(&mut self, until: u64)
        ensures { AreLimited None until self.old.until self.new.until }
    {
        for index in 0..CATEGORIES {
            self.until[index] = self.until[index].max(until);
        }
    }
}
