//! What is taken out of a queue of ended sessions.

use sentry_base::protocol::EnvelopeItem;

/// The items of the envelope of the counts, and those of the one of the individual updates, as far as there are such. Each
/// list has room for a report.
#[derive(Drop)]
pub struct TakenSessions {
    pub counted: Vec<EnvelopeItem>,
    pub individual: Vec<EnvelopeItem>,
}
