//! Sessions.
use crate::Shown;
use crate::lists::{push_labeled, push_list};
use sentry_base::protocol::{
    SessionAggregateItem, SessionAggregates, SessionAttributes, SessionStatus, SessionUpdate,
};
use std::alloc::AllocError;

/// The nanoseconds of a minute.
const MINUTE: u64 = 60_000_000_000;

impl Shown for SessionStatus {
    fn push_to(&self, text: &mut String) -> Result<(), AllocError> {
        text.push_str(self.as_str())
    }
}

impl Shown for SessionAttributes {
    fn push_to(&self, text: &mut String) -> Result<(), AllocError> {
        push_labeled(text, "release=", &self.release)?;
        push_labeled(text, " environment=", &self.environment)
    }
}

impl Shown for SessionUpdate {
    fn push_to(&self, text: &mut String) -> Result<(), AllocError> {
        push_labeled(text, "session ", &self.status)?;
        push_labeled(text, " errors=", &self.errors)?;
        push_labeled(text, " init=", &self.init)?;
        let id = self.session_id.simple();
        write!(text, " {{id={id}")?;
        push_labeled(text, " distinct=", &self.distinct_id)?;
        push_labeled(text, " ", &self.attributes)?;
        push_labeled(text, " started=", &self.started)?;
        push_labeled(text, " duration=", &self.duration)?;
        text.push_str("}")
    }
}

/// `MINUTE/ID:` and the counts.
impl Shown for SessionAggregateItem {
    fn push_to(&self, text: &mut String) -> Result<(), AllocError> {
        let minute = self.started / MINUTE;
        write!(text, "{minute}/")?;
        self.distinct_id.push_to(text)?;
        let exited = self.exited;
        let errored = self.errored;
        let abnormal = self.abnormal;
        let crashed = self.crashed;
        write!(
            text,
            ":exited={exited},errored={errored},abnormal={abnormal},crashed={crashed}"
        )
    }
}

impl Shown for SessionAggregates {
    fn push_to(&self, text: &mut String) -> Result<(), AllocError> {
        push_list(text, "aggregates ", &self.aggregates, ";")?;
        push_labeled(text, " {", &self.attributes)?;
        text.push_str("}")
    }
}
