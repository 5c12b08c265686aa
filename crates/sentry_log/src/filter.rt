//! What becomes of a record, by its level and its target.
ghost use Rattle.std.specs.Prelude.{◌≡◌};
ghost use Rattle.log.specs.Record.{metadata_level, metadata_target};
ghost use Rattle.sentry_log.specs.Filters.{default_levels, is_nothing, nothing};

use log::{Level, Metadata};
use sentry_plain::Text;

/// What becomes of a record: any of a breadcrumb, an event and a log, or nothing.
#[derive(Clone, Copy, Debug, PartialEq, Eq)]
pub struct LogFilter {
    pub breadcrumb: bool,
    pub event: bool,
    pub log: bool,
}

impl LogFilter {
    /// Nothing becomes of it.
    pub fn ignore() -> LogFilter
        ensures { result ≡ nothing }
    {
        LogFilter {
            breadcrumb: false,
            event: false,
            log: false,
        }
    }

    /// Whether nothing becomes of it.
    pub fn is_ignored(self) -> bool
        ensures { result ≡ is_nothing self }
    {
        !(self.breadcrumb || self.event || self.log)
    }
}

/// Decides what becomes of a record.
pub trait RecordFilter: Drop {
    ghost use Rattle.std.specs.Prelude.{ℕ, List};
    ghost use Rattle.log.specs.declared.level.Level.{Level};
    ghost use Rattle.sentry_log.specs.declared.filter.LogFilter.{LogFilter};

    // What becomes of a record of a level and a target.
    ghost becomes: { Self → Level → List ℕ → LogFilter };

    /// What becomes of a record with this metadata.
    fn filter(&self, metadata: &Metadata<'_>) -> LogFilter
        ensures { result ≡ becomes self.now (metadata_level metadata.now) (metadata_target metadata.now) };
}

/// What becomes of records of each level, whatever their target.
#[derive(Clone, Copy, Debug, PartialEq, Eq)]
pub struct Levels {
    pub error: LogFilter,
    pub warn: LogFilter,
    pub info: LogFilter,
    pub debug: LogFilter,
    pub trace: LogFilter,
}

impl Levels {
    /// Errors are events and logs, warnings and infos are breadcrumbs and logs, and the rest is ignored.
    pub fn new() -> Levels
        ensures { result ≡ default_levels }
    {
        let event = LogFilter {
            breadcrumb: false,
            event: true,
            log: true,
        };
        let breadcrumb = LogFilter {
            breadcrumb: true,
            event: false,
            log: true,
        };
        Levels {
            error: event,
            warn: breadcrumb,
            info: breadcrumb,
            debug: LogFilter::ignore(),
            trace: LogFilter::ignore(),
        }
    }
}

impl RecordFilter for Levels {
    ghost use Rattle.sentry_log.specs.Filters.{at_level};

    ghost becomes = { λ levels level _. at_level levels level };

    fn filter(&self, metadata: &Metadata<'_>) -> LogFilter {
        match metadata.level() {
            Level::Error => self.error,
            Level::Warn => self.warn,
            Level::Info => self.info,
            Level::Debug => self.debug,
            Level::Trace => self.trace,
        }
    }
}

/// One filter for the targets that begin with a name, and another one for the rest.
#[derive(Drop)]
pub struct Within<F, G> {
    /// What the targets begin with.
    pub target: Text,
    pub inside: F,
    pub outside: G,
}

impl<F: RecordFilter, G: RecordFilter> RecordFilter for Within<F, G> {
    ghost use Rattle.std.specs.Prelude.{if◌then◌else◌, nat_eq};
    ghost use Rattle.std.specs.List.{starts_with};

    ghost becomes = { λ within level target. if starts_with nat_eq target within.target
        then F.becomes within.inside level target else G.becomes within.outside level target };

    fn filter(&self, metadata: &Metadata<'_>) -> LogFilter {
        let target = metadata.target().as_bytes();
        if target.starts_with(self.target.as_str().as_bytes()) {
            self.inside.filter(metadata)
        } else {
            self.outside.filter(metadata)
        }
    }
}
