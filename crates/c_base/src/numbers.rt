//! Records and enums as numbers, which other languages can pass.
ghost use Rattle.std.specs.Prelude.{◌≡◌, None, IfOk, IfErr};
ghost use Rattle.c_base.specs.Faults.{refusal_of};
ghost use Rattle.c_base.specs.Numbers.{fresh_of, id_of, id_or_nil, level_of, log_level_of, status_of};

use crate::fault::CallFault;
use crate::ids::{FreshNumbers, Id};
use sentry_base::protocol::{Draw, Fresh, Level, LogLevel, SessionStatus, SpanId, TraceId, Uuid};

impl Id {
    /// The id that these bits are.
    #[tactic(auto, unfolding(crate::specs::Numbers::id_of))]
    pub fn of_uuid(uuid: Uuid) -> Id
        ensures { result ≡ id_of uuid }
    {
        let (high, low) = uuid.as_u64_pair();
        Id { high, low }
    }

    /// The id that these bits are, or nil for none.
    pub fn of_option(uuid: Option<Uuid>) -> Id
        ensures { result ≡ id_or_nil uuid }
    {
        match uuid {
            Some(uuid) => Id::of_uuid(uuid),
            None => Id { high: 0, low: 0 },
        }
    }
}

impl FreshNumbers {
    /// What these numbers stand for. `Unknown`: the draw isn't below a million.
    pub fn fresh(&self) -> Result<Fresh, CallFault>
        ensures fresh { IfOk result (λ fresh. fresh ≡ fresh_of self.entry.now) }
        ensures err { IfErr result (λ fault. refusal_of fault ≡ None) }
    {
        let Some(draw) = Draw::new(self.draw) else {
            return Err(CallFault::Unknown);
        };
        Ok(Fresh {
            now: self.now,
            uuid: Uuid::from_u64_pair(self.id.high, self.id.low),
            trace_id: TraceId(Uuid::from_u64_pair(self.trace.high, self.trace.low).into_bytes()),
            span_id: SpanId(self.span.to_be_bytes()),
            draw,
        })
    }
}

/// Bytes as a text. `NotUtf8`: they aren't one.
pub fn text(bytes: &[u8]) -> Result<&str, CallFault>
    ensures text { IfOk result (λ text. text.now ≡ bytes.now) }
    ensures err { IfErr result (λ fault. refusal_of fault ≡ None) }
{
    match str::from_utf8(bytes) {
        Ok(text) => Ok(text),
        Err(_) => Err(CallFault::NotUtf8),
    }
}

/// 0 to 4: `Debug`, `Info`, `Warning`, `Error`, `Fatal`. `Unknown`: the number is another one.
pub fn level(number: u32) -> Result<Level, CallFault>
    ensures level { IfOk result (λ level. level ≡ level_of number) }
    ensures err { IfErr result (λ fault. refusal_of fault ≡ None) }
{
    match number {
        0 => Ok(Level::Debug),
        1 => Ok(Level::Info),
        2 => Ok(Level::Warning),
        3 => Ok(Level::Error),
        4 => Ok(Level::Fatal),
        _ => Err(CallFault::Unknown),
    }
}

/// 0 to 5: `Trace`, `Debug`, `Info`, `Warn`, `Error`, `Fatal`. `Unknown`: the number is another one.
pub fn log_level(number: u32) -> Result<LogLevel, CallFault>
    ensures level { IfOk result (λ level. level ≡ log_level_of number) }
    ensures err { IfErr result (λ fault. refusal_of fault ≡ None) }
{
    match number {
        0 => Ok(LogLevel::Trace),
        1 => Ok(LogLevel::Debug),
        2 => Ok(LogLevel::Info),
        3 => Ok(LogLevel::Warn),
        4 => Ok(LogLevel::Error),
        5 => Ok(LogLevel::Fatal),
        _ => Err(CallFault::Unknown),
    }
}

/// 0 to 3: `Ok`, `Exited`, `Crashed`, `Abnormal`. `Unknown`: the number is another one.
pub fn session_status(number: u32) -> Result<SessionStatus, CallFault>
    ensures status { IfOk result (λ status. status ≡ status_of number) }
    ensures err { IfErr result (λ fault. refusal_of fault ≡ None) }
{
    match number {
        0 => Ok(SessionStatus::Ok),
        1 => Ok(SessionStatus::Exited),
        2 => Ok(SessionStatus::Crashed),
        3 => Ok(SessionStatus::Abnormal),
        _ => Err(CallFault::Unknown),
    }
}
