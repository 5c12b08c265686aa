//! Records of numbers alone, laid out as C does.

/// 128 bits as two numbers, the high ones first.
#[repr(C)]
#[derive(Clone, Copy, Debug, PartialEq, Eq)]
pub struct Id {
    /// The first eight bytes.
    pub high: u64,
    /// The last eight bytes.
    pub low: u64,
}

/// The moment, the ids and the draw of a call.
#[repr(C)]
#[derive(Clone, Copy, Debug, PartialEq, Eq)]
pub struct FreshNumbers {
    /// Nanoseconds since the epoch.
    pub now: u64,
    /// Of an event or a session.
    pub id: Id,
    /// Of a trace.
    pub trace: Id,
    /// Of a span, as a number of which the high byte comes first.
    pub span: u64,
    /// Below a million: what is sampled has a draw below its rate in millionths.
    pub draw: u32,
}
