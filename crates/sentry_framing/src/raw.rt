//! Envelopes that were taken apart.

/// An envelope, in the bytes that it was read from.
#[derive(Drop)]
pub struct RawEnvelope<'a> {
    /// The JSON of its header.
    pub header: &'a str,
    /// Its items, in their order.
    pub items: Vec<RawItem<'a>>,
}

/// An item of an envelope, in the bytes that it was read from.
#[derive(Clone, Copy)]
pub struct RawItem<'a> {
    /// The JSON of its header.
    pub header: &'a str,
    pub payload: &'a [u8],
}

// A header, and the length that it states.
#[derive(Clone, Copy)]
pub(crate) struct RawHeader<'a> {
    pub(crate) text: &'a str,
    // At most the greatest that fits.
    pub(crate) length: Option<u64>,
}
