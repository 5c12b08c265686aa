//! Envelopes in Sentry's format, as bytes, and transports that write them. No socket is opened here: another program
//! sends what they write.
pub use sentry_envelope::{
    RawEnvelope, RawItem, split_envelope, to_vec, to_vec_with_stacktraces, to_writer,
};
pub use sentry_writers::{
    FileFolder, Folder, FolderError, SpoolTransport, Usage, WriterTransport, envelope_api_url,
    to_auth,
};
