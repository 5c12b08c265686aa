//! Transports that need no socket: one writes envelopes to a writer, and one puts them into a folder, a file each. Also the
//! URL and the header by which an envelope is posted.
#![tactic(auto)]

pub mod dsn_urls;
pub mod envelope_writer;
pub mod folder;
pub mod laws;
pub mod losses;
pub mod spool;
pub mod spool_transport;
pub mod stamps;
pub mod writer_transport;

pub use crate::dsn_urls::{envelope_api_url, to_auth};
pub use crate::folder::{FileFolder, Folder, FolderError, Usage};
pub use spool_transport::SpoolTransport;
pub use writer_transport::WriterTransport;
