//! Why a folder can't be used.
use std::alloc::{AllocError, Global};
use std::io;
use thiserror::Error;

/// Why no envelopes can be put into a folder.
#[derive(Debug, Drop, Error)]
pub enum FolderError {
    /// It isn't there, or can't be written to or read.
    #[error("the folder {path} can't be used: {error}")]
    Unusable { path: String, error: io::Error },
    #[error(transparent)]
    OutOfMemory(#[from(alloc)] AllocError),
}

impl FolderError {
    // Of the folder at a path.
    pub(crate) fn at(alloc: Global, path: &str, error: io::Error) -> FolderError {
        match String::from_str(alloc, path) {
            Ok(path) => FolderError::Unusable { path, error },
            Err(refused) => FolderError::OutOfMemory(refused),
        }
    }
}
