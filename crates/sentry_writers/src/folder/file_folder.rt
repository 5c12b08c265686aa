//! A folder of the file system.
use crate::folder::{Folder, Usage};
use std::alloc::{AllocError, Global};
use std::fs::{DirEntry, OpenFile};
use std::io::{ErrorKind, Write};
use std::rt::Files;
use std::{fs, io};

/// A folder of the file system, which must be there. What is written to a file is on the disk before the file gets its
/// name, as far as the system says so.
#[derive(Drop)]
pub struct FileFolder<R> {
    rt: R,
    alloc: Global,
    path: String,
}

impl<R: Drop> FileFolder<R> {
    /// The folder at a path.
    ///
    /// `AllocError`: out of memory.
    pub fn new(rt: R, alloc: Global, path: &str) -> Result<FileFolder<R>, AllocError> {
        let path = String::from_str(alloc, path)?;
        Ok(FileFolder { rt, alloc, path })
    }

    fn path_of(&self, name: &str) -> Result<String, AllocError> {
        let mut path = String::from_str(self.alloc, self.path.as_str())?;
        path.push('/')?;
        path.push_str(name)?;
        Ok(path)
    }
}

impl Usage {
    // With one more file.
    fn and(self, bytes: u64) -> Usage {
        Usage {
            files: self.files.saturating_add(1),
            bytes: self.bytes.saturating_add(bytes),
        }
    }
}

// How long a file is, if its name ends so. One that someone has removed meanwhile counts for nothing.
fn length_of<R: Files>(entry: &DirEntry<R>, ending: &str) -> io::Result<Option<u64>> {
    if !entry.file_name().ends_with(ending) {
        return Ok(None);
    }
    match entry.metadata() {
        Ok(metadata) => Ok(Some(metadata.len())),
        Err(error) => {
            if error.kind() == ErrorKind::NotFound {
                return Ok(None);
            }
            Err(error)
        }
    }
}

impl<R: Files + AllocGlobal + Clone + Drop> Folder for FileFolder<R> {
    fn path(&self) -> &str {
        self.path.as_str()
    }

    fn write(&mut self, name: &str, bytes: &[u8]) -> io::Result<()> {
        let path = self.path_of(name)?;
        let mut file = fs::create(&self.rt, path.as_str())?;
        file.write_all(bytes)?;
        file.sync_data()
    }

    fn rename(&mut self, from: &str, to: &str) -> io::Result<()> {
        let from = self.path_of(from)?;
        let to = self.path_of(to)?;
        fs::rename(&self.rt, from.as_str(), to.as_str())
    }

    fn remove(&mut self, name: &str) -> io::Result<()> {
        let path = self.path_of(name)?;
        fs::remove_file(&self.rt, path.as_str())
    }

    fn measure(&self, ending: &str) -> io::Result<Usage> {
        let mut usage = Usage { files: 0, bytes: 0 };
        for entry in fs::read_dir(&self.rt, self.path.as_str())? {
            if let Some(length) = length_of(&entry?, ending)? {
                usage = usage.and(length);
            }
        }
        Ok(usage)
    }
}
