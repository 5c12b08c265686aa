//! A folder of files, as a spool needs it.
ghost use Rattle.std.specs.Prelude.{is_ok, IfOk};
ghost use Rattle.sentry_writers.specs.Folders.{FolderCall, write_call, rename_call, remove_call};

mod file_folder;
mod folder_error;

pub use file_folder::FileFolder;
pub use folder_error::FolderError;
use std::io;

/// How many files there are, and how many bytes they have together.
#[derive(Clone, Copy, Debug, PartialEq, Eq)]
pub struct Usage {
    pub files: u64,
    pub bytes: u64,
}

/// A folder of files. A name is that of a file in the folder itself.
pub trait Folder {
    ghost use Rattle.sentry_plain.specs.Texts.{Bytes};
    ghost use Rattle.sentry_writers.specs.declared.folder.Usage.{Usage};

    // Relates the folder before a call, the call, and the folder after it. The default says nothing.
    ghost does: { Self → FolderCall → Self → Type 0 } = { λ _ _ _. Unit {0} };

    // Relates a folder, an ending, and what the files take whose names end so. The default says nothing.
    ghost has: { Self → Bytes → Usage → Type 0 } = { λ _ _ _. Unit {0} };

    /// What errors call it: its path.
    fn path(&self) -> &str;

    /// Makes a file of these bytes, in place of one that has the name already. After an error a file of this name may be
    /// there, with some of the bytes.
    fn write(&mut self, name: &str, bytes: &[u8]) -> io::Result<()>
        ensures { does self.old (write_call name.now bytes.now (is_ok result)) self.new };

    /// Gives a file another name, in one step: whoever looks finds it by the one name or by the other. After an error it
    /// has its old name.
    fn rename(&mut self, from: &str, to: &str) -> io::Result<()>
        ensures { does self.old (rename_call from.now to.now (is_ok result)) self.new };

    /// Removes a file.
    fn remove(&mut self, name: &str) -> io::Result<()>
        ensures { does self.old (remove_call name.now (is_ok result)) self.new };

    /// What the files take whose names end so.
    fn measure(&self, ending: &str) -> io::Result<Usage>
        ensures { IfOk result (λ usage. has self.now ending.now usage) };
}
