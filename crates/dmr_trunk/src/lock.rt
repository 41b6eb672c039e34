//! The lock on the folder for the program's state, so that one controller at a time keeps its records there.

use dmr_command::VERSION;
use std::fs::{File, TryLockError};
use std::io::Write;
use std::{fs, io};

/// Another program holds the lock.
#[derive(Clone, Copy, Debug, PartialEq, Eq)]
pub struct InUse;

/// The lock on a folder, if there is a folder: a file in it that is locked until the program ends. The file has the
/// version of the program that locked it last.
#[derive(Drop)]
pub struct FolderLock<'a> {
    rt: &'a HostRuntime,
    path: Option<&'a str>,
    file: Option<File>,
}

/// Makes or opens the file of a path. A folder, a device or a symbolic link is refused.
fn open_file(rt: &HostRuntime, path: &str) -> io::Result<File> {
    if let Ok(there) = fs::symlink_metadata(rt, path) {
        if !there.is_file() {
            return Err(io::Error::from(io::ErrorKind::AlreadyExists));
        }
    }
    File::options()
        .read(true)
        .write(true)
        .create(true)
        .open(rt, path)
}

/// Writes the version of the program as the only line of a file.
fn write_version(file: &mut File) -> io::Result<()> {
    file.set_len(0)?;
    writeln!(file, "dmr_trunk {VERSION}")
}

/// Locks a file. If it cannot be locked for another reason than that it is locked, the file is returned without a lock.
fn lock_file(file: &File) -> Result<Option<io::Error>, InUse> {
    match file.try_lock() {
        Ok(()) => Ok(None),
        Err(TryLockError::WouldBlock) => Err(InUse),
        Err(TryLockError::Error(error)) => Ok(Some(error)),
    }
}

impl<'a> FolderLock<'a> {
    /// The lock whose file has this path, which is not opened yet. Without a path nothing is locked.
    pub fn new(rt: &'a HostRuntime, path: Option<&'a str>) -> FolderLock<'a> {
        FolderLock {
            rt,
            path,
            file: None,
        }
    }

    /// Takes the lock, unless another program holds it. Returns why the folder is not locked, if its file cannot be
    /// opened or locked: the records are kept all the same.
    pub fn take(&mut self) -> Result<Option<io::Error>, InUse> {
        let Some(path) = self.path else {
            return Ok(None);
        };
        let mut file = match open_file(self.rt, path) {
            Ok(file) => file,
            Err(error) => return Ok(Some(error)),
        };
        let unlocked = lock_file(&file)?;
        // If the disk refuses the version, its readers do without it.
        let _ = write_version(&mut file);
        self.file = Some(file);
        Ok(unlocked)
    }
}
