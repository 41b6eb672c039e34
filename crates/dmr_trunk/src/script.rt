//! The script to which a site is recorded: a new file, if the environment names one.

ghost use Rattle.std.specs.Prelude.{◌≡◌, ℕ, List, [], Option, None, true, IfErr, OnErr, OnOk};
ghost use Rattle.dmr_trunk.specs.declared.script.ScriptFileFault.{ScriptFileFault as AFault};
ghost use Rattle.dmr_trunk.specs.Scripts.{Appends, MayRefuse, is_of_disk, is_of_making};

use crate::store::Stored;
use dmr_pdu::OutOfMemory;
use std::env::VarError;
use std::fs::File;
use std::io::Write;
use std::os::unix::fs::MetadataExt;
use std::rt::Env;
use std::{env, io};
use thiserror::Error;

/// The variable that names the file of a recording.
pub const RECORD: &str = "DMR_TRUNK_RECORD";

/// The most octets of a recording: 1 GiB.
pub const MOST_OCTETS: u64 = 1 << 30;

/// Why lines were not appended to a recording. The texts are those of a note for the operator.
#[derive(Clone, Copy, Debug, PartialEq, Eq, Error)]
pub enum ScriptFileFault {
    /// There is such a file already. Nothing is written to it.
    #[error("there is such a file already")]
    Exists,
    /// The file cannot be made.
    #[error("cannot make the file")]
    CannotMake,
    /// The recording would have more than [`MOST_OCTETS`].
    #[error("it has 1 GiB")]
    Long,
    /// The disk has no room left.
    #[error("the disk is full")]
    Full,
    /// The disk failed or refused a write.
    #[error("the disk failed or refused a write")]
    NotWritten,
    /// The file was removed. What is written to it would be lost when the program ends.
    #[error("the file was removed")]
    Removed,
}

/// A script to which lines are appended.
pub trait Script {
    /// If the script reports it: all octets that were appended, in their order. It may stop reporting at any call, and
    /// then never reports again.
    ghost appended: { Self → Option (List ℕ) };

    /// What holds if the script refuses these lines with this fault.
    ghost refuses: { Self → List ℕ → AFault → Type 0 };

    /// Appends lines. On an error a script that reports has appended none of them.
    fn append(&mut self, lines: &str) -> Result<(), ScriptFileFault>
        ensures appended { OnOk result (Appends (appended self.old) lines.now (appended self.new)) }
        ensures same { OnErr result (Appends (appended self.old) [] (appended self.new)) }
        ensures refused { IfErr result (λ fault. refuses self.old lines.now fault) };
}

/// A recording in a file. The first call that is not too long makes the file, which must not exist then. A failed write
/// closes it; later calls are then refused, since it exists.
#[derive(Drop)]
pub struct RecordingFile<'a> {
    rt: &'a HostRuntime,
    path: &'a str,
    file: Option<File>,
    octets: u64,
}

impl<'a> RecordingFile<'a> {
    /// A recording at a path. It makes no file yet.
    pub fn new(rt: &'a HostRuntime, path: &'a str) -> RecordingFile<'a> {
        RecordingFile {
            rt,
            path,
            file: None,
            octets: 0,
        }
    }
}

/// Makes the file of a path. It must not exist.
fn make_file(rt: &HostRuntime, path: &str) -> Result<File, ScriptFileFault>
    ensures { IfErr result (λ fault. is_of_making fault ≡ true) }
{
    match File::create_new(rt, path) {
        Ok(file) => Ok(file),
        Err(error) => Err(match error.kind() {
            io::ErrorKind::AlreadyExists => ScriptFileFault::Exists,
            _ => ScriptFileFault::CannotMake,
        }),
    }
}

/// Whether no folder has a name of the file any more.
fn is_removed(file: &File) -> bool {
    match file.metadata() {
        Ok(state) => state.nlink() == 0,
        Err(_) => false,
    }
}

/// Writes lines at the end of a file that has this many octets, unless the file was removed. If not all can be written,
/// the file is cut back to that length. If that fails too, a first part of the lines stays in it.
fn write_lines(file: &mut File, octets: u64, lines: &str) -> Result<(), ScriptFileFault>
    ensures { IfErr result (λ fault. is_of_disk fault ≡ true) }
{
    if is_removed(file) {
        return Err(ScriptFileFault::Removed);
    }
    match file.write_all(lines.as_bytes()) {
        Ok(()) => Ok(()),
        Err(error) => {
            let _ = file.set_len(octets);
            Err(match error.kind() {
                io::ErrorKind::StorageFull => ScriptFileFault::Full,
                _ => ScriptFileFault::NotWritten,
            })
        }
    }
}

/// The file does not report what was appended, since other programs may write it too.
impl Script for RecordingFile<'_> {
    ghost appended = { λ file. None };

    ghost refuses = { λ file lines fault. MayRefuse file lines fault };

    fn append(&mut self, lines: &str) -> Result<(), ScriptFileFault> {
        let octets = self.octets.saturating_add(lines.len() as u64);
        if octets > MOST_OCTETS {
            return Err(ScriptFileFault::Long);
        }
        let mut file = match self.file.take() {
            Some(file) => file,
            None => make_file(self.rt, self.path)?,
        };
        write_lines(&mut file, self.octets, lines)?;
        self.file = Some(file);
        self.octets = octets;
        Ok(())
    }
}

/// Reads the path of the file of a recording. Nothing is recorded if the variable `DMR_TRUNK_RECORD` is not set or
/// empty. `NotText`: its value is not UTF-8.
pub fn recording_path<R: AllocGlobal + Env>(rt: &R) -> Result<Stored<String>, OutOfMemory> {
    match env::var(rt, RECORD) {
        Ok(path) if path.is_empty() => Ok(Stored::Nowhere),
        Ok(path) => Ok(Stored::In(path)),
        Err(VarError::NotPresent) => Ok(Stored::Nowhere),
        Err(VarError::NotUnicode) => Ok(Stored::NotText),
        Err(VarError::OutOfMemory) => Err(OutOfMemory),
    }
}
