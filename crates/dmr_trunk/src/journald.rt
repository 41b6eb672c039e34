//! Notes for systemd's journal: if standard error is a stream of it, a warning begins with its level.

ghost use Rattle.std.specs.Prelude.{Some, [], true};

use log::kv::Source;
use log::span::Spans;
use log::{Level, Line, Log, Metadata, Record};
use std::fmt::Display;
use std::os::unix::fs::MetadataExt;
use std::rt::{Env, Files};
use std::{env, fs};

/// The variable in which systemd says which stream is that of the journal: its device and its inode (systemd.exec(5)).
const STREAM: &str = "JOURNAL_STREAM";

/// Standard error, as a file.
const STANDARD_ERROR: &str = "/proc/self/fd/2";

/// The level of a warning at the beginning of a line, as the journal takes it (sd-daemon(3)). A line without a level is
/// at that of information.
const WARNING: &str = "<4>";

/// Whether a stream is the one with this device and this inode.
fn is_stream(stream: &str, device: u64, inode: u64) -> bool {
    match stream.split_once(':') {
        Some((first, second)) => {
            first.parse::<u64>() == Ok(device) && second.parse::<u64>() == Ok(inode)
        }
        None => false,
    }
}

/// Whether standard error is a stream of the journal. A program that such a service starts has the variable too, though
/// its standard error may be another one.
fn is_journal<R: AllocGlobal + Env + Files>(rt: &R) -> bool {
    let Ok(stream) = env::var(rt, STREAM) else {
        return false;
    };
    match fs::metadata(rt, STANDARD_ERROR) {
        Ok(error) => is_stream(stream.as_str(), error.dev(), error.ino()),
        Err(_) => false,
    }
}

/// Writes each note to standard error, as a line. For the journal a warning begins with its level.
#[derive(Clone, Copy, Debug, Drop)]
pub struct NoteLines<R> {
    rt: R,
    // Whether standard error is a stream of the journal.
    is_journal: bool,
}

impl<R: AllocGlobal + Env + Files> NoteLines<R> {
    /// Makes the lines of notes, by what standard error is.
    pub fn new(rt: R) -> NoteLines<R> {
        let is_journal = is_journal(&rt);
        NoteLines { rt, is_journal }
    }
}

impl<R: Eprint> Log for NoteLines<R> {
    ghost enables = { λ _ _ _. Some true };

    ghost target_of = { λ _. Some [] };

    fn enabled(&self, _metadata: &Metadata<'_>) -> bool {
        true
    }

    fn log<D: Display, K: Source, S: Spans>(&self, record: &Record<'_, D, K, S>) {
        let is_marked = self.is_journal && record.level() == Level::Warn;
        let mark = if is_marked { WARNING } else { "" };
        let line = Line::new(record);
        let _ = eprintln!(self.rt; "{mark}{line}");
    }

    fn flush(&self) {}

    fn target(&self) -> &str {
        ""
    }
}
