//! The site controller of a DMR Tier III trunked radio site.
//!
//! `dmr_trunk --site FILE --script FILE` replays a script over the site of a site file, and prints the octets written
//! for each carrier. `dmr_trunk --site FILE --serve` serves the site over TCP.
//!
//! `dmr_command` reads the words, and `files` reads the files. `dmr_replay` runs a script's inputs through the engine
//! of `dmr_link`. `opening` opens a port of `dmr_port` for each carrier and for operators, over `mio_sockets`. It also
//! opens the `pacer` for the ticks: `beat` decides when one is due, and `clock` reads the time. `serve` opens the rest.
//! `row` runs terms of `dmr_desk`, and `wakers` end their waits when a term is over. `notes` writes the log: `port_watch`
//! has the notes of a port, and `term_log` those of terms. `ends` counts what happens at the ports.
//!
//! If the environment names a folder for the program's state, records are kept there in a file of `dmr_records`.
//! `recorded` makes those of each term. `keeping` hands them to the store while terms go on. `restart` reads which
//! radios were registered. `store` and this module alone name the database. `lock` keeps other controllers out of the
//! folder.
//!
//! If the environment names a file for a recording, each term's journal is appended to it, as lines of `dmr_recording`.
//! `scripted` is the observer that does so, and `script` is the file.
//!
//! Notes go to standard error, and `journald` marks warnings if that is systemd's journal.
#![tactic(auto)]

mod beat;
mod clock;
mod ends;
mod files;
mod holding;
mod journald;
mod keeping;
mod lock;
mod mio_sockets;
mod not_served;
mod notes;
mod opening;
mod pacer;
mod port_watch;
mod recorded;
mod restart;
mod row;
mod script;
mod scripted;
mod serve;
mod serving;
mod store;
mod term_log;
mod wakers;

ghost use Rattle.std.specs.Prelude.{◌≡◌, IfOk, map, string_bytes};
ghost use Rattle.dmr_trunk.specs.Replay.{AreReplayed, HasPlan, IsJobDone, IsReplayed};
ghost use Rattle.dmr_trunk.specs.Replay.{IsReplayedBySome, IsStatus};

use crate::files::{FileSource, ReadFault, SITE_OCTETS, SystemFiles, slice_of};
use crate::journald::NoteLines;
use crate::lock::FolderLock;
use crate::script::{MOST_OCTETS, RecordingFile, Script, recording_path};
use crate::serving::serve_file;
use crate::store::{Kept, LOCK, RECORDS, Store, Stored, path_in_folder};
use dmr_command::{Job, choose, report_out_of_memory, report_refused_words};
use dmr_pdu::OutOfMemory;
use dmr_records::{Reach, RecordsIn, RecordsPath};
use dmr_replay::{FAULT, replay};
use log::{Level, Log, Logged};
use sqlite::{Alter, Connection, File, FileStore};
use std::alloc::Global;
use std::io::Write;
use std::net::Net;
use std::process::ExitCode;
use std::rt::Env;
use std::sync::Wait;
use std::thread::Threads;
use std::time::Clock;
use std::{env, io};

/// The words as texts.
fn texts_of(alloc: Global, words: &[String]) -> Result<Vec<&str>, OutOfMemory>
    ensures { IfOk result
        (λ texts. map (λ text. text.now) texts.items ≡ map string_bytes words.now) }
{
    let mut texts = Vec::new(alloc);
    for word in words {
        texts.push(word.as_str())?;
    }
    Ok(texts)
}

/// Writes that a file has more octets than it may have, and returns the status.
fn report_long<E: Write>(err: &mut E, path: &str, most: u64) -> u8
    ensures { result ≡ FAULT }
{
    let size = most >> 20;
    let _ = writeln!(err, "dmr_trunk: {path} has more than {size} MiB");
    FAULT
}

/// Replays the script at one path over the site file at another, and returns the exit status.
fn replay_files<S: FileSource, W: Write, E: Write>(
    alloc: Global,
    files: &S,
    site: &str,
    script: &str,
    out: &mut W,
    err: &mut E,
) -> Result<u8, OutOfMemory>
    ensures status { IfOk result IsStatus }
    // At status 0 the files that the source gave for the two paths yield a text, and `out` received all of it.
    ensures ok { IfOk result (λ status. status ≡ 0
        → AreReplayed (S.gave files.now) site.now script.now (W.contents out.old)
        (W.contents out.new)) }
{
    let site_octets = match files.octets_of(site, SITE_OCTETS) {
        Ok(octets) => octets,
        Err(ReadFault::Long) => return Ok(report_long(err, site, SITE_OCTETS)),
        Err(ReadFault::OutOfMemory) => return Err(OutOfMemory),
    };
    let script_octets = match files.octets_of(script, MOST_OCTETS) {
        Ok(octets) => octets,
        Err(ReadFault::Long) => return Ok(report_long(err, script, MOST_OCTETS)),
        Err(ReadFault::OutOfMemory) => return Err(OutOfMemory),
    };
    Ok(replay(
        alloc,
        site,
        slice_of(&site_octets),
        script,
        slice_of(&script_octets),
        out,
        err,
    ))
}

/// Serves the site of the site file at a path, and returns the exit status. It prints nothing to standard output.
fn serve_path<R, S, K, F, E>(
    rt: &R,
    alloc: Global,
    files: &S,
    site: &str,
    terms: u32,
    kept: Kept<'_, K, F>,
    err: &mut E,
) -> Result<u8, OutOfMemory>
where
    R: Net + Log + Clock + Wait + Threads + Sync,
    S: FileSource,
    K: Store + Send + Drop,
    F: Script + Drop,
    E: Write,
    ensures status { IfOk result IsStatus }
    // At status 0 the file that the source gave for the path has a plan.
    ensures ok { IfOk result (λ status. status ≡ 0 → HasPlan (S.gave files.now) site.now) }
{
    let site_octets = match files.octets_of(site, SITE_OCTETS) {
        Ok(octets) => octets,
        Err(ReadFault::Long) => return Ok(report_long(err, site, SITE_OCTETS)),
        Err(ReadFault::OutOfMemory) => return Err(OutOfMemory),
    };
    let site_octets = slice_of(&site_octets);
    Ok(serve_file(rt, alloc, site, site_octets, terms, kept, err))
}

/// Does a job with the files of a source, and returns the exit status.
fn do_job<R, S, K, F, W, E>(
    rt: &R,
    alloc: Global,
    files: &S,
    job: Job<'_>,
    kept: Kept<'_, K, F>,
    out: &mut W,
    err: &mut E,
) -> Result<u8, OutOfMemory>
where
    R: Net + Log + Clock + Wait + Threads + Sync,
    S: FileSource,
    K: Store + Send + Drop,
    F: Script + Drop,
    W: Write,
    E: Write,
    ensures status { IfOk result IsStatus }
    ensures ok { IfOk result (λ status. status ≡ 0
        → IsJobDone (S.gave files.now) job.entry (W.contents out.old) (W.contents out.new)) }
{
    match job {
        Job::Script { site, script } => replay_files(alloc, files, site, script, out, err),
        Job::Serve { site, terms } => serve_path(rt, alloc, files, site, terms, kept, err),
    }
}

/// Does the job that the words ask for, with the files of a source, and returns the exit status.
fn run_words<R, S, K, F, W, E>(
    rt: &R,
    alloc: Global,
    files: &S,
    words: &[String],
    kept: Kept<'_, K, F>,
    out: &mut W,
    err: &mut E,
) -> Result<u8, OutOfMemory>
where
    R: Net + Log + Clock + Wait + Threads + Sync,
    S: FileSource,
    K: Store + Send + Drop,
    F: Script + Drop,
    W: Write,
    E: Write,
    ensures status { IfOk result IsStatus }
    // At status 0 the words ask for a job. A script was replayed over its site, and `out` received the text. Or the
    // site file to serve has a plan, and nothing was printed.
    ensures ok { IfOk result (λ status. status ≡ 0
        → IsReplayed (S.gave files.now) (map string_bytes words.now) (W.contents out.old)
        (W.contents out.new)) }
{
    let texts = texts_of(alloc, words)?;
    match choose(alloc, texts.as_slice(), err) {
        Ok(job) => do_job(rt, alloc, files, job, kept, out, err),
        Err(status) => Ok(status),
    }
}

/// Reads the words, does the job that they ask for, and returns the exit status.
fn run_program<R, S, K, F, W, E>(
    rt: &R,
    files: &S,
    kept: Kept<'_, K, F>,
    out: &mut W,
    err: &mut E,
) -> u8
where
    R: AllocGlobal + Env + Net + Log + Clock + Wait + Threads + Sync,
    S: FileSource,
    K: Store + Send + Drop,
    F: Script + Drop,
    W: Write,
    E: Write,
    ensures status { IsStatus result }
    // The same at status 0, for some words.
    ensures ok { result ≡ 0
        → IsReplayedBySome (S.gave files.now) (W.contents out.old) (W.contents out.new) }
{
    let words = match env::args(rt) {
        Ok(words) => words,
        Err(error) => {
            if error.kind() == io::ErrorKind::OutOfMemory {
                return report_out_of_memory(err);
            }
            return report_refused_words(
                err,
                "error: invalid UTF-8 was detected in one or more arguments",
            );
        }
    };
    let Ok(words) = words.collect::<Vec<String>>(rt.alloc()) else {
        return report_out_of_memory(err);
    };
    match run_words(rt, rt.alloc(), files, words.as_slice(), kept, out, err) {
        Ok(status) => status,
        Err(OutOfMemory) => report_out_of_memory(err),
    }
}

/// The way to the file of records at a path, which is not opened yet.
fn way_to<'a>(rt: &'a HostRuntime, path: &'a Stored<String>) -> Stored<RecordsPath<'a>> {
    match path {
        Stored::Nowhere => Stored::Nowhere,
        Stored::In(path) => Stored::In(RecordsPath::new(rt, path.as_str())),
        Stored::NotText => Stored::NotText,
    }
}

/// Does what [`run_program`] does, with records in a database that is reached so.
fn run_over<R, A, S, D, F, W, E>(
    rt: &R,
    files: &A,
    records: Stored<D>,
    recording: Stored<F>,
    lock: FolderLock<'_>,
    out: &mut W,
    err: &mut E,
) -> u8
where
    R: AllocGlobal + Env + Net + Log + Clock + Wait + Threads + Sync,
    A: FileSource,
    S: Alter + Send + Drop,
    D: Reach<Connection<S>> + Send + Drop,
    F: Script + Drop,
    W: Write,
    E: Write,
    ensures status { IsStatus result }
    ensures ok { result ≡ 0
        → IsReplayedBySome (A.gave files.now) (W.contents out.old) (W.contents out.new) }
{
    let records = match records {
        Stored::Nowhere => Stored::Nowhere,
        Stored::In(way) => Stored::In(RecordsIn::<S, D>::new(way)),
        Stored::NotText => Stored::NotText,
    };
    let kept = Kept {
        records,
        recording,
        lock,
    };
    run_program(rt, files, kept, out, err)
}

/// The recording at a path, whose file is not made yet.
fn recording_at<'a>(rt: &'a HostRuntime, path: &'a Stored<String>) -> Stored<RecordingFile<'a>> {
    match path {
        Stored::Nowhere => Stored::Nowhere,
        Stored::In(path) => Stored::In(RecordingFile::new(rt, path.as_str())),
        Stored::NotText => Stored::NotText,
    }
}

/// The lock whose file has this path, which is not taken yet.
fn lock_at<'a>(rt: &'a HostRuntime, path: &'a Stored<String>) -> FolderLock<'a> {
    match path {
        Stored::In(path) => FolderLock::new(rt, Some(path.as_str())),
        Stored::Nowhere | Stored::NotText => FolderLock::new(rt, None),
    }
}

/// Does what [`run_over`] does, with records in a file of the host. It is generic in all else: to prove at once that all
/// types of the program fit takes more steps than the prover has.
fn run_in_file<R, A, F, W, E>(
    rt: &R,
    files: &A,
    records: Stored<RecordsPath<'_>>,
    recording: Stored<F>,
    lock: FolderLock<'_>,
    out: &mut W,
    err: &mut E,
) -> u8
where
    R: AllocGlobal + Env + Net + Log + Clock + Wait + Threads + Sync,
    A: FileSource,
    F: Script + Drop,
    W: Write,
    E: Write,
{
    run_over::<R, A, FileStore<File>, _, F, W, E>(rt, files, records, recording, lock, out, err)
}

/// Does what [`run_program`] does, with the files of the host, and returns the exit status. It is generic in the runtime
/// that has the log, for the same reason.
fn run_on<R>(rt: &R, host: &HostRuntime) -> u8
where
    R: AllocGlobal + Env + Net + Log + Clock + Wait + Threads + Sync,
{
    let mut out = host.stdout();
    let mut err = host.stderr();
    let files = SystemFiles::new(host);
    let Ok(path) = path_in_folder(host, RECORDS) else {
        return report_out_of_memory(&mut err);
    };
    let Ok(lock) = path_in_folder(host, LOCK) else {
        return report_out_of_memory(&mut err);
    };
    let Ok(recording) = recording_path(host) else {
        return report_out_of_memory(&mut err);
    };
    let records = way_to(host, &path);
    let recording = recording_at(host, &recording);
    let lock = lock_at(host, &lock);
    run_in_file(rt, &files, records, recording, lock, &mut out, &mut err)
}

fn main(rt: HostRuntime) -> ExitCode {
    let logged = Logged::new(rt, Level::Info, NoteLines::new(rt));
    ExitCode::from(run_on(&logged, &rt))
}
