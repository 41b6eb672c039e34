//! Why a file of records cannot be used.

ghost use Rattle.std.specs.Prelude.{◌≡◌};
ghost use Rattle.dmr_records.specs.Faults.{fault_by_code as by_code, fault_of as fault_by_error};
ghost use Rattle.dmr_records.specs.Faults.{keep_fault_of as keep_fault};

use dmr_keeper::KeepFault;
use sqlite::{Error, ErrorCode};
use thiserror::Error;

/// Why a file of records cannot be used. After any of them, the file has the records that it had before, as far as the
/// disk returns what was written. Tables may have been made, or carried over.
#[derive(Clone, Copy, Debug, PartialEq, Eq, Error)]
pub enum FileFault {
    /// Memory ran out.
    #[error("out of memory")]
    OutOfMemory,
    /// The file cannot be opened or made. There is no such folder, or the folder or the file may not be written. Or the
    /// name is that of a symbolic link to nothing, or the file has a second name.
    #[error("cannot open the file")]
    CannotOpen,
    /// Another program has the file open. The same call may be made again.
    #[error("another program has the file open")]
    Locked,
    /// The file has tables of a newer version, this one: a later version of the site wrote it.
    #[error("the tables are of version {0}, which is newer than this program's")]
    Newer(i64),
    /// The file is not a database, or its tables are not those of records.
    #[error("not a file of records")]
    NotRecords,
    /// A part of the file is damaged: a page of the database, or a number that is not a radio's.
    #[error("the file is damaged")]
    Damaged,
    /// The disk is full.
    #[error("the disk is full")]
    Full,
    /// The disk failed or refused a read or a write.
    #[error("the disk failed or refused a read or a write")]
    NotTransferred,
}

/// The fault that a failure with this code means.
fn fault_by_code(code: ErrorCode) -> FileFault
    ensures { result ≡ by_code code }
{
    match code {
        ErrorCode::OutOfMemory => FileFault::OutOfMemory,
        ErrorCode::CannotOpen => FileFault::CannotOpen,
        ErrorCode::DatabaseBusy => FileFault::Locked,
        ErrorCode::DatabaseCorrupt => FileFault::Damaged,
        ErrorCode::DiskFull => FileFault::Full,
        ErrorCode::SystemIoFailure | ErrorCode::Closed => FileFault::NotTransferred,
        _ => FileFault::NotRecords,
    }
}

/// The fault that an error of the library means. A statement that is refused shows that the tables are others.
pub(crate) fn fault_of(error: Error) -> FileFault
    ensures { result ≡ fault_by_error error }
{
    match error {
        Error::SqliteFailure(code) => fault_by_code(code),
        _ => FileFault::NotRecords,
    }
}

/// The fault that a [`Keeper`](dmr_keeper::Keeper) reports for this one.
pub fn keep_fault_of(fault: FileFault) -> KeepFault
    ensures { result ≡ keep_fault fault }
{
    match fault {
        FileFault::OutOfMemory => KeepFault::OutOfMemory,
        FileFault::CannotOpen => KeepFault::CannotOpen,
        FileFault::Locked => KeepFault::InUse,
        FileFault::Newer(_) => KeepFault::Newer,
        FileFault::NotRecords => KeepFault::NotRecords,
        FileFault::Damaged => KeepFault::Damaged,
        FileFault::Full => KeepFault::Full,
        FileFault::NotTransferred => KeepFault::NotTransferred,
    }
}
